//! What a name may be.

ghost use Rattle.std.specs.Prelude.{◌≡◌, IfOk};
ghost use Rattle.std.specs.Bool.{OnTrue};
ghost use Rattle.model_verdicts.specs.Fronts.{is_one_name, IsName, front_of};

use explain_tokens::placed;
use pml_lex::fault::LexError;
use pml_token::token::{Kind, Token, same_kind};
use std::alloc::{AllocError, Global};

/// Whether one token is all of a text, and a name.
fn is_one_name(text: &[u8], tokens: &[Token<'_>]) -> bool
    ensures { result ≡ is_one_name text.now tokens.now }
{
    match tokens {
        [token] => same_kind(token.kind(), Kind::Name) && token.text() == text,
        _ => false,
    }
}

/// Whether a text is a name and nothing else.
pub fn is_name(alloc: Global, text: &[u8]) -> Result<bool, AllocError>
    ensures { IfOk result (λ b. OnTrue b (IsName text.now)) }
{
    match placed(alloc, text) {
        Ok(tokens) => Ok(is_one_name(text, &tokens)),
        Err(LexError::Memory) => Err(AllocError),
        Err(_) => Ok(false),
    }
}

/// Which meaning of its own a label has by how it begins.
#[derive(Clone, Copy, Debug, PartialEq, Eq)]
pub enum LabelPrefix {
    End,
    Progress,
    Accept,
    Plain,
}

/// How a label begins.
pub fn front_of(name: &[u8]) -> LabelPrefix
    ensures { result ≡ front_of name.now }
{
    if name.starts_with(b"end") {
        LabelPrefix::End
    } else if name.starts_with(b"progress") {
        LabelPrefix::Progress
    } else if name.starts_with(b"accept") {
        LabelPrefix::Accept
    } else {
        LabelPrefix::Plain
    }
}
