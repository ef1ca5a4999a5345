//! Tokens in a row.

ghost use Rattle.std.specs.Prelude.{◌≡◌, IfOk};

use crate::room::room_for;
use pml_token::token::Token;
use sqlite_items::{Boxed, Items};
use std::alloc::{AllocError, Global};
use std::marker::Model;

/// Some tokens in a row, which contracts see as their list: a part of the text's tokens, or, of a statement that the text has
/// not as it stands, a list of its own.
#[derive(Debug, Drop)]
pub struct Tokens<'a> {
    written: &'a [Token<'a>],
    made: Option<Boxed<Items<Token<'a>>>>,
}

impl<'a> Model for Tokens<'a> {
    ghost use Rattle.std.specs.Prelude.{List, unwrap_or};
    ghost use Rattle.pml_token.specs.Word.{Word};

    ghost Value = { List Word };

    ghost view = { λ t. unwrap_or t.made t.written.now };
}

impl<'a> Tokens<'a> {
    /// These tokens of the text.
    pub fn new(tokens: &'a [Token<'a>]) -> Tokens<'a>
        ensures { result ≡ tokens.now }
    {
        Tokens {
            written: tokens,
            made: None,
        }
    }

    /// Tokens that do not stand in a row in the text.
    pub fn made(alloc: Global, tokens: Items<Token<'a>>) -> Result<Tokens<'a>, AllocError>
        ensures { IfOk result (λ t. t ≡ tokens.entry) }
    {
        Ok(Tokens {
            written: &[],
            made: Some(Boxed::new(alloc, tokens)?),
        })
    }

    /// The tokens, one after another.
    pub fn as_slice(&self) -> &[Token<'a>]
        ensures { result.now ≡ self.now }
    {
        match &self.made {
            Some(made) => made.get().as_slice(),
            None => self.written,
        }
    }

    /// The same tokens again.
    pub fn copied(&self, alloc: Global) -> Result<Tokens<'a>, AllocError>
        ensures { IfOk result (λ t. t ≡ self.now) }
    {
        match &self.made {
            Some(made) => {
                let tokens = copies(alloc, made.get().as_slice())?;
                Tokens::made(alloc, tokens)
            }
            None => Ok(Tokens::new(self.written)),
        }
    }
}

/// The same tokens, in a list of their own.
fn copies<'a>(alloc: Global, tokens: &[Token<'a>]) -> Result<Items<Token<'a>>, AllocError>
    ensures { IfOk result (λ ts. ts ≡ tokens.now) }
{
    let mut found = room_for(alloc, tokens.len())?;
    for token in tokens {
        found.push(token.copied())?;
    }
    Ok(found)
}
