//! The definition of what is called, by tokens, and the parts of a text in which its parameters are declared.

ghost use Rattle.std.specs.Prelude.{◌≡◌, ◌++◌, None, take, drop, IfOk, OnOk};
ghost use Rattle.text_parts.specs.Definitions.{word_of, is_named, definition, count_before, end_of, behind_parameters, up_to, heading, separates, grown, listed, parts, parameters};

use crate::calls::PartialCall;
use pml_token::token::{Kind, Token, same_kind};
use std::alloc::{AllocError, Global};

/// A part of a text, from one byte up to another.
#[derive(Clone, Copy, Debug, PartialEq, Eq)]
pub struct TextPart {
    pub from: usize,
    pub to: usize,
}

/// The word with which the definition begins of what is called.
fn word_of(call: PartialCall) -> Kind
    ensures { result ≡ word_of call }
{
    if call.is_run {
        Kind::Proctype
    } else {
        Kind::Inline
    }
}

/// So many tokens from the front.
fn front<'s, 'a>(tokens: &'s [Token<'a>], count: usize) -> &'s [Token<'a>]
    ensures { result.now ≡ take count tokens.now }
{
    if count < tokens.len() {
        &tokens[..count]
    } else {
        tokens
    }
}

/// The tokens behind so many others.
fn behind<'s, 'a>(tokens: &'s [Token<'a>], count: usize) -> &'s [Token<'a>]
    ensures { result.now ≡ drop count tokens.now }
{
    if count < tokens.len() {
        &tokens[count..]
    } else {
        &tokens[..0]
    }
}

/// Whether tokens begin with this name and a `(`.
fn is_named(name: &[u8], tokens: &[Token<'_>]) -> bool
    ensures { result ≡ is_named name.now tokens.now }
{
    match tokens {
        [first, second, ..] => { first.text() == name && same_kind(second.kind(), Kind::OpenParen) }
        _ => false,
    }
}

/// The tokens from the first definition of what is called on: none, if there is no definition of this name.
pub fn definition<'s, 'a>(
    tokens: &'s [Token<'a>],
    name: &[u8],
    call: PartialCall,
) -> &'s [Token<'a>]
    ensures { result.now ≡ definition (word_of call) name.now tokens.now }
{
    let word = word_of(call);
    for (i, token) in tokens.iter().enumerate() {
        if same_kind(token.kind(), word) && is_named(name, behind(tokens, i + 1)) {
            return behind(tokens, i);
        }
    }
    behind(tokens, tokens.len())
}

/// How many tokens stand before the first `)`.
fn count_before(tokens: &[Token<'_>]) -> usize
    ensures { result ≡ count_before tokens.now }
{
    for (i, token) in tokens.iter().enumerate() {
        if same_kind(token.kind(), Kind::CloseParen) {
            return i;
        }
    }
    tokens.len()
}

/// Where a token ends.
fn end_of(token: &Token<'_>) -> usize
    ensures { result ≡ end_of token.now }
{
    token.line() as usize + token.text().len()
}

/// Of a definition that begins these tokens, those from the `)` behind its parameters on.
fn behind_parameters<'s, 'a>(tokens: &'s [Token<'a>]) -> &'s [Token<'a>]
    ensures { result.now ≡ behind_parameters tokens.now }
{
    let inner = behind(tokens, 3);
    behind(inner, count_before(inner))
}

/// The part of a text from a token up to the end of the first of others, if there are some.
fn up_to(token: &Token<'_>, rest: &[Token<'_>]) -> Option<TextPart>
    ensures { result ≡ up_to token.now rest.now }
{
    match rest {
        [last, ..] => Some(TextPart {
            from: token.line() as usize,
            to: end_of(last),
        }),
        [] => None,
    }
}

/// The heading of a definition that begins these tokens, from its word up to the `)` behind its parameters.
pub fn heading(tokens: &[Token<'_>]) -> Option<TextPart>
    ensures { result ≡ heading tokens.now }
{
    match tokens {
        [first, ..] => up_to(first, behind_parameters(tokens)),
        [] => None,
    }
}

/// Whether this stands between parameters.
fn separates(kind: Kind) -> bool
    ensures { result ≡ separates kind }
{
    same_kind(kind, Kind::Comma) || same_kind(kind, Kind::Semicolon)
}

/// A part with one more token.
fn grown(part: Option<TextPart>, token: &Token<'_>) -> TextPart
    ensures { result ≡ grown part token.now }
{
    let to = end_of(token);
    match part {
        Some(part) => TextPart {
            from: part.from,
            to,
        },
        None => TextPart {
            from: token.line() as usize,
            to,
        },
    }
}

/// Adds a part, if there is one.
fn add_part(out: &mut Vec<TextPart>, part: Option<TextPart>) -> Result<(), AllocError>
    ensures { OnOk result (out.new.items ≡ out.old.items ++ listed part) }
{
    if let Some(part) = part {
        out.push(part)?;
    }
    Ok(())
}

/// The parts that tokens have between what separates them.
fn parts_of(alloc: Global, tokens: &[Token<'_>]) -> Result<Vec<TextPart>, AllocError>
    ensures { IfOk result (λ ps. ps.items ≡ parts None tokens.now) }
{
    let mut out = Vec::new(alloc);
    let mut part = None;
    for token in tokens {
        if separates(token.kind()) {
            add_part(&mut out, part)?;
            part = None;
        } else {
            part = Some(grown(part, token));
        }
    }
    add_part(&mut out, part)?;
    Ok(out)
}

/// The parts of a text in which the parameters are declared of a definition that begins these tokens.
pub fn parameters(alloc: Global, tokens: &[Token<'_>]) -> Result<Vec<TextPart>, AllocError>
    ensures { IfOk result (λ ps. ps.items ≡ parameters tokens.now) }
{
    let inner = behind(tokens, 3);
    parts_of(alloc, front(inner, count_before(inner)))
}
