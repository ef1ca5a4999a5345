//! How far tokens are read, as they stand or with a change.

ghost use Rattle.std.specs.Prelude.{◌≡◌, IfSome, Some, true};
ghost use Rattle.explain_cause.specs.Places.{index_at as first_there};
ghost use Rattle.explain_syntax.specs.Beside.{passes};

use explain_cause::place::{between, from, index_at};
use pml_syntax::{SyntaxError, parse};
use pml_token::token::{Kind, Token};
use std::alloc::{AllocError, Global};

/// A change of one token.
#[derive(Clone, Copy)]
pub enum Repair {
    /// A token is put in front of it.
    Insert(Kind, &'static [u8]),
    /// It is another one.
    Replace(Kind, &'static [u8]),
    /// It is left out.
    Remove,
}

/// Adds a token with its number in the list in place of its line.
fn add<'t>(kind: Kind, text: &'t [u8], list: &mut Vec<Token<'t>>) -> Result<(), AllocError> {
    let number = u32::try_from(list.len()).unwrap_or(u32::MAX);
    list.push(Token::new(kind, text, number))?;
    Ok(())
}

/// The tokens, each with its number in place of its line.
fn numbered<'t>(alloc: Global, tokens: &[Token<'t>]) -> Result<Vec<Token<'t>>, AllocError> {
    let mut list = Vec::with_capacity(alloc, tokens.len())?;
    for token in tokens {
        add(token.kind(), token.text(), &mut list)?;
    }
    Ok(list)
}

/// Adds what stands in place of the token that is changed.
fn add_changed<'t>(
    token: &Token<'t>,
    change: Repair,
    list: &mut Vec<Token<'t>>,
) -> Result<(), AllocError> {
    match change {
        Repair::Insert(kind, text) => {
            add(kind, text, list)?;
            add(token.kind(), token.text(), list)
        }
        Repair::Replace(kind, text) => add(kind, text, list),
        Repair::Remove => Ok(()),
    }
}

/// The tokens with a change of the one at `at`.
fn changed<'t>(
    alloc: Global,
    tokens: &[Token<'t>],
    at: usize,
    change: Repair,
) -> Result<Vec<Token<'t>>, AllocError> {
    let mut list = Vec::with_capacity(alloc, tokens.len().saturating_add(1))?;
    for (i, token) in tokens.iter().enumerate() {
        if i == at {
            add_changed(token, change, &mut list)?;
        } else {
            add(token.kind(), token.text(), &mut list)?;
        }
    }
    Ok(list)
}

/// The number of the token that no rule reads, or of the last one, where no tree spells these.
fn stop_of<'a>(alloc: Global, numbered: &'a [Token<'a>]) -> Result<Option<usize>, AllocError> {
    match parse(alloc, numbered) {
        Ok(_) => Ok(None),
        Err(SyntaxError::Syntax(number)) => Ok(Some(number as usize)),
        Err(SyntaxError::Memory) => Err(AllocError),
    }
}

/// The place of the only token with this line; none where no token has it, or more than one.
fn only_of_line(tokens: &[Token<'_>], line: u32) -> Option<usize>
    ensures { IfSome result (λ at. first_there line tokens.now ≡ Some at) }
{
    let offset = line as usize;
    let at = index_at(tokens, offset)?;
    match index_at(from(tokens, at.saturating_add(1)), offset) {
        Some(_) => None,
        None => Some(at),
    }
}

/// The token that no rule reads, or the last one, where no tree spells the tokens; `line` is its line, which tokens of an inline share.
pub fn stop(alloc: Global, tokens: &[Token<'_>], line: u32) -> Result<Option<usize>, AllocError> {
    match only_of_line(tokens, line) {
        Some(at) => Ok(Some(at)),
        None => {
            let list = numbered(alloc, tokens)?;
            stop_of(alloc, &list)
        }
    }
}

/// Whether the tokens are read past a place, where this is the one that no rule reads.
fn is_behind(stop: Option<usize>, aim: usize) -> bool
    ensures { result ≡ passes stop aim }
{
    match stop {
        None => true,
        Some(place) => place > aim,
    }
}

/// Whether the tokens are read on, past the one at `at`, with a change of it.
pub fn reads_on(
    alloc: Global,
    tokens: &[Token<'_>],
    at: usize,
    change: Repair,
) -> Result<bool, AllocError> {
    let list = changed(alloc, tokens, at, change)?;
    let place = stop_of(alloc, &list)?;
    let aim = match change {
        Repair::Insert(_, _) => at.saturating_add(1),
        _ => at,
    };
    Ok(is_behind(place, aim))
}

/// Whether a token of this kind may stand in front of the one at `at`: it is read there, whatever may be behind it.
pub fn may_stand(
    alloc: Global,
    tokens: &[Token<'_>],
    at: usize,
    kind: Kind,
    text: &'static [u8],
) -> Result<bool, AllocError> {
    let front = between(tokens, 0, at.saturating_add(1));
    let list = changed(alloc, front, at, Repair::Insert(kind, text))?;
    let place = stop_of(alloc, &list)?;
    Ok(is_behind(place, at))
}
