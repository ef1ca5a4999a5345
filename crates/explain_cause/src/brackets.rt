//! What is open at a token.

ghost use Rattle.std.specs.Prelude.{◌≡◌, ◌≤◌, ◌-◌, length, slice_get, IfSome};
ghost use Rattle.explain_cause.specs.Places as specified;

use crate::place::{closer_of, closes, from, kind_at, opens};
use pml_token::token::{Token, same_kind};
use std::alloc::{AllocError, Global};

/// The tokens that open what is open in front of the token at `end`, the outermost first.
pub fn open_before(
    alloc: Global,
    tokens: &[Token<'_>],
    end: usize,
) -> Result<Vec<usize>, AllocError> {
    let mut open = Vec::new(alloc);
    for (i, token) in tokens.iter().enumerate() {
        if i >= end {
            return Ok(open);
        }
        if opens(token.kind()) {
            open.push(i)?;
        } else if closes(token.kind()) {
            let _opener = open.pop();
        }
    }
    Ok(open)
}

/// The innermost of these.
pub fn innermost(places: &[usize]) -> Option<usize>
    ensures { result ≡ slice_get places.now (length places.now - 1) }
{
    match places {
        [] => None,
        [.., last] => Some(*last),
    }
}

/// The token that closes what the token at `start` opens, by counting what opens and what closes.
pub fn closing(tokens: &[Token<'_>], start: usize) -> Option<usize>
    ensures { IfSome result (λ end. start ≤ end) }
{
    let mut depth = 0usize;
    for (i, token) in from(tokens, start).iter().enumerate() {
        if opens(token.kind()) {
            depth = depth.saturating_add(1);
        } else if closes(token.kind()) {
            depth = depth.saturating_sub(1);
        }
        if depth == 0 {
            return Some(start.saturating_add(i));
        }
    }
    None
}

/// Whether the token at `at` closes what the one at `opener` opens.
pub fn fits(tokens: &[Token<'_>], opener: usize, at: usize) -> bool
    ensures { result ≡ specified.fits tokens.now opener at }
{
    same_kind(closer_of(kind_at(tokens, opener)), kind_at(tokens, at))
}
