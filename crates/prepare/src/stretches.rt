//! Divides a text into stretches.

ghost use Rattle.std.specs.Prelude.{◌≡◌, ◌≤◌, ◌<◌, ◌+◌, false, length, drop, IfOk, IfSome};
ghost use Rattle.promela_text.specs.Tokens.{fresh_from};
ghost use Rattle.prepare.specs.Stretches as stretches;

use crate::context::Context;
use crate::roles::role_of;
use crate::stretch::Stretch;
use pml_lex::lexeme::{is_blank, next};
use pml_token::token::Kind;
use promela_text::lexeme::Lexeme;
use std::alloc::{AllocError, Global};

/// Whether only blanks stand on a line behind a text, where `fresh` says so of what is before it.
pub(crate) fn fresh_behind(fresh: bool, text: &[u8]) -> bool
    ensures { result ≡ fresh_from fresh text.now }
{
    let mut fresh = fresh;
    for b in text {
        fresh = *b == b'\n' || (fresh && is_blank(*b));
    }
    fresh
}

/// The context behind the closing quote of a string that may go on over lines, in a text from context `from` on.
fn string_end(from: usize, text: &[u8]) -> Option<usize>
    requires { from ≤ length text.now }
    ensures value { result ≡ stretches.string_end from false (drop from text.now) }
    ensures within { IfSome result (λ n. n ≤ length text.now) }
    ensures behind { IfSome result (λ n. from < n) }
{
    let mut end = from;
    let mut escaped = false;
    while end < text.len() {
        let b = text[end];
        end += 1;
        if escaped {
            escaped = false;
        } else if b == b'"' {
            return Some(end);
        } else {
            escaped = b == b'\\';
        }
    }
    None
}

/// What stands where no lexeme does.
fn broken(text: &[u8]) -> (usize, Lexeme)
    ensures value { result ≡ stretches.broken text.now }
    ensures within { result.0 ≤ length text.now }
    ensures some { 0 < length text.now → 0 < result.0 }
{
    match text {
        [] => (0, Lexeme::Skipped),
        [b'"', ..] => match string_end(1, text) {
            Some(end) => (end, Lexeme::Token(Kind::Quoted)),
            None => (text.len(), Lexeme::Token(Kind::LeftOut)),
        },
        [b'/', ..] => (text.len(), Lexeme::Token(Kind::LeftOut)),
        _ => (1, Lexeme::Token(Kind::LeftOut)),
    }
}

/// How long the lexeme at the front of a text is, and what it is. What stands where no lexeme does is one too.
#[tactic(auto, unfolding(crate::specs::Stretches::lexeme_at))]
pub(crate) fn lexeme_at(fresh: bool, text: &[u8]) -> (usize, Lexeme)
    requires { 0 < length text.now }
    ensures value { result ≡ stretches.lexeme_at fresh text.now }
    ensures some { 0 < result.0 }
    ensures within { result.0 ≤ length text.now }
{
    match next(fresh, text) {
        Some(found) => found,
        None => broken(text),
    }
}

/// The stretches of a text, in order, and behind them what is left behind the last token.
pub fn stretches<'t>(alloc: Global, text: &'t [u8]) -> Result<Vec<Stretch<'t>>, AllocError>
    ensures { IfOk result (λ v. v.items ≡ stretches.stretches text.now) }
{
    let mut stretches = Vec::new(alloc);
    let mut context = Context::start();
    let mut fresh = true;
    let mut from = text;
    let mut gap = 0;
    while gap < from.len() {
        let (before, rest) = from.split_at(gap);
        let (length, lexeme) = lexeme_at(fresh, rest);
        let (front, back) = rest.split_at(length);
        match lexeme {
            Lexeme::Skipped => {
                fresh = fresh_behind(fresh, front);
                gap += length;
            }
            Lexeme::Token(kind) => {
                stretches.push(Stretch::new(context, kind, before, front))?;
                context = context.behind(role_of(kind, front));
                fresh = false;
                from = back;
                gap = 0;
            }
        }
    }
    stretches.push(Stretch::last(from))?;
    Ok(stretches)
}
