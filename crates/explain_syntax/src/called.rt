//! Calls, by the tokens of the text and by those that come out of calls.

ghost use Rattle.std.specs.Prelude.{◌≡◌, true, IfSome};
ghost use Rattle.explain_syntax.specs.Wanted as sorts;
ghost use Rattle.explain_syntax.specs.Beside as beside;

use crate::kinds::{BEFORE_VALUES, BEHIND_VALUES};
use crate::stopped::{begin_of, is_before, kind_before, name_at, name_before};
use explain_cause::cause::{Expected, Named};
use explain_cause::place::{between, index_at, is_among, is_at, kind_at, named};
use pml_token::token::{Kind, Token, same_kind};

/// The first token with this text that stands directly behind one of a kind, as the name behind `inline` or `proctype`.
pub fn name_behind<'t>(
    text: &'t [u8],
    tokens: &[Token<'_>],
    kind: Kind,
    name: &[u8],
) -> Option<Named<'t>> {
    let mut is_behind = false;
    for token in tokens {
        if is_behind && token.text() == name {
            return Some(named(text, token));
        }
        is_behind = same_kind(token.kind(), kind);
    }
    None
}

/// Where an inline of this name is defined.
pub fn definition_of<'t>(
    text: &'t [u8],
    originals: &[Token<'_>],
    name: &[u8],
) -> Option<Named<'t>> {
    name_behind(text, originals, Kind::Inline, name)
}

/// Whether a name with `(` behind it seems to call something.
pub fn is_call(tokens: &[Token<'_>], at: usize) -> bool
    ensures { result ≡ beside.is_call tokens.now at }
{
    is_at(tokens, at, Kind::OpenParen) && is_before(tokens, at, 1, Kind::Name)
}

/// The name at a place of the text, where it calls an inline whose body stands before it and begins before a place.
fn call_of<'t>(
    text: &'t [u8],
    originals: &[Token<'_>],
    at: usize,
    body: usize,
) -> Option<Named<'t>> {
    if !is_call(originals, at.saturating_add(1)) {
        return None;
    }
    let name = name_at(text, originals, at);
    let definition = definition_of(text, originals, name.name)?;
    if definition.offset < body {
        Some(name)
    } else {
        None
    }
}

/// The call that a `{` comes out of, where the token at `at` is one.
pub fn call_at<'t>(
    text: &'t [u8],
    originals: &[Token<'_>],
    tokens: &[Token<'_>],
    at: usize,
) -> Option<Named<'t>> {
    let before = name_before(text, tokens, at, 1).offset;
    let body = name_at(text, tokens, at).offset;
    if !is_at(tokens, at, Kind::OpenBrace) || before <= body {
        return None;
    }
    let behind = index_at(originals, before)?.saturating_add(1);
    call_of(text, originals, behind, body)
}

/// The first name with `(` behind it in the statement of the text that a token stands in.
fn first_called(originals: &[Token<'_>], at: usize) -> Option<usize> {
    let begin = begin_of(originals, at);
    for (i, token) in between(originals, begin, at).iter().enumerate() {
        let place = begin.saturating_add(i);
        if matches!(token.kind(), Kind::Name) && is_call(originals, place.saturating_add(1)) {
            return Some(place);
        }
    }
    None
}

/// The first call of that statement, where it is one of an inline.
fn call_before<'t>(text: &'t [u8], originals: &[Token<'_>], at: usize) -> Option<Named<'t>> {
    let call = name_at(text, originals, first_called(originals, at)?);
    definition_of(text, originals, call.name)?;
    Some(call)
}

/// The inline whose call stands where a value is wanted, at the token that no rule reads.
pub fn value_at<'t>(
    text: &'t [u8],
    originals: &[Token<'_>],
    tokens: &[Token<'_>],
    at: usize,
) -> Option<Expected<'t>>
    ensures { IfSome result (λ wish. sorts.is_inline_value wish ≡ true) }
{
    let before = kind_before(tokens, at, 1);
    if is_among(before, &BEFORE_VALUES) {
        return Some(Expected::InlineValue(call_at(text, originals, tokens, at)?));
    }
    if matches!(before, Kind::CloseBrace) && is_among(kind_at(tokens, at), &BEHIND_VALUES) {
        let own = index_at(originals, name_at(text, tokens, at).offset)?;
        return Some(Expected::InlineValue(call_before(text, originals, own)?));
    }
    None
}

/// The token at `at`, or the call that it comes out of.
pub fn shown_at<'t>(
    text: &'t [u8],
    originals: &[Token<'_>],
    tokens: &[Token<'_>],
    at: usize,
) -> Named<'t> {
    match call_at(text, originals, tokens, at) {
        Some(call) => call,
        None => name_at(text, tokens, at),
    }
}
