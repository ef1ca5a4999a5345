//! Whether a place is that of a mark.

ghost use Rattle.std.specs.Prelude.{◌≡◌, drop, take, count_by, slice_get};
ghost use Rattle.std.specs.List.{list_any};
ghost use Rattle.explain_find.specs.Tokens.{is_of};
ghost use Rattle.explain_find.specs.Marks.{first_declared, begins_from, begins_behind, is_unless, is_told, first_is_told, is_break, first_is_break, has_offset, is_at_break};

use crate::there::{begins_any, is_of, touches};
use explain_cause::cause::Segment;
use pml_token::token::{Kind, Token, same_kind};
use promela_model::mark::{Mark, Shape, What};

/// The place of the token that the first declaration among these marks names.
fn first_declared(marks: &[Mark<'_>]) -> Option<u32>
    ensures { result ≡ first_declared marks.now }
{
    for mark in marks {
        if let What::Declares(token, _) = &mark.what {
            return Some(token.line());
        }
    }
    None
}

/// Whether a place begins with one of the tokens from the one on that has another place.
fn begins_from(tokens: &[Token<'_>], offset: u32, place: Segment) -> bool
    ensures { result ≡ begins_from tokens.now offset place }
{
    let mut rest = tokens;
    while let [first, behind @ ..] = rest {
        if first.line() == offset {
            return begins_any(place, rest);
        }
        rest = behind;
    }
    false
}

/// Whether a place begins with a token of the next declaration, or behind it.
fn begins_behind(tokens: &[Token<'_>], marks: &[Mark<'_>], place: Segment) -> bool
    ensures { result ≡ begins_behind tokens.now (first_declared marks.now) place }
{
    match first_declared(marks) {
        Some(offset) => begins_from(tokens, offset, place),
        None => false,
    }
}

/// Whether a place is that of one of these names.
fn is_step(place: Segment, steps: &[Shape<'_>]) -> bool
    ensures { result ≡ list_any (λ s. is_of place s.name) steps.now }
{
    for step in steps {
        if is_of(place, &step.name) {
            return true;
        }
    }
    false
}

/// Whether a place is that of a word `unless`.
fn is_unless(place: Segment, tokens: &[Token<'_>]) -> bool
    ensures { result ≡ list_any (is_unless place) tokens.now }
{
    for token in tokens {
        if same_kind(token.kind(), Kind::Unless) && is_of(place, token) {
            return true;
        }
    }
    false
}

/// Whether a place is that of a mark which says this, where these are the marks from it on.
fn is_told(tokens: &[Token<'_>], marks: &[Mark<'_>], what: &What<'_>, place: Segment) -> bool
    ensures { result ≡ is_told tokens.now marks.now what.now place }
{
    match what {
        What::Declares(token, _) => is_of(place, token),
        What::Uses(_, steps) => is_step(place, steps.as_slice()),
        What::Typedef(token) => is_of(place, token),
        What::Runs(token, _) => is_of(place, token),
        What::Prints(token, _) => touches(place, token),
        What::Number(token) => is_of(place, token),
        What::Width(token) => is_of(place, token),
        What::Size(_) => begins_behind(tokens, marks, place),
        What::Starts(_) => begins_any(place, tokens),
        What::Preset(_) => begins_behind(tokens, marks, place),
        What::Channel(_, _, _) => begins_behind(tokens, marks, place),
        What::Label(token) => is_of(place, token),
        What::Goto(token) => is_of(place, token),
        What::Break => false,
        What::Unless => is_unless(place, tokens),
        What::Enter(_) => false,
        What::Leave => false,
    }
}

/// The marks from one on.
fn from<'m, 'a>(marks: &'m [Mark<'a>], at: usize) -> &'m [Mark<'a>]
    ensures { result.now ≡ drop at marks.now }
{
    if at <= marks.len() {
        &marks[at..]
    } else {
        &marks[..0]
    }
}

/// Whether a place is that of the first of these marks.
fn first_is_told(tokens: &[Token<'_>], marks: &[Mark<'_>], place: Segment) -> bool
    ensures { result ≡ first_is_told tokens.now marks.now place }
{
    match marks {
        [mark, ..] => is_told(tokens, marks, &mark.what, place),
        [] => false,
    }
}

/// Whether a place is that of the mark behind so many others.
pub fn is_of_mark(tokens: &[Token<'_>], marks: &[Mark<'_>], at: usize, place: Segment) -> bool
    ensures { result ≡ first_is_told tokens.now (drop at marks.now) place }
{
    first_is_told(tokens, from(marks, at), place)
}

/// Whether a mark is a `break`.
fn is_break(mark: &Mark<'_>) -> bool
    ensures { result ≡ is_break mark.now }
{
    matches!(&mark.what, What::Break)
}

/// How many of these marks are a `break`.
fn count_breaks(marks: &[Mark<'_>]) -> usize
    ensures { result ≡ count_by is_break marks.now }
{
    let mut count = 0usize;
    for mark in marks {
        if is_break(mark) {
            count += 1;
        }
    }
    count
}

/// Whether the first of these marks is a `break`.
fn first_is_break(marks: &[Mark<'_>]) -> bool
    ensures { result ≡ first_is_break marks.now }
{
    match marks {
        [mark, ..] => is_break(mark),
        [] => false,
    }
}

/// The first so many marks.
fn front<'m, 'a>(marks: &'m [Mark<'a>], count: usize) -> &'m [Mark<'a>]
    ensures { result.now ≡ take count marks.now }
{
    if count <= marks.len() {
        &marks[..count]
    } else {
        marks
    }
}

/// Whether a place begins where a break of this number does, among those of which so many bytes stand before each.
fn has_offset(breaks: &[Option<u32>], number: usize, place: Segment) -> bool
    ensures { result ≡ has_offset (slice_get breaks.now number) place }
{
    match breaks.get(number) {
        Some(Some(offset)) => *offset as usize == place.offset,
        _ => false,
    }
}

/// Whether the mark behind so many others is a `break`, and the place the one of as many breaks as stand before it.
pub fn is_at_break(breaks: &[Option<u32>], marks: &[Mark<'_>], at: usize, place: Segment) -> bool
    ensures { result ≡ is_at_break breaks.now marks.now at place }
{
    first_is_break(from(marks, at)) && has_offset(breaks, count_breaks(front(marks, at)), place)
}
