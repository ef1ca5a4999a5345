//! Findings that keep their place only where it is one that is to be told.

ghost use Rattle.std.specs.Prelude.{◌≡◌, Bool, true, IfSome, None, Some, drop};
ghost use Rattle.explain_find.specs.Tokens.{lies, at_first_left_out};
ghost use Rattle.explain_find.specs.Marks.{first_is_told, IsOfMark};
ghost use Rattle.explain_find.specs.Told.{is_stop};

use crate::bare::with_inline;
use crate::marks::{is_at_break, is_of_mark};
use crate::there::{at_first_left_out, lies};
use diagnostics::Refusal;
use explain_cause::cause::{Finding, Segment};
use explain_cause::place::untold;
use pml_token::token::Token;
use promela_model::mark::Mark;

/// The same finding without its place.
pub fn placeless(finding: Finding<'_>) -> Finding<'_>
    ensures { result.place ≡ None }
{
    Finding {
        place: None,
        cause: finding.cause,
    }
}

/// No more is known.
pub fn nowhere<'t>() -> Finding<'t>
    ensures { result.place ≡ None }
{
    placeless(untold())
}

/// A finding, whose place is told only where it is one of the text's tokens.
pub fn there<'t>(
    refusal: Refusal,
    text: &'t [u8],
    tokens: &[Token<'_>],
    finding: Finding<'t>,
) -> Finding<'t>
    ensures same { IfSome result.place (λ p. finding.entry.place ≡ Some p) }
    ensures lies { IfSome result.place (λ p. lies refusal text.now tokens.now p ≡ true) }
{
    match finding.place {
        Some(place) if lies(refusal, text, tokens, place) => with_inline(text, tokens, finding),
        _ => placeless(with_inline(text, tokens, finding)),
    }
}

/// A finding, whose place is told only where it is that of the first token that is left out.
pub fn at_left_out<'t>(tokens: &[Token<'_>], finding: Finding<'t>) -> Finding<'t>
    ensures { IfSome result.place (λ p. at_first_left_out tokens.now p ≡ true) }
{
    match finding.place {
        Some(place) if at_first_left_out(place, tokens) => finding,
        _ => placeless(finding),
    }
}

/// Whether a place is the one where nothing can stand, or that of a `'` before it.
fn is_stop(text: &[u8], at: usize, place: Segment) -> bool
    ensures { result ≡ true → is_stop text.now at place ≡ true }
{
    place.offset == at
        || (place.offset < at && place.offset < text.len() && text[place.offset] == b'\'')
}

/// A finding, whose place is told only where it is the one where nothing can stand, or that of a `'` before it.
pub fn at_stop<'t>(text: &'t [u8], at: usize, finding: Finding<'t>) -> Finding<'t>
    ensures { IfSome result.place (λ p. is_stop text.now at p ≡ true) }
{
    match finding.place {
        Some(place) if is_stop(text, at, place) => finding,
        _ => placeless(finding),
    }
}

/// A finding, whose place is told only where it is that of the mark behind so many others.
pub fn at_mark<'t>(
    tokens: &[Token<'_>],
    marks: &[Mark<'_>],
    at: usize,
    finding: Finding<'t>,
) -> Finding<'t>
    ensures { IfSome result.place (λ p. first_is_told tokens.now (drop at marks.now) p ≡ true) }
{
    match finding.place {
        Some(place) if is_of_mark(tokens, marks, at, place) => finding,
        _ => placeless(finding),
    }
}

/// The same of a mark that may be a `break`, where `breaks` are how many bytes stand before each of the text.
pub fn at_break<'t>(
    tokens: &[Token<'_>],
    breaks: &[Option<u32>],
    marks: &[Mark<'_>],
    at: usize,
    finding: Finding<'t>,
) -> Finding<'t>
    ensures { IfSome result.place (IsOfMark tokens.now breaks.now marks.now at) }
{
    match finding.place {
        Some(place)
            if is_of_mark(tokens, marks, at, place) || is_at_break(breaks, marks, at, place) => {
            finding
        }
        _ => placeless(finding),
    }
}
