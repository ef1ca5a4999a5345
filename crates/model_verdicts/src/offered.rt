//! The remedy of a refusal that lies at a place.

ghost use Rattle.std.specs.Prelude.{◌≡◌, IfOk, IfSome};
ghost use Rattle.std.specs.Bool.{OnTrue};
ghost use Rattle.model_verdicts.specs.Better.{IsMended, touches, IsOffered};

use crate::all::most_for;
use crate::better::{is_further, seen_by};
use crate::exchange::{ExchangedPart, exchanged, words_of};
use crate::names::by_cause;
use crate::verdict::{Verdict, verdict_of};
use explain_cause::cause::{Finding, Segment};
use explain_find::cause_of;
use std::alloc::{AllocError, Global};
use text_parts::rest_of;

/// A part of a text, from one byte up to another.
#[derive(Clone, Copy, Debug, PartialEq, Eq)]
pub struct SelectedPart {
    pub from: usize,
    pub to: usize,
}

/// Whether a refused text is mended by an exchange.
fn is_mended(
    alloc: Global,
    text: &[u8],
    verdict: &Verdict,
    exchange: ExchangedPart,
) -> Result<bool, AllocError>
    ensures { IfOk result (λ b. OnTrue b (IsMended text.now verdict.now exchange)) }
{
    let then = exchanged(alloc, text, exchange)?;
    match verdict_of(alloc, &then)? {
        Some(other) => {
            let before = seen_by(verdict, text.len());
            let written = words_of(text, exchange.words).len();
            Ok(is_further(before, seen_by(&other, then.len()), exchange.at, written))
        }
        None => Ok(true),
    }
}

/// What mends a text that is refused so.
fn mending(
    alloc: Global,
    text: &[u8],
    verdict: &Verdict,
) -> Result<Option<ExchangedPart>, AllocError>
    ensures { IfOk result (λ o. IfSome o (IsMended text.now verdict.now)) }
{
    let Finding { place, cause } = cause_of(alloc, text, verdict.refusal)?;
    let Some(place) = place else {
        return Ok(None);
    };
    let Some(exchange) = by_cause(place, cause) else {
        return Ok(None);
    };
    if is_mended(alloc, text, verdict, exchange)? {
        Ok(Some(exchange))
    } else {
        Ok(None)
    }
}

/// Whether a place touches a part of the text.
fn touches(place: Segment, part: SelectedPart) -> bool
    ensures { result ≡ touches place part }
{
    place.offset <= part.to && part.from <= place.offset.saturating_add(place.length)
}

/// What mends the first of so many refusals of a text that touches a part of it.
fn offered(
    alloc: Global,
    text: &[u8],
    part: SelectedPart,
    count: usize,
) -> Result<Option<ExchangedPart>, AllocError>
    ensures { IfOk result (λ o. IfSome o (λ e. IsOffered e text.now)) }
{
    if count == 0 {
        return Ok(None);
    }
    let Some(verdict) = verdict_of(alloc, text)? else {
        return Ok(None);
    };
    let Some(place) = verdict.place else {
        return Ok(None);
    };
    if touches(place, part) {
        return mending(alloc, text, &verdict);
    }
    match rest_of(alloc, text, place.offset)? {
        Some(rest) => offered(alloc, &rest, part, count - 1),
        None => Ok(None),
    }
}

/// What mends the first refusal of a text that touches a part of it, among its own and those of the text without the bodies in which one lies: an exchange with
/// which that text is played, or refused further on.
pub fn remedy_at(
    alloc: Global,
    text: &[u8],
    part: SelectedPart,
) -> Result<Option<ExchangedPart>, AllocError>
    ensures { IfOk result (λ o. IfSome o (λ e. IsOffered e text.now)) }
{
    offered(alloc, text, part, most_for(text))
}
