//! All that is told of a text that is refused: its refusal, and those of the text without the bodies in which one lies.

ghost use Rattle.std.specs.Prelude.{◌≡◌, IfOk, option_map};
ghost use Rattle.model_verdicts.specs.AllVerdicts.{most_for, IsBehind, AreVerdicts};

use crate::verdict::{Verdict, verdict_of};
use std::alloc::{AllocError, Global};
use text_parts::rest_of;

/// So many refusals are told at most.
pub const MOST_VERDICTS: usize = 20;

/// Of a text with more bytes the first refusal alone is told.
pub const MOST_BYTES: usize = 65536;

/// How many refusals of a text are told at most.
pub fn most_for(text: &[u8]) -> usize
    ensures { result ≡ most_for text.now }
{
    if text.len() <= MOST_BYTES {
        MOST_VERDICTS
    } else {
        1
    }
}

/// The text without the body in which a refusal lies, if it lies in one.
fn behind(alloc: Global, text: &[u8], verdict: &Verdict) -> Result<Option<Vec<u8>>, AllocError>
    ensures { IfOk result (λ o. IsBehind text.now verdict.now (option_map (λ t. t.items) o)) }
{
    match verdict.place {
        Some(place) => rest_of(alloc, text, place.offset),
        None => Ok(None),
    }
}

/// So many verdicts on a text at most.
fn more(alloc: Global, text: &[u8], count: usize) -> Result<Vec<Verdict>, AllocError>
    ensures { IfOk result (λ vs. AreVerdicts count text.now vs.items) }
{
    if count == 0 {
        return Ok(Vec::new(alloc));
    }
    let Some(verdict) = verdict_of(alloc, text)? else {
        return Ok(Vec::new(alloc));
    };
    let mut verdicts = match behind(alloc, text, &verdict)? {
        Some(left) => more(alloc, &left, count - 1)?,
        None => Vec::new(alloc),
    };
    verdicts.insert(0, verdict)?;
    Ok(verdicts)
}

/// The verdicts on a text: none where it is played. The first is the refusal of `play`, and each other that of the text without the bodies in which those before
/// it lie, up to one that lies in no body; at most 20, and of a long text one.
pub fn verdicts_of(alloc: Global, text: &[u8]) -> Result<Vec<Verdict>, AllocError>
    ensures { IfOk result (λ vs. AreVerdicts (most_for text.now) text.now vs.items) }
{
    more(alloc, text, most_for(text))
}
