//! The verdict on a text, as an editor shows it: whether `play` plays it, and if not, why and where.

ghost use Rattle.std.specs.Prelude.{IfOk, IfErr};
ghost use Rattle.pml_play.specs.Parts.{IsRejected};
ghost use Rattle.model_verdicts.specs.Verdicts.{IsPlayed, IsVerdict};

use diagnostics::Refusal;
use explain::{Explanation, explanation_of};
use explain_cause::cause::Segment;
use pml_play::{Rejection, checked_of, expanded_of};
use std::alloc::{AllocError, Global};

/// Why a text is refused.
#[derive(Drop)]
pub struct Verdict {
    pub refusal: Refusal,
    /// The part of the text that is told, if one is.
    pub place: Option<Segment>,
    /// What is said behind the refusal's own words: empty, or from a colon on.
    pub words: String,
}

/// Whether a text is played, and else why it has no model.
fn judged(alloc: Global, text: &[u8]) -> Result<(), Rejection>
    ensures ok { IfOk result (λ u. IsPlayed text.now) }
    ensures err { IfErr result (IsRejected text.now) }
{
    let tokens = match expanded_of(alloc, text) {
        Ok(tokens) => tokens,
        Err(rejection) => return Err(rejection),
    };
    match checked_of(alloc, &tokens) {
        Ok(_checked) => Ok(()),
        Err(rejection) => Err(rejection),
    }
}

/// The verdict on a text: none where it is played, and else the refusal of `play`.
pub fn verdict_of(alloc: Global, text: &[u8]) -> Result<Option<Verdict>, AllocError>
    ensures { IfOk result (IsVerdict text.now) }
{
    match judged(alloc, text) {
        Ok(()) => Ok(None),
        Err(Rejection::Memory) => Err(AllocError),
        Err(Rejection::Refused(refusal, _line)) => {
            let Explanation { place, words } = explanation_of(alloc, text, refusal)?;
            Ok(Some(Verdict {
                refusal,
                place,
                words,
            }))
        }
    }
}
