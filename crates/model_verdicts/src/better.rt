//! Whether a refused text is better with a part of it exchanged.

ghost use Rattle.std.specs.Prelude.{◌≡◌};
ghost use Rattle.model_verdicts.specs.Better.{rank_of, seen_by, is_touched, is_further};

use crate::verdict::Verdict;
use diagnostics::Refusal;

/// How a text is refused: the order of its refusal, where that lies, and how many bytes stand behind that.
#[derive(Clone, Copy, Debug, PartialEq, Eq)]
pub struct RankedRefusal {
    pub rank: usize,
    pub at: usize,
    pub left: usize,
}

/// The order in which refusals go before one another: that of their numbers, but for those of inlines, which go before brackets that are too deep.
fn rank_of(refusal: Refusal) -> usize
    ensures { result ≡ rank_of refusal }
{
    match refusal {
        Refusal::TextTooLong => 0,
        Refusal::Lexical => 1,
        Refusal::LeftOut => 2,
        Refusal::Inline => 3,
        Refusal::TooDeep => 4,
        Refusal::Syntax => 5,
        Refusal::NameTwice => 6,
        Refusal::UnknownName => 7,
        Refusal::WrongKind => 8,
        Refusal::ArgumentCount => 9,
        Refusal::Label => 10,
        Refusal::BreakOutsideDo => 11,
        Refusal::DStep => 12,
        Refusal::CircleOfGotos => 13,
        Refusal::NumberOutOfRange => 14,
        Refusal::TooManyCells => 15,
        Refusal::NoProcess => 16,
        Refusal::TooManyAtStart => 17,
        Refusal::Initialiser => 18,
    }
}

/// How a text of so many bytes is refused.
pub fn seen_by(verdict: &Verdict, length: usize) -> RankedRefusal
    ensures { result ≡ seen_by verdict.now length }
{
    let at = match verdict.place {
        Some(place) => place.offset,
        None => 0,
    };
    RankedRefusal {
        rank: rank_of(verdict.refusal),
        at,
        left: length.saturating_sub(at),
    }
}

/// Whether a refusal lies where so many bytes were written.
fn is_touched(then: RankedRefusal, at: usize, length: usize) -> bool
    ensures { result ≡ is_touched then at length }
{
    at <= then.at && then.at - at <= length
}

/// Whether a text is refused further on where so many bytes were written at a place: in the order of refusals or, for the same one, in that of the text, and
/// not there.
pub fn is_further(before: RankedRefusal, then: RankedRefusal, at: usize, length: usize) -> bool
    ensures { result ≡ is_further before then at length }
{
    let is_behind = before.rank == then.rank && then.left < before.left;
    !is_touched(then, at, length) && (before.rank < then.rank || is_behind)
}
