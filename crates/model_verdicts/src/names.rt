//! What is exchanged in a text with a name that stands for nothing.

ghost use Rattle.std.specs.Prelude.{◌≡◌};
ghost use Rattle.model_verdicts.specs.Causes.{by_near, by_unknown, by_label, by_cause};

use crate::exchange::{ExchangedPart, Words, WrittenSign};
use crate::syntax::{by_syntax, inserted};
use explain_cause::cause::{LabelCause, Named, Reason, Segment, UnknownCause};

/// The name nearest to it, if there is one, in place of a name.
fn by_near(place: Segment, near: Option<Named<'_>>) -> Option<ExchangedPart>
    ensures { result ≡ by_near place near.entry }
{
    match near {
        Some(near) => Some(ExchangedPart {
            at: place.offset,
            length: place.length,
            words: Words::Copy(near.offset, near.name.len()),
        }),
        None => None,
    }
}

fn by_unknown(place: Segment, cause: UnknownCause<'_>) -> Option<ExchangedPart>
    ensures { result ≡ by_unknown place cause.entry }
{
    match cause {
        UnknownCause::Nowhere(_, _, near) => by_near(place, near),
        UnknownCause::Field(_, _, near) => by_near(place, near),
        UnknownCause::Inline(_) => Some(inserted(
            place.offset.saturating_add(place.length),
            WrittenSign::Parentheses,
        )),
        _ => None,
    }
}

fn by_label(place: Segment, cause: LabelCause<'_>) -> Option<ExchangedPart>
    ensures { result ≡ by_label place cause.entry }
{
    match cause {
        LabelCause::Missing(_, near) => by_near(place, near),
        _ => None,
    }
}

/// What is exchanged where a text is refused at a place for this.
pub fn by_cause(place: Segment, cause: Reason<'_>) -> Option<ExchangedPart>
    ensures { result ≡ by_cause place cause.entry }
{
    match cause {
        Reason::Syntax(cause) => by_syntax(place, cause.wanted),
        Reason::Unknown(cause) => by_unknown(place, cause),
        Reason::Label(cause) => by_label(place, cause),
        _ => None,
    }
}
