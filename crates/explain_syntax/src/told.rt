//! Where a finding about tokens that no rule reads is told.

ghost use Rattle.std.specs.Prelude.{◌≡◌, true, Some};
ghost use Rattle.explain_syntax.specs.Wanted as sorts;

use explain_cause::cause::{Expected, Finding, Named, Reason, Segment, SyntaxCause};
use explain_cause::place::{at_place, end_of};

/// What is found at a place.
pub fn found_at<'t>(place: Segment, found: &'t [u8], wanted: Expected<'t>) -> Finding<'t>
    ensures place { result.place ≡ Some place }
    ensures cause { sorts.is_syntax result.cause ≡ true }
{
    at_place(place, Reason::Syntax(SyntaxCause { found, wanted }))
}

/// The word before the token that is told of, where it is the word that another one is wanted for.
fn word_of(wanted: Expected<'_>) -> Option<Named<'_>>
    ensures { result ≡ sorts.word_of wanted.entry }
{
    match wanted {
        Expected::ForeignWord(_, word) => Some(word),
        Expected::RunOf(_, call) => Some(call),
        Expected::Word(name, _) => Some(name),
        Expected::NoWord(name) => Some(name),
        Expected::NoType(name) => Some(name),
        Expected::Index(name) => Some(name),
        Expected::InlineValue(name) => Some(name),
        Expected::Inline(name, _) => Some(name),
        Expected::NameOfInline(name, _) | Expected::InlineRun(name, _) => Some(name),
        Expected::Untyped(name) => Some(name),
        Expected::CommaBefore(name) => Some(name),
        Expected::ArrowFor(sign) => Some(sign),
        Expected::CloserBeforeArrow(_, arrow) => Some(arrow),
        _ => None,
    }
}

/// What is told of a token, or of the end or a word before it where that is what is wanted.
pub fn told<'t>(text: &'t [u8], token: Named<'t>, wanted: Expected<'t>) -> Finding<'t>
    ensures { sorts.is_syntax result.cause ≡ true }
{
    if matches!(wanted, Expected::EndOf(_) | Expected::EndByLayout(_)) {
        return found_at(end_of(text), &text[..0], wanted);
    }
    let word = match word_of(wanted) {
        Some(word) => word,
        None => token,
    };
    let place = Segment {
        offset: word.offset,
        length: word.name.len(),
    };
    found_at(place, word.name, wanted)
}
