//! What is exchanged in a text whose tokens no rule reads.

ghost use Rattle.std.specs.Prelude.{◌≡◌};
ghost use Rattle.model_verdicts.specs.Causes.{inserted, in_place, closer_of, behind, by_sign, by_closer, by_syntax};

use crate::exchange::{ExchangedPart, Words, WrittenSign};
use explain_cause::cause::{Expected, Named, Segment};

/// A sign in front of what stands behind so many bytes.
pub fn inserted(at: usize, sign: WrittenSign) -> ExchangedPart
    ensures { result ≡ inserted at sign }
{
    ExchangedPart {
        at,
        length: 0,
        words: Words::Sign(sign),
    }
}

/// A sign in place of a part of the text.
fn in_place(at: usize, length: usize, sign: WrittenSign) -> ExchangedPart
    ensures { result ≡ in_place at length sign }
{
    ExchangedPart {
        at,
        length,
        words: Words::Sign(sign),
    }
}

/// What closes this.
fn closer_of(opener: &[u8]) -> WrittenSign
    ensures { result ≡ closer_of opener.now }
{
    if opener == b"(".as_slice() {
        WrittenSign::CloseParen
    } else if opener == b"[".as_slice() {
        WrittenSign::CloseBracket
    } else if opener == b"{".as_slice() {
        WrittenSign::CloseBrace
    } else if opener == b"if".as_slice() {
        WrittenSign::Fi
    } else {
        WrittenSign::Od
    }
}

/// A `;` behind a word of the text.
fn behind(word: Named<'_>) -> ExchangedPart
    ensures { result ≡ behind word.entry }
{
    inserted(
        word.offset.saturating_add(word.name.len()),
        WrittenSign::Semicolon,
    )
}

/// Where what closes is wanted.
fn by_closer(place: Segment, wanted: Expected<'_>) -> Option<ExchangedPart>
    ensures { result ≡ by_closer place wanted.entry }
{
    match wanted {
        Expected::Closer(opener) => Some(inserted(place.offset, closer_of(opener.name))),
        Expected::CloserBefore(opener) => Some(inserted(place.offset, closer_of(opener.name))),
        Expected::CloserByLayout(opener) => Some(inserted(place.offset, closer_of(opener.name))),
        Expected::CloserBeforeArrow(opener, arrow) => Some(inserted(
            arrow.offset,
            closer_of(opener.name),
        )),
        Expected::RunOf(_, called) => Some(inserted(called.offset, WrittenSign::RunBefore)),
        Expected::Arguments(_) => Some(inserted(place.offset, WrittenSign::Parentheses)),
        Expected::Parameters(_) => Some(inserted(place.offset, WrittenSign::Parentheses)),
        Expected::Nothing => Some(in_place(place.offset, place.length, WrittenSign::Nothing)),
        _ => None,
    }
}

/// Where a separator or another sign is wanted.
fn by_sign(place: Segment, wanted: Expected<'_>) -> Option<ExchangedPart>
    ensures { result ≡ by_sign place wanted.entry }
{
    match wanted {
        Expected::SemicolonAtLineEnd(last) => Some(behind(last)),
        Expected::SemicolonOrOption(last) => Some(behind(last)),
        Expected::Semicolon => Some(inserted(place.offset, WrittenSign::SemicolonBefore)),
        Expected::SemicolonFor => Some(in_place(
            place.offset,
            place.length,
            WrittenSign::Semicolon,
        )),
        Expected::OptionSign => Some(inserted(place.offset, WrittenSign::OptionBefore)),
        Expected::OptionFor => Some(in_place(place.offset, place.length, WrittenSign::Option)),
        Expected::ArrowFor(sign) => Some(in_place(
            sign.offset,
            sign.name.len(),
            WrittenSign::Arrow,
        )),
        Expected::Comma => Some(inserted(place.offset, WrittenSign::CommaBefore)),
        Expected::CommaBefore(name) => Some(inserted(name.offset, WrittenSign::CommaBefore)),
        _ => None,
    }
}

/// What is exchanged where this is wanted at a place.
pub fn by_syntax(place: Segment, wanted: Expected<'_>) -> Option<ExchangedPart>
    ensures { result ≡ by_syntax place wanted.entry }
{
    match by_sign(place, wanted) {
        Some(exchange) => Some(exchange),
        None => by_closer(place, wanted),
    }
}
