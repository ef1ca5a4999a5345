//! The words that a `#` line begins with.

ghost use Rattle.std.specs.Prelude.{◌≡◌};
ghost use Rattle.pml_directives.specs.Words.{condition_word, plain_word, word_of as as_word};

use crate::state::State;
use pml_macros::atom::{Atom, AtomSort};

/// What a `#` line asks for.
#[derive(Clone, Copy, Debug, PartialEq, Eq)]
pub enum Word {
    Define,
    Undef,
    If,
    Ifdef,
    Ifndef,
    Elif,
    Else,
    Endif,
    Include,
    Error,
    Warning,
    Pragma,
    /// `#line`, whose number stands behind the word.
    Line,
    /// A mark, which is a number.
    Mark,
    /// Nothing: an empty line, `#ident`.
    Passed,
    Unknown,
}

/// The words of conditions.
fn word_of_condition(text: &[u8]) -> Option<Word>
    ensures { result ≡ condition_word text.now }
{
    if text == b"if".as_slice() {
        Some(Word::If)
    } else if text == b"ifdef".as_slice() {
        Some(Word::Ifdef)
    } else if text == b"ifndef".as_slice() {
        Some(Word::Ifndef)
    } else if text == b"elif".as_slice() {
        Some(Word::Elif)
    } else if text == b"else".as_slice() {
        Some(Word::Else)
    } else if text == b"endif".as_slice() {
        Some(Word::Endif)
    } else {
        None
    }
}

fn word_by(text: &[u8]) -> Word
    ensures { result ≡ plain_word text.now }
{
    if text == b"define".as_slice() {
        Word::Define
    } else if text == b"undef".as_slice() {
        Word::Undef
    } else if text == b"include".as_slice() {
        Word::Include
    } else if text == b"error".as_slice() {
        Word::Error
    } else if text == b"warning".as_slice() {
        Word::Warning
    } else if text == b"pragma".as_slice() {
        Word::Pragma
    } else if text == b"line".as_slice() {
        Word::Line
    } else if text == b"ident".as_slice() {
        Word::Passed
    } else {
        Word::Unknown
    }
}

/// The word of a `#` line, of which these tokens stand behind the `#`.
pub fn word_of(state: &State, atoms: &[Atom]) -> Word
    ensures { result ≡ as_word state.now.work.book atoms.now }
{
    match atoms {
        [] => Word::Passed,
        [first, ..] => match first.sort {
            AtomSort::Name => match word_of_condition(state.text(first)) {
                Some(word) => word,
                None => word_by(state.text(first)),
            },
            AtomSort::Number => Word::Mark,
            _ => Word::Unknown,
        },
    }
}
