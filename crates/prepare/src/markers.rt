//! The markers that a preprocessor leaves.

ghost use Rattle.std.specs.Prelude.{◌≡◌, ◌≤◌, ◌+◌, length, IfSome};
ghost use Rattle.std.specs.List.{prefix_len};
ghost use Rattle.prepare.specs.Markers as markers;

use pml_lex::lexeme::{digits, spaces};
use std::marker::Model;

/// The largest line that a marker names. A model has at most so many bytes, so a larger one is none.
pub const MOST_LINE: u32 = 1_048_576;

/// What a marker says: the line of the next line, and its file.
#[derive(Drop)]
pub struct Marker<'t> {
    line: u32,
    file: &'t [u8],
}

impl<'t> Model for Marker<'t> {
    ghost use Rattle.prepare.specs.Marker.{Marker as Seen};

    ghost Value = { Seen };

    ghost view = { λ m. record { line = m.line; file = m.file.now } };
}

impl<'t> Marker<'t> {
    /// The line that the next line of the text has.
    pub fn line(&self) -> u32
        ensures { result ≡ self.now.line }
    {
        self.line
    }

    /// The file that the next line is of.
    pub fn file(&self) -> &'t [u8]
        ensures { result.now ≡ self.now.file }
    {
        self.file
    }
}

pub(crate) fn number(digits: &[u8]) -> u32
    ensures value { result ≡ markers.number digits.now }
    ensures small { result ≤ MOST_LINE + 1 }
{
    let mut number = 0;
    for digit in digits {
        number = (10 * number + u32::from(digit.saturating_sub(b'0'))).min(MOST_LINE + 1);
    }
    number
}

fn behind_spaces(text: &[u8]) -> &[u8]
    ensures { result.now ≡ markers.behind_spaces text.now }
{
    &text[spaces(text)..]
}

fn is_no_quote(b: u8) -> bool
    ensures { result ≡ markers.is_no_quote b }
{
    b != b'"'
}

fn quote_at(text: &[u8]) -> usize
    ensures value { result ≡ prefix_len markers.is_no_quote text.now }
    ensures within { result ≤ length text.now }
{
    let mut end = 0;
    while end < text.len() && is_no_quote(text[end]) {
        end += 1;
    }
    end
}

fn named(line: u32, text: &[u8]) -> Option<Marker<'_>>
    ensures value { result ≡ markers.named line text.now }
    ensures same_line { IfSome result (λ m. m.line ≡ line) }
{
    match text {
        [b'"', rest @ ..] => Some(Marker {
            line,
            file: &rest[..quote_at(rest)],
        }),
        _ => None,
    }
}

fn numbered_marker(text: &[u8]) -> Option<Marker<'_>>
    ensures value { result ≡ markers.numbered_marker text.now }
    ensures small { IfSome result (λ m. m.line ≤ MOST_LINE) }
{
    let end = digits(text);
    if end == 0 {
        return None;
    }
    let line = number(&text[..end]);
    if line > MOST_LINE {
        return None;
    }
    named(line, behind_spaces(&text[end..]))
}

fn behind_word(text: &[u8]) -> &[u8]
    ensures { result.now ≡ markers.behind_word text.now }
{
    if text.starts_with(b"line") {
        &text[4..]
    } else {
        text
    }
}

/// What a line says, if it is a marker: `#`, and `line` maybe, a number and a file in quotes.
pub fn marker_of(line: &[u8]) -> Option<Marker<'_>>
    ensures value { result ≡ markers.marker line.now }
    ensures small { IfSome result (λ m. m.line ≤ MOST_LINE) }
{
    match line {
        [b'#', rest @ ..] => numbered_marker(behind_spaces(behind_word(rest))),
        _ => None,
    }
}
