//! Places of a text as an editor names them: lines and columns from 0, a column in bytes or in units of UTF-16.

ghost use Rattle.std.specs.Prelude.{◌≡◌, ◌≤◌, ◌+◌, length, drop};
ghost use Rattle.source_lines.specs.Places.{number_at, trimmed, is_return, up_to_feed};
ghost use Rattle.text_parts.specs.Columns.{begins_character, begins_pair, units, front_on_line};
ghost use Rattle.text_parts.specs.Offsets.{units_in, start_of, reach, offset_of};

use source_lines::position::{between, first_line, is_line_feed, line_of};

/// What a column counts.
#[derive(Clone, Copy, Debug, PartialEq, Eq)]
pub enum ColumnUnit {
    /// Bytes.
    Utf8,
    /// A character of four bytes is two, any other is one.
    Utf16,
}

/// A place as an editor names it.
#[derive(Clone, Copy, Debug, PartialEq, Eq)]
pub struct EditorPlace {
    /// From 0.
    pub line: usize,
    /// From 0.
    pub column: usize,
}

fn begins_character(byte: u8) -> bool
    ensures { result ≡ begins_character byte }
{
    !(127 < byte && byte < 192)
}

fn begins_pair(byte: u8) -> bool
    ensures { result ≡ begins_pair byte }
{
    239 < byte
}

/// How many units bytes have. In bytes that are no UTF-8, one that begins no character counts nothing.
pub fn units(unit: ColumnUnit, bytes: &[u8]) -> usize
    ensures { result ≡ units unit bytes.now }
{
    match unit {
        ColumnUnit::Utf8 => bytes.len(),
        ColumnUnit::Utf16 => {
            let characters = bytes.iter().filter(|b| begins_character(**b)).count();
            let pairs = bytes.iter().filter(|b| begins_pair(**b)).count();
            characters + pairs
        }
    }
}

/// The line and the column of what stands behind so many bytes of a text. A line ends with its line feed.
pub fn place_of(text: &[u8], offset: usize, unit: ColumnUnit) -> EditorPlace
    ensures line { result.line + 1 ≡ number_at text.now offset }
    ensures column { result.column ≡ units unit (front_on_line text.now offset) }
{
    let line = line_of(text, offset);
    EditorPlace {
        line: line.number - 1,
        column: units(unit, between(text, line.start, offset)),
    }
}

/// How many units a byte counts by itself.
fn units_in(unit: ColumnUnit, byte: u8) -> usize
    ensures { result ≡ units_in unit byte }
{
    match unit {
        ColumnUnit::Utf8 => 1,
        ColumnUnit::Utf16 => {
            let character = if begins_character(byte) { 1 } else { 0 };
            let pair = if begins_pair(byte) { 1 } else { 0 };
            character + pair
        }
    }
}

/// How many bytes stand before the line behind so many others; all, if there are not so many.
fn start_of(text: &[u8], lines: usize) -> usize
    ensures is { result ≡ start_of lines text.now }
    ensures within { result ≤ length text.now }
{
    let mut left = lines;
    for (i, byte) in text.iter().enumerate() {
        if left == 0 {
            return i;
        }
        if is_line_feed(*byte) {
            left -= 1;
        }
    }
    text.len()
}

/// How many bytes of a line stand before the first character that so many units do not reach.
fn reach(unit: ColumnUnit, line: &[u8], column: usize) -> usize
    ensures is { result ≡ reach unit column line.now }
    ensures within { result ≤ length line.now }
{
    let mut left = column;
    for (i, byte) in line.iter().enumerate() {
        if left == 0 && begins_character(*byte) {
            return i;
        }
        left = left.saturating_sub(units_in(unit, *byte));
    }
    line.len()
}

/// How many bytes of a text stand before a place. What lies behind the end of a line is its end, before a carriage return; what lies behind the last
/// line is the end of the text, and what lies within a character is the end of that.
pub fn offset_of(text: &[u8], place: EditorPlace, unit: ColumnUnit) -> usize
    ensures is { result ≡ offset_of unit place text.now }
    ensures within { result ≤ length text.now }
{
    let start = start_of(text, place.line);
    let line = first_line(between(text, start, text.len()));
    start + reach(unit, line, place.column)
}
