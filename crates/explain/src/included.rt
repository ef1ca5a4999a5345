//! The lines of included files in a text that was prepared: they stand on the line of their `#include`, a form feed behind each.

ghost use Rattle.std.specs.Prelude.{◌≡◌, length, None};

use source_lines::position::{TextLine, between, line_of};
use std::str;

/// What stands behind each line of an included file.
const FORM_FEED: u8 = 12;

/// The line of an included file on which a place lies, as it stands in the text, and the file's name.
#[derive(Clone, Copy)]
pub struct Included<'t> {
    pub file: &'t str,
    pub line: TextLine<'t>,
}

/// A row of a table of lines: on this line of the text, behind so many form feeds, the lines of a file go on from this number. The model's own
/// file has no name.
#[derive(Clone, Copy)]
struct Row<'t> {
    line: usize,
    feeds: usize,
    number: usize,
    file: &'t [u8],
}

/// A number in front of a blank, and what stands behind that.
fn number_before(text: &[u8]) -> Option<(usize, &[u8])> {
    let mut words = text.splitn(2, |byte| *byte == b' ');
    let number = str::from_utf8(words.next()?).ok()?.parse::<usize>().ok()?;
    Some((number, words.next()?))
}

fn row_of(text: &[u8]) -> Option<Row<'_>> {
    let (line, behind) = number_before(text)?;
    let (feeds, behind) = number_before(behind)?;
    let (number, file) = number_before(behind)?;
    Some(Row {
        line,
        feeds,
        number,
        file,
    })
}

/// The last row of a line of the text that holds behind so many form feeds.
fn row_at<'t>(table: &'t [u8], line: usize, feeds: usize) -> Option<Row<'t>> {
    let mut found = None;
    for text in table.split(|byte| *byte == b'\n') {
        if let Some(row) = row_of(text) {
            if row.line == line && row.feeds <= feeds {
                found = Some(row);
            }
        }
    }
    found
}

/// How many form feeds stand before a place of a line.
fn feeds_before(line: &[u8], onset: usize) -> usize {
    let mut count = 0usize;
    for byte in between(line, 0, onset) {
        if *byte == FORM_FEED {
            count = count.saturating_add(1);
        }
    }
    count
}

/// Where the part of a line between form feeds begins in which a place lies, and where it ends.
fn part_round(line: &[u8], onset: usize) -> (usize, usize) {
    let mut start = 0usize;
    for (at, byte) in line.iter().enumerate() {
        if *byte == FORM_FEED {
            if at >= onset {
                return (start, at);
            }
            start = at.saturating_add(1);
        }
    }
    (start, line.len())
}

/// The line of an included file on which the place behind so many bytes of a text lies, if this table says so of it.
pub fn included_at<'t>(text: &'t [u8], table: &'t [u8], offset: usize) -> Option<Included<'t>>
    ensures { length table.now ≡ 0 → result ≡ None }
{
    if table.is_empty() {
        return None;
    }
    let line = line_of(text, offset);
    let onset = offset.saturating_sub(line.start).min(line.bytes.len());
    let feeds = feeds_before(line.bytes, onset);
    let row = row_at(table, line.number, feeds)?;
    if row.file.is_empty() {
        return None;
    }
    let (start, end) = part_round(line.bytes, onset);
    Some(Included {
        file: str::from_utf8(row.file).ok()?,
        line: TextLine {
            number: row.number.saturating_add(feeds.saturating_sub(row.feeds)),
            start: line.start.saturating_add(start),
            bytes: between(line.bytes, start, end),
        },
    })
}
