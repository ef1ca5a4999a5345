//! Lines and columns of a text.

ghost use Rattle.std.specs.Prelude.{◌≡◌, ◌≤◌, ◌<◌, ◌+◌, ◌-◌, length, take, drop};
ghost use Rattle.source_lines.specs.Places.{is_line_feed, is_return, ends_line, shown_offset, trimmed, number_at, start_at, up_to_feed, line_at, width, column_of};

use std::str;

/// A line of a text: its number from 1, how many bytes stand before it, and its bytes.
#[derive(Clone, Copy)]
pub struct TextLine<'t> {
    pub number: usize,
    pub start: usize,
    pub bytes: &'t [u8],
}

/// Whether a byte is a line feed.
pub fn is_line_feed(byte: u8) -> bool
    ensures { result ≡ is_line_feed byte }
{
    byte == b'\n'
}

/// Whether a byte is a carriage return.
fn is_return(byte: u8) -> bool
    ensures { result ≡ is_return byte }
{
    byte == b'\r'
}

/// Whether a byte ends a line.
fn ends_line(byte: u8) -> bool
    ensures { result ≡ ends_line byte }
{
    is_line_feed(byte) || is_return(byte)
}

/// Where the last byte ends that does not end a line.
fn text_end(text: &[u8]) -> usize
    ensures { result ≡ length (trimmed ends_line text.now) }
{
    let mut end = 0usize;
    for (i, byte) in text.iter().enumerate() {
        if !ends_line(*byte) {
            end = i + 1;
        }
    }
    end
}

/// Where a place is shown: the text's end stands behind its last line that is not empty.
pub fn shown_offset(text: &[u8], offset: usize) -> usize
    ensures { result ≡ shown_offset text.now offset }
{
    if offset < text.len() {
        return offset;
    }
    text_end(text)
}

/// The number of the line of a place, counted from 1 by line feeds.
pub fn line_number(text: &[u8], offset: usize) -> usize
    ensures { result ≡ number_at text.now offset }
{
    let front = front(text, offset);
    let mut number = 1usize;
    for byte in front {
        if is_line_feed(*byte) {
            number += 1;
        }
    }
    number
}

/// So many bytes of a text, or all of them.
fn front(text: &[u8], end: usize) -> &[u8]
    ensures { result.now ≡ take end text.now }
{
    if end < text.len() { &text[..end] } else { text }
}

/// How many bytes stand before the line of a place.
fn line_start(text: &[u8], offset: usize) -> usize
    ensures { result ≡ start_at text.now offset }
{
    let mut start = 0usize;
    for (i, byte) in front(text, offset).iter().enumerate() {
        if is_line_feed(*byte) {
            start = i + 1;
        }
    }
    start
}

/// How many bytes stand before the end of the first line, without a carriage return.
fn first_end(text: &[u8]) -> usize
    ensures is { take result text.now ≡ trimmed is_return (up_to_feed text.now) }
    ensures within { result ≤ length text.now }
{
    let mut end = 0usize;
    for (i, byte) in text.iter().enumerate() {
        if is_line_feed(*byte) {
            return end;
        }
        if !is_return(*byte) {
            end = i + 1;
        }
    }
    end
}

/// The first line of a text, without what ends it.
pub fn first_line(text: &[u8]) -> &[u8]
    ensures { result.now ≡ trimmed is_return (up_to_feed text.now) }
{
    front(text, first_end(text))
}

/// The bytes from one place to another.
pub fn between(text: &[u8], from: usize, to: usize) -> &[u8]
    ensures { result.now ≡ take (to - from) (drop from text.now) }
{
    if text.len() <= from || to <= from {
        return &text[..0];
    }
    front(&text[from..], to - from)
}

/// The line of a place.
pub fn line_of(text: &[u8], offset: usize) -> TextLine<'_>
    ensures number { result.number ≡ number_at text.now offset }
    ensures start { result.start ≡ start_at text.now offset }
    ensures bytes { result.bytes.now ≡ line_at text.now offset }
{
    let start = line_start(text, offset);
    TextLine {
        number: line_number(text, offset),
        start,
        bytes: first_line(between(text, start, text.len())),
    }
}

/// How many characters bytes are, or how many bytes where they are no UTF-8.
pub fn width(bytes: &[u8]) -> usize
    ensures is { result ≡ width bytes.now }
    ensures bounded { result ≤ length bytes.now }
{
    match str::from_utf8(bytes) {
        Ok(text) => text.chars().count(),
        Err(_) => bytes.len(),
    }
}

/// The column of what stands behind so many bytes of a line, counted from 1.
pub fn column(line: &[u8], onset: usize) -> usize
    ensures { result ≡ column_of line.now onset }
{
    width(front(line, onset)) + 1
}
