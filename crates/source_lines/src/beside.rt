//! The line of a text that another one was prepared of, and the place on it.

ghost use Rattle.std.specs.Prelude.{◌≡◌, ◌≤◌, length, option_map};
ghost use Rattle.source_lines.specs.Beside.{behind_feeds, numbered_line, is_of_word, is_joined, stands_at, count_before, place_of, place_by, place_on, seen_on, seen_in};
ghost use Rattle.source_lines.specs.Seen.{sight_of};

use crate::position::{between, first_line, is_line_feed};
use crate::window::least;

/// Whether a byte may stand within a word.
fn is_of_word(byte: u8) -> bool
    ensures { result ≡ is_of_word byte }
{
    byte == b'_' || byte.is_ascii_digit() || byte.is_ascii_uppercase() || byte.is_ascii_lowercase()
}

/// Whether two bytes side by side are of one word.
fn is_joined(line: &[u8], at: usize) -> bool
    ensures { result ≡ is_joined line.now at }
{
    0 < at && at < line.len() && is_of_word(line[at - 1]) && is_of_word(line[at])
}

/// Whether a token stands at a place of a line, and goes on neither before it nor behind it.
fn stands_at(line: &[u8], token: &[u8], at: usize) -> bool
    requires { at ≤ length line.now }
    ensures { result ≡ stands_at line.now token.now at }
{
    let end = at + token.len();
    !is_joined(line, at) && !is_joined(line, end) && between(line, at, end) == token
}

/// How often a token stands on a line before a place.
fn count_before(line: &[u8], token: &[u8], end: usize) -> usize
    requires { end ≤ length line.now }
    ensures { result ≡ count_before line.now token.now end }
{
    let mut count = 0usize;
    for at in 0..end {
        if stands_at(line, token, at) {
            count += 1;
        }
    }
    count
}

/// Where a token stands on a line behind so many others of its own.
fn place_of(line: &[u8], token: &[u8], before: usize) -> Option<usize>
    ensures { result ≡ place_of line.now token.now before }
{
    let mut left = before;
    for at in 0..line.len() {
        if stands_at(line, token, at) {
            if left == 0 {
                return Some(at);
            }
            left -= 1;
        }
    }
    None
}

/// By how often it stands on the one line and on the other: as the same of as many, or as the only one.
fn place_by(count: usize, other: usize, own: &[u8], token: &[u8], before: usize) -> Option<usize>
    ensures { result ≡ place_by count other own.now token.now before }
{
    if count == other {
        place_of(own, token, before)
    } else if count == 1 {
        place_of(own, token, 0)
    } else {
        None
    }
}

/// Where the token at a place of one line stands on another.
fn place_on(own: &[u8], line: &[u8], onset: usize, token: &[u8]) -> Option<usize>
    requires { onset ≤ length line.now }
    ensures { result ≡ place_on own.now line.now onset token.now }
{
    if token.len() == 0 {
        return None;
    }
    let count = count_before(own, token, own.len());
    let other = count_before(line, token, line.len());
    place_by(count, other, own, token, count_before(line, token, onset))
}

/// What stands behind so many line feeds.
fn behind_feeds(text: &[u8], feeds: usize) -> Option<&[u8]>
    ensures { option_map (λ s. s.now) result ≡ behind_feeds text.now feeds }
{
    let mut left = feeds;
    for at in 0..text.len() {
        if left == 0 {
            return Some(&text[at..]);
        }
        if is_line_feed(text[at]) {
            left -= 1;
        }
    }
    if left == 0 { Some(&text[..0]) } else { None }
}

/// The line of this number, without what ends it.
pub fn numbered_line(text: &[u8], number: usize) -> Option<&[u8]>
    ensures { option_map (λ s. s.now) result ≡ numbered_line text.now number }
{
    match behind_feeds(text, number.saturating_sub(1)) {
        Some(behind) => Some(first_line(behind)),
        None => None,
    }
}

/// What is shown of a line: its bytes, where the place begins on it, if it is found there, and how many bytes it has.
#[derive(Clone, Copy)]
pub struct LineSight<'t> {
    pub bytes: &'t [u8],
    pub onset: Option<usize>,
    pub length: usize,
}

/// What is shown of another line than that of the text: the token's place on it.
fn seen_on<'t>(own: &'t [u8], line: &[u8], onset: usize, length: usize) -> LineSight<'t>
    ensures { sight_of result ≡ seen_on own.now line.now onset length }
{
    let onset = least(onset, line.len());
    let end = if length < line.len() - onset {
        onset + length
    } else {
        line.len()
    };
    let token = between(line, onset, end);
    LineSight {
        bytes: own,
        onset: place_on(own, line, onset, token),
        length: token.len(),
    }
}

/// What is shown of the line of this number with a place of so many bytes: where the source's line of the number is another, that one.
pub fn seen_in<'t>(
    source: &'t [u8],
    number: usize,
    line: &'t [u8],
    onset: usize,
    length: usize,
) -> LineSight<'t>
    ensures { sight_of result ≡ seen_in source.now number line.now onset length }
{
    match numbered_line(source, number) {
        Some(own) if own != line => seen_on(own, line, onset, length),
        _ => LineSight {
            bytes: line,
            onset: Some(onset),
            length,
        },
    }
}
