//! What stands at the front of bytes that were read.

ghost use Rattle.std.specs.Prelude.{◌≡◌, ◌≤◌, true};
ghost use Rattle.message_frames.specs.declared.front.TheConstants.{MOST_BYTES};
ghost use Rattle.message_frames.specs.Front.{ends_head, head_length, is_blank, are_blank, number_behind, within, number_of, line, begins_length, length_from, behind, front_of};

use source_lines::position::between;

/// A message has no more bytes than this.
pub const MOST_BYTES: usize = 16_777_216;

/// A head has no more bytes than this.
pub const MOST_HEAD: usize = 4_096;

/// What stands at the front of bytes.
#[derive(Clone, Copy, Debug, PartialEq, Eq)]
pub enum Front {
    /// A whole message, whose body lies between these places.
    Message(usize, usize),
    /// A part of one.
    Part,
    /// No head of a message.
    Bad,
}

/// Whether an empty line is next.
fn ends_head(bytes: &[u8]) -> bool
    ensures { result ≡ ends_head bytes.now }
{
    between(bytes, 0, 4) == b"\r\n\r\n".as_slice()
}

/// How many bytes a head has, with its empty line.
fn head_length(bytes: &[u8]) -> Option<usize>
    ensures { result ≡ head_length bytes.now }
{
    let mut passed = 0usize;
    let mut rest = bytes;
    while !rest.is_empty() {
        if ends_head(rest) {
            return Some(passed + 4);
        }
        passed += 1;
        rest = &rest[1..];
    }
    None
}

fn is_blank(byte: u8) -> bool
    ensures { result ≡ is_blank byte }
{
    byte == b' ' || byte == b'\t' || byte == b'\r'
}

fn are_blank(bytes: &[u8]) -> bool
    ensures { result ≡ are_blank bytes.now }
{
    let mut rest = bytes;
    while !rest.is_empty() {
        if !is_blank(rest[0]) {
            return false;
        }
        rest = &rest[1..];
    }
    true
}

/// The number that goes on with the digits of a line, if only blanks are behind them; none too where a message may not have as many bytes.
fn number_behind(bytes: &[u8]) -> Option<usize>
    ensures { result ≡ within (number_behind 0 bytes.now) }
{
    let mut number = 0usize;
    let mut rest = bytes;
    while !rest.is_empty() {
        let byte = rest[0];
        if !byte.is_ascii_digit() {
            return if are_blank(rest) { Some(number) } else { None };
        }
        number = number * 10 + (byte - b'0') as usize;
        if number > MOST_BYTES {
            return None;
        }
        rest = &rest[1..];
    }
    Some(number)
}

/// The number of a line: blanks, digits, blanks.
fn number_of(bytes: &[u8]) -> Option<usize>
    ensures { result ≡ within (number_of bytes.now) }
{
    let mut rest = bytes;
    while !rest.is_empty() {
        if rest[0].is_ascii_digit() {
            return number_behind(rest);
        }
        if !is_blank(rest[0]) {
            return None;
        }
        rest = &rest[1..];
    }
    None
}

/// A line, up to its line feed.
fn line(bytes: &[u8]) -> &[u8]
    ensures { result.now ≡ line bytes.now }
{
    let mut length = 0usize;
    let mut rest = bytes;
    while !rest.is_empty() {
        if rest[0] == b'\n' {
            return &bytes[..length];
        }
        length += 1;
        rest = &rest[1..];
    }
    bytes
}

/// Whether the field that tells the length of the body is next.
fn begins_length(bytes: &[u8]) -> bool
    ensures { result ≡ begins_length bytes.now }
{
    between(bytes, 0, 15).eq_ignore_ascii_case(b"content-length:")
}

/// The length that a head gives in the first line that tells it.
fn length_in(head: &[u8]) -> Option<usize>
    ensures { result ≡ within (length_from true head.now) }
{
    let mut begins = true;
    let mut rest = head;
    while !rest.is_empty() {
        if begins && begins_length(rest) {
            return number_of(line(between(rest, 15, rest.len())));
        }
        begins = rest[0] == b'\n';
        rest = &rest[1..];
    }
    None
}

/// A body of so many bytes behind a head.
fn behind(bytes: &[u8], head: usize, length: usize) -> Front
    requires { length ≤ MOST_BYTES }
    ensures { result ≡ behind bytes.now head length }
{
    let end = head.saturating_add(length);
    if end <= bytes.len() {
        Front::Message(head, end)
    } else {
        Front::Part
    }
}

/// What stands at the front of bytes.
pub fn front_of(bytes: &[u8]) -> Front
    ensures { result ≡ front_of bytes.now }
{
    match head_length(bytes) {
        Some(head) if head > MOST_HEAD => Front::Bad,
        Some(head) => match length_in(between(bytes, 0, head)) {
            Some(length) => behind(bytes, head, length),
            None => Front::Bad,
        },
        None => {
            if bytes.len() > MOST_HEAD {
                Front::Bad
            } else {
                Front::Part
            }
        }
    }
}
