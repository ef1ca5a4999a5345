//! The bytes that a row writes: a grave accent and two hexadecimal digits are one byte.
use row_files::{Refused, RowWriter};
use std::alloc::Global;

fn digit_value(digit: u8) -> Option<u8> {
    match digit {
        b'0'..=b'9' => Some(digit.wrapping_sub(b'0')),
        b'a'..=b'f' => Some(digit.wrapping_sub(b'a').wrapping_add(10)),
        _ => None,
    }
}

/// What is read of a byte.
#[derive(Clone, Copy)]
enum Read {
    /// All of it.
    Whole(u8),
    /// The grave accent.
    Mark,
    /// The value of its first digit.
    First(u8),
    /// A digit that is none.
    Wrong,
}

impl Read {
    /// What is read with a sign more.
    fn with(self, sign: u8) -> Read {
        match (self, digit_value(sign)) {
            (Read::Whole(_), _) if sign == b'`' => Read::Mark,
            (Read::Whole(_), _) => Read::Whole(sign),
            (Read::Mark, Some(digit)) => Read::First(digit),
            (Read::First(first), Some(digit)) => Read::Whole(
                first.wrapping_mul(16).wrapping_add(digit),
            ),
            _ => Read::Wrong,
        }
    }
}

/// The bytes that are written so.
pub fn bytes_of(alloc: Global, written: &str) -> Result<Vec<u8>, Refused> {
    let mut bytes = Vec::new(alloc);
    let mut read = Read::Whole(0);
    for sign in written.as_bytes() {
        read = read.with(*sign);
        if let Read::Whole(byte) = read {
            bytes.push(byte)?;
        }
    }
    match read {
        Read::Whole(_) => Ok(bytes),
        _ => Err(Refused::from("a byte has two digits")),
    }
}

/// Writes a number of times what stands behind that number.
fn add_repeated(part: &str, out: &mut RowWriter) {
    let (count, piece) = part.split_once(" ").unwrap_or((part, ""));
    match count.parse::<usize>() {
        Ok(count) => out.repeated(piece, count),
        Err(_) => out.refuse("a part has a number"),
    }
}

/// Writes the parts with `|` between them, each a number and what stands there that many times.
pub fn add_parts(parts: &str, out: &mut RowWriter) {
    for part in parts.split("|") {
        add_repeated(part, out);
    }
}
