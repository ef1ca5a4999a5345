//! Blanks in place of bytes.

ghost use Rattle.std.specs.Prelude.{◌≡◌, ◌++◌, ◌+◌, ◌≤◌, length, drop, OnOk};
ghost use Rattle.text_parts.specs.Written.{is_gap, shown_in, byte_for, written};

use source_lines::position::is_line_feed;
use std::alloc::AllocError;

/// Whether a byte is a blank or a line feed.
fn is_gap(byte: u8) -> bool
    ensures { result ≡ is_gap byte }
{
    byte == b' ' || is_line_feed(byte)
}

/// How many bytes are neither.
pub fn shown_in(bytes: &[u8]) -> usize
    ensures { result ≡ shown_in bytes.now }
{
    let mut count = 0usize;
    for (i, byte) in bytes.iter().enumerate() {
        let _read = i;
        if !is_gap(*byte) {
            count += 1;
        }
    }
    count
}

/// The first of some signs, or a blank.
fn byte_for(signs: &[u8]) -> u8
    ensures { result ≡ byte_for signs.now }
{
    match signs {
        [sign, ..] => *sign,
        [] => b' ',
    }
}

/// The signs behind the first one.
fn behind(signs: &[u8]) -> &[u8]
    ensures { result.now ≡ drop 1 signs.now }
{
    match signs {
        [_, rest @ ..] => rest,
        [] => signs,
    }
}

/// Adds signs, and then blanks, in place of bytes; line feeds stay.
pub fn write(out: &mut Vec<u8>, signs: &[u8], bytes: &[u8]) -> Result<(), AllocError>
    ensures { OnOk result (out.new.items ≡ out.old.items ++ written signs.now bytes.now) }
{
    let mut rest = signs;
    for byte in bytes {
        if is_line_feed(*byte) {
            out.push(*byte)?;
        } else {
            out.push(byte_for(rest))?;
            rest = behind(rest);
        }
    }
    Ok(())
}
