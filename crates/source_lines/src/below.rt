//! Blanks and carets below a line.

ghost use Rattle.std.specs.Prelude.{◌≡◌, ◌++◌, OnOk, chars, string_bytes, replicate};
ghost use Rattle.std.specs.List.{flat_map};
ghost use Rattle.source_lines.specs.Shown.{below_character, below_byte, below, carets_below, carets};

use crate::signs::shown_width;
use std::alloc::AllocError;
use std::str;

/// Adds so many blanks.
pub fn blanks(out: &mut String, count: usize) -> Result<(), AllocError>
    ensures { OnOk result (string_bytes out.new ≡ string_bytes out.old ++ replicate count 32) }
{
    for _ in 0..count {
        out.push(' ')?;
    }
    Ok(())
}

/// Adds so many carets.
fn some_carets(out: &mut String, count: usize) -> Result<(), AllocError>
    ensures { OnOk result (string_bytes out.new ≡ string_bytes out.old ++ replicate count 94) }
{
    for _ in 0..count {
        out.push('^')?;
    }
    Ok(())
}

/// Adds blanks below a character; a tab stays one.
fn blank_below(out: &mut String, c: char) -> Result<(), AllocError>
    ensures { OnOk result (string_bytes out.new ≡ string_bytes out.old ++ below_character c) }
{
    if c == '\t' {
        out.push('\t')
    } else {
        blanks(out, shown_width(c))
    }
}

fn blank_chars(out: &mut String, text: &str) -> Result<(), AllocError>
    ensures { OnOk result (string_bytes out.new ≡ string_bytes out.old ++ flat_map below_character (chars text.now)) }
{
    for c in text.chars() {
        blank_below(out, c)?;
    }
    Ok(())
}

fn blank_bytes(out: &mut String, bytes: &[u8]) -> Result<(), AllocError>
    ensures { OnOk result (string_bytes out.new ≡ string_bytes out.old ++ flat_map below_byte bytes.now) }
{
    for byte in bytes {
        out.push(if *byte == b'\t' { '\t' } else { ' ' })?;
    }
    Ok(())
}

/// Adds as many blanks as characters show these bytes; a tab stays one.
pub fn blank(out: &mut String, bytes: &[u8]) -> Result<(), AllocError>
    ensures { OnOk result (string_bytes out.new ≡ string_bytes out.old ++ below bytes.now) }
{
    match str::from_utf8(bytes) {
        Ok(text) => blank_chars(out, text),
        Err(_) => blank_bytes(out, bytes),
    }
}

fn caret_chars(out: &mut String, text: &str) -> Result<(), AllocError>
    ensures { OnOk result (string_bytes out.new ≡ string_bytes out.old ++ flat_map carets_below (chars text.now)) }
{
    for c in text.chars() {
        some_carets(out, shown_width(c))?;
    }
    Ok(())
}

/// Adds a caret for each character that shows these bytes, and one at least.
pub fn carets(out: &mut String, bytes: &[u8]) -> Result<(), AllocError>
    ensures { OnOk result (string_bytes out.new ≡ string_bytes out.old ++ carets bytes.now) }
{
    if bytes.is_empty() {
        return out.push('^');
    }
    match str::from_utf8(bytes) {
        Ok(text) => caret_chars(out, text),
        Err(_) => some_carets(out, bytes.len()),
    }
}
