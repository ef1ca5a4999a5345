//! The line of a place, and the carets below it.

ghost use Rattle.std.specs.Prelude.{◌≡◌, ◌++◌, ◌-◌, length, OnOk, chars, string_bytes, replicate, codes};
ghost use Rattle.std.specs.List.{flat_map};
ghost use Rattle.std.specs.Fmt.{decimal};
ghost use Rattle.source_lines.specs.Signs.{shown_character};
ghost use Rattle.source_lines.specs.Shown.{shown_byte, shown, where_cut, margin, empty_margin, upper, lower, marked, line_with_carets, line_alone};

use crate::below::{blank, blanks, carets};
use crate::position::between;
use crate::signs::push_shown;
use crate::window::{Window, window_round};
use itoa::Buffer;
use std::alloc::AllocError;
use std::str;

/// Adds characters as they are shown.
pub fn show_chars(out: &mut String, text: &str) -> Result<(), AllocError>
    ensures { OnOk result (string_bytes out.new ≡ string_bytes out.old ++ flat_map shown_character (chars text.now)) }
{
    for c in text.chars() {
        push_shown(out, c)?;
    }
    Ok(())
}

/// A byte as it is shown: `?` in place of what no terminal prints.
pub fn printable(byte: u8) -> char {
    if b' ' <= byte && byte <= b'~' {
        char::from(byte)
    } else {
        '?'
    }
}

fn push_byte(out: &mut String, byte: u8) -> Result<(), AllocError>
    ensures { OnOk result (string_bytes out.new ≡ string_bytes out.old ++ shown_byte byte) }
{
    let is_shown = byte == b'\t' || (b' ' <= byte && byte <= b'~');
    out.push(if is_shown { char::from(byte) } else { '?' })
}

fn show_bytes(out: &mut String, bytes: &[u8]) -> Result<(), AllocError>
    ensures { OnOk result (string_bytes out.new ≡ string_bytes out.old ++ flat_map shown_byte bytes.now) }
{
    for byte in bytes {
        push_byte(out, *byte)?;
    }
    Ok(())
}

/// Adds bytes of a line: its characters, or its bytes where they are no UTF-8.
fn show(out: &mut String, bytes: &[u8]) -> Result<(), AllocError>
    ensures { OnOk result (string_bytes out.new ≡ string_bytes out.old ++ shown bytes.now) }
{
    match str::from_utf8(bytes) {
        Ok(text) => show_chars(out, text),
        Err(_) => show_bytes(out, bytes),
    }
}

/// Adds a number.
pub fn push_number(out: &mut String, number: usize) -> Result<(), AllocError>
    ensures { OnOk result (string_bytes out.new ≡ string_bytes out.old ++ decimal number) }
{
    let mut buffer = Buffer::new();
    out.push_str(buffer.format(number))
}

/// How many digits a number has.
fn digits_of(number: usize) -> usize
    ensures { result ≡ length (decimal number) }
{
    let mut buffer = Buffer::new();
    buffer.format(number).len()
}

/// Adds a number with blanks before it, five characters at least.
fn push_margin(out: &mut String, number: usize) -> Result<(), AllocError>
    ensures { OnOk result (string_bytes out.new ≡ string_bytes out.old ++ margin number) }
{
    blanks(out, 5usize.saturating_sub(digits_of(number)))?;
    push_number(out, number)?;
    out.push_str(" | ")
}

/// Adds as many blanks.
fn push_empty_margin(out: &mut String, number: usize) -> Result<(), AllocError>
    ensures { OnOk result (string_bytes out.new ≡ string_bytes out.old ++ empty_margin number) }
{
    let digits = digits_of(number);
    blanks(out, 5usize.saturating_sub(digits))?;
    blanks(out, digits)?;
    out.push_str(" | ")
}

/// Adds words where something is left out.
fn cut(out: &mut String, is_cut: bool, words: &str) -> Result<(), AllocError>
    ensures { OnOk result (string_bytes out.new ≡ string_bytes out.old ++ where_cut is_cut words.now) }
{
    if is_cut { out.push_str(words) } else { Ok(()) }
}

/// Adds what is shown of a line.
fn push_upper(out: &mut String, line: &[u8], window: Window) -> Result<(), AllocError>
    ensures { OnOk result (string_bytes out.new ≡ string_bytes out.old ++ upper line.now window) }
{
    cut(out, 0 < window.from, "..")?;
    show(out, between(line, window.from, window.to))?;
    cut(out, window.to < line.len(), "..")?;
    out.push_str("\n")
}

/// Adds a caret for each character that shows what is marked, and one at least.
fn push_lower(out: &mut String, line: &[u8], window: Window) -> Result<(), AllocError>
    ensures { OnOk result (string_bytes out.new ≡ string_bytes out.old ++ lower line.now window) }
{
    cut(out, 0 < window.from, "  ")?;
    blank(out, between(line, window.from, window.onset))?;
    carets(out, between(line, window.onset, window.onset_end))?;
    out.push_str("\n")
}

/// Adds a line and the carets below so many of its bytes, behind so many others.
pub fn show_line(
    out: &mut String,
    number: usize,
    line: &[u8],
    onset: usize,
    bytes: usize,
) -> Result<(), AllocError>
    ensures { OnOk result (string_bytes out.new ≡ string_bytes out.old ++ line_with_carets number line.now onset bytes) }
{
    let window = window_round(line, onset, bytes);
    push_margin(out, number)?;
    push_upper(out, line, window)?;
    push_empty_margin(out, number)?;
    push_lower(out, line, window)
}

/// Adds a line alone.
pub fn show_alone(out: &mut String, number: usize, line: &[u8]) -> Result<(), AllocError>
    ensures { OnOk result (string_bytes out.new ≡ string_bytes out.old ++ line_alone number line.now) }
{
    push_margin(out, number)?;
    push_upper(out, line, window_round(line, 0, 0))
}
