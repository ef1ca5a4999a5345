//! Bytes that others wrote, as a terminal is shown them: their signs as `--explain` shows them.

ghost use Rattle.std.specs.Prelude.{◌≡◌, ◌++◌, OnOk, IfOk, chars, string_bytes};
ghost use Rattle.std.specs.List.{flat_map, list_all};
ghost use Rattle.view_text.specs.Written.{Adds};
ghost use Rattle.view_foreign.specs.Shown.{is_plain, sign_of, shown_sign, shown_sign_byte, shown_text, shown_bytes};

use source_lines::signs::push_shown;
use std::alloc::{AllocError, Global};
use std::str;
use view_text::writer::Writer;

// Whether a byte is shown as it is, wherever it stands.
fn is_plain(byte: u8) -> bool
    ensures { result ≡ is_plain byte }
{
    byte == b'\n' || (b' ' <= byte && byte <= b'~')
}

/// Whether all bytes are shown as they are. No byte ends the loop, so a machine asks many at once.
pub fn are_plain(bytes: &[u8]) -> bool
    ensures { result ≡ list_all is_plain bytes.now }
{
    let mut are = true;
    for byte in bytes {
        are = are & is_plain(*byte);
    }
    are
}

fn push_sign(out: &mut String, c: char) -> Result<(), AllocError>
    ensures { OnOk result (string_bytes out.new ≡ string_bytes out.old ++ shown_sign c) }
{
    match c {
        '\n' => out.push('\n'),
        '\r' => Ok(()),
        _ => push_shown(out, c),
    }
}

// A sign for a byte that is of no character: one that no terminal prints for each above 127.
fn sign_of(byte: u8) -> char
    ensures { result ≡ sign_of byte }
{
    if byte < 128 {
        char::from(byte)
    } else {
        '\u{80}'
    }
}

fn show_signs(out: &mut String, text: &str) -> Result<(), AllocError>
    ensures { OnOk result (string_bytes out.new ≡ string_bytes out.old ++ flat_map shown_sign (chars text.now)) }
{
    for c in text.chars() {
        push_sign(out, c)?;
    }
    Ok(())
}

fn show_bytes(out: &mut String, bytes: &[u8]) -> Result<(), AllocError>
    ensures { OnOk result (string_bytes out.new ≡ string_bytes out.old ++ flat_map shown_sign_byte bytes.now) }
{
    for byte in bytes {
        push_sign(out, sign_of(*byte))?;
    }
    Ok(())
}

// Adds the characters of lines, or their bytes where they are no UTF-8.
fn show_text(out: &mut String, bytes: &[u8]) -> Result<(), AllocError>
    ensures { OnOk result (string_bytes out.new ≡ string_bytes out.old ++ shown_text bytes.now) }
{
    match str::from_utf8(bytes) {
        Ok(text) => show_signs(out, text),
        Err(_) => show_bytes(out, bytes),
    }
}

fn text_of(alloc: Global, bytes: &[u8]) -> Result<String, AllocError>
    ensures { IfOk result (λ t. string_bytes t ≡ shown_text bytes.now) }
{
    let mut text = String::new(alloc);
    show_text(&mut text, bytes)?;
    Ok(text)
}

fn add_text(bytes: &[u8], out: &mut Writer)
    ensures { Adds out.old out.new (shown_text bytes.now) }
{
    match text_of(out.allocator(), bytes) {
        Ok(text) => out.add(text.as_bytes()),
        Err(_) => out.refuse(),
    }
}

/// Writes bytes as they are shown.
pub fn add_shown(bytes: &[u8], out: &mut Writer)
    ensures { Adds out.old out.new (shown_bytes bytes.now) }
{
    if are_plain(bytes) {
        out.add(bytes);
    } else {
        add_text(bytes, out);
    }
}
