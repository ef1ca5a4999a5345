//! Signs that no terminal prints, or that turn the direction of what stands behind them: a line of JSON has them by their numbers.

ghost use Rattle.std.specs.Prelude.{◌≡◌, ◌%◌, ◌++◌, OnOk, IfOk, chars, string_bytes};
ghost use Rattle.std.specs.Char.{digit_char};
ghost use Rattle.std.specs.List.{flat_map};
ghost use Rattle.view_text.specs.Written.{Adds};
ghost use Rattle.view_foreign.specs.Escaped.{is_hidden, escaped_character, escaped_text, escaped};
ghost use Rattle.source_lines.specs.Signs.{digits_of};

use crate::shown::are_plain;
use source_lines::signs::is_unseen;
use std::alloc::{AllocError, Global};
use std::str;
use view_text::writer::Writer;

// A digit of sixteen.
fn digit(number: u32) -> char
    ensures { result ≡ digit_char (number % 16) }
{
    let digit = number % 16;
    if digit < 10 {
        char::from(b'0' + u8::try_from(digit).unwrap_or(0))
    } else {
        char::from(b'a' - 10 + u8::try_from(digit).unwrap_or(0))
    }
}

// Adds the four digits of such a sign.
fn push_digits(out: &mut String, c: char) -> Result<(), AllocError>
    ensures { OnOk result (string_bytes out.new ≡ string_bytes out.old ++ digits_of c) }
{
    let number = u32::from(c);
    out.push(digit(number / 4096))?;
    out.push(digit(number / 256))?;
    out.push(digit(number / 16))?;
    out.push(digit(number))
}

// Whether a character of a line is such a sign. The others below 32 are escaped where a string is written.
fn is_hidden(c: char) -> bool
    ensures { result ≡ is_hidden c }
{
    is_unseen(c) || (c != '\n' && c.is_control())
}

// Adds a character of a line.
fn push_escaped(out: &mut String, c: char) -> Result<(), AllocError>
    ensures { OnOk result (string_bytes out.new ≡ string_bytes out.old ++ escaped_character c) }
{
    if is_hidden(c) {
        out.push_str("\\u")?;
        return push_digits(out, c);
    }
    out.push(c)
}

fn push_all(out: &mut String, text: &str) -> Result<(), AllocError>
    ensures { OnOk result (string_bytes out.new ≡ string_bytes out.old ++ flat_map escaped_character (chars text.now)) }
{
    for c in text.chars() {
        push_escaped(out, c)?;
    }
    Ok(())
}

fn escaped_of(alloc: Global, text: &str) -> Result<String, AllocError>
    ensures { IfOk result (λ t. string_bytes t ≡ flat_map escaped_character (chars text.now)) }
{
    let mut out = String::new(alloc);
    push_all(&mut out, text)?;
    Ok(out)
}

fn add_text(text: &str, out: &mut Writer)
    ensures { Adds out.old out.new (flat_map escaped_character (chars text.now)) }
{
    match escaped_of(out.allocator(), text) {
        Ok(text) => out.add(text.as_bytes()),
        Err(_) => out.refuse(),
    }
}

fn add_bytes(lines: &[u8], out: &mut Writer)
    ensures { Adds out.old out.new (escaped_text lines.now) }
{
    match str::from_utf8(lines) {
        Ok(text) => add_text(text, out),
        Err(_) => out.add(lines),
    }
}

/// Writes lines of JSON with such signs by their numbers: outside their strings there is none.
pub fn add_escaped(lines: &[u8], out: &mut Writer)
    ensures { Adds out.old out.new (escaped lines.now) }
{
    if are_plain(lines) {
        out.add(lines);
    } else {
        add_bytes(lines, out);
    }
}
