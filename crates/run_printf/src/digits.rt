//! Numbers in octal and hexadecimal digits.

ghost use Rattle.std.specs.Prelude.{◌≡◌, ◌<◌, ◌≤◌, ◌++◌, false, OnOk, OnErr};
ghost use Rattle.std.specs.Fmt.{digit_glyph, digits};
ghost use Rattle.std.specs.Io.{StartsWith};

use std::alloc::AllocError;

/// The digit for a number, a lower-case letter from 10 on.
fn digit(value: u8) -> u8
    requires { value < 16 }
    ensures { result ≡ digit_glyph false value }
{
    if value < 10 {
        b'0' + value
    } else {
        b'a' + (value - 10)
    }
}

/// Appends a number in a base.
pub fn add_digits(base: u32, number: u32, text: &mut Vec<u8>) -> Result<(), AllocError>
    requires least { 2 ≤ base }
    requires most { base ≤ 16 }
    ensures added { OnOk result (text.new.items ≡ text.old.items ++ digits base false number) }
    ensures kept { OnErr result (StartsWith text.new.items text.old.items) }
{
    if number >= base {
        add_digits(base, number / base, text)?;
    }
    text.push(digit((number % base) as u8))?;
    Ok(())
}
