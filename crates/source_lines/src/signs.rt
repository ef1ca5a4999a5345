//! Signs that have no width, or that turn the direction of what stands behind them: they are shown by their numbers.

ghost use Rattle.std.specs.Prelude.{◌≡◌, ◌%◌, ◌++◌, ◌∷◌, [], OnOk, string_bytes};
ghost use Rattle.std.specs.Char.{digit_char};
ghost use Rattle.source_lines.specs.Signs.{is_unseen, number_of, shown_character, shown_width};

use std::alloc::AllocError;

/// So many characters show such a sign: `\u{202e}`.
const SHOWN_WIDTH: usize = 8;

/// Whether a character is such a sign.
pub fn is_unseen(c: char) -> bool
    ensures { result ≡ is_unseen c }
{
    let number = u32::from(c);
    (0x200b <= number && number <= 0x200f)
        || (0x2028 <= number && number <= 0x202e)
        || (0x2066 <= number && number <= 0x2069)
        || number == 0xfeff
}

/// How many characters show a character.
pub fn shown_width(c: char) -> usize
    ensures { result ≡ shown_width c }
{
    if is_unseen(c) { SHOWN_WIDTH } else { 1 }
}

/// The last digit of sixteen of a number.
fn digit(number: u32) -> char
    ensures { result ≡ digit_char (number % 16) }
{
    let digit = number % 16;
    if digit < 10 {
        char::from(b'0' + u8::try_from(digit).unwrap_or(0))
    } else {
        char::from(b'a' - 10 + u8::try_from(digit).unwrap_or(0))
    }
}

/// Adds the number of such a sign.
pub fn push_number(out: &mut String, c: char) -> Result<(), AllocError>
    ensures { OnOk result (string_bytes out.new ≡ string_bytes out.old ++ number_of c) }
{
    out.push_str("\\u{")?;
    let number = u32::from(c);
    out.push(digit(number / 4096))?;
    out.push(digit(number / 256))?;
    out.push(digit(number / 16))?;
    out.push(digit(number))?;
    out.push_str("}")
}

/// Adds a character as it is shown: `?` in place of what no terminal prints.
pub fn push_shown(out: &mut String, c: char) -> Result<(), AllocError>
    ensures { OnOk result (string_bytes out.new ≡ string_bytes out.old ++ shown_character c) }
{
    if is_unseen(c) {
        return push_number(out, c);
    }
    out.push(if c == '\t' || !c.is_control() { c } else { '?' })
}
