//! The string of a `printf`.

ghost use Rattle.std.specs.Prelude.{◌≡◌, ◌++◌, OnOk, OnErr, drop, slice_index_or, pos};
ghost use Rattle.std.specs.Io.{StartsWith};
ghost use Rattle.promela_process.specs.Numbers.{residue};
ghost use Rattle.promela_run.specs.Lines.{conversion_text, escaped, printed_byte, before_next, takes_value, printed, unquoted};

use crate::digits::add_digits;
use itoa::Buffer;
use pml_token::token::Token;
use promela_run::before::Before;
use run_values::place::name_of_number;
use std::alloc::AllocError;

/// The byte of the lowest 8 bits.
fn low_byte(value: i32) -> u8
    ensures { result ≡ residue 8 value }
{
    (value.cast_unsigned() % 256) as u8
}

/// The same 32 bits without a sign.
fn unsigned(value: i32) -> u32
    ensures { result ≡ residue 32 value }
{
    value.cast_unsigned()
}

/// Appends what a conversion prints of its value, by its letter.
fn add_converted(
    constants: &[Token<'_>],
    letter: u8,
    value: i32,
    text: &mut Vec<u8>,
) -> Result<(), AllocError>
    ensures added { OnOk result (text.new.items ≡ text.old.items ++ conversion_text constants.now letter value) }
    ensures kept { OnErr result (StartsWith text.new.items text.old.items) }
{
    let mut decimal = Buffer::new();
    match letter {
        b'd' => text.extend_from_slice(decimal.format(value).as_bytes()),
        b'u' => text.extend_from_slice(decimal.format(unsigned(value)).as_bytes()),
        b'o' => add_digits(8, unsigned(value), text),
        b'x' => add_digits(16, unsigned(value), text),
        b'c' => text.extend_from_slice(&[low_byte(value)]),
        b'e' => name_of_number(constants, value, text),
        _ => text.extend_from_slice(b"%"),
    }
}

/// The byte that a byte behind a backslash stands for.
fn escaped(byte: u8) -> u8
    ensures { result ≡ escaped byte }
{
    match byte {
        b'n' => b'\n',
        b't' => b'\t',
        _ => byte,
    }
}

/// Appends what a byte prints.
fn add_byte(
    constants: &[Token<'_>],
    before: Before,
    byte: u8,
    value: i32,
    text: &mut Vec<u8>,
) -> Result<(), AllocError>
    ensures added { OnOk result (text.new.items ≡ text.old.items ++ printed_byte constants.now before byte value) }
    ensures kept { OnErr result (StartsWith text.new.items text.old.items) }
{
    match before {
        Before::Nothing => {
            if byte == b'%' || byte == b'\\' {
                return Ok(());
            }
            text.extend_from_slice(&[byte])
        }
        Before::Percent => add_converted(constants, byte, value, text),
        Before::Backslash => text.extend_from_slice(&[escaped(byte)]),
    }
}

/// What stands before the byte behind this one.
fn before_next(before: Before, byte: u8) -> Before
    ensures { result ≡ before_next before byte }
{
    match (before, byte) {
        (Before::Nothing, b'%') => Before::Percent,
        (Before::Nothing, b'\\') => Before::Backslash,
        _ => Before::Nothing,
    }
}

/// Whether a byte is a conversion that takes a value.
fn takes_value(before: Before, byte: u8) -> bool
    ensures { result ≡ takes_value before byte }
{
    match before {
        Before::Percent => byte != b'%',
        _ => false,
    }
}

/// The value with this index, or 0.
fn value_at(values: &[i32], index: usize) -> i32
    ensures { result ≡ slice_index_or (drop index values.now) 0 (pos 0) }
{
    if index < values.len() {
        values[index]
    } else {
        0
    }
}

/// A string without its quotes.
fn inside(string: &[u8]) -> &[u8]
    ensures { result.now ≡ unquoted string.now }
{
    match string {
        [_, bytes @ .., _] => bytes,
        _ => &[],
    }
}

/// Appends what a `printf` prints of its string, which has its quotes, and a value for each conversion but `%%`.
pub fn printed(
    constants: &[Token<'_>],
    string: &[u8],
    values: &[i32],
    text: &mut Vec<u8>,
) -> Result<(), AllocError>
    ensures added { OnOk result (text.new.items ≡ text.old.items ++ printed constants.now string.now values.now) }
    ensures kept { OnErr result (StartsWith text.new.items text.old.items) }
{
    let mut before = Before::Nothing;
    let mut taken = 0;
    for byte in inside(string) {
        let value = value_at(values, taken);
        add_byte(constants, before, *byte, value, text)?;
        if takes_value(before, *byte) {
            taken += 1;
        }
        before = before_next(before, *byte);
    }
    Ok(())
}
