//! Character constants, as Spin has them: one byte between `'`, or a letter behind `\`.

ghost use Rattle.std.specs.Prelude.{◌≡◌, ◌≤◌, ◌++◌, length, OnOk};
ghost use Rattle.prepare.specs.Character as character;

use std::alloc::AllocError;

fn is_seen(b: u8) -> bool
    ensures { result ≡ character.is_seen b }
{
    b' ' <= b && b <= b'~'
}

/// So many bytes, where the text goes on with a `'`, and else 0.
fn ended(count: usize, text: &[u8]) -> usize
    ensures value { result ≡ character.ended count text.now }
    ensures most { result ≤ count }
{
    match text {
        [b'\'', ..] => count,
        _ => 0,
    }
}

/// How many bytes the character constant at the front of a text has, or 0 where none stands there.
pub(crate) fn character_length(text: &[u8]) -> usize
    ensures value { result ≡ character.character_length text.now }
    ensures within { result ≤ length text.now }
{
    match text {
        [b'\'', b'\\', letter, rest @ ..] => { if is_seen(*letter) { ended(4, rest) } else { 0 } }
        [b'\'', letter, rest @ ..] => { if is_seen(*letter) { ended(3, rest) } else { 0 } }
        _ => 0,
    }
}

/// What a letter behind `\` stands for.
fn escaped(letter: u8) -> u8
    ensures { result ≡ character.escaped letter }
{
    match letter {
        b'f' => 12,
        b'n' => b'\n',
        b'r' => b'\r',
        b't' => b'\t',
        _ => letter,
    }
}

fn value(token: &[u8]) -> u8
    ensures { result ≡ character.value token.now }
{
    match token {
        [_, b'\\', letter, ..] => escaped(*letter),
        [_, letter, ..] => *letter,
        _ => 0,
    }
}

/// Writes the digits of a number.
fn add_digits(out: &mut Vec<u8>, number: u8) -> Result<(), AllocError>
    ensures { OnOk result (out.new.items ≡ out.old.items ++ character.digits number) }
{
    if number >= 100 {
        out.push(b'0' + number / 100)?;
    }
    if number >= 10 {
        out.push(b'0' + number / 10 % 10)?;
    }
    out.push(b'0' + number % 10)?;
    Ok(())
}

/// Writes the number of a character constant, between blanks.
pub(crate) fn add_character(out: &mut Vec<u8>, token: &[u8]) -> Result<(), AllocError>
    ensures { OnOk result (out.new.items ≡ out.old.items ++ character.number token.now) }
{
    out.push(b' ')?;
    add_digits(out, value(token))?;
    out.push(b' ')?;
    Ok(())
}
