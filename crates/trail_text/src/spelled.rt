//! The text of a statement, as Spin and as the machine write it, in one spelling.

ghost use Rattle.std.specs.Prelude.{◌≡◌, ◌≤◌, ◌++◌, ◌∷◌, [], length, IfSome};
ghost use Rattle.trail_text.specs.Parts.{is_of_word, is_left_out};
ghost use Rattle.view_text.specs.Written.{Stays};

use view_text::writer::Writer;

fn is_of_word(byte: u8) -> bool
    ensures { result ≡ is_of_word byte }
{
    byte == b'_'
        || (byte >= b'a' && byte <= b'z')
        || (byte >= b'A' && byte <= b'Z')
        || (byte >= b'0' && byte <= b'9')
}

// Blanks, parentheses, commas, quotation marks and backslashes are none of the spelling.
fn is_left_out(byte: u8) -> bool
    ensures { result ≡ is_left_out byte }
{
    match byte {
        b' ' | b'\t' | b'\r' | b'(' | b')' | b',' | b'"' | b'\'' | b'\\' => true,
        _ => false,
    }
}

/// How many bytes of a word or a number stand first.
pub fn word_size(text: &[u8]) -> usize
    ensures { result ≤ length text.now }
{
    for at in 0..text.len() {
        if !is_of_word(text[at]) {
            return at;
        }
    }
    text.len()
}

// `skip` and `true` are 1, and `false` is 0.
fn add_word(word: &[u8], out: &mut Writer)
    ensures { Stays out.old out.new }
{
    if word == b"skip".as_slice() || word == b"true".as_slice() {
        out.add(b"1");
    } else if word == b"false".as_slice() {
        out.add(b"0");
    } else {
        out.add(word);
    }
}

// Writes the words and signs of a text.
fn add_signs(text: &[u8], out: &mut Writer)
    ensures { Stays out.old out.new }
{
    let mut at = 0usize;
    for _turn in 0..text.len() {
        if at >= text.len() {
            break;
        }
        let size = word_size(&text[at..]).max(1).min(text.len() - at);
        let word = &text[at..at + size];
        if !is_left_out(word[0]) {
            add_word(word, out);
        }
        at += size;
    }
}

// A text with this sign twice at its end, without it.
fn counted(text: &[u8], sign: u8) -> Option<&[u8]>
    ensures { IfSome result (λ before. text.now ≡ before.now ++ (sign ∷ sign ∷ [])) }
{
    match text {
        [before @ .., first, second] if *first == sign && *second == sign => Some(before),
        _ => None,
    }
}

// `x = x + 1`.
fn add_counted(before: &[u8], sign: u8, out: &mut Writer)
    ensures { Stays out.old out.new }
{
    add_signs(before, out);
    out.add(b"=");
    add_signs(before, out);
    out.add(&[sign]);
    out.add(b"1");
}

/// Writes the spelling of a statement.
pub fn add_spelled(text: &[u8], out: &mut Writer)
    ensures { Stays out.old out.new }
{
    if let Some(before) = counted(text, b'+') {
        add_counted(before, b'+', out);
    } else if let Some(before) = counted(text, b'-') {
        add_counted(before, b'-', out);
    } else {
        add_signs(text, out);
    }
}
