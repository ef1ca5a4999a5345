//! What is written in a part for other text. What is wrong with it is told.
use row_files::{Pair, RowReport, RowWriter};
use std::alloc::{AllocError, Global};

/// The greatest number of 32 bits.
pub const MOST: usize = 4_294_967_295;

/// What is written, as long as the program runs.
pub fn kept(out: RowWriter, told: &mut RowReport) -> &'static str {
    match out.finish() {
        Ok(text) => text,
        Err(refused) => {
            told.refuse(refused.why);
            ""
        }
    }
}

/// The number that digits write, which is at most this.
pub fn number(digits: &str, most: usize, told: &mut RowReport) -> usize {
    match digits.parse::<usize>() {
        Ok(number) if number <= most => number,
        _ => {
            told.refuse("no number");
            0
        }
    }
}

/// Writes the sign that is written as a backslash and this one.
fn write_escaped(letter: char, out: &mut RowWriter, told: &mut RowReport) {
    match letter {
        'n' => out.sign('\n'),
        't' => out.sign('\t'),
        'r' => out.sign('\r'),
        'f' => out.sign('\x0c'),
        '\\' => out.sign('\\'),
        _ => told.refuse("an unknown escape"),
    }
}

/// What a text with escapes writes, as long as the program runs.
pub fn unescaped(alloc: Global, text: &str, told: &mut RowReport) -> &'static str {
    let mut out = RowWriter::new(alloc);
    let mut behind = false;
    for letter in text.chars() {
        if behind {
            write_escaped(letter, &mut out, told);
        } else if letter != '\\' {
            out.sign(letter);
        }
        behind = !behind && letter == '\\';
    }
    kept(out, told)
}

/// A text in which the first of each pair stands for the second, the first pair before the second one.
fn replaced(
    alloc: Global,
    text: &str,
    first: (&str, &str),
    second: (&str, &str),
) -> Result<String, AllocError> {
    let text = text.replace(alloc, first.0, first.1)?;
    text.replace(alloc, second.0, second.1)
}

/// A text in which `@this` and `@that` stand for these, with all its pieces, as long as the program runs.
pub fn filled(alloc: Global, text: &str, filling: Pair, told: &mut RowReport) -> &'static str {
    let mut out = RowWriter::new(alloc);
    match replaced(
        alloc,
        text,
        ("@that", filling.that),
        ("@this", filling.this),
    ) {
        Ok(text) => write_repeated(alloc, &text, &mut out, told),
        Err(AllocError) => out.no_memory(),
    }
    kept(out, told)
}

/// Writes a text in which `@(COUNT PIECE@)` stands for the piece, so many times.
fn write_repeated(alloc: Global, text: &str, out: &mut RowWriter, told: &mut RowReport) {
    let mut begun = false;
    for part in text.split("@(") {
        if begun {
            write_pieces(alloc, part, out, told);
        } else {
            out.word(part);
        }
        begun = true;
    }
}

/// Writes a piece as often as the number before it says, and what stands behind its end.
fn write_pieces(alloc: Global, part: &str, out: &mut RowWriter, told: &mut RowReport) {
    let Some((count, rest)) = part.split_once(' ') else {
        return told.refuse("a number stands before a piece");
    };
    let Some((piece, behind)) = rest.split_once("@)") else {
        return told.refuse("a piece has no end");
    };
    for number in 0..number(count, MOST, told) {
        write_piece(alloc, piece, number, out);
    }
    out.word(behind);
}

/// Writes a piece, in which `#` stands for its number, counted from 0, and `##` for the next one.
fn write_piece(alloc: Global, piece: &str, number: usize, out: &mut RowWriter) {
    if !piece.contains('#') {
        return out.word(piece);
    }
    let mut own = RowWriter::new(alloc);
    own.number(number);
    let mut next = RowWriter::new(alloc);
    next.number(number.saturating_add(1));
    match replaced(alloc, piece, ("##", next.text()), ("#", own.text())) {
        Ok(text) => out.word(&text),
        Err(AllocError) => out.no_memory(),
    }
}
