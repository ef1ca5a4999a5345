//! A text, and what each of its beginnings gives. A block has the tokens of the text in its part `list`, one a line. In the part
//! `beginnings` it has a line `LENGTH => WANTED` for each length, in order: a refusal, or how many of the tokens of the list the beginning has and
//! the tokens behind them.
use crate::bytes::bytes_of;
use crate::layer::TOKENS_WISH;
use crate::place::FileBlock;
use crate::tally::LayerTally;
use row_files::{Pair, RowWriter};
use std::alloc::Global;

/// Writes a token behind others.
fn add(out: &mut RowWriter, token: &str) {
    if !out.is("") && !token.is_empty() {
        out.word(" ");
    }
    out.word(token);
}

/// Writes the first tokens of a list.
fn add_first(out: &mut RowWriter, list: &[Pair], count: usize) {
    for token in list.iter().take(count) {
        add(out, token.this);
    }
}

/// The answer that a line wants: the first tokens of the list and its own.
fn wanted_tokens(alloc: Global, list: &[Pair], wanted: &str) -> RowWriter {
    let mut out = RowWriter::new(alloc);
    let (number, own) = wanted.split_once(" ").unwrap_or((wanted, ""));
    match number.parse::<usize>() {
        Ok(count) => {
            add_first(&mut out, list, count);
            add(&mut out, own);
        }
        Err(_) => out.word(wanted),
    }
    if out.is("") {
        out.word("none");
    }
    out
}

fn compare_beginning(
    alloc: Global,
    place: FileBlock,
    beginning: &[u8],
    list: &[Pair],
    line: Pair,
    tally: &mut LayerTally,
) {
    if line.this.parse::<usize>().ok() != Some(beginning.len()) {
        tally.refuse(place, "a length that does not follow");
    }
    let wanted = wanted_tokens(alloc, list, line.that);
    let came = place.answered(alloc, TOKENS_WISH, beginning);
    place.compare(TOKENS_WISH, line.this, &came, wanted.text(), tally);
}

/// Compares the beginnings of this text, one in each line.
fn compare_lines(
    alloc: Global,
    place: FileBlock,
    text: &[u8],
    list: &[Pair],
    lines: &[Pair],
    tally: &mut LayerTally,
) {
    if lines.len() != text.len().saturating_add(1) {
        tally.refuse(place, "not a row for each beginning");
    }
    for (length, line) in lines.iter().enumerate() {
        if let Some(beginning) = text.get(..length) {
            compare_beginning(alloc, place, beginning, list, *line, tally);
        }
    }
}

/// Compares the beginnings of a block's text.
pub fn compare_beginnings(alloc: Global, place: FileBlock, tally: &mut LayerTally) {
    let list = place.lines(alloc, "list", tally);
    let lines = place.lines(alloc, "beginnings", tally);
    match bytes_of(alloc, place.block.part("text")) {
        Ok(text) => compare_lines(alloc, place, text.as_slice(), list, lines, tally),
        Err(refused) => tally.refuse(place, refused.why),
    }
}
