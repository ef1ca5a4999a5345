//! The rows of a block: the text is what its part `text` writes, or its part `parts`, and what is wanted stands in the parts with the
//! words of what is asked. Where the block has a part `each`, it is a row for each line `THIS => THAT` there, or `THIS`, for which `@this` and
//! `@that` stand in the other parts.
use crate::bytes::{add_parts, bytes_of};
use crate::layer::{LayerWord, WISHES};
use crate::place::FileBlock;
use crate::tally::LayerTally;
use row_files::{Pair, Refused, RowBlock, RowWriter, pairs};
use std::alloc::{AllocError, Global};

/// The words that begin a part.
pub static WORDS: [&str; 35] = [
    "each",
    "text",
    "parts",
    "tokens",
    "count",
    "signs",
    "joined",
    "list",
    "beginnings",
    "parsed",
    "parsed-as-cut",
    "expressions",
    "condition",
    "model",
    "statements",
    "graph",
    "levels",
    "texts",
    "marks",
    "first-state",
    "created",
    "proctype",
    "arguments",
    "results",
    "printed",
    "state-behind",
    "process",
    "values",
    "local-values",
    "logged-values",
    "processes",
    "before",
    "after",
    "writes",
    "words",
];

/// What stands in a part, with `@this` and `@that` filled.
fn filled(alloc: Global, block: RowBlock, word: &str, filling: Pair) -> Result<String, AllocError> {
    let text = block.text(alloc, word)?;
    let text = text.replace(alloc, "@that", filling.that)?;
    text.replace(alloc, "@this", filling.this)
}

fn joined(alloc: Global, parts: &str) -> Result<Vec<u8>, Refused> {
    let mut out = RowWriter::new(alloc);
    add_parts(parts, &mut out);
    match out.refused() {
        Some(why) => Err(Refused::from(why)),
        None => bytes_of(alloc, out.text()),
    }
}

fn text_of(alloc: Global, block: RowBlock, filling: Pair) -> Result<Vec<u8>, Refused> {
    if block.has("parts") {
        let parts = filled(alloc, block, "parts", filling)?;
        return joined(alloc, parts.as_str());
    }
    if !block.has("text") {
        return Err(Refused::from("a row without a text"));
    }
    let text = filled(alloc, block, "text", filling)?;
    bytes_of(alloc, text.as_str())
}

fn compare_wish(
    alloc: Global,
    place: FileBlock,
    filling: Pair,
    wish: LayerWord,
    text: &[u8],
    tally: &mut LayerTally,
) {
    match filled(alloc, place.block, wish.word, filling) {
        Ok(wanted) => {
            let came = place.answered(alloc, wish, text);
            place.compare(wish, filling.this, &came, wanted.as_str(), tally)
        }
        Err(AllocError) => tally.refuse(place, "out of memory"),
    }
}

fn compare_wishes(
    alloc: Global,
    place: FileBlock,
    filling: Pair,
    text: &[u8],
    tally: &mut LayerTally,
) {
    for wish in &WISHES {
        if place.block.has(wish.word) {
            compare_wish(alloc, place, filling, *wish, text, tally);
        }
    }
}

fn compare_row(alloc: Global, place: FileBlock, filling: Pair, tally: &mut LayerTally) {
    match text_of(alloc, place.block, filling) {
        Ok(text) => compare_wishes(alloc, place, filling, text.as_slice(), tally),
        Err(refused) => tally.refuse(place, refused.why),
    }
}

fn wants_nothing(block: RowBlock) -> bool {
    for wish in &WISHES {
        if block.has(wish.word) {
            return false;
        }
    }
    true
}

/// Compares a row for each line of a part `each`.
fn compare_each(alloc: Global, place: FileBlock, tally: &mut LayerTally) {
    match pairs(alloc, place.block.part("each")) {
        Ok([]) => tally.refuse(place, "a block without a row"),
        Ok(lines) => compare_lines(alloc, place, lines, tally),
        Err(AllocError) => tally.refuse(place, "out of memory"),
    }
}

fn compare_lines(alloc: Global, place: FileBlock, lines: &[Pair], tally: &mut LayerTally) {
    for line in lines {
        compare_row(alloc, place, *line, tally);
    }
}

/// Compares the rows of a block.
pub fn compare_rows(alloc: Global, place: FileBlock, tally: &mut LayerTally) {
    if wants_nothing(place.block) {
        tally.refuse(place, "a row that wants nothing");
    } else if place.block.has("each") {
        compare_each(alloc, place, tally);
    } else {
        compare_row(alloc, place, Pair::of(""), tally);
    }
}
