//! Signs, each alone and next to each. A block has them in its part `signs`, a line `SIGN => TOKENS` for each. In the part `joined` it has those
//! pairs that give other tokens without a blank between them, each as `SIGN SIGN => TOKENS`.
use crate::bytes::bytes_of;
use crate::layer::TOKENS_WISH;
use crate::place::FileBlock;
use crate::tally::LayerTally;
use row_files::{Pair, RowWriter};
use std::alloc::Global;

const LEFT_OUT: &str = "LeftOut(1)";

/// Compares the tokens of a text that is written so.
fn compare(alloc: Global, place: FileBlock, written: &str, wanted: &str, tally: &mut LayerTally) {
    match bytes_of(alloc, written) {
        Ok(text) => {
            let came = place.answered(alloc, TOKENS_WISH, text.as_slice());
            place.compare(TOKENS_WISH, written, &came, wanted, tally)
        }
        Err(refused) => tally.refuse(place, refused.why),
    }
}

/// Two signs with this between them.
fn both(alloc: Global, first: &str, between: &str, second: &str) -> RowWriter {
    let mut out = RowWriter::new(alloc);
    out.word(first);
    out.word(between);
    out.word(second);
    out
}

/// What two signs give with a blank between them. The first refusal is the answer.
fn apart(alloc: Global, first: Pair, second: Pair) -> RowWriter {
    if first.that == LEFT_OUT || second.that == LEFT_OUT {
        return both(alloc, LEFT_OUT, "", "");
    }
    both(alloc, first.that, " ", second.that)
}

/// What lines say of a text; these words, where none does.
fn said<'s>(lines: &[Pair], text: &str, words: &'s str) -> &'s str {
    for line in lines {
        if line.this == text {
            return line.that;
        }
    }
    words
}

fn compare_pair(
    alloc: Global,
    place: FileBlock,
    first: Pair,
    second: Pair,
    joined: &[Pair],
    tally: &mut LayerTally,
) {
    let wanted = apart(alloc, first, second);
    let text = both(alloc, first.this, " ", second.this);
    compare(alloc, place, text.text(), wanted.text(), tally);
    let wanted = said(joined, text.text(), wanted.text());
    let text = both(alloc, first.this, "", second.this);
    compare(alloc, place, text.text(), wanted, tally);
}

/// Compares a sign alone, and before each sign.
fn compare_sign(
    alloc: Global,
    place: FileBlock,
    first: Pair,
    signs: &[Pair],
    joined: &[Pair],
    tally: &mut LayerTally,
) {
    if first.that.is_empty() {
        tally.refuse(place, "a sign without tokens");
    }
    compare(alloc, place, first.this, first.that, tally);
    for second in signs {
        compare_pair(alloc, place, first, *second, joined, tally);
    }
}

/// Whether each of these lines is one of two of the signs.
fn are_of_signs(joined: &[Pair], signs: &[Pair]) -> bool {
    for line in joined {
        let (first, second) = line.this.split_once(" ").unwrap_or((line.this, ""));
        if said(signs, first, "").is_empty() || said(signs, second, "").is_empty() {
            return false;
        }
    }
    true
}

/// Compares the signs of a block.
pub fn compare_signs(alloc: Global, place: FileBlock, tally: &mut LayerTally) {
    let signs = place.lines(alloc, "signs", tally);
    let joined = place.lines(alloc, "joined", tally);
    if !are_of_signs(joined, signs) {
        tally.refuse(place, "two that are no signs of the block");
    }
    for sign in signs {
        compare_sign(alloc, place, *sign, signs, joined, tally);
    }
}
