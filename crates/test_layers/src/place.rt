//! Where a row stands, and what is asked there.
use crate::answer::answer;
use crate::layer::LayerWord;
use crate::tally::LayerTally;
use row_files::{Pair, RowBlock, RowWriter, pairs};
use std::alloc::{AllocError, Global};

/// A block of a file.
#[derive(Clone, Copy)]
pub struct FileBlock {
    pub file: &'static str,
    pub block: RowBlock,
}

impl FileBlock {
    /// The lines of a part; none, where memory is wanting, which is told.
    pub fn lines(self, alloc: Global, word: &str, tally: &mut LayerTally) -> &'static [Pair] {
        match pairs(alloc, self.block.part(word)) {
            Ok(lines) => lines,
            Err(AllocError) => {
                tally.refuse(self, "out of memory");
                &[]
            }
        }
    }

    /// What comes of a text.
    pub fn answered(self, alloc: Global, wish: LayerWord, text: &[u8]) -> RowWriter {
        let mut came = RowWriter::new(alloc);
        answer(alloc, wish.view, self.block, text, &mut came);
        came
    }

    /// Compares what a row wants of a text, with this for `@this`, and what came.
    pub fn compare(
        self,
        wish: LayerWord,
        this: &str,
        came: &RowWriter,
        wanted: &str,
        tally: &mut LayerTally,
    ) {
        if came.is(wanted) {
            tally.pass(wish.layer);
        } else {
            tally.differ(self, this, wish.word, wanted, came.text());
        }
    }
}
