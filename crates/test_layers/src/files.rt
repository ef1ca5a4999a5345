//! The files of rows.
use crate::beginnings::compare_beginnings;
use crate::pairs::compare_signs;
use crate::place::FileBlock;
use crate::rows::{WORDS, compare_rows};
use crate::tally::LayerTally;
use row_files::{RowBlock, blocks, text_of};
use std::alloc::Global;

fn compare_block(alloc: Global, place: FileBlock, tally: &mut LayerTally) {
    if place.block.has("signs") {
        compare_signs(alloc, place, tally);
    } else if place.block.has("beginnings") {
        compare_beginnings(alloc, place, tally);
    } else {
        compare_rows(alloc, place, tally);
    }
}

fn compare_blocks(alloc: Global, file: &'static str, blocks: &[RowBlock], tally: &mut LayerTally) {
    for block in blocks {
        let block = *block;
        compare_block(alloc, FileBlock { file, block }, tally);
    }
}

fn compare_text(alloc: Global, file: &'static str, text: &'static str, tally: &mut LayerTally) {
    match blocks(alloc, text, &WORDS) {
        Ok(blocks) => compare_blocks(alloc, file, blocks.as_slice(), tally),
        Err(refused) => tally.refuse_file(file, refused.line, refused.why),
    }
}

fn compare_file(rt: &HostRuntime, file: &'static str, tally: &mut LayerTally) {
    match text_of(rt, file) {
        Ok(text) => compare_text(rt.alloc(), file, text, tally),
        Err(refused) => tally.refuse_file(file, refused.line, refused.why),
    }
}

/// Compares the rows of these files.
pub fn compare_files(rt: &HostRuntime, files: &[&'static str], tally: &mut LayerTally) {
    for file in files {
        compare_file(rt, file, tally);
    }
}
