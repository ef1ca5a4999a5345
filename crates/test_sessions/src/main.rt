// Plays the rows of the files whose names are the words of the command line, and ends with status 0 where there are some and each passes.
#![tactic(auto)]

mod failing;
mod player;
mod replay;
mod row;
mod runner;
mod tally;
mod texts;

use crate::row::{RowSource, WORDS};
use crate::runner::tell;
use crate::tally::SessionTally;
use row_files::{Pair, Refused, RowBlock, RowReport, blocks, names, text_of};
use std::alloc::Global;
use std::io;
use std::process::ExitCode;

// Plays a row, unless the file is refused, and tells where it does not pass.
fn play(alloc: Global, block: RowBlock, filling: Pair, tally: &mut SessionTally) {
    if tally.is_refused() {
        return;
    }
    let mut told = RowReport::new(alloc);
    let entry = RowSource {
        alloc,
        block,
        filling,
    };
    tell(entry, &mut told);
    judge(block, filling.this, told.words(), tally);
}

// Counts a row of which these words are told.
fn judge(block: RowBlock, this: &str, words: &str, tally: &mut SessionTally) {
    match block.behind("differs") {
        Some(wanted) if words.starts_with(wanted) => tally.pass(),
        Some(_) => tally.fail(block, this, "it does not differ as it should\n", words),
        None if words.is_empty() => tally.pass(),
        None => tally.fail(block, this, "", words),
    }
}

// Plays a row for each line of a part. A part without a line is refused, since no row would be played.
fn play_each(alloc: Global, block: RowBlock, lines: &'static str, tally: &mut SessionTally) {
    const WHY: &str = "a part 'each' is lines with an arrow";
    if lines.is_empty() {
        tally.refuse(block.line, WHY);
    }
    for line in lines.lines() {
        match line.split_once(" => ") {
            Some((this, that)) => play(alloc, block, Pair { this, that }, tally),
            None => tally.refuse(block.line, WHY),
        }
    }
}

fn play_block(alloc: Global, block: RowBlock, tally: &mut SessionTally) {
    if block.has("each") {
        play_each(alloc, block, block.part("each"), tally);
    } else {
        play(alloc, block, Pair::of(""), tally);
    }
}

fn play_blocks(alloc: Global, blocks: &[RowBlock], tally: &mut SessionTally) {
    for block in blocks {
        play_block(alloc, *block, tally);
    }
}

fn play_text(alloc: Global, text: &'static str, tally: &mut SessionTally) {
    match blocks(alloc, text, &WORDS) {
        Ok(blocks) => play_blocks(alloc, blocks.as_slice(), tally),
        Err(refused) => tally.refuse(refused.line, refused.why),
    }
}

// Plays the rows of a file, and prints how many pass. Answers whether all do: a file that is refused counts as a row that fails.
fn file_passes(rt: &HostRuntime, file: &'static str) -> io::Result<bool> {
    let mut tally = SessionTally::new(rt.alloc(), file);
    match text_of(rt, file) {
        Ok(text) => play_text(rt.alloc(), text, &mut tally),
        Err(refused) => tally.refuse(refused.line, refused.why),
    }
    tally.print(rt)
}

// Whether there are files, and the rows of each pass.
fn all_pass(rt: &HostRuntime) -> Result<bool, Refused> {
    let files = names(rt)?.leak();
    let mut all = !files.is_empty();
    for file in files {
        all = file_passes(rt, *file)? && all;
    }
    Ok(all)
}

fn main(rt: HostRuntime) -> ExitCode {
    match all_pass(&rt) {
        Ok(true) => ExitCode::from(0),
        Ok(false) => ExitCode::from(1),
        Err(refused) => {
            let _ = eprintln!(rt; "rows: {}", refused.why);
            ExitCode::from(1)
        }
    }
}
