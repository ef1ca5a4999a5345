//! Reads the blocks of a file, and keeps what is wrong first.
use crate::block::{RowBlock, part_of};
use crate::cut::cut;
use crate::refused::{Refused, refuse};
use std::alloc::{AllocError, Global};

/// A reader of a file.
#[derive(Drop)]
struct Reader {
    alloc: Global,
    blocks: Vec<RowBlock>,
    /// The line that is read, counted from 1.
    line: u32,
    /// What is wrong first, where something is.
    refused: Option<Refused>,
}

/// How many lines a text has, which ends without a line feed.
fn lines_of(text: &str) -> u32 {
    let mut lines = 1u32;
    for byte in text.bytes() {
        if byte == b'\n' {
            lines = lines.saturating_add(1);
        }
    }
    lines
}

/// Whether a block has this name.
fn is_named(blocks: &[RowBlock], name: &str) -> bool {
    for block in blocks {
        if block.head == name {
            return true;
        }
    }
    false
}

impl Reader {
    /// Refuses a line, where this is wrong, and nothing was before.
    fn refuse(&mut self, line: u32, is_wrong: bool, why: &'static str) {
        if is_wrong && self.refused.is_none() {
            self.refused = Some(Refused { line, why });
        }
    }

    /// Goes on behind a text, which ends without a line feed.
    fn pass(&mut self, text: &str) {
        self.line = self.line.saturating_add(lines_of(text));
    }

    /// Reads a part of a block, with one of these words.
    fn read_part(&mut self, block: RowBlock, text: &'static str, words: &[&str]) {
        let part = part_of(text);
        let is_known = words.contains(&part.word);
        let is_both = part.behind.is_some() && part.below.is_some();
        let is_twice = block.found(part.word).count > 1;
        self.refuse(self.line, !is_known, "an unknown word of a part");
        self.refuse(
            self.line,
            is_both,
            "a part with words behind it and lines below",
        );
        self.refuse(self.line, is_twice, "a part that stands twice");
        self.pass(text);
    }

    /// Reads a block.
    fn read_block(&mut self, block: RowBlock, words: &[&str]) {
        let (name, rest) = cut(block.head, "\n");
        self.refuse(block.line, name.is_empty(), "a block without a name");
        self.refuse(block.line, rest.is_some(), "a text that stands in no part");
        self.pass(block.head);
        for text in block.parts {
            self.read_part(block, *text, words);
        }
        self.keep(block);
    }

    /// Keeps a block, whose name no other one has.
    fn keep(&mut self, block: RowBlock) {
        let is_named = is_named(&self.blocks, block.head);
        self.refuse(block.line, is_named, "a name that another block has");
        if self.blocks.push(block).is_err() {
            self.refuse(block.line, true, "out of memory");
        }
    }

    /// The pieces of a text between these marks. They stay as long as the program runs.
    fn pieces(&mut self, text: &'static str, mark: &str) -> &'static [&'static str] {
        let pieces: Result<Vec<&str>, AllocError> = text.split(mark).collect(self.alloc);
        match pieces {
            Ok(pieces) => pieces.leak(),
            Err(AllocError) => {
                self.refuse(self.line, true, "out of memory");
                &[]
            }
        }
    }

    /// Reads the text of a block.
    fn read(&mut self, body: &'static str, words: &[&str]) {
        let line = self.line;
        if let [head, parts @ ..] = self.pieces(body, "\n-- ") {
            let head = *head;
            self.read_block(RowBlock { line, head, parts }, words);
        }
    }

    /// The blocks, where nothing is wrong.
    fn finish(self) -> Result<Vec<RowBlock>, Refused> {
        let Reader {
            blocks,
            refused,
            ..
        } = self;
        match refused {
            Some(refused) => Err(refused),
            None => Ok(blocks),
        }
    }
}

/// The text of a file without its first mark and its last line feed.
fn bare(text: &'static str) -> Result<&'static str, Refused> {
    let Some(behind) = text.strip_prefix("== ") else {
        return refuse(1, "no block begins here");
    };
    match behind.strip_suffix("\n") {
        Some(bare) => Ok(bare),
        None => refuse(lines_of(text), "a last line without a line feed"),
    }
}

/// Reads the blocks of a file. Each has another name, and each part of one another word, which is one of these.
pub fn blocks(alloc: Global, text: &'static str, words: &[&str]) -> Result<Vec<RowBlock>, Refused> {
    let text = bare(text)?;
    let mut reader = Reader {
        alloc,
        blocks: Vec::new(alloc),
        line: 1,
        refused: None,
    };
    for body in reader.pieces(text, "\n== ") {
        reader.read(*body, words);
    }
    reader.finish()
}
