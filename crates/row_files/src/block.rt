//! Blocks of text. A block begins with a line `== NAME`, and has parts; a part begins with a line `-- WORD`, and has its text behind
//! the word, or in the lines below it, each with its line feed.
use crate::cut::cut;
use std::alloc::{AllocError, Global};

/// A block of a file, whose text stays as long as the program runs.
#[derive(Clone, Copy)]
pub struct RowBlock {
    /// The line of the file that it begins in, counted from 1.
    pub line: u32,
    /// What stands before its parts: its name, and nothing else where it is well-formed.
    pub(crate) head: &'static str,
    /// What stands behind the mark of each part.
    pub(crate) parts: &'static [&'static str],
}

/// A part of a block.
#[derive(Clone, Copy)]
pub struct BlockPart {
    pub word: &'static str,
    pub behind: Option<&'static str>,
    pub below: Option<&'static str>,
}

/// The part with this text.
pub fn part_of(text: &'static str) -> BlockPart {
    let (head, below) = cut(text, "\n");
    let (word, behind) = cut(head, " ");
    BlockPart {
        word,
        behind,
        below,
    }
}

/// What is found of a word.
#[derive(Clone, Copy)]
pub struct FoundWord {
    pub first: Option<BlockPart>,
    /// How many parts it begins.
    pub count: u32,
}

impl RowBlock {
    /// Its name.
    pub fn name(self) -> &'static str {
        self.head
    }

    /// What is found of a word.
    pub fn found(self, word: &str) -> FoundWord {
        let mut first = None;
        let mut count = 0u32;
        for text in self.parts {
            let part = part_of(*text);
            if part.word == word {
                first = first.or(Some(part));
                count = count.saturating_add(1);
            }
        }
        FoundWord { first, count }
    }

    /// Whether it has a part with this word.
    pub fn has(self, word: &str) -> bool {
        self.found(word).count > 0
    }

    /// What stands behind the word of a part, on the same line.
    pub fn behind(self, word: &str) -> Option<&'static str> {
        match self.found(word).first {
            Some(part) => part.behind,
            None => None,
        }
    }

    /// What stands in a part, without its last line feed: behind its word, or in the lines below it. Nothing, where there is no such part.
    pub fn part(self, word: &str) -> &'static str {
        match self.found(word).first {
            Some(part) => part.below.or(part.behind).unwrap_or(""),
            None => "",
        }
    }

    /// What stands in a part: behind its word, or in the lines below it. Nothing, where there is no such part.
    pub fn text(self, alloc: Global, word: &str) -> Result<String, AllocError> {
        self.shown(alloc, word, "")
    }

    /// The lines of a part, in which what stands behind its word is a line too.
    pub fn lines(self, alloc: Global, word: &str) -> Result<String, AllocError> {
        self.shown(alloc, word, "\n")
    }

    /// What stands in a part; this is added to what stands behind its word.
    fn shown(self, alloc: Global, word: &str, end: &'static str) -> Result<String, AllocError> {
        let (text, end) = match self.found(word).first {
            Some(
                BlockPart {
                    below: Some(below),
                    ..
                },
            ) => (below, "\n"),
            Some(
                BlockPart {
                    behind: Some(behind),
                    ..
                },
            ) => (behind, end),
            _ => ("", ""),
        };
        let mut shown = String::from_str(alloc, text)?;
        shown.push_str(end)?;
        Ok(shown)
    }
}
