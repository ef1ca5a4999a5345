//! What is told of a row that differs: what was wanted, and what came.
use crate::writer::RowWriter;
use std::alloc::Global;

/// What is told of a row, in words; nothing, where nothing differs.
#[derive(Drop)]
pub struct RowReport {
    words: RowWriter,
}

/// A text of bytes, to be read.
fn readable(bytes: &[u8]) -> &str {
    match str::from_utf8(bytes) {
        Ok(text) => text,
        Err(_) => "(bytes that are no text)",
    }
}

impl RowReport {
    /// Nothing is told yet.
    pub fn new(alloc: Global) -> RowReport {
        RowReport {
            words: RowWriter::new(alloc),
        }
    }

    /// What is told.
    pub fn words(&self) -> &str {
        self.words.text()
    }

    /// Whether nothing is told.
    pub fn is_empty(&self) -> bool {
        self.words().is_empty()
    }

    /// Tells these words.
    pub fn add(&mut self, words: &str) {
        self.words.word(words);
    }

    /// Tells why a row is not played, where nothing is told of it yet.
    pub fn refuse(&mut self, why: &str) {
        if self.is_empty() {
            self.add(why);
        }
    }

    /// Tells a number behind words.
    pub fn count(&mut self, words: &str, number: u32) {
        self.words.word(words);
        self.words.count(number);
    }

    fn add_wanted(&mut self, what: &str) {
        self.add("another ");
        self.add(what);
        self.add(", wanted:\n");
    }

    /// Tells both texts, where they differ.
    pub fn bytes(&mut self, what: &str, wanted: &[u8], came: &[u8]) {
        if wanted != came {
            self.add_wanted(what);
            self.add(readable(wanted));
            self.add("\nbut there came:\n");
            self.add(readable(came));
            self.add("\n");
        }
    }

    /// Tells both numbers, where they differ.
    pub fn number(&mut self, what: &str, wanted: usize, came: usize) {
        if wanted != came {
            self.add_wanted(what);
            self.words.number(wanted);
            self.add("\nbut there came:\n");
            self.words.number(came);
            self.add("\n");
        }
    }
}
