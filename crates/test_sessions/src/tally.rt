//! How many rows of a file pass, and what is told of the others.
use row_files::{RowBlock, RowReport};
use std::alloc::Global;
use std::io;

/// The rows of a file.
#[derive(Drop)]
pub struct SessionTally {
    file: &'static str,
    passed: u32,
    /// Whether each row passes so far.
    passes: bool,
    /// Whether the file is refused: then no more of its rows are played.
    refused: bool,
    told: RowReport,
}

impl SessionTally {
    /// No row is played yet.
    pub fn new(alloc: Global, file: &'static str) -> SessionTally {
        SessionTally {
            file,
            passed: 0,
            passes: true,
            refused: false,
            told: RowReport::new(alloc),
        }
    }

    /// Whether the file is refused.
    pub fn is_refused(&self) -> bool {
        self.refused
    }

    /// A row passes.
    pub fn pass(&mut self) {
        self.passed = self.passed.saturating_add(1);
    }

    /// Tells of a line of the file, behind which words follow.
    fn tell_line(&mut self, line: u32) {
        self.passes = false;
        self.told.add(self.file);
        self.told.count(":", line);
        self.told.add(": ");
    }

    /// A row, in which this stands for `@this`, does not pass.
    pub fn fail(&mut self, block: RowBlock, this: &str, wrong: &str, words: &str) {
        self.tell_line(block.line);
        self.told.add("row '");
        self.told.add(block.name());
        self.told.add("'");
        if !this.is_empty() {
            self.told.add(" ");
        }
        self.told.add(this);
        self.told.add(": ");
        self.told.add(wrong);
        self.told.add(words);
        self.told.add("\n");
    }

    /// The file is refused, where it is not yet.
    pub fn refuse(&mut self, line: u32, why: &str) {
        if !self.refused {
            self.tell_line(line);
            self.told.add(why);
            self.told.add("\n");
            self.refused = true;
        }
    }

    /// Prints what is told, and how many rows passed. Answers whether all did.
    pub fn print(&self, rt: &HostRuntime) -> io::Result<bool> {
        let words = self.told.words();
        eprint!(rt; "{words}")?;
        if !self.refused {
            println!(rt; "{}: {} rows passed", self.file, self.passed)?;
        }
        Ok(self.passes)
    }
}
