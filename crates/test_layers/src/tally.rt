//! How many rows of each layer are as they want, and what is told of the others.
use crate::layer::LAYERS;
use crate::place::FileBlock;
use row_files::{RowReport, RowWriter};
use std::alloc::Global;
use std::io;

/// The rows that were read.
#[derive(Drop)]
pub struct LayerTally {
    /// The layer of each row that is as it wants.
    passed: Vec<&'static str>,
    failed: u32,
    told: RowReport,
}

impl LayerTally {
    /// No row was read.
    pub fn new(alloc: Global) -> LayerTally {
        LayerTally {
            passed: Vec::new(alloc),
            failed: 0,
            told: RowReport::new(alloc),
        }
    }

    /// A row of this layer is as it wants.
    pub fn pass(&mut self, layer: &'static str) {
        if self.passed.push(layer).is_err() {
            self.fail("out of memory");
        }
    }

    /// Something of a file is not as it should be.
    pub fn fail(&mut self, why: &str) {
        self.failed = self.failed.saturating_add(1);
        self.told.add(why);
    }

    /// Tells where a row that is not as it wants stands.
    fn tell_place(&mut self, place: FileBlock) {
        self.told.add(place.file);
        self.told.count(":", place.block.line);
        self.told.add(": row '");
        self.told.add(place.block.name());
        self.told.add("'");
    }

    /// A block is not read.
    pub fn refuse(&mut self, place: FileBlock, why: &str) {
        self.tell_place(place);
        self.told.add(": ");
        self.fail(why);
        self.told.add("\n");
    }

    /// A file is not read from this line on.
    pub fn refuse_file(&mut self, file: &str, line: u32, why: &str) {
        self.told.add(file);
        self.told.count(":", line);
        self.told.add(": ");
        self.fail(why);
        self.told.add("\n");
    }

    /// A row, in which this stands for `@this`, wants another text than came.
    pub fn differ(&mut self, place: FileBlock, this: &str, what: &str, wanted: &str, came: &str) {
        self.tell_place(place);
        self.told.add(" ");
        self.told.add(this);
        self.fail(": ");
        self.told.bytes(what, wanted.as_bytes(), came.as_bytes());
        self.told.add("\n");
    }

    fn count(&self, layer: &str) -> u32 {
        let mut count = 0u32;
        for passed in &self.passed {
            if *passed == layer {
                count = count.saturating_add(1);
            }
        }
        count
    }

    /// Prints what is told, and how many rows of each layer passed. Answers whether all did, and each layer has one.
    pub fn print(&self, rt: &HostRuntime) -> io::Result<bool> {
        let mut all = self.failed == 0;
        let told = self.told.words();
        eprint!(rt; "{told}")?;
        for layer in &LAYERS {
            let count = self.count(layer);
            println!(rt; "{layer}: {count} rows passed")?;
            all = all && count > 0;
        }
        Ok(all)
    }
}
