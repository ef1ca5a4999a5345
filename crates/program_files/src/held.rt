//! The files that a run has, none of which is emptied for another.

ghost use Rattle.std.specs.Prelude.{◌≡◌, [], OnOk, OnErr};
ghost use Rattle.program_files.specs.Held.{held_as, with_file};

use crate::identity::Identity;
use std::alloc::{AllocError, Global};

/// What a file is in a run.
#[derive(Clone, Copy, Debug, PartialEq, Eq)]
pub enum FileRole {
    /// The text, or what it was prepared of.
    Model,
    /// The table of the lines of included files.
    Lines,
    Choices,
    Trail,
    Output,
    Record,
    Page,
}

impl FileRole {
    /// What it is called.
    pub fn words(self) -> &'static str {
        match self {
            FileRole::Model => "model",
            FileRole::Lines => "lines",
            FileRole::Choices => "choices",
            FileRole::Trail => "trail",
            FileRole::Output => "output",
            FileRole::Record => "record",
            FileRole::Page => "page",
        }
    }
}

/// A file of a run.
#[derive(Clone, Copy)]
pub struct RunFile {
    pub file: Identity,
    pub role: FileRole,
}

/// The files that a run has.
#[derive(Drop)]
pub struct Held {
    pub entries: Vec<RunFile>,
}

impl Held {
    /// None yet.
    pub fn new(alloc: Global) -> Held
        ensures { result.entries.items ≡ [] }
    {
        Held {
            entries: Vec::new(alloc),
        }
    }

    /// Keeps a file that is there, and what it is.
    pub fn add(&mut self, file: Option<Identity>, role: FileRole) -> Result<(), AllocError>
        ensures ok { OnOk result (self.new.entries.items ≡ with_file self.old.entries.items file role) }
        ensures err { OnErr result (self.new.entries.items ≡ self.old.entries.items) }
    {
        if let Some(file) = file {
            self.entries.push(RunFile { file, role })?;
        }
        Ok(())
    }

    /// What a file is in the run, if it is one of these: the first that it is.
    pub fn role_of(&self, file: Identity) -> Option<FileRole>
        ensures { result ≡ held_as file self.now.entries.items }
    {
        let mut rest = self.entries.as_slice();
        while let [entry, behind @ ..] = rest {
            if entry.file.is(file) {
                return Some(entry.role);
            }
            rest = behind;
        }
        None
    }
}
