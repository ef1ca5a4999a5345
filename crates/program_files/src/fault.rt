//! Why a file cannot be used.

use crate::held::FileRole;
use prepared::unprepared::Unprepared;
use std::alloc::{AllocError, Global};
use std::io;

/// Why a file cannot be used.
#[derive(Drop)]
pub enum NoFile {
    CannotOpen(String, io::Error),
    CannotRead(String, io::Error),
    CannotWrite(String, io::Error),
    /// It would be emptied, and it is another one of the run.
    WouldEmpty(String, FileRole),
    /// Nothing is prepared of it.
    Unprepared(Unprepared),
    Memory,
}

impl From<AllocError> for NoFile {
    fn from(_error: AllocError) -> NoFile {
        NoFile::Memory
    }
}

impl From<Unprepared> for NoFile {
    fn from(why: Unprepared) -> NoFile {
        match why {
            Unprepared::Memory => NoFile::Memory,
            other => NoFile::Unprepared(other),
        }
    }
}

/// Why a file of this name was not opened: the name and the error, unless memory was refused.
pub fn not_opened(alloc: Global, name: &str, error: io::Error) -> NoFile {
    if error.kind() == io::ErrorKind::OutOfMemory {
        return NoFile::Memory;
    }
    match String::from_str(alloc, name) {
        Ok(name) => NoFile::CannotOpen(name, error),
        Err(_) => NoFile::Memory,
    }
}

/// Why it was not read.
pub fn not_read(alloc: Global, name: &str, error: io::Error) -> NoFile {
    match not_opened(alloc, name, error) {
        NoFile::CannotOpen(name, error) => NoFile::CannotRead(name, error),
        other => other,
    }
}

/// Why it was not written.
pub fn not_written(alloc: Global, name: &str, error: io::Error) -> NoFile {
    match not_opened(alloc, name, error) {
        NoFile::CannotOpen(name, error) => NoFile::CannotWrite(name, error),
        other => other,
    }
}
