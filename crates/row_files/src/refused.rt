//! Why a file or a row is not read.
use std::alloc::{AllocError, AllocFailed};
use std::io;

/// Why a file or a row is not read.
#[derive(Clone, Copy)]
pub struct Refused {
    /// The line of the file, counted from 1; 0 where it is not known.
    pub line: u32,
    /// What is wrong with it.
    pub why: &'static str,
}

/// Refuses a line.
pub fn refuse<T>(line: u32, why: &'static str) -> Result<T, Refused> {
    Err(Refused { line, why })
}

impl From<&'static str> for Refused {
    fn from(why: &'static str) -> Refused {
        Refused { line: 0, why }
    }
}

impl From<AllocError> for Refused {
    fn from(_error: AllocError) -> Refused {
        Refused::from("out of memory")
    }
}

impl From<AllocFailed<u8>> for Refused {
    fn from(_error: AllocFailed<u8>) -> Refused {
        Refused::from("out of memory")
    }
}

impl From<io::Error> for Refused {
    fn from(_error: io::Error) -> Refused {
        Refused::from("a file cannot be read or written")
    }
}
