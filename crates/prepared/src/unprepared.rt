//! Why nothing is prepared of a text, and the status that is answered for it.

ghost use Rattle.prepared.specs.Statuses.{IsStatusOfUnprepared};

use crate::shown::shown_name;
use prepare::MOST_BYTES;
use std::alloc::{AllocError, AllocFailed};

/// Why nothing is prepared of a text.
#[derive(Drop)]
pub enum Unprepared {
    /// Words of a command line that are wrong by themselves.
    Odd(String),
    /// The preprocessor refuses the text.
    Refused(String),
    /// An included file is missing.
    Missing(String),
    TooLong,
    Memory,
}

impl From<AllocError> for Unprepared {
    fn from(_error: AllocError) -> Unprepared {
        Unprepared::Memory
    }
}

impl<T: Drop> From<AllocFailed<T>> for Unprepared {
    fn from(_failed: AllocFailed<T>) -> Unprepared {
        Unprepared::Memory
    }
}

/// Says something under a program's name, with what moves a terminal shown. What memory is refused for is left out.
pub fn say(rt: &HostRuntime, program: &str, words: &str) {
    if let Ok(shown) = shown_name(rt.alloc(), words) {
        let shown = shown.as_str();
        let _ = eprintln!(rt; "{program}: {shown}");
    }
}

/// Says why nothing is prepared, and answers the status. A message that cannot be shown is left out.
pub fn tell_unprepared(rt: &HostRuntime, program: &str, why: &Unprepared) -> u8
    ensures { IsStatusOfUnprepared why.now result }
{
    match why {
        Unprepared::Odd(words) => {
            say(rt, program, words.as_str());
            4
        }
        Unprepared::Refused(words) => {
            let _ = eprint!(rt; "{words}");
            3
        }
        Unprepared::Missing(words) => {
            let _ = eprint!(rt; "{words}");
            4
        }
        Unprepared::TooLong => {
            let _ = eprintln!(rt; "{program}: the text has more than {MOST_BYTES} bytes");
            3
        }
        Unprepared::Memory => {
            let _ = eprintln!(rt; "{program}: out of memory");
            6
        }
    }
}
