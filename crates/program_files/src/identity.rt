//! Which file a name leads to.

ghost use Rattle.std.specs.Prelude.{◌≡◌};
ghost use Rattle.program_files.specs.Held.{is_file};

use std::alloc::AllocError;
use std::fs::{File, Metadata};
use std::os::unix::fs::MetadataExt;
use std::{fs, io};

/// A regular file, by its device and its number there: a name, a link and another name of one file lead to the same.
#[derive(Clone, Copy)]
pub struct Identity {
    pub device: u64,
    pub number: u64,
}

impl Identity {
    /// Whether both are one file.
    pub fn is(self, other: Identity) -> bool
        ensures { result ≡ is_file self other }
    {
        self.device == other.device && self.number == other.number
    }
}

fn regular(about: &Metadata) -> Option<Identity> {
    if about.is_file() {
        Some(Identity {
            device: about.dev(),
            number: about.ino(),
        })
    } else {
        None
    }
}

/// Which regular file is open, if it is one.
pub fn identity_of(file: &File) -> Option<Identity> {
    match file.metadata() {
        Ok(about) => regular(&about),
        Err(_) => None,
    }
}

/// Which regular file a name leads to, if there is one. Want of memory is told: a file that is not known would be emptied.
pub fn identity_at(rt: &HostRuntime, name: &str) -> Result<Option<Identity>, AllocError> {
    match fs::metadata(rt, name) {
        Ok(about) => Ok(regular(&about)),
        Err(error) if error.kind() == io::ErrorKind::OutOfMemory => Err(AllocError),
        Err(_) => Ok(None),
    }
}
