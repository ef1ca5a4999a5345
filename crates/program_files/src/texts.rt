//! Texts that are read whole.

use crate::fault::{NoFile, not_opened, not_read};
use crate::identity::{Identity, identity_at, identity_of};
use profile::MOST_TEXT_BYTES;
use std::alloc::Global;
use std::fs::File;
use std::io::Read;
use std::{fs, io};

// At most so many bytes of a model are read: one more than a model may have.
const MOST_READ: u64 = MOST_TEXT_BYTES as u64 + 1;

/// At most so many bytes are read of the file that a model was prepared of.
pub const MOST_SOURCE: u64 = 8_388_608;

/// The text of a file, and which regular file it is, if it is one.
#[derive(Drop)]
pub struct FileText {
    pub bytes: Vec<u8>,
    pub file: Option<Identity>,
}

/// The first bytes of a file of this name, at most so many.
pub fn text_of(rt: &HostRuntime, name: &str, most: u64) -> Result<FileText, NoFile> {
    let opened = match fs::open(rt, name) {
        Ok(file) => file,
        Err(error) => return Err(not_opened(rt.alloc(), name, error)),
    };
    let file = identity_of(&opened);
    let mut bytes = Vec::new(rt.alloc());
    match opened.take(most).read_to_end(&mut bytes) {
        Ok(_) => Ok(FileText { bytes, file }),
        Err(error) => Err(not_read(rt.alloc(), name, error)),
    }
}

/// The model of this name, as it is read from its file: a byte more at most than a model may have.
pub fn model_of(rt: &HostRuntime, name: &str) -> Result<FileText, NoFile> {
    text_of(rt, name, MOST_READ)
}

// The bytes of a text that need not be there: none, unless memory was refused.
fn bytes_if_any(text: Result<FileText, NoFile>) -> Result<Option<Vec<u8>>, NoFile> {
    match text {
        Ok(text) => Ok(Some(text.bytes)),
        Err(NoFile::Memory) => Err(NoFile::Memory),
        Err(_) => Ok(None),
    }
}

/// The text that a model was prepared of, as much of it as is read, where it is a regular file: another may not be there twice.
pub fn source_of(rt: &HostRuntime, name: &str) -> Result<Option<Vec<u8>>, NoFile> {
    if identity_at(rt, name)?.is_none() {
        return Ok(None);
    }
    bytes_if_any(text_of(rt, name, MOST_SOURCE))
}

/// The text of a file whose name may be left out.
pub fn source_if_named(rt: &HostRuntime, name: &Option<String>) -> Result<Option<Vec<u8>>, NoFile> {
    match name {
        Some(name) => source_of(rt, name.as_str()),
        None => Ok(None),
    }
}
