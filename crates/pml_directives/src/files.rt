//! Files by the names that `#include` gives them.

use std::alloc::{AllocError, Global};

/// A file that was found.
#[derive(Drop)]
pub struct FoundFile {
    /// What it is called where a place in it is told.
    pub name: Vec<u8>,
    pub text: Vec<u8>,
}

/// Gives files.
pub trait Files {
    /// The file that a line of the file `from` names, in quotes or else in angle brackets, or nothing where there is no such file.
    fn file(
        &mut self,
        alloc: Global,
        from: &[u8],
        name: &[u8],
        is_quoted: bool,
    ) -> Result<Option<FoundFile>, AllocError>;
}
