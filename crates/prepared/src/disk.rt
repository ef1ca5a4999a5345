//! Files on the disk, by the names that `#include` gives them.

ghost use Rattle.std.specs.Prelude.{◌≡◌, ◌≤◌, length, IfOk, IfSome};
ghost use Rattle.prepared.specs.Names as names;

use pml_directives::files::{Files, FoundFile};
use std::alloc::{AllocError, Global};
use std::fs;
use std::io::Read;

// One byte more is read of a file than it may have.
const MOST_READ: u64 = 1_048_577;

/// The files of a model: beside the one that names them, and in folders.
#[derive(Drop)]
pub struct Disk<'r> {
    pub rt: &'r HostRuntime,
    pub folders: &'r [String],
    /// The name of the model's own file, and what it is called.
    pub own: &'r str,
    pub called: &'r str,
}

/// The bytes of a file, or nothing where it cannot be read.
pub fn bytes_of(rt: &HostRuntime, name: &[u8]) -> Option<Vec<u8>> {
    let Ok(name) = std::str::from_utf8(name) else {
        return None;
    };
    let mut bytes = Vec::new(rt.alloc());
    match fs::open(rt, name) {
        Ok(file) => match file.take(MOST_READ).read_to_end(&mut bytes) {
            Ok(_) => Some(bytes),
            Err(_) => None,
        },
        Err(_) => None,
    }
}

// How many bytes of a name are its folder, with the `/` behind it.
fn folder_bytes(name: &[u8]) -> usize
    ensures { result ≤ length name.now }
{
    let mut end = 0;
    for (at, b) in name.iter().enumerate() {
        if *b == b'/' {
            end = at.saturating_add(1);
        }
    }
    end.min(name.len())
}

// A name in the folder of another file.
fn beside(alloc: Global, from: &[u8], name: &[u8]) -> Result<Vec<u8>, AllocError> {
    let mut whole = Vec::new(alloc);
    if !name.starts_with(b"/") {
        whole.extend_from_slice(&from[..folder_bytes(from)])?;
    }
    whole.extend_from_slice(name)?;
    Ok(whole)
}

// A name in a folder.
fn within(alloc: Global, folder: &str, name: &[u8]) -> Result<Vec<u8>, AllocError>
    ensures { IfOk result (λ v. v.items ≡ names.within folder.now name.now) }
{
    let mut whole = Vec::new(alloc);
    whole.extend_from_slice(folder.as_bytes())?;
    whole.push(b'/')?;
    whole.extend_from_slice(name)?;
    Ok(whole)
}

impl<'r> Disk<'r> {
    // The name by which a file is found that is called so.
    fn name_of<'n>(&'n self, called: &'n [u8]) -> &'n [u8]
        ensures { result.now ≡ names.found_by self.now.own.now self.now.called.now called.now }
    {
        if called == self.called.as_bytes() {
            self.own.as_bytes()
        } else {
            called
        }
    }

    // The file of a whole name.
    fn found(&self, name: Vec<u8>) -> Option<FoundFile>
        ensures { IfSome result (λ f. f.name ≡ name) }
    {
        match bytes_of(self.rt, &name) {
            Some(text) => Some(FoundFile { name, text }),
            None => None,
        }
    }
}

impl<'r> Files for Disk<'r> {
    fn file(
        &mut self,
        alloc: Global,
        from: &[u8],
        name: &[u8],
        is_quoted: bool,
    ) -> Result<Option<FoundFile>, AllocError> {
        if is_quoted || name.starts_with(b"/") {
            if let Some(found) = self.found(beside(alloc, self.name_of(from), name)?) {
                return Ok(Some(found));
            }
        }
        for folder in self.folders {
            if let Some(found) = self.found(within(alloc, folder.as_str(), name)?) {
                return Ok(Some(found));
            }
        }
        Ok(None)
    }
}
