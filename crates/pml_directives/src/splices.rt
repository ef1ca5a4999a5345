//! Lines that a backslash at their end joins with the next.

ghost use Rattle.std.specs.Prelude.{◌≡◌, ◌<◌, ◌≤◌, ◌+◌, ◌^◌, [], length, IfOk};
ghost use Rattle.pml_directives.specs.Places.{AreOf, place_behind, after};
ghost use Rattle.pml_directives.specs.Plain.{joint_of};

use pml_macros::atom::FilePlace;
use std::alloc::{AllocError, Global};

/// A text without its joints, for each byte of it the place in the whole text, and the place behind that.
#[derive(Drop)]
pub struct Joined {
    pub bytes: Vec<u8>,
    pub places: Vec<FilePlace>,
    pub end: FilePlace,
}

/// How many bytes the joint at the front of a text has, or 0.
fn joint(text: &[u8]) -> usize
    ensures { result ≡ joint_of text.now }
{
    match text {
        [b'\\', b'\n', ..] => 2,
        [b'\\', b'\r', b'\n', ..] => 3,
        _ => 0,
    }
}

/// The place before the first byte of a file.
fn start(file: u32) -> FilePlace
    ensures { result ≡ place_behind file [] }
{
    FilePlace {
        file,
        offset: 0,
        line: 1,
        column: 1,
    }
}

/// The place behind a byte.
fn behind(place: FilePlace, byte: u8) -> FilePlace
    requires short { place.offset < 2 ^ 31 }
    requires low { place.line ≤ place.offset + 1 }
    requires narrow { place.column ≤ place.offset + 1 }
    ensures { result ≡ after place byte }
{
    let offset = place.offset + 1;
    if byte == b'\n' {
        FilePlace {
            file: place.file,
            offset,
            line: place.line + 1,
            column: 1,
        }
    } else {
        FilePlace {
            file: place.file,
            offset,
            line: place.line,
            column: place.column + 1,
        }
    }
}

/// The bytes of a file without its joints, a backslash with the line feed behind it, each with its place.
pub fn without_joints(alloc: Global, file: u32, text: &[u8]) -> Result<Joined, AllocError>
    requires { length text.now < 2 ^ 31 }
    ensures { IfOk result (λ j. AreOf file text.now j.bytes.items j.places.items) }
{
    let mut bytes = Vec::with_capacity(alloc, text.len())?;
    let mut places = Vec::with_capacity(alloc, text.len())?;
    let mut passed = 0usize;
    let mut place = start(file);
    let mut rest = text;
    while !rest.is_empty() {
        let first = rest[0];
        if passed == 0 {
            passed = joint(rest);
        }
        if passed == 0 {
            bytes.push(first)?;
            places.push(place)?;
        } else {
            passed -= 1;
        }
        place = behind(place, first);
        rest = &rest[1..];
    }
    Ok(Joined {
        bytes,
        places,
        end: place,
    })
}
