//! How it is told where a token of a macro stands.

ghost use Rattle.std.specs.Prelude.{◌≡◌, ◌++◌, OnOk, string_bytes};
ghost use Rattle.called_macros.specs.Told as told;

use crate::origin::Origin;
use pml_macros::atom::{Atom, FilePlace};
use source_lines::position::line_of;
use source_lines::shown::{push_number, show_chars, show_line};
use std::alloc::AllocError;
use std::str;

/// What a file is called, by its number.
pub fn name_of(origin: &Origin, file: u32) -> &[u8]
    ensures { result.now ≡ told.name_of origin.now file }
{
    let number = file as usize;
    if number < origin.names.len() {
        origin.names[number].as_slice()
    } else {
        b""
    }
}

// Adds the name of a file as it is shown.
fn push_file(out: &mut String, origin: &Origin, file: u32) -> Result<(), AllocError>
    ensures { OnOk result (string_bytes out.new ≡ string_bytes out.old ++ told.file_told origin.now file) }
{
    match str::from_utf8(name_of(origin, file)) {
        Ok(name) => show_chars(out, name),
        Err(_) => Ok(()),
    }
}

// Adds a place: the file, its line and its column.
fn push_place(out: &mut String, origin: &Origin, place: FilePlace) -> Result<(), AllocError>
    ensures { OnOk result (string_bytes out.new ≡ string_bytes out.old ++ told.place_told origin.now place) }
{
    push_file(out, origin, place.file)?;
    out.push_str(":")?;
    push_number(out, place.line as usize)?;
    out.push_str(":")?;
    push_number(out, place.column as usize)
}

/// Adds where a token of a macro stands, and where the macro is called that it came of.
pub fn push_called(out: &mut String, origin: &Origin, atom: Atom) -> Result<(), AllocError>
    ensures { OnOk result (string_bytes out.new ≡ string_bytes out.old ++ told.called_told origin.now atom) }
{
    push_place(out, origin, atom.place)?;
    out.push_str(": it stands here, in a macro that is called at ")?;
    push_place(out, origin, atom.call)?;
    out.push_str("\n")
}

/// Adds the line of a token, with carets below it, by the text of its file.
pub fn push_its_line(
    out: &mut String,
    origin: &Origin,
    text: &[u8],
    atom: Atom,
) -> Result<(), AllocError>
    ensures { OnOk result (string_bytes out.new ≡ string_bytes out.old ++ told.line_told origin.now text.now atom) }
{
    let offset = atom.place.offset as usize;
    let line = line_of(text, offset);
    let onset = offset.saturating_sub(line.start);
    let bytes = origin.book.text(atom.text).len();
    show_line(out, atom.place.line as usize, line.bytes, onset, bytes)
}
