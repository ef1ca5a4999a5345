//! The text of tokens that keep their places.

ghost use Rattle.std.specs.Prelude.{◌≡◌, ◌≤◌, max, OnOk, IfOk};
ghost use Rattle.marked_text.specs.Blanks as blank;
ghost use Rattle.marked_text.specs.Writes.{spot, names, at, Goes, Went, StandsAt, WritesAll};

use crate::pen::{OWN, Pen, add_mark};
use pml_macros::atom::{Atom, FilePlace};
use pml_macros::book::Book;
use std::alloc::{AllocError, Global};

/// The first token of a line has at most so many blanks before it.
const MOST_BLANKS: u32 = 200;

/// Files, by their numbers.
#[derive(Clone, Copy)]
pub struct Sources<'s> {
    /// What each is called in a mark.
    pub names: &'s [Vec<u8>],
    /// The line of the model's own file on which each is included.
    pub homes: &'s [u32],
}

fn home_of(homes: &[u32], file: u32) -> u32
    ensures { result ≡ blank.home_of homes.now file }
{
    let number = file as usize;
    if number < homes.len() {
        homes[number]
    } else {
        1
    }
}

/// Goes to the line on which a file is included.
fn go_home(
    pen: &mut Pen,
    out: &mut Vec<u8>,
    called: &[Vec<u8>],
    home: u32,
) -> Result<(), AllocError>
    ensures { OnOk result (Went (names called.now) out.old.items pen.old out.new.items pen.new) }
{
    if pen.file == OWN {
        pen.go_down(out, home)
    } else if pen.own < home {
        pen.mark(out, called, OWN, home)
    } else {
        Ok(())
    }
}

/// Goes to the line of a place, or where the text is in its file already further on.
fn go_to(
    pen: &mut Pen,
    out: &mut Vec<u8>,
    sources: Sources<'_>,
    atom: &Atom,
) -> Result<(), AllocError>
    ensures goes { OnOk result (Goes (names sources.entry.names.now) out.old.items out.new.items (spot pen.old) (spot pen.new)) }
    ensures there { OnOk result (StandsAt (spot pen.old) (spot pen.new) atom.now) }
{
    let place = atom.call;
    if pen.file == place.file {
        return pen.go_down(out, place.line);
    }
    if place.file == OWN {
        let line = pen.own.max(place.line);
        return pen.mark(out, sources.names, OWN, line);
    }
    let home = home_of(sources.homes, place.file);
    go_home(pen, out, sources.names, home)?;
    pen.mark(out, sources.names, place.file, place.line)
}

/// Whether a place is in a file so many bytes behind another.
fn is_behind(place: FilePlace, other: FilePlace, bytes: usize) -> bool
    ensures { result ≡ blank.is_behind place other bytes }
{
    place.file == other.file
        && place.offset as usize == (other.offset as usize).saturating_add(bytes)
}

/// Whether a token stands for itself: it comes of no call.
fn is_own(atom: &Atom) -> bool
    ensures { result ≡ blank.is_own atom.now }
{
    atom.place == atom.call
}

/// Whether a token stands directly behind another in their file.
fn adjoins(book: &Book, last: Option<Atom>, atom: &Atom) -> bool
    ensures { result ≡ blank.adjoins book.now last atom.now }
{
    match last {
        Some(last) => {
            is_own(&last)
                && is_own(atom)
                && is_behind(atom.place, last.place, book.text(last.text).len())
        }
        None => false,
    }
}

/// How many blanks stand before a token that is the first of its line: those that its line has there, and one at least before a `#`.
fn indent(text: &[u8], place: FilePlace) -> u32
    ensures { result ≡ blank.indent text.now place }
{
    let blanks = place.column.saturating_sub(1).min(MOST_BLANKS);
    match text {
        [b'#', ..] => blanks.max(1),
        _ => blanks,
    }
}

/// How many blanks stand before a token, where the text is at its line.
fn blanks_before(book: &Book, last: Option<Atom>, atom: &Atom, is_fresh: bool) -> u32
    ensures { result ≡ blank.blanks_before book.now last atom.now is_fresh }
{
    if is_fresh {
        indent(book.text(atom.text), atom.call)
    } else if adjoins(book, last, atom) {
        0
    } else {
        1
    }
}

/// Goes to where a token stands.
fn go_before(
    pen: &mut Pen,
    out: &mut Vec<u8>,
    book: &Book,
    sources: Sources<'_>,
    last: Option<Atom>,
    atom: &Atom,
) -> Result<(), AllocError>
    ensures goes { OnOk result (Goes (names sources.entry.names.now) out.old.items out.new.items (spot pen.old) (spot pen.new)) }
    ensures there { OnOk result (StandsAt (spot pen.old) (spot pen.new) atom.now) }
{
    go_to(pen, out, sources, atom)?;
    let blanks = blanks_before(book, last, atom, pen.is_fresh);
    pen.leave(out, blanks)
}

/// Writes tokens, each on the line of its place or of the call that it came of, with marks of files.
pub fn written(
    alloc: Global,
    book: &Book,
    sources: Sources<'_>,
    atoms: &[Atom],
) -> Result<Vec<u8>, AllocError>
    ensures { IfOk result (λ v. WritesAll book.now (names sources.entry.names.now) atoms.now v.items) }
{
    let mut out = Vec::new(alloc);
    let mut pen = Pen::start();
    let mut last = None;
    add_mark(&mut out, 1, b"")?;
    for atom in atoms {
        go_before(&mut pen, &mut out, book, sources, last, atom)?;
        pen.write(&mut out, book.text(atom.text))?;
        last = Some(*atom);
    }
    if !pen.is_fresh {
        out.push(b'\n')?;
    }
    Ok(out)
}
