//! The tokens of a file, line by line.

ghost use Rattle.std.specs.Prelude.{◌≡◌, ◌<◌, ◌^◌, length, slice_index_or, IfOk};
ghost use Rattle.pml_directives.specs.Places.{AllStand, StandIn};

use crate::refusal::{DirectiveRefusal, Why, refused};
use crate::splices::without_joints;
use pml_macros::atom::{Atom, AtomSort, FilePlace};
use pml_macros::book::Book;
use pml_macros::scan::{PreprocessingLexeme, next};
use std::alloc::Global;

/// A line: its tokens, and the place behind them.
#[derive(Drop)]
pub struct AtomLine {
    pub atoms: Vec<Atom>,
    pub end: FilePlace,
}

fn place_at(places: &[FilePlace], at: usize, end: FilePlace) -> FilePlace
    ensures { result ≡ slice_index_or places.now at end }
{
    if at < places.len() { places[at] } else { end }
}

/// A token of a file, with its place.
fn atom(sort: AtomSort, text: usize, is_spaced: bool, place: FilePlace) -> Atom
    ensures text { result.text ≡ text }
    ensures place { result.place ≡ place }
    ensures own { result.call ≡ place }
{
    Atom {
        sort,
        text,
        is_spaced,
        is_painted: false,
        place,
        call: place,
    }
}

/// The lines of some bytes, of each of which the place in a file is known. A comment that goes over lines joins them.
fn cut(
    alloc: Global,
    book: &mut Book,
    bytes: &[u8],
    places: &[FilePlace],
    last: FilePlace,
) -> Result<Vec<AtomLine>, DirectiveRefusal>
    ensures { IfOk result (λ v. AllStand book.new bytes.now places.now last v.items) }
{
    let mut lines = Vec::new(alloc);
    let mut atoms = Vec::new(alloc);
    let mut is_spaced = false;
    let mut rest = bytes;
    let mut at = 0usize;
    while !rest.is_empty() {
        let (length, lexeme) = next(rest);
        let (front, back) = rest.split_at(length);
        let place = place_at(places, at, last);
        match lexeme {
            PreprocessingLexeme::Blank => is_spaced = true,
            PreprocessingLexeme::Unclosed => return Err(refused(Why::Comment, place)),
            PreprocessingLexeme::LineFeed => {
                lines.push(AtomLine { atoms, end: place })?;
                atoms = Vec::new(alloc);
                is_spaced = true;
            }
            PreprocessingLexeme::Token(sort) => {
                let number = book.number(alloc, front)?;
                atoms.push(atom(sort, number, is_spaced, place))?;
                is_spaced = false;
            }
        }
        at += length;
        rest = back;
    }
    lines.push(AtomLine { atoms, end: last })?;
    Ok(lines)
}

/// The lines of a file, whose tokens stand where their places say.
pub fn lines(
    alloc: Global,
    book: &mut Book,
    file: u32,
    text: &[u8],
) -> Result<Vec<AtomLine>, DirectiveRefusal>
    requires { length text.now < 2 ^ 31 }
    ensures { IfOk result (λ v. StandIn book.new file text.now v.items) }
{
    let whole = without_joints(alloc, file, text)?;
    cut(alloc, book, &whole.bytes, &whole.places, whole.end)
}
