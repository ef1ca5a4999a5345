//! The tokens that a text came of, and which of them one of its own is.

ghost use Rattle.std.specs.Prelude.{◌≡◌, IfOk};
ghost use Rattle.std.specs.List.{list_any};
ghost use Rattle.called_macros.specs.Origins as origins;

use pml_macros::atom::{Atom, FilePlace};
use pml_macros::book::Book;
use prepare::stretch::Stretch;
use prepare::stretches::stretches;
use source_lines::position::line_of;
use std::alloc::{AllocError, Global};

/// The tokens that the preprocessor left of a model's files, their texts, what the files are called, by their numbers, and on which line of the
/// model's own file each is included.
#[derive(Drop)]
pub struct Origin {
    pub atoms: Vec<Atom>,
    pub book: Book,
    pub names: Vec<Vec<u8>>,
    pub homes: Vec<u32>,
}

// Whether a token is of the body of a macro, and of no argument.
fn is_body(atom: &Atom) -> bool
    ensures { result ≡ origins.is_body atom.now }
{
    atom.place.file != atom.call.file || atom.place.offset < atom.call.offset
}

/// Whether some token is of the body of a macro.
pub fn has_body(atoms: &[Atom]) -> bool
    ensures { result ≡ list_any origins.is_body atoms.now }
{
    for atom in atoms {
        if is_body(atom) {
            return true;
        }
    }
    false
}

// On which line of the model's own file something is written.
fn home(homes: &[u32], call: FilePlace) -> u32
    ensures { result ≡ origins.home homes.now call }
{
    let file = call.file as usize;
    if file == 0 {
        call.line
    } else if file < homes.len() {
        homes[file]
    } else {
        1
    }
}

// The tokens with these bytes that are written on a line of the model's own file.
fn atoms_on(
    alloc: Global,
    origin: &Origin,
    line: usize,
    token: &[u8],
) -> Result<Vec<Atom>, AllocError>
    ensures { IfOk result (λ v. v.items ≡ origins.atoms_on origin.now line token.now) }
{
    let homes = origin.homes.as_slice();
    let mut out = Vec::new(alloc);
    let mut now = 1;
    let mut rest = origin.atoms.as_slice();
    while let [atom, back @ ..] = rest {
        now = now.max(home(homes, atom.call));
        if now as usize == line && origin.book.text(atom.text) == token {
            out.push(*atom)?;
        }
        rest = back;
    }
    Ok(out)
}

// The first token that has no less than so many bytes before it.
fn token_at<'t>(stretches: &[Stretch<'t>], onset: usize) -> &'t [u8]
    ensures { result.now ≡ origins.token_at onset stretches.now }
{
    let mut left = onset;
    let mut rest = stretches;
    while let [stretch, back @ ..] = rest {
        let gap = stretch.gap().len();
        if left <= gap {
            return stretch.token();
        }
        left = left
            .saturating_sub(gap)
            .saturating_sub(stretch.token().len());
        rest = back;
    }
    b""
}

// How many tokens with these bytes have fewer bytes before them.
fn count_before(stretches: &[Stretch<'_>], token: &[u8], end: usize) -> usize
    ensures { result ≡ origins.count_before token.now end stretches.now }
{
    let mut count = 0usize;
    let mut left = end;
    let mut rest = stretches;
    while let [stretch, back @ ..] = rest {
        let gap = stretch.gap().len();
        if gap < left && stretch.token() == token {
            count += 1;
        }
        left = left
            .saturating_sub(gap)
            .saturating_sub(stretch.token().len());
        rest = back;
    }
    count
}

// Of these the one behind so many, if there are as many as wanted, or the only one.
fn chosen(atoms: &[Atom], wanted: usize, before: usize) -> Option<Atom>
    ensures { result ≡ origins.chosen atoms.now wanted before }
{
    match atoms {
        [atom] => Some(*atom),
        _ => {
            if atoms.len() == wanted && before < atoms.len() {
                Some(atoms[before])
            } else {
                None
            }
        }
    }
}

fn body_alone(atom: Option<Atom>) -> Option<Atom>
    ensures { result ≡ origins.body_alone atom }
{
    match atom {
        Some(atom) => { if is_body(&atom) { Some(atom) } else { None } }
        None => None,
    }
}

/// The token of the body of a macro that stands behind so many bytes of a text that was prepared of these.
pub fn called_at(
    alloc: Global,
    origin: &Origin,
    text: &[u8],
    offset: usize,
) -> Result<Option<Atom>, AllocError>
    ensures { IfOk result (λ a. a ≡ origins.called_at origin.now text.now offset) }
{
    let line = line_of(text, offset);
    let onset = offset.saturating_sub(line.start);
    let stretches = stretches(alloc, line.bytes)?;
    let token = token_at(&stretches, onset);
    let wanted = count_before(&stretches, token, line.bytes.len());
    let before = count_before(&stretches, token, onset);
    let atoms = atoms_on(alloc, origin, line.number, token)?;
    Ok(body_alone(chosen(&atoms, wanted, before)))
}
