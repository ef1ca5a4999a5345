//! What comes of a text with its `#` lines.

ghost use Rattle.std.specs.Prelude.{is_some, None, false, ◌≡◌, ◌≤◌, ◌<◌, ◌+◌, ◌++◌, Some, length, IfOk, OnOk, IfErr, OnErr};
ghost use Rattle.std.specs.List.{list_any};
ghost use Rattle.pml_directives.specs.Names as rules;
ghost use Rattle.pml_directives.specs.Places.{StandIn};
ghost use Rattle.pml_directives.specs.Refusals.{refusal};
ghost use Rattle.pml_directives.specs.Words.{is_refused};
ghost use Rattle.pml_directives.specs.States.{called_so, shifted_all};

use crate::branches::{behind, conditional};
use crate::files::{Files, FoundFile};
use crate::lines::{AtomLine, lines};
use crate::macros::{define, flush, replaced, undefine};
use crate::refusal::{DirectiveRefusal, Why, refused};
use crate::state::{PlacedRemark, Remark, Shift, State};
use crate::words::{Word, word_of};
use pml_macros::atom::{Atom, AtomSort, FilePlace, same_sort};
use pml_macros::book::owned;
use std::alloc::{AllocError, Global};

/// How deep includes may be.
pub const MOST_INCLUDES: usize = 64;

/// How many files there may be.
pub const MOST_FILES: usize = 2_048;

/// The largest number that `#line` gives a line.
const MOST_LINE: u32 = 1_048_576;

/// How many bytes a file may have.
pub const MOST_FILE_BYTES: usize = 1_048_576;

/// The bytes up to a `>`.
fn bracketed(alloc: Global, state: &State, atoms: &[Atom]) -> Result<Option<Vec<u8>>, AllocError>
    ensures { IfOk result (λ name. is_some name ≡ rules.is_closed state.now.work.book atoms.now) }
{
    let mut name = Vec::new(alloc);
    for atom in atoms {
        match state.text(atom) {
            b">" => return Ok(Some(name)),
            text => name.extend_from_slice(text)?,
        }
    }
    Ok(None)
}

/// How an `#include` names a file.
#[derive(Drop)]
struct Target {
    name: Vec<u8>,
    is_quoted: bool,
}

/// The name of a file in quotes or brackets.
fn wanted(alloc: Global, state: &State, atoms: &[Atom]) -> Result<Option<Target>, AllocError>
    ensures { length atoms.now ≡ 0 → IfOk result (λ target. target ≡ None) }
{
    let [first, others @ ..] = atoms else {
        return Ok(None);
    };
    match state.text(first) {
        [b'"', inner @ .., b'"'] => Ok(Some(Target {
            name: owned(alloc, inner)?,
            is_quoted: true,
        })),
        b"<" => Ok(bracketed(alloc, state, others)?.map(|name| Target {
            name,
            is_quoted: false,
        })),
        _ => Ok(None),
    }
}

/// What an `#include` names, by a macro maybe.
fn wanted_by(
    alloc: Global,
    state: &mut State,
    atoms: &[Atom],
    place: FilePlace,
) -> Result<Target, DirectiveRefusal> {
    if let Some(wanted) = wanted(alloc, state, atoms)? {
        return Ok(wanted);
    }
    let mut own = Vec::new(alloc);
    own.extend_from_slice(atoms)?;
    let all = replaced(alloc, state, own, place)?;
    match wanted(alloc, state, &all)? {
        Some(wanted) => Ok(wanted),
        None => Err(refused(Why::Form, place)),
    }
}

/// Whether the file of a number is called so.
fn is_called(names: &[Vec<u8>], number: usize, name: &[u8]) -> bool
    ensures { result ≡ called_so names.now name.now number }
{
    number < names.len() && names[number].as_slice() == name
}

/// Whether a file of this name says that it is read once, and was.
fn is_read(state: &State, name: &[u8]) -> bool
    ensures { result ≡ list_any (called_so state.now.names.items name.now) state.now.once.items }
{
    state
        .once
        .iter()
        .any(|number| is_called(&state.names, *number, name))
}

/// The file that an `#include` names.
fn included<F: Files>(
    alloc: Global,
    state: &mut State,
    files: &mut F,
    atoms: &[Atom],
    place: FilePlace,
) -> Result<FoundFile, DirectiveRefusal> {
    let Target { name, is_quoted } = wanted_by(alloc, state, atoms, place)?;
    if state.names.len() >= MOST_FILES {
        return Err(refused(Why::Includes, place));
    }
    match files.file(alloc, state.name(place.file), &name, is_quoted)? {
        None => Err(refused(Why::File, place)),
        Some(found) => Ok(found),
    }
}

/// `#pragma`: of all of them `once` alone is known.
fn pragma(state: &mut State, atoms: &[Atom], place: FilePlace) -> Result<(), AllocError>
    ensures alone { state.new ≡ record state.old { once = state.new.once } }
    ensures once { OnOk result (state.new.once.items ≡ state.old.once.items ++ rules.once_by state.old.work.book atoms.now place) }
{
    if let [first, ..] = atoms {
        if matches!(state.text(first), b"once") {
            state.once.push(place.file as usize)?;
        }
    }
    Ok(())
}

/// The number that digits are, if it is one of a line.
fn line_number(text: &[u8]) -> Option<u32>
    ensures { result ≡ rules.line_from 0 text.now }
{
    let mut number = 0u32;
    let mut rest = text;
    while let [b, others @ ..] = rest {
        if *b < b'0' || *b > b'9' || number > MOST_LINE {
            return None;
        }
        number = 10 * number + u32::from(*b - b'0');
        rest = others;
    }
    Some(number)
}

/// `#line` or a mark: the line behind it has this number.
fn count_lines(state: &mut State, atoms: &[Atom], place: FilePlace) -> Result<(), DirectiveRefusal>
    ensures stays { OnErr result (state.new ≡ state.old) }
    ensures refused { IfErr result (λ e. e ≡ refusal Why.Form place) }
    ensures alone { state.new ≡ record state.old { shift = state.new.shift } }
    ensures shift { OnOk result (state.new.shift ≡ rules.shift_of state.old.work.book atoms.now place) }
{
    let number = match atoms {
        [first, ..] => line_number(state.text(first)),
        [] => None,
    };
    match number {
        Some(to) => {
            let from = place.line.saturating_add(1);
            state.shift = Some(Shift { from, to });
            Ok(())
        }
        None => Err(refused(Why::Form, place)),
    }
}

/// Adds the tokens of a line to those that are read, by the numbers that the lines have.
fn add_line(state: &mut State, atoms: &[Atom]) -> Result<(), AllocError>
    ensures { OnOk result (state.new.run.items ≡ state.old.run.items ++ shifted_all state.old.shift atoms.now) }
{
    match state.shift {
        None => state.run.extend_from_slice(atoms),
        Some(shift) => {
            for atom in atoms {
                state.run.push(shift.shifted(*atom))?;
            }
            Ok(())
        }
    }
}

/// Does a `#` line that opens or closes no condition and includes no file.
fn plain(
    alloc: Global,
    state: &mut State,
    word: Word,
    atoms: &[Atom],
    place: FilePlace,
) -> Result<(), DirectiveRefusal>
    ensures { OnOk result (is_refused word ≡ false) }
{
    match word {
        Word::Define => define(alloc, state, atoms, place),
        Word::Undef => undefine(state, atoms, place),
        Word::Line => count_lines(state, atoms, place),
        Word::Pragma => Ok(pragma(state, atoms, place)?),
        Word::Error => Err(refused(Why::Error, place)),
        Word::Warning => {
            let remark = Remark::Warning;
            state.notes.push(PlacedRemark { remark, place })?;
            Ok(())
        }
        Word::Unknown => Err(refused(Why::Word, place)),
        _ => Ok(()),
    }
}

/// What is asked of a line: nothing more, or that a file be read.
#[derive(Clone, Copy, Debug, PartialEq, Eq)]
enum Further {
    Nothing,
    Include,
}

/// Does a `#` line, of which these tokens stand behind the `#`.
fn directive(
    alloc: Global,
    state: &mut State,
    atoms: &[Atom],
    place: FilePlace,
) -> Result<Further, DirectiveRefusal> {
    flush(alloc, state)?;
    let word = word_of(state, atoms);
    let operands = behind(atoms, 1);
    if matches!(word, Word::Mark) && state.is_live() {
        count_lines(state, atoms, place)?;
    }
    if conditional(alloc, state, word, operands, place)? || !state.is_live() {
        return Ok(Further::Nothing);
    }
    if matches!(word, Word::Include) {
        return Ok(Further::Include);
    }
    plain(alloc, state, word, operands, place)?;
    Ok(Further::Nothing)
}

/// Does a line.
fn line(alloc: Global, state: &mut State, line: &AtomLine) -> Result<Further, DirectiveRefusal> {
    match line.atoms.as_slice() {
        [first, others @ ..] if same_sort(first.sort, AtomSort::Hash) => {
            directive(alloc, state, others, first.place)
        }
        all => {
            if state.is_live() {
                add_line(state, all)?;
            }
            Ok(Further::Nothing)
        }
    }
}

/// Where an `#include` stands, of a line that is one.
fn place_of(line: &AtomLine) -> FilePlace
    ensures { result ≡ rules.place_of line.now.atoms.items line.now.end }
{
    match line.atoms.as_slice() {
        [first, ..] => first.place,
        [] => line.end,
    }
}

/// A condition that a file leaves open is refused.
fn closed(state: &State, opened: usize) -> Result<(), DirectiveRefusal>
    ensures closed { OnOk result (length state.now.open.items ≤ opened) }
    ensures left { OnErr result (opened < length state.now.open.items) }
    ensures refused { IfErr result (λ e. e.why ≡ Why.Opener) }
{
    if opened < state.open.len() {
        return Err(refused(Why::Opener, state.open[opened].place));
    }
    Ok(())
}

/// Reads a file.
fn file<F: Files>(
    alloc: Global,
    state: &mut State,
    files: &mut F,
    number: u32,
    text: &[u8],
    room: usize,
) -> Result<(), DirectiveRefusal> {
    let floor = state.floor;
    let opened = state.open.len();
    let shift = state.shift;
    state.floor = opened;
    state.shift = None;
    let all = lines_of(alloc, state, number, text)?;
    for one in &all {
        if line(alloc, state, one)? == Further::Include {
            let place = place_of(one);
            if room == 0 {
                return Err(refused(Why::Includes, place));
            }
            let found = included(alloc, state, files, behind(&one.atoms, 2), place)?;
            if !is_read(state, &found.name) {
                let next = state.names.len().min(MOST_FILES) as u32;
                let home = state.home(place);
                state.names.push(found.name)?;
                state.homes.push(home)?;
                file(alloc, state, files, next, &found.text, room - 1)?;
            }
        }
    }
    closed(state, opened)?;
    state.floor = floor;
    state.shift = shift;
    flush(alloc, state)
}

/// The lines of a file that is not too long.
fn lines_of(
    alloc: Global,
    state: &mut State,
    number: u32,
    text: &[u8],
) -> Result<Vec<AtomLine>, DirectiveRefusal>
    ensures stand { IfOk result (λ v. StandIn state.new.work.book number text.now v.items) }
    ensures short { OnOk result (length text.now ≤ MOST_FILE_BYTES) }
    ensures fewer { OnOk result (state.new.bytes_left + length text.now ≡ state.old.bytes_left) }
{
    if text.len() > MOST_FILE_BYTES || text.len() > state.bytes_left {
        return Err(refused(
            Why::Long,
            FilePlace {
                file: number,
                offset: 0,
                line: 1,
                column: 1,
            },
        ));
    }
    state.bytes_left -= text.len();
    lines(alloc, &mut state.work.book, number, text)
}

/// The names that the text before a model defines.
fn note_given(state: &mut State) -> Result<(), AllocError>
    ensures { state.new ≡ record state.old { given = state.new.given } }
{
    state.given = state.table.names()?;
    Ok(())
}

/// Reads a text with its `#` lines, behind lines that define macros, where other files are given by name: what comes of it stands in the state.
pub fn preprocess<F: Files>(
    alloc: Global,
    files: &mut F,
    state: &mut State,
    before: &[u8],
    text: &[u8],
) -> Result<(), DirectiveRefusal> {
    file(alloc, state, files, 1, before, 0)?;
    note_given(state)?;
    file(alloc, state, files, 0, text, MOST_INCLUDES)
}
