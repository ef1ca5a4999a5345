//! The macros of a text: which are defined, and what comes of tokens that name them.

ghost use Rattle.std.specs.Prelude.{◌≡◌, ◌∷◌, [], true, false, codes, length, IfOk, OnOk, IfErr, OnErr, Contains};
ghost use Rattle.std.specs.Bool.{OnTrue, OnFalse};
ghost use Rattle.pml_macros.specs.Texts.{IsText, Keeps, text_in};
ghost use Rattle.pml_directives.specs.Names as rules;
ghost use Rattle.pml_directives.specs.Refusals.{refusal};

use crate::definition::definition;
use crate::refusal::{DirectiveRefusal, Why, of_trouble, refused};
use crate::state::{PlacedRemark, Remark, State};
use pml_macros::atom::{Atom, AtomSort, FilePlace, same_sort};
use pml_macros::book::Book;
use pml_macros::calls::replaced_calls;
use pml_macros::table::{BodyToken, Macro, Substitution};
use std::alloc::{AllocError, Global};

/// Whether a name is known without a `#define`.
fn is_built_in(text: &[u8]) -> bool
    ensures { result ≡ rules.is_built_in text.now }
{
    text == b"__LINE__".as_slice() || text == b"__FILE__".as_slice()
}

/// Whether a name is that of a macro.
pub fn is_known(state: &State, name: usize) -> bool
    ensures { OnFalse result (rules.is_built_in (text_in state.now.work.book name) ≡ false) }
{
    state.table.knows(name) || is_built_in(state.work.book.text(name))
}

/// The text of a file's name as a string: a quote and a backslash stand behind a backslash.
fn quoted(alloc: Global, name: &[u8]) -> Result<Vec<u8>, AllocError>
    ensures { IfOk result (λ v. v.items ≡ rules.quoted name.now) }
{
    let mut text = Vec::new(alloc);
    text.push(b'"')?;
    for b in name {
        if *b == b'"' || *b == b'\\' {
            text.push(b'\\')?;
        }
        text.push(*b)?;
    }
    text.push(b'"')?;
    Ok(text)
}

/// A token with another text.
fn spelled(
    alloc: Global,
    book: &mut Book,
    atom: Atom,
    sort: AtomSort,
    text: &[u8],
) -> Result<Atom, AllocError>
    ensures text { IfOk result (λ a. IsText book.new a.text text.now) }
    ensures keeps { IfOk result (λ _. Keeps book.old book.new) }
    ensures atom { IfOk result (λ a. a ≡ record atom { sort = sort; text = a.text; is_painted = false }) }
{
    Ok(Atom {
        sort,
        text: book.number(alloc, text)?,
        is_spaced: atom.is_spaced,
        is_painted: false,
        place: atom.place,
        call: atom.call,
    })
}

/// `__LINE__` and `__FILE__` as what they stand for, each other token as it is.
fn told(alloc: Global, state: &mut State, atom: Atom) -> Result<Atom, AllocError>
    ensures { state.new ≡ record state.old { work = state.new.work } }
{
    match state.work.book.text(atom.text) {
        b"__LINE__" => {
            let line = atom.call.line;
            let digits = format!(in alloc; "{line}")?;
            spelled(
                alloc,
                &mut state.work.book,
                atom,
                AtomSort::Number,
                digits.as_bytes(),
            )
        }
        b"__FILE__" => {
            let text = quoted(alloc, state.name(atom.call.file))?;
            spelled(alloc, &mut state.work.book, atom, AtomSort::Quoted, &text)
        }
        _ => Ok(atom),
    }
}

/// Writes what `__LINE__` and `__FILE__` stand for in their place.
fn tell_places(alloc: Global, state: &mut State, atoms: &mut [Atom]) -> Result<(), AllocError>
    ensures { state.new ≡ record state.old { work = state.new.work } }
{
    for atom in atoms.iter_mut() {
        if same_sort(atom.sort, AtomSort::Name) {
            *atom = told(alloc, state, *atom)?;
        }
    }
    Ok(())
}

/// Whether a token is the name of a macro.
#[tactic(auto, unfolding(crate::specs::Names::is_macro))]
fn is_macro(state: &State, atom: Atom) -> bool
    ensures { result ≡ rules.is_macro state.now.table atom }
{
    same_sort(atom.sort, AtomSort::Name) && state.table.knows(atom.text)
}

/// Whether some token is the name of a macro.
fn names_macro(state: &State, atoms: &[Atom]) -> bool
    ensures { result ≡ rules.names_macro state.now.table atoms.now }
{
    for atom in atoms {
        if is_macro(state, *atom) {
            return true;
        }
    }
    false
}

/// What comes of tokens, by what is known.
pub fn replaced(
    alloc: Global,
    state: &mut State,
    atoms: Vec<Atom>,
    place: FilePlace,
) -> Result<Vec<Atom>, DirectiveRefusal>
    ensures { state.new ≡ record state.old { work = state.new.work } }
{
    let mut atoms = atoms;
    tell_places(alloc, state, &mut atoms)?;
    if !names_macro(state, &atoms) {
        return Ok(atoms);
    }
    match replaced_calls(alloc, &state.table, &mut state.work, &atoms) {
        Ok(mut all) => {
            tell_places(alloc, state, &mut all)?;
            Ok(all)
        }
        Err(trouble) => Err(of_trouble(trouble, place)),
    }
}

/// Replaces the calls in what came since the last `#` line.
pub fn flush(alloc: Global, state: &mut State) -> Result<(), DirectiveRefusal>
    ensures { OnOk result (state.new.run.items ≡ []) }
{
    let run = std::mem::replace(&mut state.run, Vec::new(alloc));
    let [first, ..] = run.as_slice() else {
        return Ok(());
    };
    let place = first.place;
    let mut all = replaced(alloc, state, run, place)?;
    state.out.append(&mut all)?;
    Ok(())
}

/// Whether two tokens of bodies are the same.
fn is_same_part(a: &BodyToken, b: &BodyToken) -> bool
    ensures { OnTrue result (rules.SamePart a.now b.now) }
{
    a.atom.text == b.atom.text && a.role == b.role && a.is_joined == b.is_joined
}

/// Whether two macros are the same, but for blanks and the names of parameters.
fn is_same_macro(a: &Macro, b: &Macro) -> bool
    ensures parameters { OnTrue result (a.now.parameters ≡ b.now.parameters) }
    ensures size { OnTrue result (length a.now.body.items ≡ length b.now.body.items) }
{
    if a.parameters != b.parameters || a.body.len() != b.body.len() {
        return false;
    }
    for (one, other) in a.body.iter().zip(b.body.iter()) {
        if !is_same_part(one, other) {
            return false;
        }
    }
    true
}

/// Whether a macro of this name was given before the text, and this is another.
fn is_again(state: &State, made: &Macro) -> bool
    ensures { OnTrue result (Contains state.now.given.items made.now.name) }
{
    match state.table.find(made.name) {
        Some(known) => state.given.contains(&made.name) && !is_same_macro(known, made),
        None => false,
    }
}

/// `#define`.
pub fn define(
    alloc: Global,
    state: &mut State,
    atoms: &[Atom],
    place: FilePlace,
) -> Result<(), DirectiveRefusal> {
    match definition(alloc, atoms)? {
        None => Err(refused(Why::Form, place)),
        Some(made) => {
            if matches!(state.work.book.text(made.name), b"defined") {
                return Err(refused(Why::Form, place));
            }
            if is_again(state, &made) {
                let remark = Remark::Again(made.name);
                state.notes.push(PlacedRemark { remark, place })?;
            }
            state.table.define(made)?;
            Ok(())
        }
    }
}

/// `#undef`.
pub fn undefine(state: &mut State, atoms: &[Atom], place: FilePlace) -> Result<(), DirectiveRefusal>
    ensures named { OnOk result (rules.is_named atoms.now ≡ true) }
    ensures alone { state.new ≡ record state.old { table = state.new.table } }
    ensures refused { IfErr result (λ e. e ≡ refusal Why.Form place) }
    ensures stays { OnErr result (state.new ≡ state.old) }
{
    match atoms {
        [first, ..] if same_sort(first.sort, AtomSort::Name) => {
            state.table.forget(first.text);
            Ok(())
        }
        _ => Err(refused(Why::Form, place)),
    }
}
