//! Which parts of a text are read, by its conditions.

ghost use Rattle.std.specs.Prelude.{◌≡◌, ◌≤◌, ◌<◌, ◌++◌, ◌∷◌, [], true, false, codes, length, drop, if◌then◌else◌, IfOk, OnOk, IfErr, OnErr};
ghost use Rattle.pml_macros.specs.Texts.{IsText, Keeps};
ghost use Rattle.pml_directives.specs.Branches as rules;
ghost use Rattle.pml_directives.specs.Refusals.{refusal};
ghost use Rattle.pml_directives.specs.Names.{is_named};
ghost use Rattle.pml_directives.specs.Words.{is_conditional};

use crate::condition::holds;
use crate::macros::{is_known, replaced};
use crate::refusal::{DirectiveRefusal, Why, refused};
use crate::state::{Open, State};
use crate::words::Word;
use pml_macros::atom::{Atom, AtomSort, FilePlace, same_sort};
use pml_macros::book::Book;
use std::alloc::{AllocError, Global};

/// Whether the name that `#ifdef` asks for is known.
fn known(state: &State, atoms: &[Atom], place: FilePlace) -> Result<bool, DirectiveRefusal>
    ensures named { OnOk result (is_named atoms.now ≡ true) }
    ensures refused { IfErr result (λ e. e ≡ refusal Why.Form place) }
{
    match atoms {
        [first, ..] if same_sort(first.sort, AtomSort::Name) => Ok(is_known(state, first.text)),
        _ => Err(refused(Why::Form, place)),
    }
}

/// The truth of `defined`, as a number.
fn truth(alloc: Global, book: &mut Book, atom: Atom, is_known: bool) -> Result<Atom, AllocError>
    ensures text { IfOk result (λ a. IsText book.new a.text (if is_known then codes "1" else codes "0")) }
    ensures keeps { IfOk result (λ _. Keeps book.old book.new) }
    ensures atom { IfOk result (λ a. a ≡ record atom { sort = AtomSort.Number; text = a.text; is_painted = false }) }
{
    let text = book.number(alloc, if is_known { b"1" } else { b"0" })?;
    Ok(Atom {
        sort: AtomSort::Number,
        text,
        is_spaced: atom.is_spaced,
        is_painted: false,
        place: atom.place,
        call: atom.call,
    })
}

/// The name that `defined` asks for, and how many tokens it is.
fn asked(atoms: &[Atom]) -> Option<(usize, usize)>
    ensures { result ≡ rules.asked atoms.now }
{
    match atoms {
        [open, name, close, ..] if same_sort(open.sort, AtomSort::OpenParen) => {
            if same_sort(name.sort, AtomSort::Name) && same_sort(close.sort, AtomSort::CloseParen) {
                Some((name.text, 3))
            } else {
                None
            }
        }
        [name, ..] if same_sort(name.sort, AtomSort::Name) => Some((name.text, 1)),
        _ => None,
    }
}

/// The tokens behind so many.
pub fn behind(atoms: &[Atom], count: usize) -> &[Atom]
    ensures shorter { length result.now ≤ length atoms.now }
    ensures is { result.now ≡ drop count atoms.now }
{
    if count <= atoms.len() {
        &atoms[count..]
    } else {
        &[]
    }
}

/// A condition with each `defined` replaced by its truth.
fn without_defined(
    alloc: Global,
    state: &mut State,
    atoms: &[Atom],
    place: FilePlace,
) -> Result<Vec<Atom>, DirectiveRefusal>
    ensures { IfOk result (λ out. length out.items ≤ length atoms.now) }
{
    let mut out = Vec::with_capacity(alloc, atoms.len())?;
    let mut rest = atoms;
    while let [atom, others @ ..] = rest {
        rest = others;
        if matches!(state.work.book.text(atom.text), b"defined") {
            let Some((name, count)) = asked(others) else {
                return Err(refused(Why::Condition, place));
            };
            let is_known = is_known(state, name);
            let one = truth(alloc, &mut state.work.book, *atom, is_known)?;
            out.push(one)?;
            rest = behind(others, count);
        } else {
            out.push(*atom)?;
        }
    }
    Ok(out)
}

/// Whether the condition of an `#if` holds.
fn is_met(
    alloc: Global,
    state: &mut State,
    atoms: &[Atom],
    place: FilePlace,
) -> Result<bool, DirectiveRefusal> {
    let plain = without_defined(alloc, state, atoms, place)?;
    let all = replaced(alloc, state, plain, place)?;
    match holds(&state.work.book, &all) {
        Some(is_met) => Ok(is_met),
        None => Err(refused(Why::Condition, place)),
    }
}

/// `#if`, `#ifdef` or `#ifndef`, with what its condition is worth.
fn begin(state: &mut State, is_met: bool, place: FilePlace) -> Result<(), AllocError>
    ensures { OnOk result (state.new.open.items ≡ state.old.open.items ++ rules.begun state.old.open.items is_met place ∷ []) }
{
    let live = state.is_live();
    state.open.push(Open {
        is_live: live && is_met,
        is_done: !live || is_met,
        is_last: false,
        place,
    })?;
    Ok(())
}

/// `#else`, or `#elif` with what its condition is worth.
fn turn_to(
    state: &mut State,
    is_met: bool,
    is_last: bool,
    place: FilePlace,
) -> Result<(), DirectiveRefusal>
    ensures right { OnOk result (rules.may_turn state.old.open.items ≡ true) }
    ensures refused { IfErr result (λ e. e ≡ refusal Why.Closer place) }
    ensures stays { OnErr result (state.new ≡ state.old) }
    ensures inside { OnOk result (state.old.floor < length state.old.open.items) }
    ensures turned { OnOk result (state.new.open.items ≡ rules.turned_all state.old.open.items is_met is_last) }
{
    if state.open.len() <= state.floor {
        return Err(refused(Why::Closer, place));
    }
    let last = state.open.len() - 1;
    let open = state.open[last];
    if open.is_last {
        return Err(refused(Why::Closer, place));
    }
    state.open[last] = Open {
        is_live: !open.is_done && is_met,
        is_done: open.is_done || is_met,
        is_last,
        place: open.place,
    };
    Ok(())
}

/// `#endif`.
fn end(state: &mut State, place: FilePlace) -> Result<(), DirectiveRefusal>
    ensures inside { OnOk result (state.old.floor < length state.old.open.items) }
    ensures ended { OnOk result (state.new.open.items ≡ rules.around state.old.open.items) }
    ensures refused { IfErr result (λ e. e ≡ refusal Why.Closer place) }
    ensures stays { OnErr result (state.new ≡ state.old) }
{
    if state.open.len() <= state.floor {
        return Err(refused(Why::Closer, place));
    }
    state.open.truncate(state.open.len() - 1);
    Ok(())
}

/// Whether the condition of an `#elif` is asked.
fn is_asked(open: &[Open]) -> bool
    ensures { result ≡ rules.is_asked open.now }
{
    match open {
        [] => false,
        [.., last] => !last.is_done,
    }
}

/// Does a `#` line that has to do with conditions. Whether it is one.
pub fn conditional(
    alloc: Global,
    state: &mut State,
    word: Word,
    atoms: &[Atom],
    place: FilePlace,
) -> Result<bool, DirectiveRefusal>
    ensures { IfOk result (λ b. b ≡ is_conditional word) }
{
    let live = state.is_live();
    match word {
        Word::If => {
            let is_met = live && is_met(alloc, state, atoms, place)?;
            begin(state, is_met, place)?;
        }
        Word::Ifdef => {
            let is_met = live && known(state, atoms, place)?;
            begin(state, is_met, place)?;
        }
        Word::Ifndef => {
            let is_met = live && !known(state, atoms, place)?;
            begin(state, is_met, place)?;
        }
        Word::Elif => {
            let is_met = is_asked(&state.open) && is_met(alloc, state, atoms, place)?;
            turn_to(state, is_met, false, place)?;
        }
        Word::Else => turn_to(state, true, true, place)?,
        Word::Endif => end(state, place)?,
        _ => return Ok(false),
    }
    Ok(true)
}
