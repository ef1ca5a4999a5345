//! What comes of tokens in which macros are named.

ghost use Rattle.std.specs.Prelude.{◌≡◌, ◌≤◌, ◌<◌, ◌++◌, ◌∷◌, [], Some, length, reverse, IfOk, OnOk, IfSome, IfNone};
ghost use Rattle.pml_macros.specs.Calls as rules;
ghost use Rattle.pml_macros.specs.Laws.{KnowsNone};
ghost use Rattle.pml_macros.specs.Calls.{Comes, Known, Rule, ArePlain, HasEntered, known};

use crate::atom::{Atom, AtomSort, same_sort};
use crate::replacing::{CallArguments, argument, is_wanted, replaced};
use crate::table::{Macro, MacroTable};
use crate::trouble::Trouble;
use crate::work::Work;
use std::alloc::{AllocError, Global};

/// The macros that may be within one another.
pub const MOST_WITHIN: usize = 200;

/// What is still to be read: a token, or the end of what came of a macro.
#[derive(Clone, Copy, Debug)]
pub enum PendingItem {
    Token(Atom),
    End,
}

/// What is still to be read, the next of it last, and the macros in what came of which it stands.
#[derive(Drop)]
pub struct Pending {
    items: Vec<PendingItem>,
    active: Vec<usize>,
}

fn add_reversed(items: &mut Vec<PendingItem>, atoms: &[Atom]) -> Result<(), AllocError>
    ensures { OnOk result (items.new.items ≡ items.old.items ++ reverse (rules.tokens atoms.now)) }
{
    let mut at = atoms.len();
    while at > 0 {
        at -= 1;
        items.push(PendingItem::Token(atoms[at]))?;
    }
    Ok(())
}

/// Whether the next token is a `(`.
fn opens_next(items: &[PendingItem]) -> bool
    ensures { result ≡ rules.opens_next (reverse items.now) }
{
    let mut at = items.len();
    while at > 0 {
        at -= 1;
        match items[at] {
            PendingItem::Token(atom) => return same_sort(atom.sort, AtomSort::OpenParen),
            PendingItem::End => {}
        }
    }
    false
}

/// A token, painted where it names a macro that it stands within.
fn seen(atom: Atom, active: &[usize]) -> Atom
    ensures { result ≡ rules.seen active.now atom }
{
    if same_sort(atom.sort, AtomSort::Name) && active.contains(&atom.text) {
        atom.painted()
    } else {
        atom
    }
}

/// Takes what stands between the parentheses of a call, cut at its commas, and the parentheses.
fn take_arguments(
    alloc: Global,
    pending: &mut Pending,
) -> Result<Option<Vec<Vec<Atom>>>, AllocError>
    ensures shorter { length pending.new.items.items ≤ length pending.old.items.items }
    ensures takes { IfOk result (λ o. rules.TakesFrom pending.old o pending.new) }
{
    let mut arguments = Vec::new(alloc);
    let mut current = Vec::new(alloc);
    let mut depth = 0usize;
    while let Some(item) = pending.items.pop() {
        match item {
            PendingItem::End => {
                pending.active.pop();
            }
            PendingItem::Token(atom) => {
                let atom = seen(atom, &pending.active);
                if same_sort(atom.sort, AtomSort::OpenParen) {
                    if depth > 0 {
                        current.push(atom)?;
                    }
                    depth += 1;
                } else if same_sort(atom.sort, AtomSort::CloseParen) {
                    if depth <= 1 {
                        arguments.push(current)?;
                        return Ok(Some(arguments));
                    }
                    depth -= 1;
                    current.push(atom)?;
                } else if same_sort(atom.sort, AtomSort::Comma) && depth <= 1 {
                    arguments.push(current)?;
                    current = Vec::new(alloc);
                } else {
                    current.push(atom)?;
                }
            }
        }
    }
    Ok(None)
}

/// Whether so many arguments are right: nothing between the parentheses is none for a macro without parameters.
fn fits(wanted: usize, arguments: &[Vec<Atom>]) -> bool
    ensures { result ≡ rules.fits wanted (rules.lists arguments.now) }
{
    if wanted == 0 {
        match arguments {
            [one] => one.is_empty(),
            _ => false,
        }
    } else {
        arguments.len() == wanted
    }
}

/// Takes the arguments of a call, whose `(` is next.
fn arguments_of(
    alloc: Global,
    pending: &mut Pending,
    wanted: usize,
    atom: Atom,
) -> Result<Vec<Vec<Atom>>, Trouble>
    ensures shorter { length pending.new.items.items ≤ length pending.old.items.items }
    ensures takes { IfOk result (λ v. rules.TakesRightFrom wanted pending.old v pending.new) }
{
    match take_arguments(alloc, pending)? {
        None => Err(Trouble::Open(atom)),
        Some(arguments) => {
            if fits(wanted, &arguments) {
                Ok(arguments)
            } else {
                Err(Trouble::Arguments(atom, arguments.len()))
            }
        }
    }
}

/// Puts a body in front of what is still to be read, if so many tokens may be put there.
fn enter(
    pending: &mut Pending,
    made: &Macro,
    atom: Atom,
    body: &[Atom],
    left: &mut usize,
) -> Result<(), Trouble>
    ensures active { OnOk result (pending.new.active.items ≡ pending.old.active.items ++ made.now.name ∷ []) }
    ensures items { OnOk result (reverse pending.new.items.items ≡ rules.tokens body.now ++ rules.stop ∷ reverse pending.old.items.items) }
    ensures fewer { left.new ≤ left.old }
    ensures spent { OnOk result (rules.to_read left.new pending.new.items.items ≡ rules.to_read left.old pending.old.items.items) }
{
    if pending.active.len() >= MOST_WITHIN {
        return Err(Trouble::Deep(atom));
    }
    if *left <= body.len() {
        return Err(Trouble::Much(atom));
    }
    *left -= body.len() + 1;
    pending.items.push(PendingItem::End)?;
    pending.active.push(made.name)?;
    add_reversed(&mut pending.items, body)?;
    Ok(())
}

/// Puts the body of the macro that a token names, with these arguments, in front of what is still to be read.
fn enter_call(
    alloc: Global,
    table: &MacroTable,
    work: &mut Work,
    atom: Atom,
    given: CallArguments<'_>,
    pending: &mut Pending,
) -> Result<(), Trouble>
    ensures fewer { work.new.left ≤ work.old.left }
    ensures spent { OnOk result (rules.to_read work.new.left pending.new.items.items ≤ rules.to_read work.old.left pending.old.items.items) }
    ensures entered { rules.Enters (known table.now) given.entry.expanded.now atom pending.old pending.new result }
{
    match table.find(atom.text) {
        None => Ok(()),
        Some(made) => {
            let body = replaced(alloc, &mut work.book, made, given, atom.call)?;
            enter(pending, made, atom, &body, &mut work.left)
        }
    }
}

/// What a token is at its place.
#[derive(Clone, Copy, Debug, PartialEq, Eq)]
pub enum AtomStanding {
    /// It comes out.
    Stays,
    /// It comes out, and is never replaced.
    Painted,
    /// A macro without parentheses.
    Object,
    /// A macro with so many parameters, whose `(` is next.
    Call(usize),
}

#[tactic(auto, unfolding(crate::specs::Calls::standing))]
fn standing_of(table: &MacroTable, atom: Atom, pending: &Pending) -> AtomStanding
    ensures { result ≡ rules.standing (known table.now) pending.now.active.items atom (reverse pending.now.items.items) }
{
    if !same_sort(atom.sort, AtomSort::Name) || atom.is_painted {
        return AtomStanding::Stays;
    }
    match table.find(atom.text) {
        None => AtomStanding::Stays,
        Some(made) => {
            if pending.active.contains(&atom.text) {
                return AtomStanding::Painted;
            }
            match made.parameters {
                None => AtomStanding::Object,
                Some(wanted) => {
                    if opens_next(&pending.items) {
                        AtomStanding::Call(wanted)
                    } else {
                        AtomStanding::Stays
                    }
                }
            }
        }
    }
}

/// Takes the next token, past the ends of macros.
fn next_token(pending: &mut Pending) -> Option<Atom>
    ensures ended { IfNone result ((ms : Known) → Comes ms pending.old.active.items (reverse pending.old.items.items) []) }
    ensures shorter { IfSome result (λ a. length pending.new.items.items < length pending.old.items.items) }
    ensures token { IfSome result (λ a. (ms : Known) → rules.FollowsFrom ms a pending.old pending.new) }
{
    while let Some(item) = pending.items.pop() {
        match item {
            PendingItem::Token(atom) => return Some(atom),
            PendingItem::End => {
                pending.active.pop();
            }
        }
    }
    None
}

/// Reads a token: it comes out, or is replaced, or its arguments are answered.
fn turn(
    alloc: Global,
    table: &MacroTable,
    work: &mut Work,
    atom: Atom,
    pending: &mut Pending,
    out: &mut Vec<Atom>,
) -> Result<Option<Vec<Vec<Atom>>>, Trouble>
    ensures fewer { work.new.left ≤ work.old.left }
    ensures spent { IfOk result (λ o. rules.to_read work.new.left pending.new.items.items ≤ rules.to_read work.old.left pending.old.items.items) }
    ensures turns { ArePlain (known table.now) → IfOk result
        (rules.TurnsFrom (known table.now) atom out.old.items pending.old out.new.items pending.new) }
{
    match standing_of(table, atom, pending) {
        AtomStanding::Stays => {
            out.push(atom)?;
            Ok(None)
        }
        AtomStanding::Painted => {
            out.push(atom.painted())?;
            Ok(None)
        }
        AtomStanding::Object => {
            let given = CallArguments {
                raw: &[],
                expanded: &[],
            };
            enter_call(alloc, table, work, atom, given, pending)?;
            Ok(None)
        }
        AtomStanding::Call(wanted) => Ok(Some(arguments_of(alloc, pending, wanted, atom)?)),
    }
}

/// Whether what comes of an argument of a call is asked for.
fn is_asked(table: &MacroTable, name: usize, number: usize) -> bool
    ensures { (m : Rule) → known table.now name ≡ Some m → result ≡ rules.is_wanted m number }
{
    match table.find(name) {
        None => false,
        Some(made) => is_wanted(made, number),
    }
}

fn pending_of(alloc: Global, active: &[usize], atoms: &[Atom]) -> Result<Pending, AllocError>
    ensures items { IfOk result (λ p. reverse p.items.items ≡ rules.tokens atoms.now) }
    ensures active { IfOk result (λ p. p.active.items ≡ active.now) }
{
    let mut items = Vec::with_capacity(alloc, atoms.len())?;
    add_reversed(&mut items, atoms)?;
    let mut within = Vec::new(alloc);
    within.extend_from_slice(active)?;
    Ok(Pending {
        items,
        active: within,
    })
}

/// What comes of tokens that stand within macros, where so many arguments more may be within one another.
fn read(
    alloc: Global,
    table: &MacroTable,
    work: &mut Work,
    active: &[usize],
    atoms: &[Atom],
    room: usize,
) -> Result<Vec<Atom>, Trouble>
    ensures few { work.new.left ≤ work.old.left }
    ensures comes { ArePlain (known table.now) → IfOk result (λ v. Comes (known table.now) active.now (rules.tokens atoms.now) v.items) }
{
    let mut out = Vec::new(alloc);
    let mut pending = pending_of(alloc, active, atoms)?;
    while let Some(atom) = next_token(&mut pending) {
        if let Some(arguments) = turn(alloc, table, work, atom, &mut pending, &mut out)? {
            if room == 0 {
                return Err(Trouble::Deep(atom));
            }
            let mut all = Vec::with_capacity(alloc, arguments.len())?;
            for number in 0..arguments.len() {
                if is_asked(table, atom.text, number) {
                    all.push(read(
                        alloc,
                        table,
                        work,
                        &pending.active,
                        argument(&arguments, number),
                        room - 1,
                    )?)?;
                } else {
                    all.push(Vec::new(alloc))?;
                }
            }
            let given = CallArguments {
                raw: &arguments,
                expanded: &all,
            };
            enter_call(alloc, table, work, atom, given, &mut pending)?;
        }
    }
    Ok(out)
}

/// What comes of tokens, where no more are put in place of calls than may be.
pub fn replaced_calls(
    alloc: Global,
    table: &MacroTable,
    work: &mut Work,
    atoms: &[Atom],
) -> Result<Vec<Atom>, Trouble>
    ensures few { work.new.left ≤ work.old.left }
    // Where no macro has `#` or `##`, what comes out is derived by the rules.
    ensures comes { ArePlain (known table.now) → IfOk result (λ v. Comes (known table.now) [] (rules.tokens atoms.now) v.items) }
    // Where no macro is known, the tokens come out as they were.
    ensures same { KnowsNone (known table.now) → IfOk result (λ v. v.items ≡ atoms.now) }
{
    read(alloc, table, work, &[], atoms, MOST_WITHIN)
}
