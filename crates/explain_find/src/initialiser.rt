//! Initialisers that come to a fault.

use crate::begun::{ActiveProcesses, with_begun};
use crate::tree::is_refused_at_start;
use explain_cause::cause::{Finding, Hazard, Reason, Segment, StartCause};
use explain_cause::place::{
    at_place, between, bytes_of, from, index_at, is_at, kind_at, place_of, untold,
};
use explain_condition::spans::{assign_of, end_of_initialiser, initialiser_place};
use pml_token::token::{Kind, Token};
use promela_model::mark::{Declared, Mark, Role, What};
use std::alloc::{AllocError, Global};

/// An initialiser: the name that it is of, its `=`, and the token behind it.
#[derive(Clone, Copy)]
struct Initialiser {
    name: usize,
    from: usize,
    end: usize,
}

/// The name of the variable that a mark declares, at or behind `first`.
fn variable_from(tokens: &[Token<'_>], first: usize, mark: &Mark<'_>) -> Option<usize> {
    match &mark.what {
        What::Declares(name, Declared::Variable(Role::Variable, _, _, _)) => {
            let passed = index_at(from(tokens, first), name.line() as usize)?;
            Some(first.saturating_add(passed))
        }
        _ => None,
    }
}

/// The initialiser of the variable whose name is the token at `name`.
fn initialiser_of(tokens: &[Token<'_>], name: usize) -> Option<Initialiser> {
    match assign_of(tokens, name) {
        Some(from) => {
            let end = end_of_initialiser(tokens, from);
            Some(Initialiser { name, from, end })
        }
        None => None,
    }
}

/// Whose initialisers are meant.
#[derive(Clone, Copy)]
enum Owners {
    /// Those of global variables.
    Globals,
    /// Those of the variables of proctypes.
    Proctypes,
    All,
}

fn is_of(owners: Owners, mark: &Mark<'_>) -> bool {
    match owners {
        Owners::Globals => mark.owner == 0,
        Owners::Proctypes => mark.owner > 0,
        Owners::All => true,
    }
}

/// The initialisers of a text that may come to a fault, in order.
fn initialisers(
    alloc: Global,
    tokens: &[Token<'_>],
    marks: &[Mark<'_>],
    owners: Owners,
) -> Result<Vec<Initialiser>, AllocError> {
    let mut list = Vec::new(alloc);
    let mut at = 0usize;
    for mark in marks {
        if let Some(name) = variable_from(tokens, at, mark) {
            at = name.saturating_add(1);
            if let Some(one) = initialiser_of(tokens, name) {
                if is_of(owners, mark) && can_fault(tokens, one) {
                    list.push(one)?;
                }
            }
        }
    }
    Ok(list)
}

fn is_begun(list: &[Initialiser], number: usize, at: usize) -> bool {
    match list.get(number) {
        Some(one) => one.from <= at,
        None => false,
    }
}

fn is_ended(list: &[Initialiser], number: usize, behind: usize) -> bool {
    match list.get(number) {
        Some(one) => one.end <= behind,
        None => false,
    }
}

/// The tokens without these initialisers, which stand in their order.
fn without<'t>(
    alloc: Global,
    tokens: &[Token<'t>],
    dropped: &[Initialiser],
) -> Result<Vec<Token<'t>>, AllocError> {
    let mut kept = Vec::with_capacity(alloc, tokens.len())?;
    let mut next = 0usize;
    for (i, token) in tokens.iter().enumerate() {
        if !is_begun(dropped, next, i) {
            kept.push(token.copied())?;
        } else if is_ended(dropped, next, i.saturating_add(1)) {
            next = next.saturating_add(1);
        }
    }
    Ok(kept)
}

fn behind(list: &[Initialiser], count: usize) -> &[Initialiser] {
    if count <= list.len() {
        &list[count..]
    } else {
        &list[..0]
    }
}

/// Whether one of the first so many initialisers comes to a fault.
fn has_fault(
    alloc: Global,
    tokens: &[Token<'_>],
    list: &[Initialiser],
    count: usize,
) -> Result<bool, AllocError> {
    let kept = without(alloc, tokens, behind(list, count))?;
    is_refused_at_start(alloc, &kept)
}

/// So many tokens are checked at most for a fault, besides those of two texts as long as this one.
const MOST_CHECKED: usize = 40_000;

/// The fewest initialisers of which one comes to a fault, if that is found by so many checks.
fn fewest_faulty(
    alloc: Global,
    tokens: &[Token<'_>],
    list: &[Initialiser],
) -> Result<Option<usize>, AllocError> {
    let mut least = 0usize;
    let mut most = list.len();
    // The more tokens there are, the fewer times they are checked.
    for _ in 0..MOST_CHECKED / tokens.len().max(1) + 2 {
        if most.saturating_sub(least) <= 1 {
            return Ok(Some(most));
        }
        let middle = least.saturating_add(most.saturating_sub(least) / 2);
        if has_fault(alloc, tokens, list, middle)? {
            most = middle;
        } else {
            least = middle;
        }
    }
    if most.saturating_sub(least) <= 1 {
        Ok(Some(most))
    } else {
        Ok(None)
    }
}

/// What a token of an initialiser may let come to a fault.
fn fault_at(tokens: &[Token<'_>], at: usize) -> Option<Hazard> {
    match kind_at(tokens, at) {
        Kind::Slash | Kind::Percent => Some(Hazard::Divides),
        Kind::OpenBracket if !is_poll(tokens, at) => Some(Hazard::Index),
        Kind::Len | Kind::Empty | Kind::Full | Kind::Nempty | Kind::Nfull => Some(Hazard::Channel),
        Kind::Query | Kind::QueryQuery => Some(Hazard::Channel),
        _ => None,
    }
}

/// What is told of two things that may have come to a fault.
fn either(a: Option<Hazard>, b: Option<Hazard>) -> Option<Hazard> {
    match (a, b) {
        (None, fault) => fault,
        (fault, None) => fault,
        (Some(a), Some(b)) => Some(if a == b { a } else { Hazard::Any }),
    }
}

/// Whether the tokens of an initialiser let something come to a fault.
fn can_fault(tokens: &[Token<'_>], one: Initialiser) -> bool {
    for (i, _) in between(tokens, one.from, one.end).iter().enumerate() {
        if fault_at(tokens, one.from.saturating_add(i)).is_some() {
            return true;
        }
    }
    false
}

/// What the tokens of an initialiser let come to a fault, if that is one thing.
fn fault_of(tokens: &[Token<'_>], one: Initialiser) -> Hazard {
    let mut fault = None;
    for (i, _) in between(tokens, one.from, one.end).iter().enumerate() {
        fault = either(fault, fault_at(tokens, one.from.saturating_add(i)));
    }
    fault.unwrap_or(Hazard::Any)
}

/// Whether a `[` is that of a poll.
fn is_poll(tokens: &[Token<'_>], at: usize) -> bool {
    match at.checked_sub(1) {
        Some(before) => {
            is_at(tokens, before, Kind::Query) || is_at(tokens, before, Kind::QueryQuery)
        }
        None => false,
    }
}

/// The last of so many.
fn last_of(list: &[Initialiser], count: usize) -> Option<Initialiser> {
    match list.get(count.checked_sub(1)?) {
        Some(one) => Some(*one),
        None => None,
    }
}

/// The tokens with no process of an `active` proctype, and without the initialisers of proctypes.
fn with_globals<'t>(
    alloc: Global,
    tokens: &[Token<'t>],
    marks: &[Mark<'_>],
) -> Result<Vec<Token<'t>>, AllocError> {
    let list = with_begun(alloc, tokens, ActiveProcesses::None)?;
    let others = initialisers(alloc, &list, marks, Owners::Proctypes)?;
    without(alloc, &list, &others)
}

fn place_at(tokens: &[Token<'_>], one: Initialiser, name: &Token<'_>) -> Segment {
    match initialiser_place(tokens, one.name) {
        Some(place) => place,
        None => place_of(name),
    }
}

fn told<'t>(text: &'t [u8], tokens: &[Token<'_>], one: Initialiser) -> Finding<'t> {
    match tokens.get(one.name) {
        Some(name) => {
            let fault = fault_of(tokens, one);
            let cause = StartCause::Initialiser(bytes_of(text, name), fault);
            at_place(place_at(tokens, one, name), Reason::Start(cause))
        }
        None => untold(),
    }
}

/// Of the first of these initialisers that comes to a fault.
fn of_owners<'t>(
    alloc: Global,
    text: &'t [u8],
    tokens: &[Token<'_>],
    marks: &[Mark<'_>],
    owners: Owners,
) -> Result<Finding<'t>, AllocError> {
    let list = initialisers(alloc, tokens, marks, owners)?;
    let Some(count) = fewest_faulty(alloc, tokens, &list)? else {
        return Ok(untold());
    };
    match last_of(&list, count) {
        Some(one) => Ok(told(text, tokens, one)),
        None => Ok(untold()),
    }
}

/// Of an initialiser of a proctype. It is sought where one process of each begins, if one of these comes to a fault.
fn of_proctypes<'t>(
    alloc: Global,
    text: &'t [u8],
    tokens: &[Token<'_>],
    marks: &[Mark<'_>],
) -> Result<Finding<'t>, AllocError> {
    let single = with_begun(alloc, tokens, ActiveProcesses::One)?;
    if is_refused_at_start(alloc, &single)? {
        of_owners(alloc, text, &single, marks, Owners::Proctypes)
    } else {
        of_owners(alloc, text, tokens, marks, Owners::All)
    }
}

/// Of an initialiser that comes to a fault. Global variables begin first.
pub fn of_initialiser<'t>(
    alloc: Global,
    text: &'t [u8],
    tokens: &[Token<'_>],
    marks: &[Mark<'_>],
) -> Result<Finding<'t>, AllocError> {
    let globals = with_globals(alloc, tokens, marks)?;
    if is_refused_at_start(alloc, &globals)? {
        of_owners(alloc, text, &globals, marks, Owners::Globals)
    } else {
        of_proctypes(alloc, text, tokens, marks)
    }
}
