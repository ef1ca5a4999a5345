//! The first state.

ghost use Rattle.std.specs.Prelude.{◌≡◌, ◌<◌, ◌≤◌, length, true, IfSome, IfOk};
ghost use Rattle.check_names.specs.Env.{env};
ghost use Rattle.explain_condition.specs.Causes.{is_start};
ghost use Rattle.explain_condition.specs.Told as told_of;

use crate::sign::{behind, front, last_proctype, next_name, place_of_name};
use check_conditions::decide::applies;
use check_conditions::find::find;
use check_names::names::all_names;
use check_names::table::Table;
use explain_cause::cause::{Finding, Named, Reason, StartCause};
use explain_cause::place::{at_place, end_of, untold};
use profile::MOST_PROCESSES;
use promela_model::condition::Condition;
use promela_model::mark::{Constant, Mark, What};
use std::alloc::{AllocError, Global};

/// Of a text in which no process begins.
pub fn of_none<'t>(text: &'t [u8], marks: &[Mark<'_>]) -> Finding<'t>
    ensures offset { IfSome result.place (λ place. place.offset ≡ length text.now) }
    ensures cause { is_start result.cause ≡ true }
{
    let proctype = last_proctype(text, marks);
    at_place(end_of(text), Reason::Start(StartCause::NoProcess(proctype)))
}

/// How many processes a mark lets begin.
fn count_of(mark: &Mark<'_>) -> usize {
    match &mark.what {
        What::Starts(Constant::Is(n)) => usize::try_from(*n).unwrap_or(0),
        _ => 0,
    }
}

/// The mark of the proctype with which more processes begin than there may be.
fn full_at(marks: &[Mark<'_>]) -> Option<usize>
    ensures { IfSome result (λ at. at < length marks.now) }
{
    let mut total = 0usize;
    for (i, mark) in marks.iter().enumerate() {
        total = total.saturating_add(count_of(mark));
        if total > MOST_PROCESSES {
            return Some(i);
        }
    }
    None
}

/// Whether marks whose names these are make too many channels, or start too many processes.
fn makes_too_many<'a>(
    alloc: Global,
    all: &Table<'a>,
    marks: &[Mark<'a>],
) -> Result<bool, AllocError>
    requires { all.now ≡ env marks.now }
{
    let found = find(alloc, all, marks)?;
    applies(alloc, Condition::Start, found, all, marks)
}

/// Whether these marks make too many channels, or start too many processes.
fn is_full(alloc: Global, marks: &[Mark<'_>]) -> Result<bool, AllocError> {
    let all = all_names(alloc, marks)?;
    makes_too_many(alloc, &all.table, marks)
}

/// The fewest marks that are too many, between so many that are not and so many that are.
fn fewest(alloc: Global, marks: &[Mark<'_>]) -> Result<usize, AllocError> {
    let mut least = 0usize;
    let mut most = marks.len();
    // Each turn halves what is left, and a text has fewer than 2 to the 40 marks.
    for _ in 0..40 {
        if most.saturating_sub(least) <= 1 {
            return Ok(most);
        }
        let middle = least.saturating_add(most.saturating_sub(least) / 2);
        if is_full(alloc, front(marks, middle))? {
            most = middle;
        } else {
            least = middle;
        }
    }
    Ok(most)
}

/// What is declared by the last of these marks, or else the last proctype among them.
fn last_name<'t>(text: &'t [u8], marks: &[Mark<'_>]) -> Option<Named<'t>> {
    let last = behind(marks, marks.len().saturating_sub(1));
    match next_name(text, last) {
        Some(name) => Some(name),
        None => last_proctype(text, marks),
    }
}

/// A name that is declared where too much begins.
#[derive(Clone, Copy)]
struct Started<'t> {
    name: Named<'t>,
    cause: StartCause<'t>,
}

/// What is begun too often.
#[derive(Clone, Copy)]
enum Full {
    /// Processes, with those of the proctype that the mark of this number lets begin.
    Processes(usize),
    /// Channels, with the last of so many marks.
    Channels(usize),
}

fn full_of(alloc: Global, marks: &[Mark<'_>]) -> Result<Full, AllocError> {
    match full_at(marks) {
        Some(at) => Ok(Full::Processes(at)),
        None => Ok(Full::Channels(fewest(alloc, marks)?)),
    }
}

fn of_full<'t>(text: &'t [u8], marks: &[Mark<'_>], full: Full) -> Option<Started<'t>>
    ensures { IfSome result (λ it. told_of.is_of_full it.cause ≡ true) }
{
    match full {
        Full::Processes(at) => {
            let name = last_proctype(text, front(marks, at))?;
            let cause = StartCause::Processes(name.name);
            Some(Started { name, cause })
        }
        Full::Channels(count) => {
            let name = last_name(text, front(marks, count))?;
            let cause = StartCause::Channels(name.name);
            Some(Started { name, cause })
        }
    }
}

fn told(started: Option<Started<'_>>) -> Finding<'_>
    ensures { is_start result.cause ≡ true }
{
    match started {
        Some(found) => at_place(place_of_name(found.name), Reason::Start(found.cause)),
        None => untold(),
    }
}

/// Of too many processes or channels.
pub fn of_start<'t>(
    alloc: Global,
    text: &'t [u8],
    marks: &[Mark<'_>],
) -> Result<Finding<'t>, AllocError>
    ensures { IfOk result (λ found. is_start found.cause ≡ true) }
{
    match full_of(alloc, marks) {
        Ok(full) => Ok(told(of_full(text, marks, full))),
        Err(AllocError) => Err(AllocError),
    }
}
