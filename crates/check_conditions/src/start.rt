//! The first state: how many processes begin, and how many channels they and the globals make.

ghost use Rattle.std.specs.Prelude.{◌≡◌, ℕ, ◌+◌, ◌^◌, ◌<◌, ◌≤◌, min, nat_eq, if◌then◌else◌, length, slice_index_or, IfOk, OnOk};
ghost use Rattle.check_names.specs.Entry.{found};
ghost use Rattle.check_names.specs.Env.{env};
ghost use Rattle.promela_model.specs.Decided.{starts_processes, started, channels_of, made, channels_in, first_channels};
ghost use Rattle.check_conditions.specs.Step.{raised, begins_there, begun, by_processes};
ghost use Rattle.check_conditions.specs.Finds.{Finds, Decides};
ghost use Rattle.promela_model.specs.declared.condition.Condition.TheVariants as condition;

use crate::counts::capacity;
use check_names::names::{form, length_of};
use check_names::table::Table;
use pml_program::form::Form;
use profile::{MOST_CHANNELS, MOST_PROCESSES};
use promela_model::mark::{Declared, Makes, Mark, What};
use sqlite_items::Items;
use std::alloc::{AllocError, Global};

fn begins(what: &What) -> bool
    ensures { result ≡ starts_processes what.now }
{
    match what {
        What::Starts(_) => true,
        _ => false,
    }
}

/// Whether a process begins somewhere.
pub fn begins_somewhere(marks: &[Mark]) -> bool
    ensures { Finds result begins_there marks.now }
{
    for mark in marks {
        if begins(&mark.what) {
            return true;
        }
    }
    false
}

fn started(what: &What) -> u64
    ensures value { result ≡ started what.now }
    ensures small { result < 2 ^ 32 }
{
    match what {
        What::Starts(count) => capacity(*count),
        _ => 0,
    }
}

/// How many processes begin, counted up to 256.
fn processes(marks: &[Mark]) -> u64
    ensures { result ≡ min (begun marks.now) 256 }
{
    let mut total = 0u64;
    for mark in marks {
        total = (total + started(&mark.what)).min(256);
    }
    total
}

fn at(counts: &[u32], owner: usize) -> u32
    ensures { result ≡ slice_index_or counts.now owner 0 }
{
    match counts.get(owner) {
        Some(count) => *count,
        None => 0,
    }
}

fn channels_of(counts: &[u32], form: Form) -> u32
    ensures { result ≡ channels_of form (λ o. slice_index_or counts.now o 0) }
{
    match form {
        Form::Struct(t) => at(counts, t),
        _ => 0,
    }
}

/// The channels that a variable makes, counted up to 256.
fn made(all: &Table, counts: &[u32], what: &What) -> u64
    ensures { result ≡ min (made (found all.now) (λ o. slice_index_or counts.now o 0) what.now) 256 }
{
    match what {
        What::Declares(_, Declared::Variable(_, _, size, Makes::Channels)) => {
            u64::from(length_of(*size)).min(256)
        }
        What::Declares(_, Declared::Variable(_, sort, size, Makes::Numbers)) => {
            let each = channels_of(counts, form(all, 0, sort));
            (u64::from(length_of(*size)) * u64::from(each)).min(256)
        }
        _ => 0,
    }
}

fn grow(counts: &mut Items<u32>, owner: usize) -> Result<(), AllocError>
    ensures room { OnOk result (owner < length counts.new) }
    ensures same { OnOk result ((k : ℕ) → slice_index_or counts.new k 0 ≡ slice_index_or counts.old k 0) }
{
    while counts.len() <= owner {
        counts.push(0)?;
    }
    Ok(())
}

/// Adds to an owner's count, up to 256.
fn add(counts: &mut Items<u32>, owner: usize, more: u64) -> Result<(), AllocError>
    requires { more ≤ 256 }
    ensures { OnOk result ((k : ℕ) → slice_index_or counts.new k 0 ≡ raised owner more k (slice_index_or counts.old k 0)) }
{
    grow(counts, owner)?;
    let count = (u64::from(at(counts.as_slice(), owner)) + more).min(256);
    counts.set(owner, count as u32);
    Ok(())
}

/// The channels of each owner, counted up to 256.
fn channels(alloc: Global, all: &Table, marks: &[Mark]) -> Result<Items<u32>, AllocError>
    requires { all.now ≡ env marks.now }
    ensures { IfOk result (λ counts. (o : ℕ) → slice_index_or counts o 0 ≡ min (channels_in marks.now o) 256) }
{
    let mut counts = Items::new(alloc);
    for mark in marks {
        let more = made(all, counts.as_slice(), &mark.what);
        add(&mut counts, mark.owner, more)?;
    }
    Ok(counts)
}

/// The channels that the processes that begin make, counted up to 256.
fn by_processes(counts: &[u32], marks: &[Mark]) -> u64
    ensures { result ≡ min (by_processes (λ o. slice_index_or counts.now o 0) marks.now) 256 }
{
    let mut total = 0u64;
    for mark in marks {
        let more = started(&mark.what) * u64::from(at(counts, mark.owner));
        total = (total + more.min(256)).min(256);
    }
    total
}

/// Whether there are too many processes or channels in the first state.
pub fn starts_too_many(alloc: Global, all: &Table, marks: &[Mark]) -> Result<bool, AllocError>
    requires { all.now ≡ env marks.now }
    ensures { IfOk result (λ b. Decides b condition.Start marks.now) }
{
    if (MOST_PROCESSES as u64) < processes(marks) {
        return Ok(true);
    }
    let counts = channels(alloc, all, marks)?;
    let total = u64::from(at(counts.as_slice(), 0)) + by_processes(counts.as_slice(), marks);
    Ok((MOST_CHANNELS as u64) < total)
}
