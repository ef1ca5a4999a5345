//! Runs that go on until they come to what is looked for.

ghost use Rattle.view_text.specs.Written.{Stays};
ghost use Rattle.view_walk.specs.Walks.{SameModel};

use crate::steps::{Taken, choose, take};
use crate::stopped::Stopped;
use crate::taking::{can_move, only_of};
use crate::told::{Told, met_break};
use crate::watch::{Watch, meets};
use promela_run::moves::Move;
use rand_core::utils::NextWord;
use rand_pcg::Pcg32;
use std::alloc::AllocError;
use view_commands::command::RunMode;
use view_walk::walk::{Walk, Went};

/// So many steps are taken at most with their lines.
pub const MOST_SHOWN: usize = 10_000;

/// So many are taken at most by chance, without their lines.
pub const MOST_BY_CHANCE: usize = 1_000_000;

// The next step of a run, or why it stops.
#[derive(Clone, Copy)]
enum Next {
    Take(usize),
    Stop(Stopped),
}

// What follows where there is one move, or where one is to be chosen.
fn forced(moves: &[Move]) -> Next {
    match moves {
        [] => Next::Stop(Stopped::End),
        [_] => Next::Take(1),
        _ => Next::Stop(Stopped::Choice),
    }
}

// What follows of a process alone.
fn alone(moves: &[Move], process: usize) -> Next {
    if moves.is_empty() {
        return Next::Stop(Stopped::End);
    }
    match only_of(moves, process) {
        Some(choice) => Next::Take(choice),
        None => {
            if can_move(moves, process) {
                Next::Stop(Stopped::Choice)
            } else {
                Next::Stop(Stopped::Blocked(process))
            }
        }
    }
}

// Whether a run stops in the state that it came to.
fn stop_at(
    walk: &Walk<'_, '_>,
    watch: &mut Watch,
    told: &mut Told,
) -> Result<Option<Stopped>, AllocError>
    ensures { Stays told.old.out told.new.out }
{
    if meets(walk.world(), watch, &mut told.out)? {
        return Ok(Some(Stopped::Met));
    }
    match met_break(walk, told)? {
        Some(number) => Ok(Some(Stopped::Break(number))),
        None => Ok(None),
    }
}

// Takes the move with this number, with its lines. Why a run stops there, if it does.
fn step_by(
    walk: &mut Walk<'_, '_>,
    limit: usize,
    choice: usize,
    watch: &mut Watch,
    told: &mut Told,
) -> Result<Option<Stopped>, AllocError>
    ensures model { SameModel walk.old walk.new }
    ensures stays { Stays told.old.out told.new.out }
{
    match take(walk, limit, choice, told)? {
        Taken::Yes => stop_at(walk, watch, told),
        Taken::Faulted => Ok(Some(Stopped::Fault)),
        Taken::Limit => Ok(Some(Stopped::Limit)),
        Taken::Bad => Ok(Some(Stopped::Choice)),
    }
}

// Takes the next step of a run, with its lines. Why it stops there, if it does.
fn step_on(
    walk: &mut Walk<'_, '_>,
    limit: usize,
    process: Option<usize>,
    watch: &mut Watch,
    told: &mut Told,
) -> Result<Option<Stopped>, AllocError>
    ensures model { SameModel walk.old walk.new }
    ensures stays { Stays told.old.out told.new.out }
{
    let moves = walk.moves()?;
    let next = match process {
        Some(process) => alone(moves.as_slice(), process),
        None => forced(moves.as_slice()),
    };
    match next {
        Next::Take(choice) => step_by(walk, limit, choice, watch, told),
        Next::Stop(stopped) => Ok(Some(stopped)),
    }
}

// Takes steps, with their lines, of a process alone or where there is one move, until one leads to what is looked for.
fn go_shown(
    walk: &mut Walk<'_, '_>,
    limit: usize,
    process: Option<usize>,
    watch: &mut Watch,
    told: &mut Told,
) -> Result<Stopped, AllocError>
    ensures model { SameModel walk.old walk.new }
    ensures stays { Stays told.old.out told.new.out }
{
    for _turn in 0..MOST_SHOWN {
        if let Some(stopped) = step_on(walk, limit, process, watch, told)? {
            return Ok(stopped);
        }
    }
    Ok(Stopped::Steps(MOST_SHOWN))
}

// Takes a step by chance, without its lines. Why a run stops there, if it does.
fn step_by_chance(
    walk: &mut Walk<'_, '_>,
    generator: &mut Pcg32,
    printed: &mut Vec<u8>,
    watch: &mut Watch,
    told: &mut Told,
) -> Result<Option<Stopped>, AllocError>
    ensures model { SameModel walk.old walk.new }
    ensures stays { Stays told.old.out told.new.out }
{
    let count = walk.moves()?.len();
    if count == 0 {
        return Ok(Some(Stopped::End));
    }
    printed.clear();
    let choice = generator.next_word() as usize % count + 1;
    match choose(walk, choice, printed)? {
        Went::On => stop_at(walk, watch, told),
        Went::Faults(_) => Ok(Some(Stopped::Fault)),
        Went::Nowhere => Ok(Some(Stopped::Choice)),
    }
}

// Takes steps by chance, without their lines, until one leads to what is looked for.
fn go_by_chance(
    walk: &mut Walk<'_, '_>,
    limit: usize,
    seed: u64,
    watch: &mut Watch,
    told: &mut Told,
) -> Result<Stopped, AllocError>
    ensures model { SameModel walk.old walk.new }
    ensures stays { Stays told.old.out told.new.out }
{
    let mut generator = Pcg32::new(seed, 54);
    let mut printed = Vec::new(told.out.allocator());
    told.step_from(walk.at());
    for _turn in 0..MOST_BY_CHANCE {
        if walk.at() >= limit {
            return Ok(Stopped::Limit);
        }
        if let Some(stopped) = step_by_chance(walk, &mut generator, &mut printed, watch, told)? {
            return Ok(stopped);
        }
    }
    Ok(Stopped::Steps(MOST_BY_CHANCE))
}

/// Takes steps until one leads to what is looked for, or to a break.
pub fn go_seeking(
    walk: &mut Walk<'_, '_>,
    limit: usize,
    mode: RunMode,
    watch: &mut Watch,
    told: &mut Told,
) -> Result<Stopped, AllocError>
    ensures model { SameModel walk.old walk.new }
    ensures stays { Stays told.old.out told.new.out }
{
    match mode {
        RunMode::Forced => go_shown(walk, limit, None, watch, told),
        RunMode::Process(process) => go_shown(walk, limit, Some(process), watch, told),
        RunMode::Chance(seed) => go_by_chance(walk, limit, seed, watch, told),
    }
}

// A state before where a walk stood, and why a run back stops there.
#[derive(Clone, Copy)]
struct Found {
    step: usize,
    stopped: Stopped,
}

// The last of so many states, from the first on, that is looked for.
fn last_seen(
    walk: &mut Walk<'_, '_>,
    count: usize,
    watch: &mut Watch,
    told: &mut Told,
) -> Result<Option<Found>, AllocError>
    ensures model { SameModel walk.old walk.new }
    ensures stays { Stays told.old.out told.new.out }
{
    let mut found = None;
    for step in 0..count {
        let step = step.min(walk.legs().len());
        walk.go_to(step)?;
        if let Some(stopped) = stop_at(walk, watch, told)? {
            found = Some(Found { step, stopped });
        }
    }
    Ok(found)
}

/// Goes back to the last state that is looked for, or that a break stops at, or to the first.
pub fn go_back_seeking(
    walk: &mut Walk<'_, '_>,
    watch: &mut Watch,
    told: &mut Told,
) -> Result<Stopped, AllocError>
    ensures model { SameModel walk.old walk.new }
    ensures stays { Stays told.old.out told.new.out }
{
    let at = walk.at();
    let place = match last_seen(walk, at, watch, told)? {
        Some(place) => place,
        None => Found {
            step: 0,
            stopped: Stopped::Start,
        },
    };
    let step = place.step.min(walk.legs().len());
    walk.go_to(step)?;
    Ok(place.stopped)
}

// The last of the states from one on to before another that a break stops at.
fn last_broken(
    walk: &mut Walk<'_, '_>,
    first: usize,
    end: usize,
    told: &mut Told,
) -> Result<Option<Found>, AllocError>
    ensures model { SameModel walk.old walk.new }
    ensures stays { Stays told.old.out told.new.out }
{
    let mut found = None;
    if told.breaks.is_empty() {
        return Ok(found);
    }
    for step in first..end {
        let step = step.min(walk.legs().len());
        walk.go_to(step)?;
        if let Some(number) = met_break(walk, told)? {
            found = Some(Found {
                step,
                stopped: Stopped::Break(number),
            });
        }
    }
    Ok(found)
}

/// Goes so many steps back, or to the last state on the way that a break stops at. Which break that is.
pub fn go_back_by(
    walk: &mut Walk<'_, '_>,
    by: usize,
    told: &mut Told,
) -> Result<Option<Stopped>, AllocError>
    ensures model { SameModel walk.old walk.new }
    ensures stays { Stays told.old.out told.new.out }
{
    let at = walk.at();
    let to = at.saturating_sub(by);
    let found = last_broken(walk, to, at, told)?;
    let (step, stopped) = match found {
        Some(place) => (place.step, Some(place.stopped)),
        None => (to, None),
    };
    let step = step.min(walk.legs().len());
    walk.go_to(step)?;
    Ok(stopped)
}
