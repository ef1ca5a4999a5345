//! Steps of a walk, one behind another.

ghost use Rattle.view_text.specs.Written.{Stays};
ghost use Rattle.view_walk.specs.Walks.{SameModel};

use crate::steps::{ENOUGH_BYTES, Taken, choose, take};
use crate::told::{Told, is_broken};
use promela_run::moves::Move;
use rand_core::utils::NextWord;
use rand_pcg::Pcg32;
use std::alloc::AllocError;
use view_waits::waits::starter_of;
use view_walk::leg::Leg;
use view_walk::walk::{Walk, Went};

// Takes the step with this number, and goes on from there. Whether a run goes on.
fn take_on(
    walk: &mut Walk<'_, '_>,
    limit: usize,
    choice: usize,
    told: &mut Told,
) -> Result<bool, AllocError>
    ensures model { SameModel walk.old walk.new }
    ensures stays { Stays told.old.out told.new.out }
{
    Ok(take(walk, limit, choice, told)? == Taken::Yes)
}

// The same, unless a break stops the run behind it.
fn take_unbroken(
    walk: &mut Walk<'_, '_>,
    limit: usize,
    choice: usize,
    told: &mut Told,
) -> Result<bool, AllocError>
    ensures model { SameModel walk.old walk.new }
    ensures stays { Stays told.old.out told.new.out }
{
    if take(walk, limit, choice, told)? != Taken::Yes {
        return Ok(false);
    }
    Ok(!is_broken(walk, told)?)
}

/// Takes steps with one move, at most so many.
pub fn take_single(
    walk: &mut Walk<'_, '_>,
    limit: usize,
    most: usize,
    told: &mut Told,
) -> Result<(), AllocError>
    ensures model { SameModel walk.old walk.new }
    ensures stays { Stays told.old.out told.new.out }
{
    for _turn in 0..most {
        if walk.moves()?.len() != 1 {
            break;
        }
        if !take_on(walk, limit, 1, told)? {
            break;
        }
    }
    Ok(())
}

/// Takes steps with one move, at most so many, until there is enough to be shown at once. How many are left then.
pub fn take_run(
    walk: &mut Walk<'_, '_>,
    limit: usize,
    most: usize,
    told: &mut Told,
) -> Result<usize, AllocError>
    ensures model { SameModel walk.old walk.new }
    ensures stays { Stays told.old.out told.new.out }
{
    for taken in 0..most {
        if told.out.len() >= ENOUGH_BYTES {
            return Ok(most - taken);
        }
        if walk.moves()?.len() != 1 {
            break;
        }
        if !take_unbroken(walk, limit, 1, told)? {
            break;
        }
    }
    Ok(0)
}

// Whether a process takes a move by itself.
fn is_alone(m: &Move, process: usize) -> bool {
    match m {
        Move::Pair(_, _, _) => false,
        _ => starter_of(m) == process,
    }
}

/// Whether a process takes a move by itself, or several.
pub fn can_move(moves: &[Move], process: usize) -> bool {
    for m in moves {
        if is_alone(m, process) {
            return true;
        }
    }
    false
}

/// The number of the only move that a process takes by itself.
pub fn only_of(moves: &[Move], process: usize) -> Option<usize> {
    let mut found = None;
    for at in 0..moves.len() {
        if is_alone(&moves[at], process) {
            if found.is_some() {
                return None;
            }
            found = Some(at + 1);
        }
    }
    found
}

/// Takes steps of a process alone, as long as it has just one, at most so many.
pub fn take_of(
    walk: &mut Walk<'_, '_>,
    limit: usize,
    most: usize,
    process: usize,
    told: &mut Told,
) -> Result<(), AllocError>
    ensures model { SameModel walk.old walk.new }
    ensures stays { Stays told.old.out told.new.out }
{
    for _turn in 0..most {
        let moves = walk.moves()?;
        let Some(choice) = only_of(moves.as_slice(), process) else {
            break;
        };
        if !take_unbroken(walk, limit, choice, told)? {
            break;
        }
    }
    Ok(())
}

/// Takes steps along the choices that are still to come, at most so many, until there is enough to be shown at once. How many are left
/// then.
pub fn take_next(
    walk: &mut Walk<'_, '_>,
    limit: usize,
    most: usize,
    told: &mut Told,
) -> Result<usize, AllocError>
    ensures model { SameModel walk.old walk.new }
    ensures stays { Stays told.old.out told.new.out }
{
    for taken in 0..most {
        if told.out.len() >= ENOUGH_BYTES {
            return Ok(most - taken);
        }
        let Some(leg) = walk.next() else {
            break;
        };
        if !take_unbroken(walk, limit, leg.choice, told)? {
            break;
        }
    }
    Ok(0)
}

// Takes a step by chance, without its lines. Whether a run goes on: there was one, and no break stops it there.
fn take_any(
    walk: &mut Walk<'_, '_>,
    generator: &mut Pcg32,
    printed: &mut Vec<u8>,
    told: &mut Told,
) -> Result<bool, AllocError>
    ensures model { SameModel walk.old walk.new }
    ensures stays { Stays told.old.out told.new.out }
{
    let count = walk.moves()?.len();
    if count == 0 {
        return Ok(false);
    }
    printed.clear();
    let choice = generator.next_word() as usize % count + 1;
    if choose(walk, choice, printed)? != Went::On {
        return Ok(false);
    }
    Ok(!is_broken(walk, told)?)
}

/// Takes so many steps by chance, without their lines.
pub fn take_by_chance(
    walk: &mut Walk<'_, '_>,
    limit: usize,
    most: usize,
    seed: u64,
    told: &mut Told,
) -> Result<(), AllocError>
    ensures model { SameModel walk.old walk.new }
    ensures stays { Stays told.old.out told.new.out }
{
    let mut generator = Pcg32::new(seed, 54);
    told.step_from(walk.at());
    let mut printed = Vec::new(told.out.allocator());
    for _turn in 0..most {
        if walk.at() >= limit {
            break;
        }
        if !take_any(walk, &mut generator, &mut printed, told)? {
            break;
        }
    }
    Ok(())
}

/// Takes these choices, without their lines.
pub fn take_legs(
    walk: &mut Walk<'_, '_>,
    limit: usize,
    legs: &[Leg],
    told: &mut Told,
) -> Result<(), AllocError>
    ensures model { SameModel walk.old walk.new }
    ensures stays { Stays told.old.out told.new.out }
{
    let mut printed = Vec::new(told.out.allocator());
    told.step_from(walk.at());
    for leg in legs {
        printed.clear();
        if walk.at() >= limit {
            break;
        }
        if choose(walk, leg.choice, &mut printed)? != Went::On {
            break;
        }
    }
    Ok(())
}
