//! Runs that are taken move by move, as far as memory goes.
use diagnostics::Stop;
use pml_check::Checked;
use pml_sim::world::World;
use std::alloc::Global;
use std::process::Abort;

/// Which moves are taken.
#[derive(Clone, Copy)]
pub struct Choices {
    /// The number of the first move.
    pub first: usize,
    /// The number of each one behind it.
    pub then: usize,
    /// So many moves are taken at most.
    pub most: u32,
}

impl Choices {
    fn at(self, step: u32) -> usize {
        if step == 0 { self.first } else { self.then }
    }
}

/// Whether both are the same want of memory, or both a fault.
fn is_same(first: Stop, second: Result<(), Stop>) -> bool {
    match (first, second) {
        (Stop::Memory, Err(Stop::Memory)) => true,
        (Stop::Fault(_), Err(Stop::Fault(_))) => true,
        _ => false,
    }
}

/// Takes the move with this number, or the only one there is, and says whether it was taken to its end. A world that stops
/// answers the same when that move is taken again, and has no move.
fn goes_on<R: Abort>(world: &mut World<'_, '_>, rt: &R, choice: usize, text: &mut Vec<u8>) -> bool {
    let Ok(moves) = world.moves() else {
        return false;
    };
    let at = if moves.len() < 2 { 0 } else { choice };
    if at >= moves.len() {
        return false;
    }
    let Err(stop) = world.take(&moves[at], text) else {
        return true;
    };
    let again = world.take(&moves[at], text);
    assert!(rt; is_same(stop, again));
    if let Ok(moves) = world.moves() {
        assert!(rt; moves.is_empty());
    }
    false
}

/// Notes how much is kept, and whether there was memory for that.
fn notes(world: &World<'_, '_>, kept: &mut Vec<usize>) -> bool {
    kept.push(world.footprint()).is_ok()
}

/// Plays a model from its first state, and notes how much is kept there and after each step.
fn plays<R: Abort>(
    world: &mut World<'_, '_>,
    rt: &R,
    alloc: Global,
    choices: Choices,
    kept: &mut Vec<usize>,
) {
    if !notes(world, kept) {
        return;
    }
    let mut text = Vec::new(alloc);
    for step in 0..choices.most {
        let choice = choices.at(step);
        if !goes_on(world, rt, choice, &mut text) || !notes(world, kept) {
            return;
        }
    }
}

/// The same of a checked model.
pub fn plays_checked<R: Abort>(
    checked: &Checked<'_>,
    rt: &R,
    alloc: Global,
    choices: Choices,
    kept: &mut Vec<usize>,
) {
    if let Ok(mut world) = World::start(alloc, checked, false) {
        plays(&mut world, rt, alloc, choices, kept);
    }
}
