//! What led to where processes wait: who used and who wrote last what they wait at, and the round of those that wait for one another.

ghost use Rattle.view_text.specs.Written.{Stays};
ghost use Rattle.view_walk.specs.Walks.{SameModel};

use crate::steps::move_at;
use promela_process::place::Place;
use promela_run::moves::Move;
use run_state::live::Live;
use std::alloc::{AllocError, Global};
use view_past::channels::add_channels;
use view_past::round::{add_round, awaited};
use view_past::uses::Uses;
use view_past::writers::{Writing, Writings, add_writers, awaited_writer};
use view_state::counted::counts_of;
use view_text::writer::Writer;
use view_waits::waits::{Wait, add_waits, starter_of};
use view_walk::leg::Leg;
use view_walk::walk::Walk;

/// Who used each channel last, and who wrote each variable last, on a walk.
#[derive(Drop)]
pub struct History {
    pub uses: Uses,
    pub writings: Writings,
}

// The process that writes what a move changes: of a rendezvous the one that receives.
fn writer_of(m: &Move) -> usize {
    match m {
        Move::Pair(_, receiver, _) => receiver.process,
        _ => starter_of(m),
    }
}

// The process that wrote a cell by its step: of its own none but itself.
fn owner_of(place: Place, process: usize) -> usize {
    if place.frame > 0 {
        place.frame - 1
    } else {
        process
    }
}

// Keeps what the last step of a walk wrote, by which a process may have written a global.
fn keep_writings(
    walk: &Walk<'_, '_>,
    process: usize,
    writings: &mut Writings,
) -> Result<(), AllocError> {
    let changes = walk.world().changes()?;
    for change in changes.as_slice() {
        writings.keep(Writing {
            place: change.place,
            number: change.number,
            step: walk.at(),
            process: owner_of(change.place, process),
            lives: true,
        })?;
    }
    Ok(())
}

// Takes the next step of a walk, and keeps who used a channel by it and who wrote a variable.
fn add_step(walk: &mut Walk<'_, '_>, leg: Leg, history: &mut History) -> Result<(), AllocError>
    ensures { SameModel walk.old walk.new }
{
    let moves = walk.moves()?;
    let step = walk.at().saturating_add(1).min(walk.legs().len());
    let Some(m) = move_at(moves.as_slice(), leg.choice) else {
        return walk.go_to(step);
    };
    history.uses.add(walk.world().live(), &m, step)?;
    walk.go_to(step)?;
    keep_writings(walk, writer_of(&m), &mut history.writings)?;
    let processes = walk.world().process_count();
    history.uses.settle(walk.world().channel_count(), processes);
    history.writings.settle(processes);
    Ok(())
}

/// What came up to where a walk stands, which stands there again.
pub fn history_of(walk: &mut Walk<'_, '_>, out: &Writer) -> Result<History, AllocError>
    ensures { SameModel walk.old walk.new }
{
    let mut history = History {
        uses: Uses::new(out.allocator()),
        writings: Writings::new(out.allocator()),
    };
    let at = walk.at();
    walk.go_to(0)?;
    for _turn in 0..at {
        let Some(leg) = walk.next() else {
            break;
        };
        add_step(walk, leg, &mut history)?;
    }
    Ok(history)
}

// Whom a process waits for, where it waits for one thing alone.
fn awaited_by(
    alloc: Global,
    live: &Live<'_, '_>,
    process: usize,
    waits: &[Wait],
    history: &History,
) -> Result<Option<usize>, AllocError> {
    match waits {
        [wait] => match awaited(live, process, wait, &history.uses) {
            Some(other) => Ok(Some(other)),
            None => awaited_writer(alloc, live, process, wait, &history.writings),
        },
        _ => Ok(None),
    }
}

// Writes who used and who wrote last what each process waits at that takes part in none of these moves, and the round.
fn add_uses(
    live: &Live<'_, '_>,
    moves: &[Move],
    history: &History,
    out: &mut Writer,
) -> Result<(), AllocError>
    ensures { Stays out.old out.new }
{
    let alloc = out.allocator();
    let mut known = Vec::new(alloc);
    let mut written = Vec::new(alloc);
    let mut awaits = Vec::new(alloc);
    for process in 0..live.process_count() {
        let mut waits = Vec::new(alloc);
        add_waits(live, moves, process, &mut waits)?;
        let waits = waits.as_slice();
        add_channels(live, waits, &history.uses, &mut known, out)?;
        add_writers(live, waits, &history.writings, &mut written, out)?;
        awaits.push(awaited_by(alloc, live, process, waits, history)?)?;
    }
    add_round(awaits.as_slice(), out);
    Ok(())
}

// Whether a process takes part in none of these moves.
fn has_waiting(alloc: Global, processes: usize, moves: &[Move]) -> Result<bool, AllocError> {
    let counts = counts_of(alloc, processes, moves)?;
    for count in counts.as_slice() {
        if *count == 0 {
            return Ok(true);
        }
    }
    Ok(false)
}

/// Writes what led to where a walk stands, which has these moves.
pub fn add_past(walk: &mut Walk<'_, '_>, moves: &[Move], out: &mut Writer) -> Result<(), AllocError>
    ensures model { SameModel walk.old walk.new }
    ensures stays { Stays out.old out.new }
{
    if !has_waiting(out.allocator(), walk.world().process_count(), moves)? {
        return Ok(());
    }
    let history = history_of(walk, out)?;
    add_uses(walk.world().live(), moves, &history, out)
}
