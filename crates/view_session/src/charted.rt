//! The chart of a walk.

ghost use Rattle.view_text.specs.Written.{Stays};
ghost use Rattle.view_walk.specs.Walks.{SameModel};

use crate::notes::Notes;
use crate::steps::move_at;
use promela_run::moves::Move;
use std::alloc::AllocError;
use view_chart::chart::{add_birth, add_claim, add_note, add_row, width_of};
use view_text::writer::Writer;
use view_waits::transfer::transfer_of;
use view_walk::leg::Leg;
use view_walk::walk::Walk;

// Writes the rows of processes that began at a step.
fn add_births(walk: &Walk<'_, '_>, width: usize, older: usize, out: &mut Writer)
    ensures { Stays out.old out.new }
{
    let live = walk.world().live();
    for process in older..live.process_count() {
        add_birth(live, width, walk.at(), process, out);
    }
}

// Writes the row of a move of the state where a walk stands.
fn add_move(walk: &Walk<'_, '_>, width: usize, m: &Move, out: &mut Writer) -> Result<(), AllocError>
    ensures { Stays out.old out.new }
{
    let live = walk.world().live();
    let transfer = transfer_of(out.allocator(), live, m)?;
    add_row(live, width, walk.at().saturating_add(1), m, &transfer, out);
    Ok(())
}

// Writes the rows of what a trail says beside the last step of a walk.
fn add_notes(walk: &Walk<'_, '_>, notes: &mut Notes, out: &mut Writer)
    ensures { Stays out.old out.new }
{
    let step = walk.at();
    if let Some(line) = notes.claim_at(step, walk.legs()) {
        add_claim(step, line, out);
    }
    if notes.begins_cycle(step, walk.legs()) {
        add_note(step, b"the cycle begins", out);
    }
}

// Writes the rows of the next step of a walk.
fn add_step(
    walk: &mut Walk<'_, '_>,
    width: usize,
    leg: Leg,
    notes: &mut Notes,
    out: &mut Writer,
) -> Result<(), AllocError>
    ensures model { SameModel walk.old walk.new }
    ensures stays { Stays out.old out.new }
{
    let moves = walk.moves()?;
    if let Some(m) = move_at(moves.as_slice(), leg.choice) {
        add_move(walk, width, &m, out)?;
    }
    let older = walk.world().process_count();
    let step = walk.at().saturating_add(1).min(walk.legs().len());
    walk.go_to(step)?;
    add_births(walk, width, older, out);
    add_notes(walk, notes, out);
    Ok(())
}

/// Writes the chart of so many steps of a walk, which stands behind them then, with what a trail says beside them. As many processes live
/// at once at most.
pub fn add_chart(
    walk: &mut Walk<'_, '_>,
    steps: usize,
    most: usize,
    notes: &mut Notes,
    out: &mut Writer,
) -> Result<(), AllocError>
    ensures model { SameModel walk.old walk.new }
    ensures stays { Stays out.old out.new }
{
    let width = width_of(most);
    walk.go_to(0)?;
    add_births(walk, width, 0, out);
    for _turn in 0..steps {
        let Some(leg) = walk.next() else {
            break;
        };
        add_step(walk, width, leg, notes, out)?;
    }
    Ok(())
}

/// How many processes live at once at most in so many steps of a walk, which stands behind them then.
pub fn most_alive(walk: &mut Walk<'_, '_>, steps: usize) -> Result<usize, AllocError>
    ensures { SameModel walk.old walk.new }
{
    walk.go_to(0)?;
    let mut most = walk.world().process_count();
    for step in 0..steps.min(walk.legs().len()) {
        let next = step.saturating_add(1).min(walk.legs().len());
        walk.go_to(next)?;
        most = most.max(walk.world().process_count());
    }
    Ok(most)
}
