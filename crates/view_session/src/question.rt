//! What is asked.

ghost use Rattle.view_text.specs.Written.{Stays};
ghost use Rattle.view_walk.specs.Walks.{SameModel};

use crate::past::add_past;
use crate::told::Told;
use crate::watches::add_displays;
use promela_run::moves::Move;
use run_state::live::Live;
use std::alloc::AllocError;
use view_state::choices::{add_choices, add_ending, ending_of};
use view_state::why::add_blocked;
use view_text::writer::Writer;
use view_walk::walk::Walk;

// Writes where a walk stands, and of how many moves one is asked for.
fn add_place(at: usize, length: usize, moves: &[Move], out: &mut Writer)
    ensures { Stays out.old out.new }
{
    out.add(b"at ");
    out.number(at);
    out.add(b" of ");
    out.number(length);
    if moves.is_empty() {
        out.add(b": no choice\n");
    } else {
        out.add(b": choose 1..");
        out.number(moves.len());
        out.add(b"\n");
    }
}

// Writes the present moves, or how the run ends; and below them what the processes wait for that have none.
fn add_list(
    live: &Live<'_, '_>,
    at: usize,
    moves: &[Move],
    is_all: bool,
    out: &mut Writer,
) -> Result<(), AllocError>
    ensures { Stays out.old out.new }
{
    if moves.is_empty() {
        add_ending(live, at, out);
        if ending_of(live) == "valid" {
            return Ok(());
        }
    }
    add_choices(live, moves, is_all, out)?;
    add_blocked(live, moves, is_all, out)
}

/// Writes what led to the end where a walk stands that has these moves, where that is an invalid one.
pub fn add_cause(
    walk: &mut Walk<'_, '_>,
    moves: &[Move],
    out: &mut Writer,
) -> Result<(), AllocError>
    ensures model { SameModel walk.old walk.new }
    ensures stays { Stays out.old out.new }
{
    if moves.is_empty() && ending_of(walk.world().live()) == "invalid" {
        return add_past(walk, moves, out);
    }
    Ok(())
}

// Writes what is asked where a walk stands: all of it, or the first of a long list.
fn ask(walk: &mut Walk<'_, '_>, is_all: bool, told: &mut Told) -> Result<(), AllocError>
    ensures model { SameModel walk.old walk.new }
    ensures stays { Stays told.old.out told.new.out }
{
    let found = walk.moves()?;
    let moves = found.as_slice();
    let at = walk.at();
    add_list(walk.world().live(), at, moves, is_all, &mut told.out)?;
    add_cause(walk, moves, &mut told.out)?;
    add_displays(walk.world(), &told.displays, &mut told.out);
    add_place(walk.at(), walk.legs().len(), moves, &mut told.out);
    Ok(())
}

/// Writes what is asked where a walk stands; of a long list the first of it.
pub fn add_question(walk: &mut Walk<'_, '_>, told: &mut Told) -> Result<(), AllocError>
    ensures model { SameModel walk.old walk.new }
    ensures stays { Stays told.old.out told.new.out }
{
    ask(walk, false, told)
}

/// Writes all that is asked where a walk stands.
pub fn add_whole_question(walk: &mut Walk<'_, '_>, told: &mut Told) -> Result<(), AllocError>
    ensures model { SameModel walk.old walk.new }
    ensures stays { Stays told.old.out told.new.out }
{
    ask(walk, true, told)
}
