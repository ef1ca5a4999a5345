//! The steps of a walk, a page of them; the choices of one process.

ghost use Rattle.view_text.specs.Written.{Stays};
ghost use Rattle.view_walk.specs.Walks.{SameModel};

use crate::steps::{add_notes, add_step_line, move_at, texts_of};
use crate::told::Told;
use std::alloc::AllocError;
use view_state::choices::add_choices_of;
use view_text::writer::Writer;
use view_walk::leg::Leg;
use view_walk::walk::Walk;

// So many steps are a page.
const PAGE: usize = 20;

// Writes the line of the next step of a walk, and takes it.
fn add_next(walk: &mut Walk<'_, '_>, leg: Leg, told: &mut Told) -> Result<(), AllocError>
    ensures model { SameModel walk.old walk.new }
    ensures stays { Stays told.old.out told.new.out }
{
    let moves = walk.moves()?;
    let step = walk.at().saturating_add(1).min(walk.legs().len());
    let Some(m) = move_at(moves.as_slice(), leg.choice) else {
        return walk.go_to(step);
    };
    let texts = texts_of(walk, &m, told.out.allocator())?;
    walk.go_to(step)?;
    add_step_line(walk, &texts, told)?;
    add_notes(walk, told);
    Ok(())
}

// Writes the lines of steps, from the one behind so many on.
fn add_page(
    walk: &mut Walk<'_, '_>,
    before: usize,
    last: usize,
    told: &mut Told,
) -> Result<(), AllocError>
    ensures model { SameModel walk.old walk.new }
    ensures stays { Stays told.old.out told.new.out }
{
    let start = before.min(walk.legs().len());
    walk.go_to(start)?;
    for _turn in before..last {
        let Some(leg) = walk.next() else {
            break;
        };
        add_next(walk, leg, told)?;
    }
    Ok(())
}

// Writes what shows the steps that are not on a page.
fn add_others(before: usize, last: usize, count: usize, out: &mut Writer)
    ensures { Stays out.old out.new }
{
    if before > 0 {
        out.add(b".. and ");
        out.number(before);
        out.add(b" before: steps ");
        out.number(before.saturating_sub(PAGE).saturating_add(1));
        out.add(b"\n");
    }
    if last < count {
        out.add(b".. and ");
        out.number(count.saturating_sub(last));
        out.add(b" more: steps ");
        out.number(last.saturating_add(1));
        out.add(b"\n");
    }
}

/// Writes a page of the steps up to where a walk stands: those from this one on, or the last ones.
pub fn add_steps(
    walk: &mut Walk<'_, '_>,
    from: Option<usize>,
    told: &mut Told,
) -> Result<(), AllocError>
    ensures model { SameModel walk.old walk.new }
    ensures stays { Stays told.old.out told.new.out }
{
    let count = walk.at();
    let before = match from {
        Some(step) => step.saturating_sub(1),
        None => count.saturating_sub(PAGE),
    };
    if before >= count {
        told.out.add(b"no such step: ");
        told.out.number(count);
        told.out.add(b" stand\n");
        return Ok(());
    }
    let last = before.saturating_add(PAGE).min(count);
    add_page(walk, before, last, told)?;
    let at = count.min(walk.legs().len());
    walk.go_to(at)?;
    add_others(before, last, count, &mut told.out);
    Ok(())
}

/// Says that no process with this number lives.
pub fn add_no_process(process: usize, living: usize, out: &mut Writer)
    ensures { Stays out.old out.new }
{
    out.add(b"no process ");
    out.number(process);
    out.add(b" lives: ");
    out.number(living);
    out.add(b" do, from 0 on\n");
}

/// Writes the choices of a process, each with its number.
pub fn add_moves_of(walk: &Walk<'_, '_>, process: usize, out: &mut Writer) -> Result<(), AllocError>
    ensures { Stays out.old out.new }
{
    let living = walk.world().process_count();
    if process >= living {
        add_no_process(process, living, out);
        return Ok(());
    }
    let moves = walk.moves()?;
    let before = out.len();
    add_choices_of(walk.world().live(), moves.as_slice(), process, out)?;
    if out.len() == before {
        out.add(b"no choice is of process ");
        out.number(process);
        out.add(b": why says what it waits for\n");
    }
    Ok(())
}
