//! What each process waits for.

ghost use Rattle.view_text.specs.Written.{Stays};

use crate::counted::{count_at, counts_of};
use crate::cut::{Room, add_more_line};
use crate::state::{add_heading, add_line};
use promela_run::moves::Move;
use run_state::live::Live;
use std::alloc::AllocError;
use view_cells::processes::{is_at_brace, line_of};
use view_text::writer::Writer;
use view_waits::offers::{add_offer, offer_line};
use view_waits::waits::{Wait, add_waits};
use view_waits::words::add_words;

// Writes the line of what a process could do, and, where it stands at that line, the labels that lead there.
fn add_offer_line(live: &Live<'_, '_>, process: usize, line: u32, out: &mut Writer)
    ensures { Stays out.old out.new }
{
    if line == line_of(live, process) {
        add_line(live, process, out);
    } else {
        out.add(b"line ");
        out.number(line as usize);
    }
}

// Writes a line: where the process stands, what it could do there, and why it is no move.
fn add_wait(live: &Live<'_, '_>, process: usize, wait: &Wait, out: &mut Writer)
    ensures { Stays out.old out.new }
{
    add_heading(live, process, out);
    match wait.pick {
        Some(pick) => {
            add_offer_line(live, process, offer_line(live, pick), out);
            out.add(b" [");
            add_offer(live, pick, out);
            out.add(b"]");
        }
        None => add_line(live, process, out),
    }
    out.add(b" waits: ");
    add_words(live, wait, out);
    out.add(b"\n");
}

// Writes a line for each thing that a process without a move waits for, as far as there is room. How many are left out.
fn add_waiting(
    live: &Live<'_, '_>,
    moves: &[Move],
    process: usize,
    room: &mut Room,
    out: &mut Writer,
) -> Result<usize, AllocError>
    ensures { Stays out.old out.new }
{
    let mut waits = Vec::new(out.allocator());
    add_waits(live, moves, process, &mut waits)?;
    let count = waits.len();
    let shown = room.take(count).min(count);
    for wait in &waits.as_slice()[..shown] {
        add_wait(live, process, wait, out);
    }
    Ok(count - shown)
}

fn add_can_move(live: &Live<'_, '_>, process: usize, count: usize, out: &mut Writer)
    ensures { Stays out.old out.new }
{
    add_heading(live, process, out);
    out.add(b"can move: ");
    out.number(count);
    out.add(if count == 1 {
        b" choice\n"
    } else {
        b" choices\n"
    });
}

/// Writes for each process in how many moves it takes part, or what it waits for: all, or the first 1000 lines.
pub fn add_why(
    live: &Live<'_, '_>,
    moves: &[Move],
    is_all: bool,
    out: &mut Writer,
) -> Result<(), AllocError>
    ensures { Stays out.old out.new }
{
    let mut room = Room::new(is_all);
    let mut rest = 0usize;
    let counts = counts_of(out.allocator(), live.process_count(), moves)?;
    for process in 0..live.process_count() {
        let count = count_at(counts.as_slice(), process);
        if count == 0 {
            let left = add_waiting(live, moves, process, &mut room, out)?;
            rest = rest.saturating_add(left);
        } else {
            add_can_move(live, process, count, out);
        }
    }
    add_more_line(rest, "why", out);
    Ok(())
}

/// Writes a line for each thing that a process without a move waits for, of all processes but those in which nothing is left to do.
pub fn add_blocked(
    live: &Live<'_, '_>,
    moves: &[Move],
    is_all: bool,
    out: &mut Writer,
) -> Result<(), AllocError>
    ensures { Stays out.old out.new }
{
    let mut room = Room::new(is_all);
    let mut rest = 0usize;
    let counts = counts_of(out.allocator(), live.process_count(), moves)?;
    for process in 0..live.process_count() {
        if count_at(counts.as_slice(), process) == 0 && !is_at_brace(live, process) {
            let left = add_waiting(live, moves, process, &mut room, out)?;
            rest = rest.saturating_add(left);
        }
    }
    add_more_line(rest, "moves", out);
    Ok(())
}
