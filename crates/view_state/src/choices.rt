//! The list of what can be done.

ghost use Rattle.view_text.specs.Written.{Stays};

use crate::cut::{Room, add_more_line};
use promela_run::moves::Move;
use run_state::live::Live;
use run_texts::ends::{is_valid, stuck};
use run_texts::texts::add_move as move_text;
use std::alloc::AllocError;
use view_cells::channels::{add_channel_word, add_message, channel_at};
use view_cells::processes::add_process;
use view_text::writer::Writer;
use view_waits::transfer::{Does, Transfer, transfer_of};
use view_waits::waits::starter_of;

// What a move does with a message, as a word, and what stands between the message and its channel.
fn words_of(does: Does) -> Option<(&'static str, &'static str)> {
    match does {
        Does::Send => Some((" sends ", " to ")),
        Does::Receive => Some((" takes ", " from ")),
        Does::Read => Some((" reads ", " from ")),
        Does::Pass => Some((" passes ", " over ")),
        Does::Lose => Some((" loses ", " to ")),
        Does::Statement | Does::End => None,
    }
}

/// Writes what a move does with a message: ` takes (1) from fork[1]`.
pub fn add_effect(live: &Live<'_, '_>, transfer: &Transfer, out: &mut Writer)
    ensures { Stays out.old out.new }
{
    let Some((word, between)) = words_of(transfer.does) else {
        return;
    };
    let Some(channel) = channel_at(live, transfer.channel) else {
        return;
    };
    out.add(word.as_bytes());
    add_message(live, channel.types(), transfer.message.as_slice(), out);
    out.add(between.as_bytes());
    add_channel_word(live, transfer.channel, out);
}

/// Writes the text of a move.
pub fn add_move(live: &Live<'_, '_>, m: &Move, out: &mut Writer)
    ensures { Stays out.old out.new }
{
    let mut text = out.take();
    let answer = move_text(live, *m, &mut text);
    out.put(text, answer);
}

// Writes a line of the list.
fn add_choice(
    live: &Live<'_, '_>,
    number: usize,
    m: &Move,
    out: &mut Writer,
) -> Result<(), AllocError>
    ensures { Stays out.old out.new }
{
    let transfer = transfer_of(out.allocator(), live, m)?;
    out.add(b"choice ");
    out.number(number);
    out.add(b": ");
    add_move(live, m, out);
    add_effect(live, &transfer, out);
    out.add(b"\n");
    Ok(())
}

// A longer list is shown by process.
const MOST_LINES: usize = 20;

// Writes a number behind blanks, as wide as this one.
fn add_aligned(number: usize, widest: usize, out: &mut Writer)
    ensures { Stays out.old out.new }
{
    let mut digits = Writer::new(out.allocator());
    digits.number(number);
    let mut most = Writer::new(out.allocator());
    most.number(widest);
    out.blanks(most.len().saturating_sub(digits.len()));
    out.join(&digits);
    out.keep_refusal(&most);
}

// Writes a line of a list that is shown by process, and before it that of its process, where it is another than that of the heading.
fn add_grouped(
    live: &Live<'_, '_>,
    numbered: (usize, usize),
    m: &Move,
    heading: &mut Writer,
    out: &mut Writer,
) -> Result<(), AllocError>
    ensures { Stays out.old out.new }
{
    let (number, count) = numbered;
    let transfer = transfer_of(out.allocator(), live, m)?;
    let mut own = Writer::new(out.allocator());
    add_process(live, starter_of(m), &mut own);
    if own.bytes() != heading.bytes() {
        out.join(&own);
        out.add(b"\n");
        heading.clear();
        heading.join(&own);
    }
    let mut text = Writer::new(out.allocator());
    add_move(live, m, &mut text);
    out.keep_refusal(&text);
    out.keep_refusal(&own);
    out.keep_refusal(heading);
    out.add(b"  choice ");
    add_aligned(number, count, out);
    out.add(b":");
    out.add(
        text.bytes()
            .strip_prefix(own.bytes())
            .unwrap_or(text.bytes()),
    );
    add_effect(live, &transfer, out);
    out.add(b"\n");
    Ok(())
}

// Writes the list by process.
fn add_by_process(
    live: &Live<'_, '_>,
    moves: &[Move],
    count: usize,
    out: &mut Writer,
) -> Result<(), AllocError>
    ensures { Stays out.old out.new }
{
    let mut heading = Writer::new(out.allocator());
    for at in 0..moves.len() {
        let number = (at + 1, count);
        add_grouped(live, number, &moves[at], &mut heading, out)?;
    }
    Ok(())
}

// Writes the list of moves from the first on, of so many; one of more than 20 by process.
fn add_list(
    live: &Live<'_, '_>,
    moves: &[Move],
    count: usize,
    out: &mut Writer,
) -> Result<(), AllocError>
    ensures { Stays out.old out.new }
{
    if count > MOST_LINES {
        return add_by_process(live, moves, count, out);
    }
    for at in 0..moves.len() {
        add_choice(live, at + 1, &moves[at], out)?;
    }
    Ok(())
}

/// Writes the list of the present moves: all, or the first 1000; one of more than 20 by process.
pub fn add_choices(
    live: &Live<'_, '_>,
    moves: &[Move],
    is_all: bool,
    out: &mut Writer,
) -> Result<(), AllocError>
    ensures { Stays out.old out.new }
{
    let count = moves.len();
    let shown = Room::new(is_all).take(count).min(count);
    add_list(live, &moves[..shown], count, out)?;
    add_more_line(count - shown, "moves", out);
    Ok(())
}

/// Writes the lines of the moves that a process starts, each with its number in the list.
pub fn add_choices_of(
    live: &Live<'_, '_>,
    moves: &[Move],
    process: usize,
    out: &mut Writer,
) -> Result<(), AllocError>
    ensures { Stays out.old out.new }
{
    for at in 0..moves.len() {
        if starter_of(&moves[at]) == process {
            add_choice(live, at + 1, &moves[at], out)?;
        }
    }
    Ok(())
}

// Writes where a process is stuck, if it is.
fn add_stuck(live: &Live<'_, '_>, process: usize, out: &mut Writer)
    ensures { Stays out.old out.new }
{
    if let Some((name, line)) = stuck(live, process) {
        out.add(b"at: proc ");
        out.number(process);
        out.add(b" (");
        out.add(name);
        out.add(b") line ");
        out.number(line as usize);
        out.add(b"\n");
    }
}

/// Writes how a run ends that has no move: `end: invalid, steps 9`, and where each process is that may not end there.
pub fn add_ending(live: &Live<'_, '_>, steps: usize, out: &mut Writer)
    ensures { Stays out.old out.new }
{
    out.add(b"end: ");
    out.add(ending_of(live).as_bytes());
    out.add(b", steps ");
    out.number(steps);
    out.add(b"\n");
    for process in 0..live.process_count() {
        add_stuck(live, process, out);
    }
}

/// Whether a run that ends here ends well, as a word.
pub fn ending_of(live: &Live<'_, '_>) -> &'static str {
    if is_valid(live) { "valid" } else { "invalid" }
}
