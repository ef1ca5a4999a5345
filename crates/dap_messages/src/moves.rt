//! Moves, and why a process has none.

ghost use Rattle.std.specs.Prelude.{◌≡◌, ◌+◌, ◌*◌, IfSome};
ghost use Rattle.dap_messages.specs.declared.moves.TheConstants.{MOST_TARGETS};
ghost use Rattle.view_text.specs.Written.{Stays};

use crate::cells::{ItemRange, variable};
use crate::words::words_of;
use itoa::Buffer;
use promela_run::moves::Move;
use run_state::live::Live;
use serde_json::{Value, json};
use std::alloc::{AllocError, Global};
use view_state::choices::{add_effect, add_move};
use view_text::writer::Writer;
use view_waits::offers::{add_offer, offer_line};
use view_waits::transfer::transfer_of;
use view_waits::waits::{Wait, add_waits, takes_part};
use view_waits::words::add_words;
use walk_answers::seen::moves_in;

/// The text of a move, and what it does with a message.
pub fn move_words(alloc: Global, live: &Live<'_, '_>, m: &Move) -> Result<String, AllocError> {
    let mut out = Writer::new(alloc);
    add_move(live, m, &mut out);
    let transfer = transfer_of(alloc, live, m)?;
    add_effect(live, &transfer, &mut out);
    words_of(&out)
}

// A move as a variable, whose name is its number.
fn numbered(
    alloc: Global,
    live: &Live<'_, '_>,
    number: usize,
    m: &Move,
) -> Result<Value, AllocError> {
    let mut digits = Buffer::new();
    let words = move_words(alloc, live, m)?;
    variable(alloc, digits.format(number), words.as_str())
}

/// The moves that are asked for, each with its number.
pub fn moves_of(alloc: Global, live: &Live<'_, '_>, page: ItemRange) -> Result<Value, AllocError> {
    let moves = moves_in(alloc, live)?;
    let moves = moves.as_slice();
    let mut list = Vec::new(alloc);
    let end = page.start.saturating_add(page.count).min(moves.len());
    for at in page.start..end {
        list.push(numbered(alloc, live, at + 1, &moves[at])?)?;
    }
    Ok(Value::Array(list))
}

// So many moves of a stop have numbers of their own.
const MOST_TARGETS: usize = 65_536;

/// The number of a move at a stop.
pub fn target_of(stop: usize, choice: usize) -> usize {
    stop.saturating_mul(MOST_TARGETS).saturating_add(choice)
}

/// The move that a number names at a stop, unless it is of another.
pub fn choice_of(stop: usize, target: usize) -> Option<usize>
    ensures { IfSome result (λ choice. target ≡ stop * MOST_TARGETS + choice) }
{
    if target / MOST_TARGETS == stop {
        Some(target % MOST_TARGETS)
    } else {
        None
    }
}

fn target(alloc: Global, live: &Live<'_, '_>, id: usize, m: &Move) -> Result<Value, AllocError> {
    let label = move_words(alloc, live, m)?;
    json!(in alloc; {"id": id, "label": label})
}

/// The moves in which a process takes part, each with its number at a stop.
pub fn targets_of(
    alloc: Global,
    live: &Live<'_, '_>,
    process: usize,
    stop: usize,
) -> Result<Value, AllocError> {
    let moves = moves_in(alloc, live)?;
    let moves = moves.as_slice();
    let mut list = Vec::new(alloc);
    for at in 0..moves.len().min(MOST_TARGETS - 1) {
        if takes_part(process, &moves[at]) {
            let id = target_of(stop, at + 1);
            list.push(target(alloc, live, id, &moves[at])?)?;
        }
    }
    json!(in alloc; {"targets": list})
}

// Writes what a process could do, and why it is no move.
fn add_wait(live: &Live<'_, '_>, wait: &Wait, out: &mut Writer)
    ensures { Stays out.old out.new }
{
    if let Some(pick) = wait.pick {
        out.add(b"line ");
        out.number(offer_line(live, pick) as usize);
        out.add(b" [");
        add_offer(live, pick, out);
        out.add(b"]: ");
    }
    add_words(live, wait, out);
}

fn wait_of(alloc: Global, live: &Live<'_, '_>, wait: &Wait) -> Result<Value, AllocError> {
    let mut out = Writer::new(alloc);
    add_wait(live, wait, &mut out);
    let words = words_of(&out)?;
    variable(alloc, wait.because.code(), words.as_str())
}

/// What a process waits for, each with why.
pub fn waits_of(alloc: Global, live: &Live<'_, '_>, process: usize) -> Result<Value, AllocError> {
    let mut list = Vec::new(alloc);
    if process >= live.process_count() {
        return Ok(Value::Array(list));
    }
    let moves = moves_in(alloc, live)?;
    let mut waits = Vec::new(alloc);
    add_waits(live, moves.as_slice(), process, &mut waits)?;
    for wait in waits.as_slice() {
        list.push(wait_of(alloc, live, wait)?)?;
    }
    Ok(Value::Array(list))
}

/// Writes what a process waits for, one behind another.
pub fn add_all_waits(
    live: &Live<'_, '_>,
    process: usize,
    out: &mut Writer,
) -> Result<(), AllocError>
    ensures { Stays out.old out.new }
{
    let moves = moves_in(out.allocator(), live)?;
    let mut waits = Vec::new(out.allocator());
    add_waits(live, moves.as_slice(), process, &mut waits)?;
    out.add(b"waits: ");
    let waits = waits.as_slice();
    for at in 0..waits.len() {
        if at > 0 {
            out.add(b"; ");
        }
        add_wait(live, &waits[at], out);
    }
    Ok(())
}
