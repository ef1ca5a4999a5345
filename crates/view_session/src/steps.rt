//! Steps of a walk, and their lines.

ghost use Rattle.std.specs.Prelude.{◌≡◌};
ghost use Rattle.view_text.specs.Written.{Stays};
ghost use Rattle.view_walk.specs.Choices.{numbered};
ghost use Rattle.view_walk.specs.Walks.{SameModel};

use crate::told::{Told, add_same};
use crate::values::add_values;
use diagnostics::Fault;
use pml_sim::world::World;
use promela_run::moves::Move;
use std::alloc::{AllocError, Global};
use view_state::choices::{add_effect, add_move};
use view_text::writer::Writer;
use view_waits::fault::{add_detail, detail_of};
use view_waits::statement::add_statement_reads;
use view_waits::transfer::transfer_of;
use view_walk::walk::{Walk, Went};

/// As many bytes are enough to be shown at once.
pub const ENOUGH_BYTES: usize = 60_000;

/// The move with this number, counted from 1.
pub fn move_at(moves: &[Move], choice: usize) -> Option<Move>
    ensures { result ≡ numbered moves.now choice }
{
    if choice == 0 {
        return None;
    }
    match moves.get(choice - 1) {
        Some(m) => Some(*m),
        None => None,
    }
}

/// The text of a move, and behind it what the move does with a message, where it does anything.
#[derive(Drop)]
pub struct MoveTexts {
    text: Writer,
    effect: Writer,
}

// Writes the value lines of the last step, set in.
fn add_changes(world: &World<'_, '_>, out: &mut Writer) -> Result<(), AllocError>
    ensures { Stays out.old out.new }
{
    let changes = world.changes()?;
    for change in changes.as_slice() {
        out.add(b"  ");
        let mut text = out.take();
        let answer = world.value_line(change, &mut text);
        out.put(text, answer);
    }
    Ok(())
}

/// The text of a move of the state where a walk stands, and what it does with a message.
pub fn texts_of(walk: &Walk<'_, '_>, m: &Move, alloc: Global) -> Result<MoveTexts, AllocError> {
    let live = walk.world().live();
    let transfer = transfer_of(alloc, live, m)?;
    let mut text = Writer::new(alloc);
    add_move(live, m, &mut text);
    let mut effect = Writer::new(alloc);
    add_effect(live, &transfer, &mut effect);
    Ok(MoveTexts { text, effect })
}

// Writes the number and the text of a step: `step 7: proc 1 (P) line 5 [q ! x] sends (3) to q`.
fn add_step_text(step: usize, texts: &MoveTexts, out: &mut Writer)
    ensures { Stays out.old out.new }
{
    out.add(b"step ");
    out.number(step);
    out.add(b": ");
    out.join(&texts.text);
    out.join(&texts.effect);
}

/// Writes the line of the last step of a walk, which has these texts: `step 7: proc 1 (P) line 5 [x ++] x: 1 -> 2`.
pub fn add_step_line(
    walk: &Walk<'_, '_>,
    texts: &MoveTexts,
    told: &mut Told,
) -> Result<(), AllocError>
    ensures { Stays told.old.out told.new.out }
{
    add_step_text(walk.at(), texts, &mut told.out);
    if told.shows_values {
        let is_behind = texts.effect.len() > 0;
        add_values(walk.world(), is_behind, &mut told.out)?;
    }
    told.out.add(b"\n");
    Ok(())
}

/// Writes what a trail says beside the last step of a walk.
pub fn add_notes(walk: &Walk<'_, '_>, told: &mut Told)
    ensures { Stays told.old.out told.new.out }
{
    told.notes.add(walk.at(), walk.legs(), &mut told.out);
}

// Writes the last step of a walk: its line, what it printed and what it changed.
fn add_step(
    walk: &Walk<'_, '_>,
    texts: &MoveTexts,
    printed: &[u8],
    told: &mut Told,
) -> Result<(), AllocError>
    ensures { Stays told.old.out told.new.out }
{
    add_step_line(walk, texts, told)?;
    if !printed.is_empty() {
        told.out.add(b"  prints ");
        told.out.quoted(printed);
        told.out.add(b"\n");
    }
    if !told.shows_values {
        add_changes(walk.world(), &mut told.out)?;
    }
    add_notes(walk, told);
    Ok(())
}

// Writes a step that came to a fault.
fn add_fault(fault: Fault, step: usize, text: &Writer, out: &mut Writer)
    ensures { Stays out.old out.new }
{
    out.add(b"fault F");
    out.number(fault.number() as usize);
    out.add(b" (");
    out.add(diagnostic_words::of_fault(fault));
    out.add(b"): step ");
    out.number(step);
    out.add(b": ");
    out.join(text);
    out.add(b"\n");
}

/// Takes the move with this number, and appends what it prints; out of where memory was refused it leads first.
pub fn choose(
    walk: &mut Walk<'_, '_>,
    choice: usize,
    printed: &mut Vec<u8>,
) -> Result<Went, AllocError>
    ensures { SameModel walk.old walk.new }
{
    let at = walk.at();
    walk.go_to(at)?;
    walk.choose(choice, printed)
}

/// How a step went that was asked for.
#[derive(Clone, Copy, Debug, PartialEq, Eq)]
pub enum Taken {
    Yes,
    /// It came to a fault.
    Faulted,
    /// There is no such move.
    Bad,
    /// No more steps are taken.
    Limit,
}

// Writes the lines of a step that comes to a fault, and of what that was about.
fn add_faulted(walk: &Walk<'_, '_>, m: &Move, fault: Fault, texts: &MoveTexts, out: &mut Writer)
    ensures { Stays out.old out.new }
{
    add_fault(fault, walk.at().saturating_add(1), &texts.text, out);
    let live = walk.world().live();
    add_statement_reads(live, m, out);
    add_detail(detail_of(live, m, fault), out);
}

// Takes a move, which has this number, and writes its lines.
fn take_move(
    walk: &mut Walk<'_, '_>,
    choice: usize,
    m: &Move,
    told: &mut Told,
) -> Result<Taken, AllocError>
    ensures model { SameModel walk.old walk.new }
    ensures stays { Stays told.old.out told.new.out }
{
    let texts = texts_of(walk, m, told.out.allocator())?;
    let mut printed = Vec::new(told.out.allocator());
    told.step_from(walk.at());
    match choose(walk, choice, &mut printed)? {
        Went::On => {
            add_step(walk, &texts, printed.as_slice(), told)?;
            add_same(walk, told)?;
            Ok(Taken::Yes)
        }
        Went::Faults(fault) => {
            add_faulted(walk, m, fault, &texts, &mut told.out);
            Ok(Taken::Faulted)
        }
        Went::Nowhere => Ok(Taken::Bad),
    }
}

/// Takes the move with this number, and writes its lines.
pub fn take(
    walk: &mut Walk<'_, '_>,
    limit: usize,
    choice: usize,
    told: &mut Told,
) -> Result<Taken, AllocError>
    ensures model { SameModel walk.old walk.new }
    ensures stays { Stays told.old.out told.new.out }
{
    let moves = walk.moves()?;
    let Some(m) = move_at(moves.as_slice(), choice) else {
        return Ok(Taken::Bad);
    };
    if walk.at() >= limit {
        return Ok(Taken::Limit);
    }
    take_move(walk, choice, &m, told)
}
