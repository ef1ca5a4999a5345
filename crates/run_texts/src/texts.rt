//! The texts of moves, and where moves come from.

ghost use Rattle.std.specs.Prelude.{◌≡◌, ◌<◌, ◌++◌, OnOk, OnErr, length, codes};
ghost use Rattle.std.specs.Io.{StartsWith};
ghost use Rattle.std.specs.Option.{option_copied};
ghost use Rattle.promela_run.specs.State.{picked as picks};
ghost use Rattle.promela_run.specs.World.{sort_of_process as proctype_in, pick_text, death_text, move_text, origin_of};
ghost use Rattle.run_search.specs.Lifted.{line_in, brace_of};
ghost use Rattle.run_texts.specs.Staying.{IsWithin};

use crate::place::{add_heading, add_line};
use pml_program::program::Proctype;
use promela_run::moves::{Move, Pick};
use run_search::picked::picked;
use run_state::live::Live;
use run_state::played::proctype_at;
use run_state::seat::seat_at;
use std::alloc::AllocError;

/// The proctype of a process.
pub(crate) fn proctype_of<'p, 'a>(live: &Live<'p, 'a>, process: usize) -> Option<&'p Proctype<'a>>
    ensures { option_copied result ≡ proctype_in live.now.state process }
{
    proctype_at(live.program(), seat_at(live.seats(), process)?.sort)
}

/// Appends `proc P (NAME) line L [-end-]`, where L is the line of the closing brace.
#[inline(never)]
pub(crate) fn add_death(
    process: usize,
    proctype: Option<&Proctype<'_>>,
    text: &mut Vec<u8>,
) -> Result<(), AllocError>
    ensures added { OnOk result (text.new.items ≡ text.old.items ++ death_text process (option_copied proctype.entry)) }
    ensures kept { OnErr result (StartsWith text.new.items text.old.items) }
{
    let Some(proctype) = proctype else {
        return Ok(());
    };
    add_heading(process, proctype, text)?;
    add_line(proctype.end.line(), text)?;
    text.extend_from_slice(b" [-end-]")
}

/// Appends the text of the offer that a pick names.
#[inline(always)]
pub(crate) fn add_pick(
    live: &Live<'_, '_>,
    pick: Pick,
    text: &mut Vec<u8>,
) -> Result<(), AllocError>
    ensures added { OnOk result (text.new.items ≡ text.old.items ++ pick_text live.now.state pick) }
    ensures kept { OnErr result (StartsWith text.new.items text.old.items) }
{
    let Some(proctype) = proctype_of(live, pick.process) else {
        return Ok(());
    };
    let Some(offer) = picked(live, pick) else {
        return Ok(());
    };
    add_heading(pick.process, proctype, text)?;
    text.extend_from_slice(offer.body.graph.text(offer.edge.statement))
}

/// Appends the texts of the offers of a sender and of a receiver.
#[inline(never)]
#[tactic(auto, using(crate::proofs::Keeping::kept_behind))]
fn add_pair(
    live: &Live<'_, '_>,
    sender: Pick,
    receiver: Pick,
    text: &mut Vec<u8>,
) -> Result<(), AllocError>
    ensures added { let s = live.now.state in
        OnOk result (text.new.items ≡ text.old.items ++ (pick_text s sender ++ (codes " -> " ++ pick_text s receiver))) }
    ensures kept { OnErr result (StartsWith text.new.items text.old.items) }
{
    add_pick(live, sender, text)?;
    text.extend_from_slice(b" -> ")?;
    add_pick(live, receiver, text)
}

/// Appends the text of a move.
#[inline(always)]
pub fn add_move(live: &Live<'_, '_>, m: Move, text: &mut Vec<u8>) -> Result<(), AllocError>
    ensures added { OnOk result (text.new.items ≡ text.old.items ++ move_text live.now.state m) }
    ensures kept { OnErr result (StartsWith text.new.items text.old.items) }
{
    match m {
        Move::Death(process) => add_death(process, proctype_of(live, process), text),
        Move::Alone(pick, _) => add_pick(live, pick, text),
        Move::Pair(sender, receiver, _) => add_pair(live, sender, receiver, text),
    }
}

/// The line in the text of the offer that a pick names.
fn pick_line(live: &Live<'_, '_>, pick: Pick) -> u32
    ensures { result ≡ line_in (picks live.now.state pick) }
{
    match picked(live, pick) {
        Some(offer) => offer.body.graph.offer_line(offer.edge.statement),
        None => 0,
    }
}

/// The line of the closing brace.
fn brace_of(proctype: Option<&Proctype<'_>>) -> u32
    ensures { result ≡ brace_of (option_copied proctype.entry) }
{
    match proctype {
        Some(proctype) => proctype.end.line(),
        None => 0,
    }
}

/// The number of a process that lives: there are few.
fn number_of(live: &Live<'_, '_>, process: usize) -> u32
    requires { process < length live.now.state.stands }
    ensures { result ≡ process }
{
    process.min(live.process_count()) as u32
}

/// The process and the line of a move, as its text has them: of a rendezvous the sender's, of a death the line of the closing brace.
pub fn origin(live: &Live<'_, '_>, m: Move) -> (u32, u32)
    requires lives { IsWithin (length live.now.state.stands) m }
    ensures { result ≡ origin_of live.now.state m }
{
    match m {
        Move::Death(process) => (
            number_of(live, process),
            brace_of(proctype_of(live, process)),
        ),
        Move::Alone(pick, _) => (number_of(live, pick.process), pick_line(live, pick)),
        Move::Pair(sender, _, _) => (number_of(live, sender.process), pick_line(live, sender)),
    }
}
