//! The lines of the first state and of steps.

ghost use Rattle.std.specs.Prelude.{◌≡◌, ◌++◌, true, false, OnOk, codes};
ghost use Rattle.json.specs.Print.{print_from, ends_value, ArePrintable};
ghost use Rattle.promela_run.specs.Moves.{moves as all_moves};
ghost use Rattle.view_text.specs.Written.{Adds};
ghost use Rattle.view_tokens.specs.Printed.{Writes};
ghost use Rattle.view_json.specs.Shown.{Told};
ghost use Rattle.view_json.specs.Steps.{printed, globals, changed, shown_of, IsTold, told, same, claim, cycle, noted, counts, TellsStep};
ghost use Rattle.view_json.specs.Added.{telling, AddsRest, AddsObjects, AddsStep};

use crate::changed::{Behind, Shown, changed_cells, has_changes};
use crate::list::Listing;
use crate::objects::{number, text};
use promela_run::moves::Move;
use run_state::live::Live;
use run_values::changed::Change;
use std::alloc::AllocError;
use view_text::writer::Writer;
use view_tokens::tokens::Json;

/// What a trail says beside a step: to which line a claim moves with it, and whether a cycle begins behind it.
#[derive(Clone, Copy)]
pub struct Note {
    pub claim: Option<usize>,
    pub begins_cycle: bool,
}

/// What a step printed, how many processes there were before it, what it changed, the choices that it was one of, behind how many steps the state that
/// it led to stood first, where it stood before, and what a trail says beside it.
#[derive(Clone, Copy)]
pub struct Done<'s> {
    pub printed: &'s [u8],
    pub older: usize,
    pub changes: &'s [Change],
    pub choices: &'s Listing,
    pub same_as: Option<usize>,
    pub note: Note,
}

// Writes what a step printed.
fn printed(json: &mut Json, bytes: &[u8])
    ensures { Writes json.old json.new (printed bytes.now) }
{
    if !bytes.is_empty() {
        text(json, "printed", bytes);
    }
}

// Writes the globals that a step changed.
fn globals(live: &Live<'_, '_>, json: &mut Json, changes: &[Change])
    ensures { Writes json.old json.new (globals live.now.state changes.now) }
{
    if has_changes(0, changes) {
        json.key("globals");
        changed_cells(live, json, 0, changes);
    }
}

// Writes what a step printed and what it changed of the globals.
fn changed(live: &Live<'_, '_>, json: &mut Json, bytes: &[u8], changes: &[Change])
    ensures { Writes json.old json.new (changed live.now.state bytes.now changes.now) }
{
    printed(json, bytes);
    globals(live, json, changes);
}

/// Writes the channels and the processes that are not as they were shown.
pub fn add_objects(
    live: &Live<'_, '_>,
    behind: Behind<'_>,
    is_always: bool,
    shown: &mut Shown,
    out: &mut Writer,
) -> Result<(), AllocError>
    ensures { OnOk result (AddsObjects is_always live.now.state behind.entry (telling out.old shown.old) (telling out.new shown.new)) }
{
    shown.add_channels(live, is_always, out)?;
    shown.add_processes(live, behind, is_always, out)?;
    Ok(())
}

// Writes behind how many steps a state stood first, where it stood before.
fn same(json: &mut Json, step: Option<usize>)
    ensures { Writes json.old json.new (same step) }
{
    if let Some(step) = step {
        number(json, "same_as", step);
    }
}

// Writes to which line a claim moves with a step, if it moves.
fn claim(json: &mut Json, line: Option<usize>)
    ensures { Writes json.old json.new (claim line) }
{
    if let Some(line) = line {
        number(json, "claim", line);
    }
}

// Writes that a cycle begins behind a step, if one does.
fn cycle(json: &mut Json, begins: bool)
    ensures { Writes json.old json.new (cycle begins) }
{
    if begins {
        json.key("cycle");
        json.boolean(true);
    }
}

// Writes what a trail says beside a step.
fn noted(json: &mut Json, note: Note)
    ensures { Writes json.old json.new (noted note) }
{
    claim(json, note.claim);
    cycle(json, note.begins_cycle);
}

// Writes how many processes and channels there are, where the state stood before, and what a trail says beside the step.
fn add_counts(live: &Live<'_, '_>, step: Option<usize>, note: Note, out: &mut Writer)
    ensures written { Adds out.old out.new (print_from true (counts live.now.state step note)) }
    ensures printable { out.new.refused ≡ false → ArePrintable (counts live.now.state step note) }
{
    let mut json = Json::new(out.allocator());
    number(&mut json, "alive", live.process_count());
    number(&mut json, "open", live.channels().len());
    same(&mut json, step);
    noted(&mut json, note);
    out.add(b",");
    json.finish(out);
}

// Writes what stands behind the objects of a step, and that its line ends.
fn add_rest(live: &Live<'_, '_>, done: Done<'_>, out: &mut Writer)
    ensures { AddsRest live.now.state done.entry out.old out.new }
{
    add_counts(live, done.same_as, done.note, out);
    done.choices.end(b",\"choices\":[", false, out);
    out.add(b"}\n");
}

/// Writes the line of a step that was taken, from what is told of it before.
pub fn add_step(
    live: &Live<'_, '_>,
    front: Json,
    done: Done<'_>,
    moves: &[Move],
    shown: &mut Shown,
    out: &mut Writer,
) -> Result<(), AllocError>
    ensures { OnOk result (AddsStep (telling out.old shown.old) (telling out.new shown.new)
        live.now.state moves.now front.tokens done.entry) }
{
    let mut json = front;
    changed(live, &mut json, done.printed, done.changes);
    json.finish(out);
    let behind = Behind {
        moves,
        older: done.older,
        changes: done.changes,
    };
    add_objects(live, behind, false, shown, out)?;
    add_rest(live, done, out);
    Ok(())
}
