//! What of a state differs from what was shown last.

ghost use Rattle.std.specs.Prelude.{◌≡◌, ◌<◌, ◌+◌, ◌&&◌, not, ltb, if◌then◌else◌, [], ◌∷◌, true, false, length, ℕ, List, Option, map, slice_get, OnOk, IfOk, codes};
ghost use Rattle.std.specs.List.{flat_map};
ghost use Rattle.json.specs.Token.{Token, begin_object};
ghost use Rattle.json.specs.Print.{print, print_from, ends_value, ArePrintable};
ghost use Rattle.profile.specs.declared.TheConstants.{MOST_PROCESSES};
ghost use Rattle.promela_run.specs.Moves.{moves as all_moves};
ghost use Rattle.view_waits.specs.Waits.{waits};
ghost use Rattle.view_text.specs.Written.{Adds};
ghost use Rattle.view_tokens.specs.Printed.{Writes};
ghost use Rattle.view_json.specs.Objects.{channel, standing};
ghost use Rattle.view_json.specs.Shown.{is_text, AreTold, has_changes, changed_cell, changed_cells, locals, with_locals, Lists, ListsMore, if_new, if_changed, new_ones, changed_ones, channels_from, processes_from, listed, ListsChannels, ListsProcesses};
ghost use Rattle.view_json.specs.Added.{told_variables, told_locals, told_unless, is_kept, telling, AddsProcess, PrintsLocals, PrintsChannel, ListsChannel, ListsObject, PrintsProcess, ListsProcess, ListsBehind, AddsChannels, AddsProcesses};

use crate::channel::channel;
use crate::counted::Counted;
use crate::list::Listing;
use crate::objects::{all_cells, cell};
use crate::process::standing;
use promela_run::moves::Move;
use run_state::live::Live;
use run_values::changed::Change;
use std::alloc::{AllocError, Global};
use std::marker::Model;
use view_text::writer::Writer;
use view_tokens::tokens::Json;

fn is_at(all: &[Vec<u8>], at: usize, bytes: &[u8]) -> bool
    ensures { result ≡ is_text bytes.now (slice_get (map (λ v. v.items) all.now) at) }
{
    match all.get(at) {
        Some(known) => known.as_slice() == bytes,
        None => false,
    }
}

/// Whether a step changed variables of a frame.
pub fn has_changes(frame: usize, changes: &[Change]) -> bool
    ensures { result ≡ has_changes frame changes.now }
{
    for change in changes {
        if change.place.frame == frame {
            return true;
        }
    }
    false
}

// Writes a variable that a step changed, if it is of this frame.
fn changed_cell(live: &Live<'_, '_>, json: &mut Json, frame: usize, change: Change)
    ensures { Writes json.old json.new (changed_cell live.now.state frame change) }
{
    if change.place.frame == frame {
        cell(live, json, change.place);
    }
}

fn each_changed(live: &Live<'_, '_>, json: &mut Json, frame: usize, changes: &[Change])
    ensures { Writes json.old json.new (flat_map (changed_cell live.now.state frame) changes.now) }
{
    for change in changes {
        changed_cell(live, json, frame, *change);
    }
}

/// Writes the variables of a frame that a step changed, as an object.
pub fn changed_cells(live: &Live<'_, '_>, json: &mut Json, frame: usize, changes: &[Change])
    ensures { Writes json.old json.new (changed_cells live.now.state frame changes.now) }
{
    json.begin_object();
    each_changed(live, json, frame, changes);
    json.end_object();
}

fn channel_bytes(live: &Live<'_, '_>, alloc: Global, n: usize) -> Result<Vec<u8>, AllocError>
    ensures { IfOk result (λ v. PrintsChannel live.now.state n v.items) }
{
    let mut json = Json::new(alloc);
    channel(live, &mut json, n);
    let mut text = Writer::new(alloc);
    json.finish(&mut text);
    text.finish()
}

fn process_bytes(
    live: &Live<'_, '_>,
    alloc: Global,
    moves: &Counted<'_>,
    process: usize,
) -> Result<Vec<u8>, AllocError>
    ensures { IfOk result (λ v. PrintsProcess live.now.state moves.now process v.items) }
{
    let mut json = Json::new(alloc);
    standing(live, &mut json, moves, process);
    let mut text = Writer::new(alloc);
    json.finish(&mut text);
    text.finish()
}

/// A step that was taken: the present moves, how many of the processes were there before it, and what it changed.
#[derive(Clone, Copy)]
pub struct Behind<'s> {
    pub moves: &'s [Move],
    pub older: usize,
    pub changes: &'s [Change],
}

// Writes the variables that are to be shown of a process.
fn add_locals(live: &Live<'_, '_>, json: &mut Json, process: usize, behind: Behind<'_>)
    requires { process < MOST_PROCESSES }
    ensures { Writes json.old json.new (told_variables live.now.state behind.entry process) }
{
    if process < behind.older {
        changed_cells(live, json, process + 1, behind.changes);
    } else {
        all_cells(live, json, process + 1);
    }
}

// Writes the object of a process, with these variables.
fn add_process(
    live: &Live<'_, '_>,
    process: usize,
    object: &[u8],
    behind: Behind<'_>,
    out: &mut Writer,
)
    requires { process < MOST_PROCESSES }
    ensures written { AddsProcess live.now.state behind.entry process object.now out.old out.new }
    ensures printable { PrintsLocals live.now.state behind.entry process out.new }
{
    let mut json = Json::new(out.allocator());
    add_locals(live, &mut json, process, behind);
    out.add(object);
    out.add(b",\"locals\":");
    json.finish(out);
    out.add(b"}");
}

// Lists the object of a process, with its variables, if it is not the same as before.
fn list_process(
    live: &Live<'_, '_>,
    process: usize,
    object: &[u8],
    is_same: bool,
    behind: Behind<'_>,
    list: &mut Listing,
)
    requires { process < MOST_PROCESSES }
    ensures { ListsObject (told_unless is_same live.now.state behind.entry process) object.now list.old list.new }
{
    if is_same {
        return;
    }
    list.next();
    add_process(live, process, object, behind, &mut list.text);
}

/// What was shown last: the objects of the processes, without their variables, and of the channels.
#[derive(Drop)]
pub struct Shown {
    processes: Vec<Vec<u8>>,
    channels: Vec<Vec<u8>>,
}

impl Model for Shown {
    ghost use Rattle.std.specs.Prelude.{map};
    ghost use Rattle.view_json.specs.Shown.{Shown};

    ghost Value = { Shown };

    ghost view = { λ s. record { processes = map (λ v. v.items) s.processes.items; channels = map (λ v. v.items) s.channels.items } };
}

impl Shown {
    /// Nothing yet.
    pub fn new(alloc: Global) -> Shown
        ensures { result ≡ record { processes = []; channels = [] } }
    {
        Shown {
            processes: Vec::new(alloc),
            channels: Vec::new(alloc),
        }
    }

    // Whether a channel was shown so at this place.
    fn is_shown(&self, at: usize, object: &[u8]) -> bool
        ensures { result ≡ is_text object.now (slice_get self.now.channels at) }
    {
        is_at(self.channels.as_slice(), at, object)
    }

    /// Writes the channels that were not shown so.
    pub fn add_channels(
        &mut self,
        live: &Live<'_, '_>,
        is_always: bool,
        out: &mut Writer,
    ) -> Result<(), AllocError>
        ensures { OnOk result (AddsChannels is_always live.now.state (telling out.old self.old) (telling out.new self.new)) }
    {
        let mut list = Listing::new(out.allocator());
        self.channels = all_channels(live, self, &mut list)?;
        list.put(b",\"channels\":[", is_always, out);
        Ok(())
    }

    // Whether a process was there, none of its variables changed, and it was shown so.
    fn is_as_shown(&self, process: usize, behind: Behind<'_>, object: &[u8]) -> bool
        requires { process < MOST_PROCESSES }
        ensures { result ≡ is_kept self.now.processes behind.entry process object.now }
    {
        process < behind.older
            && !has_changes(process + 1, behind.changes)
            && is_at(self.processes.as_slice(), process, object)
    }

    /// Writes the processes that are not as they were shown.
    pub fn add_processes(
        &mut self,
        live: &Live<'_, '_>,
        behind: Behind<'_>,
        is_always: bool,
        out: &mut Writer,
    ) -> Result<(), AllocError>
        ensures { OnOk result (AddsProcesses is_always live.now.state behind.entry (telling out.old self.old) (telling out.new self.new)) }
    {
        let mut list = Listing::new(out.allocator());
        self.processes = all_processes(live, self, behind, &mut list)?;
        list.put(b",\"processes\":[", is_always, out);
        Ok(())
    }
}

// The object of the channel with this number, which is listed if it was not shown at this place.
fn channel_object(
    live: &Live<'_, '_>,
    shown: &Shown,
    at: usize,
    n: usize,
    list: &mut Listing,
) -> Result<Vec<u8>, AllocError>
    ensures { IfOk result (λ v. ListsChannel shown.now.channels live.now.state at n v.items list.old list.new) }
{
    let object = channel_bytes(live, *shown.channels.allocator(), n)?;
    let is_same = shown.is_shown(at, object.as_slice());
    list.add_unless(is_same, object.as_slice());
    Ok(object)
}

// The objects of the channels; those that were not shown are listed.
fn all_channels(
    live: &Live<'_, '_>,
    shown: &Shown,
    list: &mut Listing,
) -> Result<Vec<Vec<u8>>, AllocError>
    ensures { IfOk result (λ v. ListsChannels shown.now.channels live.now.state (map (λ x. x.items) v.items) list.old list.new) }
{
    let mut objects = Vec::new(*shown.channels.allocator());
    for at in 0..live.channels().len() {
        let object = channel_object(live, shown, at, at + 1, list)?;
        objects.push(object)?;
    }
    Ok(objects)
}

// The object of a process, which is listed if it is not as it was shown.
fn process_object(
    live: &Live<'_, '_>,
    shown: &Shown,
    process: usize,
    all: &Counted<'_>,
    behind: Behind<'_>,
    list: &mut Listing,
) -> Result<Vec<u8>, AllocError>
    requires { process < MOST_PROCESSES }
    ensures { all.now ≡ behind.entry.moves.now →
        IfOk result (λ v. ListsProcess shown.now.processes live.now.state behind.entry process v.items list.old list.new) }
{
    let alloc = *shown.processes.allocator();
    let object = process_bytes(live, alloc, all, process)?;
    let is_same = shown.is_as_shown(process, behind, object.as_slice());
    list_process(live, process, object.as_slice(), is_same, behind, list);
    Ok(object)
}

// The objects of the processes; those that are not as they were shown are listed.
fn all_processes(
    live: &Live<'_, '_>,
    shown: &Shown,
    behind: Behind<'_>,
    list: &mut Listing,
) -> Result<Vec<Vec<u8>>, AllocError>
    ensures { let before = shown.now.processes in
        IfOk result (λ v. ListsBehind before live.now.state behind.entry (map (λ x. x.items) v.items) list.old list.new) }
{
    let alloc = *shown.processes.allocator();
    let moves = Counted::new(alloc, live.process_count(), behind.moves)?;
    let mut objects = Vec::new(alloc);
    for process in 0..live.process_count() {
        let object = process_object(live, shown, process, &moves, behind, list)?;
        objects.push(object)?;
    }
    Ok(objects)
}
