//! The places that a step changed.

ghost use Rattle.std.specs.Prelude.{◌≡◌, ◌++◌, [], true, None, Some, slice_get, OnOk, OnErr, IfOk};
ghost use Rattle.std.specs.Io.{StartsWith};
ghost use Rattle.std.specs.Option.{option_copied};
ghost use Rattle.promela_run.specs.Lines.{process_owners, owners};
ghost use Rattle.run_values.specs.Written.{if_changed, each_write, AreDeclared};
ghost use Rattle.run_values.specs.Changed.{process_in, owner_line, sort_line, value_line, step_changes, LinesOfChanges};
ghost use Rattle.run_values.specs.Placed.{place_at, changed_at, changed_number};

use crate::change::{Living, global_line, local_line, oldest};
use pml_program::program::{Proctype, Program, Slot};
use pml_store::store::Store;
use promela_process::place::Place;
use run_layout::tables::Tables;
use std::alloc::{AllocError, Global};
use std::collections::BTreeMap;

/// A place whose number a step changed, and the number that it has now.
#[derive(Clone, Copy, PartialEq, Eq, Debug)]
pub struct Change {
    pub place: Place,
    pub number: i32,
}

impl Change {
    /// The process whose variable it is; a global is no process's.
    pub fn process(&self) -> Option<usize>
        ensures { result ≡ process_in self.now.place.frame }
    {
        if self.place.frame == 0 {
            None
        } else {
            Some(self.place.frame - 1)
        }
    }
}

// The place of the cell with this index among those of the processes.
fn process_place_at(tables: &Tables<'_, '_>, sorts: &[usize], at: usize) -> Option<Place>
    ensures { result ≡ place_at 1 (process_owners tables.now true 0 sorts.now) at }
{
    let mut at = at;
    for (i, sort) in sorts.iter().enumerate() {
        let (found, rest) = tables.number_local(*sort, at);
        match found {
            Some(variable) => {
                return Some(Place {
                    frame: i + 1,
                    variable,
                    cell: rest,
                });
            }
            None => at = rest,
        }
    }
    None
}

// The place of the cell with this index among all.
fn place_at(tables: &Tables<'_, '_>, sorts: &[usize], at: usize) -> Option<Place>
    ensures { result ≡ place_at 0 (owners tables.now true true sorts.now) at }
{
    let (found, rest) = tables.number_global(at);
    match found {
        Some(variable) => Some(Place {
            frame: 0,
            variable,
            cell: rest,
        }),
        None => process_place_at(tables, sorts, rest),
    }
}

// Adds the change of the cell with this index, to this number.
fn add_place(
    tables: &Tables<'_, '_>,
    sorts: &[usize],
    at: usize,
    number: i32,
    changes: &mut Vec<Change>,
) -> Result<(), AllocError>
    ensures { OnOk result (changes.new.items ≡ changes.old.items ++ changed_at tables.now sorts.now at number) }
{
    if let Some(place) = place_at(tables, sorts, at) {
        changes.push(Change { place, number })?;
    }
    Ok(())
}

// Adds the change of the cell with this index, where its numbers differ.
fn add_number(
    tables: &Tables<'_, '_>,
    sorts: &[usize],
    at: usize,
    numbers: (i32, i32),
    changes: &mut Vec<Change>,
) -> Result<(), AllocError>
    ensures { OnOk result (changes.new.items ≡ changes.old.items ++ changed_number tables.now sorts.now at numbers) }
{
    let (before, after) = numbers;
    if before == after {
        Ok(())
    } else {
        add_place(tables, sorts, at, after, changes)
    }
}

fn number_at(cells: &[i32], at: usize) -> Option<i32>
    ensures { result ≡ slice_get cells.now at }
{
    match cells.get(at) {
        Some(number) => Some(*number),
        None => None,
    }
}

// Adds the change of a cell that was written, from its index and its number before.
fn add_change(
    tables: &Tables<'_, '_>,
    sorts: &[usize],
    write: (usize, i32),
    cells: &[i32],
    changes: &mut Vec<Change>,
) -> Result<(), AllocError>
    ensures { OnOk result (changes.new.items ≡ changes.old.items ++ if_changed (changed_at tables.now sorts.now) write (slice_get cells.now write.0)) }
{
    let (at, before) = write;
    match number_at(cells, at) {
        Some(after) => add_number(tables, sorts, at, (before, after), changes),
        None => Ok(()),
    }
}

// The changes of cells that were written.
fn changes_of_writes(
    alloc: Global,
    tables: &Tables<'_, '_>,
    sorts: &[usize],
    writes: &BTreeMap<usize, i32>,
    cells: &[i32],
) -> Result<Vec<Change>, AllocError>
    ensures { IfOk result (λ changes. changes.items ≡ each_write (changed_at tables.now sorts.now) cells.now writes.now.entries) }
{
    let mut changes = Vec::new(alloc);
    for (at, before) in writes {
        add_change(tables, sorts, (*at, *before), cells, &mut changes)?;
    }
    Ok(changes)
}

/// The places whose numbers differ from those before the writes of a store's log, in the order of their value lines. The processes
/// are known by the numbers of their proctypes in the model; the youngest may be left out, and have no changes then. Only cells that
/// were written are looked at.
pub fn logged_changes(
    alloc: Global,
    tables: &Tables<'_, '_>,
    sorts: &[usize],
    store: &Store,
) -> Result<Vec<Change>, AllocError>
    ensures { AreDeclared tables.now sorts.now store.now.frames
        → IfOk result (λ changes. changes.items ≡ step_changes sorts.now store.now) }
{
    let writes = oldest(alloc, store.written())?;
    changes_of_writes(alloc, tables, sorts, &writes, store.cells().as_slice())
}

fn slot_at<'p, 'a>(slots: &'p [Slot<'a>], variable: usize) -> Option<&'p Slot<'a>>
    ensures { option_copied result ≡ slice_get slots.now variable }
{
    slots.get(variable)
}

fn proctype_at<'p, 'a>(program: &'p Program<'a>, sort: usize) -> Option<&'p Proctype<'a>>
    ensures { option_copied result ≡ slice_get program.now.proctypes sort }
{
    program.proctypes.as_slice().get(sort)
}

fn sort_at(sorts: &[usize], process: usize) -> Option<usize>
    ensures { result ≡ slice_get sorts.now process }
{
    match sorts.get(process) {
        Some(sort) => Some(*sort),
        None => None,
    }
}

// Appends the line of a change of a global variable.
fn global_change(
    tables: &Tables<'_, '_>,
    change: Change,
    text: &mut Vec<u8>,
) -> Result<(), AllocError>
    ensures added { OnOk result (text.new.items ≡ text.old.items ++ owner_line tables.now [] None change) }
    ensures kept { OnErr result (StartsWith text.new.items text.old.items) }
{
    match slot_at(tables.program().globals.as_slice(), change.place.variable) {
        Some(slot) => global_line(tables, slot, change.place.cell, change.number, text),
        None => Ok(()),
    }
}

// Appends the line of a change of a variable of the process with this number, of a proctype by its number in the model.
fn local_change(
    tables: &Tables<'_, '_>,
    process: usize,
    sort: usize,
    change: Change,
    text: &mut Vec<u8>,
) -> Result<(), AllocError>
    ensures added { OnOk result (text.new.items ≡ text.old.items ++ sort_line tables.now process (Some sort) change) }
    ensures kept { OnErr result (StartsWith text.new.items text.old.items) }
{
    let Some(proctype) = proctype_at(tables.program(), sort) else {
        return Ok(());
    };
    match slot_at(proctype.variables.as_slice(), change.place.variable) {
        Some(slot) => {
            let living = Living { process, sort };
            local_line(tables, living, slot, change.place.cell, change.number, text)
        }
        None => Ok(()),
    }
}

/// Appends the value line of a change: `global PATH = VALUE`, or `local I (NAME) PATH = VALUE`. The processes are known by the
/// numbers of their proctypes in the model.
pub fn value_line(
    tables: &Tables<'_, '_>,
    sorts: &[usize],
    change: Change,
    text: &mut Vec<u8>,
) -> Result<(), AllocError>
    ensures added { OnOk result (text.new.items ≡ text.old.items ++ value_line tables.now sorts.now change) }
    ensures kept { OnErr result (StartsWith text.new.items text.old.items) }
{
    let Some(process) = change.process() else {
        return global_change(tables, change, text);
    };
    match sort_at(sorts, process) {
        Some(sort) => local_change(tables, process, sort, change, text),
        None => Ok(()),
    }
}

/// The value lines of a step are those of its changes, as far as they are wanted.
pub fn lines_are_of_changes()
    ensures { LinesOfChanges }
{}
