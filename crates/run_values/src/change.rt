//! The lines of the places that a step changed.

ghost use Rattle.std.specs.Prelude.{◌≡◌, ◌++◌, true, slice_get, OnOk, OnErr, IfOk, codes};
ghost use Rattle.std.specs.Io.{StartsWith};
ghost use Rattle.std.specs.Fmt.{decimal};
ghost use Rattle.promela_run.specs.Lines.{place_line, proctype_name, heading_of, process_owners, each_change};
ghost use Rattle.run_values.specs.Written.{local_line, line_at, wanted_line, changed_line, AddsChanges, AddsStep, oldest, if_changed, each_write};

use crate::place::place_line;
use itoa::Buffer;
use pml_program::program::{Proctype, Slot};
use pml_store::store::Store;
use pml_token::token::{Kind, Token, same_kind};
use run_layout::tables::Tables;
use std::alloc::{AllocError, Global};
use std::collections::BTreeMap;

/// Whose lines are wanted.
#[derive(Clone, Copy, PartialEq, Eq, Debug)]
pub struct Wanted {
    pub globals: bool,
    pub locals: bool,
}

/// Appends the name of a proctype, or `:init:`.
#[inline(always)]
pub fn proctype_name(name: &Token<'_>, text: &mut Vec<u8>) -> Result<(), AllocError>
    ensures added { OnOk result (text.new.items ≡ text.old.items ++ proctype_name name.now) }
    ensures kept { OnErr result (StartsWith text.new.items text.old.items) }
{
    if same_kind(name.kind(), Kind::Init) {
        text.extend_from_slice(b":init:")
    } else {
        text.extend_from_slice(name.text())
    }
}

/// Appends the line of a global variable's cell.
pub fn global_line(
    tables: &Tables<'_, '_>,
    slot: &Slot<'_>,
    cell: usize,
    number: i32,
    text: &mut Vec<u8>,
) -> Result<(), AllocError>
    ensures added { OnOk result (text.new.items ≡ text.old.items ++ (codes "global " ++ place_line tables.now slot.now cell number)) }
    ensures kept { OnErr result (StartsWith text.new.items text.old.items) }
{
    text.extend_from_slice(b"global ")?;
    place_line(tables, slot, cell, number, text)
}

// Appends how the lines of a process begin.
fn local_heading(
    number: usize,
    proctype: &Proctype<'_>,
    text: &mut Vec<u8>,
) -> Result<(), AllocError>
    ensures added { OnOk result (text.new.items ≡ text.old.items ++ heading_of number (Some proctype.now)) }
    ensures kept { OnErr result (StartsWith text.new.items text.old.items) }
{
    let mut digits = Buffer::new();
    text.extend_from_slice(b"local ")?;
    text.extend_from_slice(digits.format(number).as_bytes())?;
    text.extend_from_slice(b" (")?;
    proctype_name(&proctype.name, text)?;
    text.extend_from_slice(b") ")
}

// Appends how the lines of a process begin, by the number of its proctype in the model.
fn heading_of(
    tables: &Tables<'_, '_>,
    process: usize,
    sort: usize,
    text: &mut Vec<u8>,
) -> Result<(), AllocError>
    ensures added { OnOk result (text.new.items ≡ text.old.items ++ heading_of process (slice_get tables.now.proctypes sort)) }
    ensures kept { OnErr result (StartsWith text.new.items text.old.items) }
{
    match tables.program().proctypes.as_slice().get(sort) {
        Some(proctype) => local_heading(process, proctype, text),
        None => Ok(()),
    }
}

/// A process, and the number of its proctype in the model.
#[derive(Clone, Copy, PartialEq, Eq, Debug)]
pub struct Living {
    pub process: usize,
    pub sort: usize,
}

/// Appends the line of a cell of a variable of a process.
pub fn local_line(
    tables: &Tables<'_, '_>,
    living: Living,
    slot: &Slot<'_>,
    cell: usize,
    number: i32,
    text: &mut Vec<u8>,
) -> Result<(), AllocError>
    ensures added { OnOk result (text.new.items ≡ text.old.items ++ local_line tables.now living.process living.sort slot.now cell number) }
    ensures kept { OnErr result (StartsWith text.new.items text.old.items) }
{
    heading_of(tables, living.process, living.sort, text)?;
    place_line(tables, slot, cell, number, text)
}

// Appends the line of the cell with this index among those of the processes.
fn process_line_at(
    tables: &Tables<'_, '_>,
    sorts: &[usize],
    at: usize,
    number: i32,
    text: &mut Vec<u8>,
) -> Result<(), AllocError>
    ensures added { OnOk result (text.new.items ≡ text.old.items ++ line_at tables.now (process_owners tables.now true 0 sorts.now) at number) }
    ensures kept { OnErr result (StartsWith text.new.items text.old.items) }
{
    let mut at = at;
    for (i, sort) in sorts.iter().enumerate() {
        let (found, rest) = tables.find_local(*sort, at);
        match found {
            Some(slot) => {
                let living = Living {
                    process: i,
                    sort: *sort,
                };
                return local_line(tables, living, slot, rest, number, text);
            }
            None => at = rest,
        }
    }
    Ok(())
}

// Appends the line of the cell with this index among all, where it is wanted.
fn line_at(
    tables: &Tables<'_, '_>,
    sorts: &[usize],
    wanted: Wanted,
    at: usize,
    number: i32,
    text: &mut Vec<u8>,
) -> Result<(), AllocError>
    ensures added { OnOk result (text.new.items ≡ text.old.items ++ wanted_line tables.now sorts.now wanted at number) }
    ensures kept { OnErr result (StartsWith text.new.items text.old.items) }
{
    let (found, rest) = tables.find_global(at);
    match found {
        Some(slot) => {
            if wanted.globals {
                global_line(tables, slot, rest, number, text)
            } else {
                Ok(())
            }
        }
        None => {
            if wanted.locals {
                process_line_at(tables, sorts, rest, number, text)
            } else {
                Ok(())
            }
        }
    }
}

// Appends the line of the cell with this index, where its numbers differ.
fn line_of_change(
    tables: &Tables<'_, '_>,
    sorts: &[usize],
    wanted: Wanted,
    at: usize,
    numbers: (i32, i32),
    text: &mut Vec<u8>,
) -> Result<(), AllocError>
    ensures added { OnOk result (text.new.items ≡ text.old.items ++ changed_line tables.now sorts.now wanted at numbers) }
    ensures kept { OnErr result (StartsWith text.new.items text.old.items) }
{
    let (before, after) = numbers;
    if before == after {
        Ok(())
    } else {
        line_at(tables, sorts, wanted, at, after, text)
    }
}

// Appends the lines of the cells that differ.
fn lines_of_cells(
    tables: &Tables<'_, '_>,
    sorts: &[usize],
    wanted: Wanted,
    before: &[i32],
    after: &[i32],
    text: &mut Vec<u8>,
) -> Result<(), AllocError>
    ensures added { OnOk result (text.new.items ≡ text.old.items ++ each_change (wanted_line tables.now sorts.now wanted) 0 before.now after.now) }
    ensures kept { OnErr result (StartsWith text.new.items text.old.items) }
{
    let count = before.len().min(after.len());
    for at in 0..count {
        line_of_change(tables, sorts, wanted, at, (before[at], after[at]), text)?;
    }
    Ok(())
}

/// Appends the lines of the places that are there before and after and whose numbers differ, from all cells before and all
/// cells after, owner by owner. The processes are known by the numbers of their proctypes in the model.
pub fn value_lines(
    tables: &Tables<'_, '_>,
    sorts: &[usize],
    wanted: Wanted,
    before: &[i32],
    after: &[i32],
    text: &mut Vec<u8>,
) -> Result<(), AllocError>
    ensures added { AddsChanges tables.now sorts.now wanted before.now after.now
        (λ lines. OnOk result (text.new.items ≡ text.old.items ++ lines)) }
    ensures kept { OnErr result (StartsWith text.new.items text.old.items) }
{
    lines_of_cells(tables, sorts, wanted, before, after, text)
}

/// The oldest number of each cell of a log, by index.
pub fn oldest(alloc: Global, written: &[(u32, i32)]) -> Result<BTreeMap<usize, i32>, AllocError>
    ensures { IfOk result (λ m. m.entries ≡ oldest written.now) }
{
    let mut numbers = BTreeMap::new(alloc);
    let mut left = written.len();
    while 0 < left {
        left -= 1;
        let (at, number) = written[left];
        numbers.insert(at as usize, number)?;
    }
    Ok(numbers)
}

// Appends the line of a cell that was written, from its index and its number before.
fn line_of_write(
    tables: &Tables<'_, '_>,
    sorts: &[usize],
    wanted: Wanted,
    write: (usize, i32),
    cells: &[i32],
    text: &mut Vec<u8>,
) -> Result<(), AllocError>
    ensures added { OnOk result (text.new.items ≡ text.old.items ++ if_changed (wanted_line tables.now sorts.now wanted) write (slice_get cells.now write.0)) }
    ensures kept { OnErr result (StartsWith text.new.items text.old.items) }
{
    let (at, before) = write;
    match cells.get(at) {
        Some(after) => line_of_change(tables, sorts, wanted, at, (before, *after), text),
        None => Ok(()),
    }
}

// Appends the lines of cells that were written.
fn lines_of_writes(
    tables: &Tables<'_, '_>,
    sorts: &[usize],
    wanted: Wanted,
    writes: &BTreeMap<usize, i32>,
    cells: &[i32],
    text: &mut Vec<u8>,
) -> Result<(), AllocError>
    ensures added { OnOk result (text.new.items ≡ text.old.items ++ each_write (wanted_line tables.now sorts.now wanted) cells.now writes.now.entries) }
    ensures kept { OnErr result (StartsWith text.new.items text.old.items) }
{
    for (at, before) in writes {
        line_of_write(tables, sorts, wanted, (*at, *before), cells, text)?;
    }
    Ok(())
}

/// Appends the lines of the places whose numbers differ from those before the writes of a store's log. The processes are known by
/// the numbers of their proctypes in the model; the youngest may be left out, and have no lines then. Only cells that were
/// written are looked at, and none where no lines are wanted.
#[inline(always)]
pub fn logged_lines(
    alloc: Global,
    tables: &Tables<'_, '_>,
    sorts: &[usize],
    wanted: Wanted,
    store: &Store,
    text: &mut Vec<u8>,
) -> Result<(), AllocError>
    ensures added { AddsStep tables.now sorts.now wanted store.now
        (λ lines. OnOk result (text.new.items ≡ text.old.items ++ lines)) }
    ensures kept { OnErr result (StartsWith text.new.items text.old.items) }
{
    if !wanted.globals && !wanted.locals {
        return Ok(());
    }
    written_lines(alloc, tables, sorts, wanted, store, text)
}

/// The same, where lines may be wanted.
#[inline(never)]
fn written_lines(
    alloc: Global,
    tables: &Tables<'_, '_>,
    sorts: &[usize],
    wanted: Wanted,
    store: &Store,
    text: &mut Vec<u8>,
) -> Result<(), AllocError>
    ensures added { AddsStep tables.now sorts.now wanted store.now
        (λ lines. OnOk result (text.new.items ≡ text.old.items ++ lines)) }
    ensures kept { OnErr result (StartsWith text.new.items text.old.items) }
{
    let writes = oldest(alloc, store.written())?;
    lines_of_writes(
        tables,
        sorts,
        wanted,
        &writes,
        store.cells().as_slice(),
        text,
    )
}
