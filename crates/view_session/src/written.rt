//! The cells that names name, and the steps that changed them.

ghost use Rattle.std.specs.Prelude.{◌≡◌, false, OnOk};
ghost use Rattle.view_text.specs.Written.{Stays};
ghost use Rattle.view_walk.specs.Walks.{SameModel};

use pml_sim::world::World;
use promela_process::place::Place;
use run_state::live::Live;
use run_state::seat::seat_at;
use std::alloc::AllocError;
use view_cells::cells::place_of;
use view_cells::processes::add_name;
use view_text::writer::Writer;
use view_walk::walk::Walk;

/// A process, and which proctype it is of.
#[derive(Clone, Copy, Debug, PartialEq, Eq)]
pub struct Owner {
    pub process: usize,
    pub sort: usize,
}

/// A cell of the globals or of a process.
#[derive(Clone, Copy, Debug, PartialEq, Eq)]
pub struct Cell {
    pub place: Place,
    pub owner: Option<Owner>,
}

// The process with a number, if it lives.
fn owner_at(live: &Live<'_, '_>, process: usize) -> Option<Owner> {
    match seat_at(live.seats(), process) {
        Some(seat) => Some(Owner {
            process,
            sort: seat.sort,
        }),
        None => None,
    }
}

/// Whether the process of a cell still lives, or another of its proctype in its place.
pub fn is_owned(live: &Live<'_, '_>, cell: Cell) -> bool {
    match cell.owner {
        Some(owner) => owner_at(live, owner.process) == Some(owner),
        None => true,
    }
}

// What is behind `P[2].` in a path, where that is this process.
fn path_within<'l>(
    live: &Live<'_, '_>,
    process: usize,
    path: &'l [u8],
    text: &mut Writer,
) -> Option<&'l [u8]>
    ensures { Stays text.old text.new }
{
    text.clear();
    add_name(live, process, text);
    text.add(b"[");
    text.number(process);
    text.add(b"].");
    path.strip_prefix(text.bytes())
}

// What is compared stands there whole, or memory was refused for it.
fn whole(text: &Writer) -> Result<(), AllocError>
    ensures { OnOk result (text.now.refused ≡ false) }
{
    if text.is_refused() {
        return Err(AllocError);
    }
    Ok(())
}

// The cell of a process with a path within it.
fn cell_within(
    live: &Live<'_, '_>,
    process: usize,
    within: &[u8],
    text: &mut Writer,
) -> Option<Cell>
    ensures { Stays text.old text.new }
{
    let place = place_of(live, process.saturating_add(1), within, text)?;
    Some(Cell {
        place,
        owner: owner_at(live, process),
    })
}

// The cell of a process with this path.
fn found_within(live: &Live<'_, '_>, path: &[u8], text: &mut Writer) -> Option<Cell>
    ensures { Stays text.old text.new }
{
    for process in 0..live.process_count() {
        if let Some(within) = path_within(live, process, path, text) {
            return cell_within(live, process, within, text);
        }
    }
    None
}

fn found(live: &Live<'_, '_>, path: &[u8], text: &mut Writer) -> Option<Cell>
    ensures { Stays text.old text.new }
{
    match place_of(live, 0, path, text) {
        Some(place) => Some(Cell { place, owner: None }),
        None => found_within(live, path, text),
    }
}

/// The cell with this path, of the globals or of a process; `text` is for what is compared.
pub fn cell_named(
    live: &Live<'_, '_>,
    path: &[u8],
    text: &mut Writer,
) -> Result<Option<Cell>, AllocError>
    ensures { Stays text.old text.new }
{
    let cell = found(live, path, text);
    whole(text)?;
    Ok(cell)
}

/// Whether the last step changed a cell.
pub fn is_written(world: &World<'_, '_>, cell: Cell) -> Result<bool, AllocError> {
    if !is_owned(world.live(), cell) {
        return Ok(false);
    }
    let changes = world.changes()?;
    for change in changes.as_slice() {
        if change.place == cell.place {
            return Ok(true);
        }
    }
    Ok(false)
}

/// The cell with this path of a process that lived before where a walk stands. The walk stands where it stood.
pub fn cell_before(
    walk: &mut Walk<'_, '_>,
    path: &[u8],
    text: &mut Writer,
) -> Result<Option<Cell>, AllocError>
    ensures { SameModel walk.old walk.new }
{
    let at = walk.at();
    let mut cell = None;
    if !path.contains(&b'.') {
        return Ok(None);
    }
    for step in 0..at {
        let step = step.min(walk.legs().len());
        walk.go_to(step)?;
        cell = found_within(walk.world().live(), path, text);
        whole(text)?;
        if cell.is_some() {
            break;
        }
    }
    let at = at.min(walk.legs().len());
    walk.go_to(at)?;
    Ok(cell)
}

/// The last step up to where a walk stands that changed a cell. The walk stands where it stood.
pub fn last_written(walk: &mut Walk<'_, '_>, cell: Cell) -> Result<Option<usize>, AllocError>
    ensures { SameModel walk.old walk.new }
{
    let at = walk.at();
    let mut found = None;
    walk.go_to(0)?;
    for step in 1..at.saturating_add(1) {
        let step = step.min(walk.legs().len());
        walk.go_to(step)?;
        if is_written(walk.world(), cell)? {
            found = Some(step);
        }
    }
    Ok(found)
}
