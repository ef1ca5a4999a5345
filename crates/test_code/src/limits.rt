//! Whether a model that is made by hand is within its limits.

ghost use Rattle.std.specs.Prelude.{◌≡◌, IfSome};
ghost use Rattle.run_start.specs.Bound.{cells_of, largest, room_by, room_of, room_of_fields, room_of_processes, IsWithin};

use pml_program::program::{Fields, Initial, Proctype, Program, Slot};
use profile::MOST_CELLS;
use run_layout::cells::size;

/// How many cells there are, and how many numbers the messages of one channel may have at most that an initialiser makes: as far as a
/// `u32` counts them, like the numbers below.
#[derive(Clone, Copy)]
pub struct CellCounts {
    /// The cells.
    pub cells: u32,
    /// The numbers in messages.
    pub room: u32,
}

/// How many numbers the messages of a channel may have that an initialiser makes.
fn room_by(initial: &Initial) -> Option<u32>
    ensures { IfSome result (λ n. n ≡ room_by initial.now) }
{
    match initial {
        Initial::Channel(capacity, types) => {
            let fields = u32::try_from(types.len()).ok()?;
            capacity.checked_mul(fields)
        }
        _ => Some(0),
    }
}

/// The sizes of variables.
pub fn sizes_of(slots: &[Slot<'_>]) -> Option<CellCounts>
    ensures cells { IfSome result (λ s. s.cells ≡ cells_of slots.now) }
    ensures room { IfSome result (λ s. s.room ≡ room_of slots.now) }
{
    let mut cells: u32 = 0;
    let mut room: u32 = 0;
    for slot in slots {
        let more = u32::try_from(size(slot)).ok()?;
        cells = cells.checked_add(more)?;
        room = room.max(room_by(&slot.initial)?);
    }
    Some(CellCounts { cells, room })
}

/// The room of the fields of typedefs.
fn room_of_fields(typedefs: &[Fields<'_>]) -> Option<u32>
    ensures { IfSome result (λ n. n ≡ room_of_fields typedefs.now) }
{
    let mut most: u32 = 0;
    for typedef in typedefs {
        most = most.max(sizes_of(typedef.fields.as_slice())?.room);
    }
    Some(most)
}

/// The most that the parameters and variables of one proctype have.
fn largest(proctypes: &[Proctype<'_>]) -> Option<CellCounts>
    ensures cells { IfSome result (λ s. s.cells ≡ largest proctypes.now) }
    ensures room { IfSome result (λ s. s.room ≡ room_of_processes proctypes.now) }
{
    let mut cells: u32 = 0;
    let mut room: u32 = 0;
    for proctype in proctypes {
        let sizes = sizes_of(proctype.variables.as_slice())?;
        cells = cells.max(sizes.cells);
        room = room.max(sizes.room);
    }
    Some(CellCounts { cells, room })
}

/// Something, where a model is within its limits.
pub fn within(program: &Program<'_>) -> Option<()>
    ensures { IfSome result (λ u. IsWithin program.now) }
{
    let globals = sizes_of(program.globals.as_slice())?;
    let fields = room_of_fields(program.typedefs.as_slice())?;
    let process = largest(program.proctypes.as_slice())?;
    let room = globals.room.max(fields.max(process.room));
    if globals.cells <= MOST_CELLS && process.cells <= MOST_CELLS && room <= MOST_CELLS {
        Some(())
    } else {
        None
    }
}
