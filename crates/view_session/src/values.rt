//! The values that a step changed, in its line: `x: 1 -> 2`.

ghost use Rattle.view_text.specs.Written.{Stays};

use pml_sim::world::World;
use promela_process::place::Place;
use run_state::live::Live;
use std::alloc::AllocError;
use view_cells::cells::{add_value, cell_count, form_at, variable_count};
use view_past::writers::add_cell_name;
use view_text::writer::Writer;

// How many cells the first variables of a frame have, so many.
fn cells_of(live: &Live<'_, '_>, frame: usize, variables: usize) -> usize {
    let mut count = 0usize;
    for variable in 0..variables {
        count = count.saturating_add(cell_count(live, frame, variable));
    }
    count
}

// How many cells stand before one.
fn index_of(live: &Live<'_, '_>, place: Place) -> usize {
    let mut count = 0usize;
    for frame in 0..place.frame {
        let all = variable_count(live, frame);
        count = count.saturating_add(cells_of(live, frame, all));
    }
    let within = cells_of(live, place.frame, place.variable);
    count.saturating_add(within).saturating_add(place.cell)
}

// The number that the cell with this index had before the last step, which is the oldest in the log.
fn number_before(written: &[(u32, i32)], index: usize) -> Option<i32> {
    for one in written {
        let (at, number) = *one;
        if at as usize == index {
            return Some(number);
        }
    }
    None
}

// Writes the number that a cell had before the last step, and an arrow.
fn add_before(live: &Live<'_, '_>, place: Place, out: &mut Writer)
    ensures { Stays out.old out.new }
{
    let written = live.variables().written();
    if let Some(number) = number_before(written, index_of(live, place)) {
        add_value(live, form_at(live, place), number, out);
        out.add(b" -> ");
    }
}

/// Writes the values that the last step changed: ` x: 1 -> 2, P[1].n: 0 -> 3`; behind a comma, where the line tells something before.
pub fn add_values(
    world: &World<'_, '_>,
    is_behind: bool,
    out: &mut Writer,
) -> Result<(), AllocError>
    ensures { Stays out.old out.new }
{
    let live = world.live();
    let changes = world.changes()?;
    let mut is_next = is_behind;
    for change in changes.as_slice() {
        out.add(if is_next { b", " } else { b" " });
        add_cell_name(live, change.place, out);
        out.add(b": ");
        add_before(live, change.place, out);
        add_value(live, form_at(live, change.place), change.number, out);
        is_next = true;
    }
    Ok(())
}
