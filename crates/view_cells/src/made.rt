//! For which cell a channel was made: the k-th channel of a frame is that of the k-th cell with a channel initialiser of its owner.

use crate::cells::{cell_count, slot_at, variable_count};
use pml_program::form::Form;
use pml_program::program::{Fields, Initial, Slot};
use promela_process::place::Place;
use promela_run::live_channel::LiveChannel;
use run_layout::typedefs::Typedefs;
use run_state::live::Live;

// What is found of the k-th channel in a variable: the cell that it was made for, or of how many the variables behind it are to be passed over.
#[derive(Clone, Copy)]
enum Found {
    At(usize),
    Left(usize),
}

// Whether channels are made for a variable or a field.
fn makes(slot: &Slot<'_>) -> bool {
    matches!(slot.initial, Initial::Channel(_, _))
}

// Whether a channel is made for a cell of a variable.
fn is_made(typedefs: &Typedefs<'_, '_>, slot: &Slot<'_>, cell: usize) -> bool {
    match typedefs.leaf(slot, cell).0 {
        None => makes(slot),
        Some((typedef, number)) => match typedefs.field(typedef, number) {
            Some(field) => makes(field),
            None => makes(slot),
        },
    }
}

// Whether channels are made for a field of a typedef.
fn is_making(typedef: &Fields<'_>) -> bool {
    typedef.fields.as_slice().iter().any(|field| makes(field))
}

// Whether channels may be made for cells of a variable.
fn can_make<'w>(typedefs: &'w [Fields<'w>], slot: &'w Slot<'_>) -> bool {
    if makes(slot) {
        return true;
    }
    match slot.form {
        Form::Struct(_) => typedefs.iter().any(|typedef| is_making(typedef)),
        _ => false,
    }
}

// Finds it among so many cells of a variable.
fn found_in(typedefs: &Typedefs<'_, '_>, slot: &Slot<'_>, cells: usize, k: usize) -> Found {
    let mut left = k;
    for cell in 0..cells {
        if is_made(typedefs, slot, cell) {
            if left == 0 {
                return Found::At(cell);
            }
            left -= 1;
        }
    }
    Found::Left(left)
}

fn found_at(live: &Live<'_, '_>, frame: usize, variable: usize, k: usize) -> Found {
    let Some(slot) = slot_at(live, frame, variable) else {
        return Found::Left(k);
    };
    if !can_make(live.program().typedefs.as_slice(), slot) {
        return Found::Left(k);
    }
    let cells = cell_count(live, frame, variable);
    found_in(live.tables().typedefs(), slot, cells, k)
}

// The frame of a channel, counted from 0.
fn frame_of(channels: &[LiveChannel], at: usize) -> Option<usize> {
    match channels.get(at) {
        Some(live) => Some(live.frame),
        None => None,
    }
}

// How many of the first channels are of a frame.
fn older(channels: &[LiveChannel], frame: usize, count: usize) -> usize {
    channels
        .iter()
        .take(count)
        .filter(|live| live.frame == frame)
        .count()
}

// The k-th cell of a frame for which a channel is made.
fn nth_made(live: &Live<'_, '_>, frame: usize, k: usize) -> Option<Place> {
    let mut k = k;
    for variable in 0..variable_count(live, frame) {
        match found_at(live, frame, variable, k) {
            Found::At(cell) => {
                return Some(Place {
                    frame,
                    variable,
                    cell,
                });
            }
            Found::Left(left) => k = left,
        }
    }
    None
}

/// The cell for which the channel with this number was made.
pub fn made_for(live: &Live<'_, '_>, number: usize) -> Option<Place> {
    if number == 0 {
        return None;
    }
    let channels = live.channels();
    let frame = frame_of(channels, number - 1)?;
    nth_made(live, frame, older(channels, frame, number - 1))
}
