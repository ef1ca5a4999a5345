//! How many channels variables make, as their declarations say it.

ghost use Rattle.std.specs.Prelude.{◌≡◌, ◌+◌, ◌≤◌, min, length, nat_lt, IfOk};
ghost use Rattle.profile.specs.declared.TheConstants.{MOST_CHANNELS};
ghost use Rattle.promela_run.specs.State.{size};
ghost use Rattle.run_start.specs.Channels.{channels_at};
ghost use Rattle.promela_run.specs.Statements.{channels_among, channels_by, channels_made};

use crate::beginnings::{Beginnings, is_zero};
use pml_program::program::{Initial, Slot};
use profile::MOST_CHANNELS;
use promela_run::beginning::Beginning;
use run_layout::cells::{remainder, size};
use std::alloc::{AllocError, Global};

/// Adds the channel of a cell, if it begins with one, up to one more than there may be.
fn count_cell(beginning: Beginning, counted: usize) -> usize
    requires { counted ≤ MOST_CHANNELS + 1 }
    ensures { result ≡ min (MOST_CHANNELS + 1) (counted + channels_at beginning) }
{
    match beginning {
        Beginning::Channel if counted <= MOST_CHANNELS => counted + 1,
        _ => counted,
    }
}

/// Adds the channels of a variable without a value to those that are counted.
fn count_cells(
    alloc: Global,
    beginnings: &Beginnings<'_, '_>,
    slot: &Slot<'_>,
    counted: usize,
) -> Result<usize, AllocError>
    requires { counted ≤ MOST_CHANNELS + 1 }
    ensures { IfOk result (λ n. n ≡ min (MOST_CHANNELS + 1) (counted + channels_among beginnings.now.typedefs slot.now 0 (size slot.now))) }
{
    if beginnings.are_nothing() && is_zero(&slot.initial) {
        return Ok(counted);
    }
    let element = beginnings.element(alloc, slot)?;
    let mut count = counted;
    for cell in 0..size(slot) {
        let known = element[remainder(cell, slot.stride)];
        count = count_cell(known, count);
    }
    Ok(count)
}

/// Adds the channels of a variable to those that are counted.
fn count_variable(
    alloc: Global,
    beginnings: &Beginnings<'_, '_>,
    slot: &Slot<'_>,
    counted: usize,
) -> Result<usize, AllocError>
    requires { counted ≤ MOST_CHANNELS + 1 }
    ensures { IfOk result (λ n. n ≡ min (MOST_CHANNELS + 1) (counted + channels_by beginnings.now.typedefs slot.now.initial slot.now)) }
{
    match &slot.initial {
        Initial::Value(_) => Ok(counted),
        _ => count_cells(alloc, beginnings, slot, counted),
    }
}

/// Whether variables make more channels than may live beside these.
pub fn are_too_many(
    alloc: Global,
    beginnings: &Beginnings<'_, '_>,
    slots: &[Slot<'_>],
    live: usize,
) -> Result<bool, AllocError>
    ensures { IfOk result (λ b. b ≡ nat_lt MOST_CHANNELS (live + channels_made beginnings.now.typedefs slots.now)) }
{
    let mut count = live.min(MOST_CHANNELS + 1);
    for slot in slots {
        count = count_variable(alloc, beginnings, slot, count)?;
    }
    Ok(count > MOST_CHANNELS)
}
