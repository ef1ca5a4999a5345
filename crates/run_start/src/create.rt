//! New processes of a run.

ghost use Rattle.std.specs.Prelude.{◌≡◌, ◌+◌, ◌-◌, ◌<◌, ◌≤◌, ◌++◌, ◌∷◌, [], List, Ok, OnOk, OnErr, length, map, take};
ghost use Rattle.profile.specs.declared.TheConstants.{MOST_PROCESSES};
ghost use Rattle.promela_process.specs.Store.{Frame, frame_at};
ghost use Rattle.pml_store.specs.Writing.{before, but_last, joined};
ghost use Rattle.promela_run.specs.State.{size, with_value};
ghost use Rattle.run_start.specs.Shown.{Begins, idle, shown, shape};
ghost use Rattle.run_start.specs.Bound.{cells_of};
ghost use Rattle.promela_run.specs.Statements.{with_arguments, created};
ghost use Rattle.run_start.specs.Known.{Keeps, with_process, begun_with};

use crate::begin::{add_frame, begin_variables, store_number};
use crate::beginnings::Beginnings;
use crate::counting::are_too_many;
use crate::started::Started;
use diagnostics::{Fault, Stop};
use pml_eval::clip::clip;
use pml_program::program::Slot;
use std::alloc::Global;

/// Stores an argument in the first cell of a variable, if it has one.
fn set_argument(started: &mut Started, variable: usize, number: i32) -> Result<(), Stop>
    ensures value { Begins (Ok (with_value variable 0 number (shown started.old))) result (shown started.new) }
    ensures keeps { Keeps started.old started.new }
{
    if started.store.size(started.sorts.len(), variable) == 0 {
        return Ok(());
    }
    store_number(started, variable, 0, number)
}

/// Sets the arguments of the youngest process, cut to the types of its first variables.
fn set_arguments(started: &mut Started, slots: &[Slot<'_>], arguments: &[i32]) -> Result<(), Stop>
    ensures value { Begins (Ok (with_arguments 0 slots.now arguments.now (shown started.old))) result (shown started.new) }
    ensures keeps { Keeps started.old started.new }
{
    let count = arguments.len().min(slots.len());
    for variable in 0..count {
        let number = clip(slots[variable].form, arguments[variable]);
        set_argument(started, variable, number)?;
    }
    Ok(())
}

/// Sets the arguments of the youngest process, and initialises its variables.
fn begin_youngest(
    alloc: Global,
    beginnings: &Beginnings<'_, '_>,
    started: &mut Started,
    slots: &[Slot<'_>],
    arguments: &[i32],
) -> Result<(), Stop>
    requires few { length started.old.sorts.items ≤ MOST_PROCESSES }
    requires there { map length (frame_at started.old.store.frames (length started.old.sorts.items)) ≡ map size slots.now }
    ensures value { Begins (begun_with beginnings.now.typedefs slots.now arguments.now (shown started.old)) result (shown started.new) }
    ensures keeps { Keeps started.old started.new }
{
    set_arguments(started, slots, arguments)?;
    begin_variables(alloc, beginnings, started, slots)
}

/// Adds a process with nothing in its variables.
fn add_process(
    alloc: Global,
    started: &mut Started,
    sort: usize,
    slots: &[Slot<'_>],
) -> Result<(), Stop>
    requires { length (joined started.old.store.frames) + cells_of slots.now ≤ started.old.store.most }
    ensures value { Begins (Ok (with_process (idle sort) slots.now (shown started.old))) result (shown started.new) }
    ensures log { started.new.store.written ≡ started.old.store.written }
    ensures kept { OnErr result (shown started.new ≡ shown started.old) }
    ensures most { started.new.store.most ≡ started.old.store.most }
{
    started.sorts.push(sort).map_err(|_| Stop::Memory)?;
    let added = add_frame(alloc, started, slots);
    if added.is_err() {
        started.sorts.pop();
    }
    added
}

/// Takes away the youngest process, and the channels but these.
fn drop_youngest(started: &mut Started, channels: usize)
    requires { 0 < length started.old.store.frames }
    ensures frames { started.new.store.frames ≡ but_last started.old.store.frames }
    ensures channels { started.new.channels.items ≡ take channels started.old.channels.items }
    ensures sorts { started.new.sorts.items ≡ take (length started.old.sorts.items - 1) started.old.sorts.items }
    ensures most { started.new.store.most ≡ started.old.store.most }
{
    started.sorts.pop();
    started.channels.truncate(channels);
    started.store.pop_frame();
}

/// Creates a process of the proctype with this number and these variables. Its arguments are stored first, cut to the types of its
/// parameters, and then its variables begin in the order of the text. Where it cannot be created, what is held stays as it was, but the
/// log may have grown.
pub fn create(
    beginnings: &Beginnings<'_, '_>,
    sort: usize,
    slots: &[Slot<'_>],
    arguments: &[i32],
    started: &mut Started,
) -> Result<(), Stop>
    requires few { length started.old.sorts.items < MOST_PROCESSES }
    requires next { length started.old.store.frames ≡ length started.old.sorts.items + 1 }
    requires room { length (joined started.old.store.frames) + cells_of slots.now ≤ started.old.store.most }
    ensures value { Begins (created beginnings.now.typedefs (idle sort) slots.now arguments.now (shown started.old)) result (shown started.new) }
    ensures kept { OnErr result (shown started.new ≡ shown started.old) }
    ensures past { OnOk result ((rest : List Frame) × (before started.new.store ≡ before started.old.store ++ rest)) }
    ensures shape { OnOk result (shape started.new.store.frames ≡ shape started.old.store.frames ++ map size slots.now ∷ []) }
    ensures sorts { OnOk result (started.new.sorts.items ≡ started.old.sorts.items ++ sort ∷ []) }
    ensures most { started.new.store.most ≡ started.old.store.most }
{
    let alloc = *started.channels.allocator();
    let channels = started.channels.len();
    if are_too_many(alloc, beginnings, slots, channels).map_err(|_| Stop::Memory)? {
        return Err(Stop::Fault(Fault::TooManyChannels));
    }
    add_process(alloc, started, sort, slots)?;
    let begun = begin_youngest(alloc, beginnings, started, slots, arguments);
    if begun.is_err() {
        drop_youngest(started, channels);
    }
    begun
}
