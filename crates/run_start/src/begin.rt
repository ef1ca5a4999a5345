//! What the variables of the youngest frame begin with. Frame 0 has the globals, and frame n + 1 the variables of process n.

ghost use Rattle.std.specs.Prelude.{◌≡◌, ◌+◌, ◌<◌, ◌≤◌, ◌++◌, ◌∷◌, [], IfOk, OnOk, OnErr, Ok, length, map};
ghost use Rattle.profile.specs.declared.TheConstants.{MOST_PROCESSES};
ghost use Rattle.promela_process.specs.Store.{frame_at, size_at};
ghost use Rattle.pml_store.specs.Writing.{HasPlace, joined};
ghost use Rattle.promela_run.specs.State.{initial_value, read_in, youngest_cell, with_value, with_frame, with_channel, empty_channel, cell_begun, with_values, fields_begun, variable_begun, variables_begun, frame_begun, size, leaf};
ghost use Rattle.run_start.specs.Shown.{Begins, shown, shape};
ghost use Rattle.run_start.specs.Bound.{cells_of};
ghost use Rattle.run_start.specs.Known.{Keeps, known, leaf_begun};

use crate::beginnings::{Beginnings, constant, is_zero};
use crate::started::Started;
use diagnostics::{Fault, Stop};
use pml_channel::channel::Channel;
use pml_eval::clip::clip;
use pml_eval::eval::eval;
use pml_program::expr::Expr;
use pml_program::form::Form;
use pml_program::program::{Initial, Slot};
use pml_value::view::View;
use profile::{MOST_CHANNELS, MOST_MESSAGES};
use promela_process::place::Place;
use promela_run::beginning::Beginning;
use promela_run::live_channel::LiveChannel;
use run_layout::cells::{remainder, size};
use sqlite_items::Items;
use std::alloc::{AllocError, Global};

/// What a type keeps of the value of an initialiser.
fn initial_value(started: &Started, value: &Expr, form: Form) -> Result<i32, Fault>
    requires { length started.now.sorts.items ≤ MOST_PROCESSES }
    ensures { result ≡ initial_value value.now form (read_in (shown started.now)) }
{
    let count = started.sorts.len();
    let pid = count.saturating_sub(1) as u8;
    let channels = started.channels.as_slice();
    let view = View::new(&started.store, channels, pid, count as u8, false);
    let number = eval(value, &view)?;
    Ok(clip(form, number))
}

/// Stores a number in a cell.
pub fn store_number(
    started: &mut Started,
    variable: usize,
    cell: usize,
    number: i32,
) -> Result<(), Stop>
    requires { HasPlace started.old.store.frames (youngest_cell (shown started.old) variable cell) }
    ensures value { Begins (Ok (with_value variable cell number (shown started.old))) result (shown started.new) }
    ensures keeps { Keeps started.old started.new }
{
    let place = Place {
        frame: started.sorts.len(),
        variable,
        cell,
    };
    started.store.set(place, number).map_err(|_| Stop::Memory)
}

/// Makes a channel, and stores its number in a cell.
fn make_channel(
    started: &mut Started,
    variable: usize,
    cell: usize,
    capacity: u32,
    types: &[Form],
) -> Result<(), Stop>
    requires { HasPlace started.old.store.frames (youngest_cell (shown started.old) variable cell) }
    ensures value { Begins (with_channel variable cell (empty_channel capacity types.now) (shown started.old)) result (shown started.new) }
    ensures keeps { Keeps started.old started.new }
{
    let before = started.channels.len();
    if before >= MOST_CHANNELS {
        return Err(Stop::Fault(Fault::TooManyChannels));
    }
    let alloc = *started.channels.allocator();
    let types = Items::from_slice(alloc, types).map_err(|_| Stop::Memory)?;
    let frame = started.sorts.len();
    let owned = LiveChannel {
        frame,
        channel: Channel::new(alloc, capacity.min(MOST_MESSAGES) as u16, types),
    };
    started.channels.push(owned).map_err(|_| Stop::Memory)?;
    store_number(started, variable, cell, before as i32 + 1)
}

/// What a cell begins with, by the variable or the field that has it.
fn begin_cell(
    alloc: Global,
    started: &mut Started,
    variable: usize,
    cell: usize,
    slot: &Slot<'_>,
) -> Result<(), Stop>
    requires { HasPlace started.old.store.frames (youngest_cell (shown started.old) variable cell) }
    ensures value { Begins (cell_begun slot.now.initial slot.now.form variable cell (shown started.old)) result (shown started.new) }
    ensures keeps { Keeps started.old started.new }
{
    match &slot.initial {
        Initial::Zero => Ok(()),
        Initial::Value(value) => match constant(alloc, value, slot.form) {
            Err(fault) => Err(Stop::Fault(fault)),
            Ok(number) => store_number(started, variable, cell, number),
        },
        Initial::Channel(capacity, types) => {
            make_channel(started, variable, cell, *capacity, types.as_slice())
        }
    }
}

/// What a cell of a variable begins with, by the variable or the field that has it.
fn begin_leaf(
    beginnings: &Beginnings<'_, '_>,
    started: &mut Started,
    variable: usize,
    slot: &Slot<'_>,
    cell: usize,
) -> Result<(), Stop>
    requires { HasPlace started.old.store.frames (youngest_cell (shown started.old) variable cell) }
    ensures value { Begins (leaf_begun beginnings.now.typedefs slot.now variable cell (shown started.old)) result (shown started.new) }
    ensures keeps { Keeps started.old started.new }
{
    let alloc = *started.channels.allocator();
    let (place, _) = beginnings.typedefs().leaf(slot, cell);
    match place {
        None => begin_cell(alloc, started, variable, cell, slot),
        Some((typedef, number)) => match beginnings.typedefs().field(typedef, number) {
            None => begin_cell(alloc, started, variable, cell, slot),
            Some(field) => begin_cell(alloc, started, variable, cell, field),
        },
    }
}

/// The same, where it is known before.
fn begin_known(
    beginnings: &Beginnings<'_, '_>,
    started: &mut Started,
    variable: usize,
    slot: &Slot<'_>,
    cell: usize,
    beginning: Beginning,
) -> Result<(), Stop>
    requires known { beginning ≡ known (leaf beginnings.now.typedefs slot.now cell) }
    requires there { HasPlace started.old.store.frames (youngest_cell (shown started.old) variable cell) }
    ensures value { Begins (leaf_begun beginnings.now.typedefs slot.now variable cell (shown started.old)) result (shown started.new) }
    ensures keeps { Keeps started.old started.new }
{
    match beginning {
        Beginning::Nothing => Ok(()),
        Beginning::Number(number) => store_number(started, variable, cell, number),
        Beginning::Fails(fault) => Err(Stop::Fault(fault)),
        Beginning::Channel => begin_leaf(beginnings, started, variable, slot, cell),
    }
}

/// What each cell of a variable begins with, by the field that has it. Where no field has an initialiser, a variable without one
/// need not be gone through.
fn begin_fields(
    alloc: Global,
    beginnings: &Beginnings<'_, '_>,
    started: &mut Started,
    variable: usize,
    slot: &Slot<'_>,
) -> Result<(), Stop>
    requires { size_at started.old.store.frames (length started.old.sorts.items) variable ≡ size slot.now }
    ensures value { Begins (fields_begun beginnings.now.typedefs slot.now variable 0 (size slot.now) (shown started.old)) result (shown started.new) }
    ensures keeps { Keeps started.old started.new }
{
    if beginnings.are_nothing() && is_zero(&slot.initial) {
        return Ok(());
    }
    let element = beginnings.element(alloc, slot).map_err(|_| Stop::Memory)?;
    for cell in 0..size(slot) {
        let known = element[remainder(cell, slot.stride)];
        begin_known(beginnings, started, variable, slot, cell, known)?;
    }
    Ok(())
}

/// Stores a number in each cell of a variable.
fn fill(started: &mut Started, variable: usize, cells: usize, number: i32) -> Result<(), Stop>
    requires { size_at started.old.store.frames (length started.old.sorts.items) variable ≡ cells }
    ensures value { Begins (Ok (with_values variable number 0 cells (shown started.old))) result (shown started.new) }
    ensures keeps { Keeps started.old started.new }
{
    for cell in 0..cells {
        store_number(started, variable, cell, number)?;
    }
    Ok(())
}

/// What a variable begins with.
fn begin_variable(
    alloc: Global,
    beginnings: &Beginnings<'_, '_>,
    started: &mut Started,
    variable: usize,
    slot: &Slot<'_>,
) -> Result<(), Stop>
    requires few { length started.old.sorts.items ≤ MOST_PROCESSES }
    requires there { size_at started.old.store.frames (length started.old.sorts.items) variable ≡ size slot.now }
    ensures value { Begins (variable_begun beginnings.now.typedefs slot.now.initial slot.now variable (shown started.old)) result (shown started.new) }
    ensures keeps { Keeps started.old started.new }
{
    match &slot.initial {
        Initial::Value(value) => match initial_value(&*started, value, slot.form) {
            Err(fault) => Err(Stop::Fault(fault)),
            Ok(number) => fill(started, variable, size(slot), number),
        },
        _ => begin_fields(alloc, beginnings, started, variable, slot),
    }
}

/// Initialises the variables of the youngest frame, in order.
pub fn begin_variables(
    alloc: Global,
    beginnings: &Beginnings<'_, '_>,
    started: &mut Started,
    slots: &[Slot<'_>],
) -> Result<(), Stop>
    requires few { length started.old.sorts.items ≤ MOST_PROCESSES }
    requires there { map length (frame_at started.old.store.frames (length started.old.sorts.items)) ≡ map size slots.now }
    ensures value { Begins (variables_begun beginnings.now.typedefs slots.now 0 (shown started.old)) result (shown started.new) }
    ensures keeps { Keeps started.old started.new }
{
    for variable in 0..slots.len() {
        begin_variable(alloc, beginnings, started, variable, &slots[variable])?;
    }
    Ok(())
}

/// How many cells each variable has.
fn sizes(alloc: Global, slots: &[Slot<'_>]) -> Result<Vec<usize>, AllocError>
    ensures { IfOk result (λ sizes. sizes.items ≡ map size slots.now) }
{
    let mut sizes = Vec::new(alloc);
    for slot in slots {
        sizes.push(size(slot))?;
    }
    Ok(sizes)
}

/// Adds the variables of one more frame, each cell 0.
pub fn add_frame(alloc: Global, started: &mut Started, slots: &[Slot<'_>]) -> Result<(), Stop>
    requires { length (joined started.old.store.frames) + cells_of slots.now ≤ started.old.store.most }
    ensures value { Begins (Ok (with_frame slots.now (shown started.old))) result (shown started.new) }
    ensures log { started.new.store.written ≡ started.old.store.written }
    ensures kept { OnErr result (started.new ≡ started.old) }
    ensures most { started.new.store.most ≡ started.old.store.most }
{
    let sizes = sizes(alloc, slots).map_err(|_| Stop::Memory)?;
    let pushed = started.store.push_frame(sizes.as_slice());
    pushed.map_err(|_| Stop::Memory)
}

/// Adds the variables of the frame that is still to come, and initialises them.
pub fn begin_frame(
    alloc: Global,
    beginnings: &Beginnings<'_, '_>,
    started: &mut Started,
    slots: &[Slot<'_>],
) -> Result<(), Stop>
    requires few { length started.old.sorts.items ≤ MOST_PROCESSES }
    requires next { length started.old.store.frames ≡ length started.old.sorts.items }
    requires room { length (joined started.old.store.frames) + cells_of slots.now ≤ started.old.store.most }
    ensures value { Begins (frame_begun beginnings.now.typedefs slots.now (shown started.old)) result (shown started.new) }
    ensures sizes { OnOk result (shape started.new.store.frames ≡ shape started.old.store.frames ++ map size slots.now ∷ []) }
    ensures sorts { started.new.sorts.items ≡ started.old.sorts.items }
    ensures most { started.new.store.most ≡ started.old.store.most }
{
    add_frame(alloc, started, slots)?;
    begin_variables(alloc, beginnings, started, slots)
}
