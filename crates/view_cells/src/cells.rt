//! Cells, their paths and their numbers.

ghost use Rattle.std.specs.Prelude.{◌≡◌, length, option_map, slice_get};
ghost use Rattle.std.specs.Option.{option_copied};
ghost use Rattle.promela_process.specs.Store.{size_at, number_at};
ghost use Rattle.promela_run.specs.Lines.{worth as worth_of, mtype_numbered};
ghost use Rattle.view_text.specs.Written.{Adds, Stays};
ghost use Rattle.view_cells.specs.Cells.{variables, variable_of, place as at, form_of, is_chan, is_mtype, path_of, mtype_name as name_of_mtype};

use crate::channels::add_channel_name;
use crate::made::made_for;
use crate::processes::proctype_of;
use pml_program::form::Form;
use pml_program::program::Slot;
use pml_store::store::Store;
use pml_token::token::Token;
use pml_tree::tree::Scalar;
use promela_process::place::Place;
use run_state::live::Live;
use run_values::place::{path, worth};
use view_text::writer::Writer;

fn slot_in<'p, 'a>(slots: &'p [Slot<'a>], variable: usize) -> Option<&'p Slot<'a>>
    ensures { option_copied result ≡ slice_get slots.now variable }
{
    slots.get(variable)
}

/// A variable of a frame: of the globals, whose frame is 0, or of a process.
pub fn slot_at<'p, 'a>(live: &Live<'p, 'a>, frame: usize, variable: usize) -> Option<&'p Slot<'a>>
    ensures { option_copied result ≡ slice_get (variables live.now.state frame) variable }
{
    if frame == 0 {
        return slot_in(live.program().globals.as_slice(), variable);
    }
    let proctype = proctype_of(live, frame - 1)?;
    slot_in(proctype.variables.as_slice(), variable)
}

/// How many variables a frame has.
pub fn variable_count(live: &Live<'_, '_>, frame: usize) -> usize
    ensures { result ≡ length (variables live.now.state frame) }
{
    if frame == 0 {
        return live.program().globals.len();
    }
    match proctype_of(live, frame - 1) {
        Some(proctype) => proctype.variables.len(),
        None => 0,
    }
}

/// How many cells a variable has: none where it is not there.
pub fn cell_count(live: &Live<'_, '_>, frame: usize, variable: usize) -> usize
    ensures { result ≡ size_at live.now.state.frames frame variable }
{
    live.variables().size(frame, variable)
}

// The number at a place of a store; 0, where there is none.
#[tactic(auto, using(crate::proofs::Placed::has_cell, crate::proofs::Placed::no_cell))]
fn number_in(store: &Store, place: Place) -> i32
    ensures { result ≡ number_at store.now.frames place }
{
    if place.cell < store.size(place.frame, place.variable) {
        store.get(place)
    } else {
        0
    }
}

/// The number at a place; 0, where there is none.
pub fn number_at(live: &Live<'_, '_>, place: Place) -> i32
    ensures { result ≡ number_at live.now.state.frames place }
{
    number_in(live.variables(), place)
}

/// The type of a cell.
pub fn form_at(live: &Live<'_, '_>, place: Place) -> Form
    ensures { result ≡ form_of live.now.state place }
{
    match slot_at(live, place.frame, place.variable) {
        Some(slot) => live.tables().typedefs().leaf(slot, place.cell).1,
        None => Form::Unknown,
    }
}

/// Whether its numbers are those of channels.
pub fn is_chan(form: Form) -> bool
    ensures { result ≡ is_chan form }
{
    matches!(form, Form::Plain(Scalar::Chan))
}

/// Whether its numbers have names.
pub fn is_mtype(form: Form) -> bool
    ensures { result ≡ is_mtype form }
{
    matches!(form, Form::Plain(Scalar::Mtype))
}

/// Writes the path of a cell within its owner.
pub fn add_path(live: &Live<'_, '_>, place: Place, out: &mut Writer)
    ensures { Adds out.old out.new (path_of live.now.state place) }
{
    if let Some(slot) = slot_at(live, place.frame, place.variable) {
        let mut text = out.take();
        let answer = path(live.tables(), slot, place.cell, &mut text);
        out.put(text, answer);
    }
}

/// Writes a number as its type has it written: an mtype by its name.
pub fn add_value(live: &Live<'_, '_>, form: Form, number: i32, out: &mut Writer)
    ensures { Adds out.old out.new (worth_of live.now.state.program.constants form number) }
{
    let constants = live.program().constants.as_slice();
    let mut text = out.take();
    let answer = worth(constants, form, number, &mut text);
    out.put(text, answer);
}

// Writes the name of the channel that the number of a cell names, where it has one that is not this cell.
fn add_named(live: &Live<'_, '_>, place: Place, number: i32, out: &mut Writer)
    ensures { Stays out.old out.new }
{
    if number <= 0 || made_for(live, number as usize) == Some(place) {
        return;
    }
    let mut name = Writer::new(out.allocator());
    if add_channel_name(live, number as usize, &mut name) {
        out.add(b" ");
        out.join(&name);
    }
}

/// Writes `PATH = VALUE`, and behind a channel's number its name.
pub fn add_cell(live: &Live<'_, '_>, place: Place, out: &mut Writer)
    ensures { Stays out.old out.new }
{
    add_path(live, place, out);
    out.add(b" = ");
    let form = form_at(live, place);
    let number = number_at(live, place);
    add_value(live, form, number, out);
    if is_chan(form) {
        add_named(live, place, number, out);
    }
}

// The name of an mtype's number among these.
fn constant<'a>(constants: &[Token<'a>], number: i32) -> Option<&'a [u8]>
    ensures { option_copied result ≡ option_map (λ w. w.text) (mtype_numbered constants.now number) }
{
    if number <= 0 {
        return None;
    }
    match constants.get(number as usize - 1) {
        Some(name) => Some(name.text()),
        None => None,
    }
}

/// The name of an mtype's number, where it has one.
pub fn mtype_name<'a>(live: &Live<'_, 'a>, form: Form, number: i32) -> Option<&'a [u8]>
    ensures { option_copied result ≡ option_map (λ w. w.text) (name_of_mtype live.now.state.program form number) }
{
    if is_mtype(form) {
        constant(live.program().constants.as_slice(), number)
    } else {
        None
    }
}

// The cell with this path among those of a variable.
fn cell_of(
    live: &Live<'_, '_>,
    frame: usize,
    variable: usize,
    wanted: &[u8],
    text: &mut Writer,
) -> Option<Place>
    ensures { Stays text.old text.new }
{
    for cell in 0..cell_count(live, frame, variable) {
        let place = Place {
            frame,
            variable,
            cell,
        };
        text.clear();
        add_path(live, place, text);
        if text.bytes() == wanted {
            return Some(place);
        }
    }
    None
}

/// The cell of an owner with this path; `text` is for the paths that are looked at.
pub fn place_of(
    live: &Live<'_, '_>,
    frame: usize,
    wanted: &[u8],
    text: &mut Writer,
) -> Option<Place>
    ensures { Stays text.old text.new }
{
    for variable in 0..variable_count(live, frame) {
        let found = cell_of(live, frame, variable, wanted, text);
        if found.is_some() {
            return found;
        }
    }
    None
}
