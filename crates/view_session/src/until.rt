//! Where a run is to stop.

ghost use Rattle.std.specs.Prelude.{◌≡◌};
ghost use Rattle.std.specs.Ordering.{int_eq};
ghost use Rattle.promela_process.specs.Numbers.{clipped};
ghost use Rattle.promela_process.specs.Store.{number_at};
ghost use Rattle.view_text.specs.Written.{Stays};

use crate::written::{Cell, cell_named, is_owned, is_written};
use diagnostics::Fault;
use pml_eval::clip::clip;
use pml_program::form::Form;
use pml_sim::world::World;
use promela_process::place::Place;
use run_state::live::Live;
use std::alloc::AllocError;
use view_cells::cells::{form_at, is_mtype, number_at};
use view_cells::processes::is_standing_line;
use view_commands::goals::Goal;
use view_condition::condition::StateCondition;
use view_condition::subject::{TypedProcess, any_at};
use view_text::writer::Writer;

/// Where a run is to stop, as it was found in a state.
#[derive(Drop)]
pub enum Aim {
    /// Where a process stands at this line.
    Line(u32),
    /// Where the cell has this number.
    Equal(Cell, i32),
    /// Where it has another.
    Other(Cell, i32),
    /// Behind a step that changed it.
    Written(Cell),
    /// Where this holds.
    Holds(StateCondition),
}

/// Why a run cannot stop so.
#[derive(Clone, Copy, Debug, PartialEq, Eq)]
pub enum NoAim {
    /// No process can stand at the line.
    Line,
    /// No cell has this path.
    Variable,
    /// The word is no value.
    Value,
    /// A variable of this type never has the number.
    Range,
}

/// Whether a variable of this type can have a number.
pub fn can_have(form: Form, number: i32) -> bool
    ensures { result ≡ int_eq (clipped form number) number }
{
    clip(form, number) == number
}

// The number of an mtype's name.
fn number_of_name(live: &Live<'_, '_>, word: &str) -> Option<i32> {
    let constants = live.program().constants.as_slice();
    let mut number = 0i32;
    for constant in constants {
        number = number.saturating_add(1);
        if constant.text() == word.as_bytes() {
            return Some(number);
        }
    }
    None
}

// The number that a word is of a variable of this type.
fn number_of(live: &Live<'_, '_>, form: Form, word: &str) -> Option<i32> {
    if is_mtype(form) {
        if let Some(number) = number_of_name(live, word) {
            return Some(number);
        }
    }
    match word {
        "true" => Some(1),
        "false" => Some(0),
        _ => match word.parse::<i32>() {
            Ok(number) => Some(number),
            Err(_) => None,
        },
    }
}

// The cell of a path and the number of a word, where a run can stop so.
fn cell_and_number(
    live: &Live<'_, '_>,
    cell: Cell,
    value: &str,
    is_equal: bool,
) -> Result<Aim, NoAim> {
    let form = form_at(live, cell.place);
    let Some(number) = number_of(live, form, value) else {
        return Err(NoAim::Value);
    };
    if !is_equal {
        return Ok(Aim::Other(cell, number));
    }
    if can_have(form, number) {
        Ok(Aim::Equal(cell, number))
    } else {
        Err(NoAim::Range)
    }
}

// Where a run is to stop that asks of a cell.
fn aim_at<'l>(live: &Live<'_, '_>, cell: Cell, goal: Goal<'l>) -> Result<Aim, NoAim> {
    match goal {
        Goal::Equal(_, value) => cell_and_number(live, cell, value, true),
        Goal::Other(_, value) => cell_and_number(live, cell, value, false),
        _ => Ok(Aim::Written(cell)),
    }
}

/// Where a run is to stop that begins in a state, or why it cannot; `text` is for what is compared.
pub fn aim_of<'l>(
    world: &World<'_, '_>,
    goal: Goal<'l>,
    text: &mut Writer,
) -> Result<Result<Aim, NoAim>, AllocError>
    ensures { Stays text.old text.new }
{
    let live = world.live();
    match goal {
        Goal::Line(line) if is_standing_line(live, line) => Ok(Ok(Aim::Line(line))),
        Goal::Line(_) => Ok(Err(NoAim::Line)),
        Goal::Equal(path, _) | Goal::Other(path, _) | Goal::Written(path) => {
            match cell_named(live, path.as_bytes(), text)? {
                Some(cell) => Ok(aim_at(live, cell, goal)),
                None => Ok(Err(NoAim::Variable)),
            }
        }
    }
}

// Whether a cell has a number.
fn has_number(live: &Live<'_, '_>, place: Place, number: i32) -> bool
    ensures { result ≡ int_eq (number_at live.now.state.frames place) number }
{
    number_at(live, place) == number
}

/// Whether a state is one where a run is to stop.
#[derive(Clone, Copy, Debug, PartialEq, Eq)]
pub enum GoalMet {
    Yes,
    No,
    /// A condition comes to a fault, which counts as not so.
    Fault(Fault),
    /// It reads a variable of a process that is not there, which does too.
    Absent(TypedProcess),
}

fn reached_if(is_so: bool) -> GoalMet {
    if is_so { GoalMet::Yes } else { GoalMet::No }
}

// Whether a condition holds in a state.
fn holds(live: &Live<'_, '_>, condition: &StateCondition) -> GoalMet {
    match condition.worth(live) {
        Ok(worth) => reached_if(worth != 0),
        Err(fault) => match condition.absent(live) {
            Some(whose) => GoalMet::Absent(whose),
            None => GoalMet::Fault(fault),
        },
    }
}

/// Whether a state is one where a run is to stop.
pub fn is_reached(world: &World<'_, '_>, aim: &Aim) -> Result<GoalMet, AllocError> {
    let live = world.live();
    match aim {
        Aim::Line(line) => Ok(reached_if(any_at(live, *line, live.process_count()))),
        Aim::Equal(cell, number) => Ok(reached_if(
            is_owned(live, *cell) && has_number(live, cell.place, *number),
        )),
        Aim::Other(cell, number) => Ok(reached_if(
            is_owned(live, *cell) && !has_number(live, cell.place, *number),
        )),
        Aim::Written(cell) => Ok(reached_if(is_written(world, *cell)?)),
        Aim::Holds(condition) => Ok(holds(live, condition)),
    }
}
