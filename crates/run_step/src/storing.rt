//! Stores and conditions: at once, where they have a flat code.

ghost use Rattle.std.specs.Prelude.{◌≡◌, ◌<◌, Ok, Some, length};
ghost use Rattle.pml_program.specs.declared.program.Basic.{Plain};
ghost use Rattle.pml_value.specs.Seen.{assigned};
ghost use Rattle.promela_process.specs.Numbers.{clipped};
ghost use Rattle.promela_process.specs.Store.{size_at};
ghost use Rattle.promela_run.specs.State.{reads};
ghost use Rattle.promela_run.specs.Statements.{goes_to, outcome};
ghost use Rattle.promela_run.specs.Steps.{put, put_by};
ghost use Rattle.run_state.specs.Coded.{IsNumbered};
ghost use Rattle.run_state.specs.Live.{Keeps, Leads};

use crate::value::value_of;
use diagnostics::Stop;
use pml_eval::clip::clip;
use pml_eval::eval::place;
use pml_program::expr::{Expr, Target};
use pml_program::form::Form;
use pml_program::program::Action;
use promela_process::place::Place;
use promela_run::goes::Goes;
use run_state::live::Live;

/// Whether a target has an index, or is of a typedef.
fn has_index(target: &Target) -> bool {
    let turns = target.turns.as_slice();
    turns.len() != 1 || turns[0].index.is_some()
}

/// Stores what a type keeps of a number.
#[inline(always)]
fn put_at(live: &mut Live<'_, '_>, place: Place, form: Form, number: i32) -> Result<(), Stop>
    requires { place.cell < size_at live.old.state.frames place.frame place.variable }
    ensures value { Leads (Ok (put live.old.state (record { place = place; number = clipped form number }))) result live.new.state }
    ensures keeps { Keeps live.old live.new }
{
    let number = clip(form, number);
    live.put(Some(Goes { place, number }))
}

/// Stores a number where the turns of a target lead.
#[inline(always)]
fn put_by_turns(
    live: &mut Live<'_, '_>,
    process: usize,
    timeout: bool,
    target: &Target,
    number: i32,
) -> Result<(), Stop>
    requires { process < length live.old.state.stands }
    ensures value { Leads (put_by live.old.state (goes_to (Some target.now) number (reads live.old.state process timeout))) result live.new.state }
    ensures keeps { Keeps live.old live.new }
{
    match place(target, &live.view(process, timeout)) {
        Err(fault) => Err(Stop::Fault(fault)),
        Ok(place) => put_at(live, place, target.form, number),
    }
}

/// Takes an assignment to an element without a flat code.
#[inline(never)]
fn assign_element(
    live: &mut Live<'_, '_>,
    process: usize,
    timeout: bool,
    target: &Target,
    value: &Expr,
) -> Result<(), Stop>
    requires { process < length live.old.state.stands }
    ensures value { Leads (put_by live.old.state (assigned (Some target.now) value.now (reads live.old.state process timeout)))
        result live.new.state }
    ensures keeps { Keeps live.old live.new }
{
    match value_of(live, process, timeout, value) {
        Err(fault) => Err(Stop::Fault(fault)),
        Ok(number) => put_by_turns(live, process, timeout, target, number),
    }
}

/// Takes a statement without a flat code.
#[inline(never)]
fn store_slowly(
    live: &mut Live<'_, '_>,
    process: usize,
    timeout: bool,
    action: &Action<'_>,
) -> Result<(), Stop>
    requires { process < length live.old.state.stands }
    ensures value { Leads (put_by live.old.state (outcome action.now (reads live.old.state process timeout))) result live.new.state }
    ensures keeps { Keeps live.old live.new }
{
    match action {
        Action::Assign(Some(target), value) if has_index(target) => {
            assign_element(live, process, timeout, target, value)
        }
        _ => live.store(process, timeout, action),
    }
}

/// Takes an assignment, an increment, a decrement or a condition of a process, by its number.
#[inline(always)]
pub(crate) fn store(
    live: &mut Live<'_, '_>,
    process: usize,
    timeout: bool,
    action: &Action<'_>,
    statement: usize,
) -> Result<(), Stop>
    requires there { process < length live.old.state.stands }
    requires numbered { IsNumbered live.old.state process statement (Some (Plain action.now)) }
    ensures value { Leads (put_by live.old.state (outcome action.now (reads live.old.state process timeout))) result live.new.state }
    ensures keeps { Keeps live.old live.new }
{
    match live.store_flat(process, statement) {
        Some(done) => done,
        None => store_slowly(live, process, timeout, action),
    }
}
