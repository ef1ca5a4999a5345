//! Assignments, increments, decrements and conditions (Holzmann, *The SPIN Model Checker*, chapter 3).

ghost use Rattle.std.specs.Prelude.{◌≡◌, IfOk, IfSome, Some};
ghost use Rattle.promela_process.specs.Numbers.{clipped};
ghost use Rattle.promela_run.specs.Statements.{goes, increased, outcome};
ghost use Rattle.pml_value.specs.Takes.{IsIn};
ghost use Rattle.pml_value.specs.Seen.{assigned, one_outcome, seen};

use crate::view::View;
use diagnostics::Fault;
use pml_eval::clip::clip;
use pml_eval::eval::{eval, place, place_at_once};
use pml_eval::ground::Ground;
use pml_program::expr::{Expr, Target};
use pml_program::form::Form;
use pml_program::program::Action;
use promela_process::place::Place;
use promela_run::goes::Goes;

/// What a place of this type keeps of a number.
#[inline(always)]
fn kept(place: Place, form: Form, number: i32) -> Goes
    ensures place { result.place ≡ place }
    ensures number { result.number ≡ clipped form number }
{
    Goes {
        place,
        number: clip(form, number),
    }
}

/// Where a number goes that is stored to this target.
#[inline(always)]
fn store_to(target: &Target, number: i32, view: &View<'_>) -> Result<Goes, Fault>
    ensures value { result ≡ goes target.now number (seen view.now) }
    ensures there { IfOk result (IsIn view.now.store.now.frames) }
{
    let at = place(target, view)?;
    Ok(kept(at, target.form, number))
}

/// What a variable holds, and so much more.
#[inline(always)]
fn counted(target: &Target, by: i32, view: &View<'_>) -> Result<Option<Goes>, Fault>
    ensures value { result ≡ increased target.now by (seen view.now) }
    ensures there { IfOk result (λ s. IfSome s (IsIn view.now.store.now.frames)) }
{
    let at = place(target, view)?;
    let number = view.number(at).wrapping_add(by);
    Ok(Some(kept(at, target.form, number)))
}

/// Where a number goes that is stored to the place that a target's turns lead to.
#[inline(never)]
fn store_by_turns(target: &Target, number: i32, view: &View<'_>) -> Result<Goes, Fault>
    ensures value { result ≡ goes target.now number (seen view.now) }
    ensures there { IfOk result (IsIn view.now.store.now.frames) }
{
    store_to(target, number, view)
}

/// What an assignment to a variable stores, found at once where the variable has no index, as most have.
#[inline(always)]
pub fn assigned(target: &Target, value: &Expr, view: &View<'_>) -> Result<Goes, Fault>
    ensures value { one_outcome result ≡ assigned (Some target.now) value.now (seen view.now) }
    ensures there { IfOk result (IsIn view.now.store.now.frames) }
{
    let number = eval(value, view)?;
    match place_at_once(target, view) {
        Some(at) => Ok(kept(at, target.form, number)),
        None => Ok(store_by_turns(target, number, view)?),
    }
}

/// What a statement stores, if anything.
#[inline(always)]
pub fn outcome(action: &Action<'_>, view: &View<'_>) -> Result<Option<Goes>, Fault>
    ensures value { result ≡ outcome action.now (seen view.now) }
    ensures there { IfOk result (λ s. IfSome s (IsIn view.now.store.now.frames)) }
{
    match action {
        Action::Assign(Some(target), value) => {
            Ok(Some(store_to(target, eval(value, view)?, view)?))
        }
        Action::Assign(None, value) | Action::Holds(value) => {
            eval(value, view)?;
            Ok(None)
        }
        Action::Increment(target) => counted(target, 1, view),
        Action::Decrement(target) => counted(target, -1, view),
        _ => Ok(None),
    }
}
