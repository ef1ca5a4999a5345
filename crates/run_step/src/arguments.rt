//! The arguments of `run` and of `printf`, and where the number of a new process goes.

ghost use Rattle.std.specs.Prelude.{◌≡◌, IfOk, IfErr, IfSome, Ok};
ghost use Rattle.promela_run.specs.Statements.{values, goes, goes_to};
ghost use Rattle.pml_value.specs.Seen.{seen};
ghost use Rattle.pml_value.specs.Takes.{IsIn};
ghost use Rattle.run_step.specs.Arguments.{Stops};

use diagnostics::{Fault, Stop};
use pml_eval::clip::clip;
use pml_eval::eval::{eval, place};
use pml_program::expr::{Expr, Target};
use pml_value::view::View;
use promela_run::goes::Goes;
use std::alloc::Global;

/// The values of expressions, or the first fault from the left. There may be any number of them.
pub fn values_of(alloc: Global, expressions: &[Expr], view: &View<'_>) -> Result<Vec<i32>, Stop>
    ensures ok { IfOk result (λ v. values expressions.now (seen view.now) ≡ Ok v.items) }
    ensures err { IfErr result (Stops (values expressions.now (seen view.now))) }
{
    let mut numbers = Vec::new(alloc);
    for one in expressions {
        let number = eval(one, view).map_err(Stop::Fault)?;
        numbers.push(number).map_err(|_| Stop::Memory)?;
    }
    Ok(numbers)
}

/// Where a number goes that is stored to this target.
fn store_to(target: &Target, number: i32, view: &View<'_>) -> Result<Goes, Fault>
    ensures value { result ≡ goes target.now number (seen view.now) }
    ensures there { IfOk result (IsIn view.now.store.now.frames) }
{
    let at = place(target, view)?;
    Ok(Goes {
        place: at,
        number: clip(target.form, number),
    })
}

/// The same, if there is a target.
pub fn goes_to(target: &Option<Target>, number: i32, view: &View<'_>) -> Result<Option<Goes>, Fault>
    ensures value { result ≡ goes_to target.now number (seen view.now) }
    ensures there { IfOk result (λ s. IfSome s (IsIn view.now.store.now.frames)) }
{
    match target {
        None => Ok(None),
        Some(target) => Ok(Some(store_to(target, number, view)?)),
    }
}
