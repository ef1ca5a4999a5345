//! The value of an expression of a process. Most are a number, a variable, or an operator between two of these, and have a short way.

ghost use Rattle.std.specs.Prelude.{◌≡◌, ◌<◌, Ok, IfSome, length};
ghost use Rattle.pml_program.specs.declared.expr.Expr.TheVariants.{Binary};
ghost use Rattle.pml_value.specs.Seen.{seen};
ghost use Rattle.promela_process.specs.Expressions.{val};
ghost use Rattle.promela_run.specs.State.{reads};

use diagnostics::Fault;
use pml_eval::eval::{eval, place_at_once};
use pml_eval::ground::Ground;
use pml_eval::operators::{decide, infix};
use pml_program::expr::Expr;
use pml_tree::tree::Infix;
use pml_value::view::View;
use run_state::live::Live;

/// The value of a number, or of a variable without an index.
#[inline(always)]
fn operand_at_once(value: &Expr, view: &View<'_>) -> Option<i32>
    ensures { IfSome result (λ n. val value.now (seen view.now) ≡ Ok n) }
{
    match value {
        Expr::Number(number) => Some(*number),
        Expr::Read(target) => Some(view.number(place_at_once(target, view)?)),
        _ => None,
    }
}

/// The value of an operator between two of these, where there is no fault.
#[inline(always)]
fn joined_at_once(operator: Infix, left: &Expr, right: &Expr, view: &View<'_>) -> Option<i32>
    ensures { IfSome result (λ n. val (Binary operator left.now right.now) (seen view.now) ≡ Ok n) }
{
    let x = operand_at_once(left, view)?;
    if let Some(number) = decide(operator, x) {
        return Some(number);
    }
    let y = operand_at_once(right, view)?;
    match infix(operator, x, y) {
        Ok(number) => Some(number),
        Err(_) => None,
    }
}

/// The value of an expression, if it is one of these.
#[inline(always)]
fn value_at_once(value: &Expr, view: &View<'_>) -> Option<i32>
    ensures { IfSome result (λ n. val value.now (seen view.now) ≡ Ok n) }
{
    match value {
        Expr::Binary(operator, left, right) => {
            joined_at_once(*operator, left.get(), right.get(), view)
        }
        _ => operand_at_once(value, view),
    }
}

/// The value of an expression of a process, or the first fault from the left.
#[inline(always)]
pub(crate) fn value_of(
    live: &Live<'_, '_>,
    process: usize,
    timeout: bool,
    value: &Expr,
) -> Result<i32, Fault>
    requires { process < length live.now.state.stands }
    ensures { result ≡ val value.now (reads live.now.state process timeout) }
{
    match value_at_once(value, &live.view(process, timeout)) {
        Some(number) => Ok(number),
        None => eval(value, &live.view(process, timeout)),
    }
}
