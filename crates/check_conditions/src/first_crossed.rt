//! The first break that is loose, and the first mark that crosses a d_step.

ghost use Rattle.std.specs.Prelude.{IfOk};
ghost use Rattle.check_conditions.specs.First.{FindsFirst};
ghost use Rattle.promela_model.specs.declared.condition.Condition.TheVariants as r;

use crate::labels::label_steps;
use crate::round::Rounds;
use crate::structure::{crosses, loose};
use promela_model::mark::Mark;
use std::alloc::{AllocError, Global};

/// The first break that no `do` is round.
pub fn first_loose(alloc: Global, marks: &[Mark]) -> Result<Option<usize>, AllocError>
    ensures { IfOk result (FindsFirst r.Break marks.now) }
{
    let mut rounds = Rounds::new(alloc);
    for (i, mark) in marks.iter().enumerate() {
        if loose(rounds.here(), &mark.what) {
            return Ok(Some(i));
        }
        rounds.pass(i, &mark.what)?;
    }
    Ok(None)
}

/// The first goto or break that enters or leaves a d_step, or unless in one.
pub fn first_crossing(alloc: Global, marks: &[Mark]) -> Result<Option<usize>, AllocError>
    ensures { IfOk result (FindsFirst r.Step marks.now) }
{
    let labels = label_steps(alloc, marks)?;
    let mut rounds = Rounds::new(alloc);
    for (i, mark) in marks.iter().enumerate() {
        if crosses(&labels, rounds.here(), mark.owner, &mark.what) {
            return Ok(Some(i));
        }
        rounds.pass(i, &mark.what)?;
    }
    Ok(None)
}
