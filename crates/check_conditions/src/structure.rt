//! Breaks and d_steps.

ghost use Rattle.std.specs.Prelude.{◌≡◌, IfOk};
ghost use Rattle.check_names.specs.Places.{stands};
ghost use Rattle.promela_model.specs.Decided.{loose, crosses, crosses_step};
ghost use Rattle.check_conditions.specs.Step.{same_step, elsewhere, breaks_loose};
ghost use Rattle.check_conditions.specs.Finds.{Finds};

use crate::labels::label_steps;
use crate::round::Rounds;
use check_names::places::Places;
use promela_model::mark::{Mark, What};
use promela_model::round::Round;
use std::alloc::{AllocError, Global};

pub(crate) fn loose(round: Round, what: &What) -> bool
    ensures { result ≡ loose round what.now }
{
    match what {
        What::Break => !round.looped,
        _ => false,
    }
}

/// Whether a break stands somewhere that no `do` is round.
pub fn breaks_loose(alloc: Global, marks: &[Mark]) -> Result<bool, AllocError>
    ensures { IfOk result (λ b. Finds b breaks_loose marks.now) }
{
    let mut rounds = Rounds::new(alloc);
    for (i, mark) in marks.iter().enumerate() {
        if loose(rounds.here(), &mark.what) {
            return Ok(true);
        }
        rounds.pass(i, &mark.what)?;
    }
    Ok(false)
}

fn same_step(a: Option<usize>, b: Option<usize>) -> bool
    ensures { result ≡ same_step a b }
{
    match a {
        None => match b {
            None => true,
            Some(_) => false,
        },
        Some(x) => match b {
            None => false,
            Some(y) => x == y,
        },
    }
}

fn elsewhere(label: Option<Option<usize>>, round: Round) -> bool
    ensures { result ≡ elsewhere label round }
{
    match label {
        None => false,
        Some(step) => !same_step(step, round.step),
    }
}

pub(crate) fn crosses(
    labels: &Places<'_, Option<usize>>,
    round: Round,
    owner: usize,
    what: &What,
) -> bool
    ensures { result ≡ crosses (stands labels.now.numbers labels.now.places) round owner what.now }
{
    match what {
        What::Break => round.cut,
        What::Unless => round.step.is_some(),
        What::Goto(name) => elsewhere(labels.find(owner, name.text()), round),
        _ => false,
    }
}

/// Whether a goto or a break somewhere enters or leaves a d_step, or an unless stands in one.
pub fn crosses_step(alloc: Global, marks: &[Mark]) -> Result<bool, AllocError>
    ensures { IfOk result (λ b. Finds b (crosses_step marks.now) marks.now) }
{
    let labels = label_steps(alloc, marks)?;
    let mut rounds = Rounds::new(alloc);
    for (i, mark) in marks.iter().enumerate() {
        if crosses(&labels, rounds.here(), mark.owner, &mark.what) {
            return Ok(true);
        }
        rounds.pass(i, &mark.what)?;
    }
    Ok(false)
}
