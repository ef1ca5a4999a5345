//! The labels of a text, and each with the innermost d_step round it.

ghost use Rattle.std.specs.Prelude.{◌≡◌, ◌||◌, ℕ, List, reverse, OnOk, IfOk};
ghost use Rattle.check_names.specs.Places.{IsKept, stands};
ghost use Rattle.check_conditions.specs.Step.{AddsStep};
ghost use Rattle.promela_model.specs.Decided.{is_label};
ghost use Rattle.check_conditions.specs.Labels.{labels_of, AreLabels};
ghost use Rattle.check_conditions.specs.Open.{AreSteps};

use crate::round::Rounds;
use check_names::places::Places;
use promela_model::mark::{Mark, What};
use promela_model::round::Round;
use std::alloc::{AllocError, Global};

/// Adds the label that a mark is.
pub fn add_label<'a>(
    labels: &mut Places<'a, usize>,
    owner: usize,
    what: &What<'a>,
) -> Result<(), AllocError>
    requires { IsKept labels.old.numbers labels.old.places }
    ensures kept { IsKept labels.new.numbers labels.new.places }
    ensures added { OnOk result ((o : ℕ) (n : List ℕ) → labels_of labels.new o n ≡ (is_label o n owner what.now || labels_of labels.old o n)) }
{
    match what {
        What::Label(name) => labels.put(owner, name.text(), 0),
        _ => Ok(()),
    }
}

/// The labels of all marks.
pub fn all_labels<'a>(alloc: Global, marks: &[Mark<'a>]) -> Result<Places<'a, usize>, AllocError>
    ensures { IfOk result (AreLabels marks.now) }
{
    let mut labels = Places::new(alloc);
    for mark in marks {
        add_label(&mut labels, mark.owner, &mark.what)?;
    }
    Ok(labels)
}

/// Keeps the innermost d_step round the label that a mark is, unless there is one of its name.
fn add_step<'a>(
    steps: &mut Places<'a, Option<usize>>,
    round: Round,
    owner: usize,
    what: &What<'a>,
) -> Result<(), AllocError>
    requires { IsKept steps.old.numbers steps.old.places }
    ensures kept { IsKept steps.new.numbers steps.new.places }
    ensures added { OnOk result (AddsStep (stands steps.old.numbers steps.old.places) (stands steps.new.numbers steps.new.places) owner what.now round.step) }
{
    match what {
        What::Label(name) => {
            if steps.find(owner, name.text()).is_some() {
                return Ok(());
            }
            steps.put(owner, name.text(), round.step)
        }
        _ => Ok(()),
    }
}

/// The labels of a text, each with the innermost d_step round the first of its name.
pub fn label_steps<'a>(
    alloc: Global,
    marks: &[Mark<'a>],
) -> Result<Places<'a, Option<usize>>, AllocError>
    ensures { IfOk result (AreSteps (reverse marks.now)) }
{
    let mut rounds = Rounds::new(alloc);
    let mut steps = Places::new(alloc);
    for (i, mark) in marks.iter().enumerate() {
        add_step(&mut steps, rounds.here(), mark.owner, &mark.what)?;
        rounds.pass(i, &mark.what)?;
    }
    Ok(steps)
}
