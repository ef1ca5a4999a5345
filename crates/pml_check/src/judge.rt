//! The least refusal that applies.

ghost use Rattle.std.specs.Prelude.{◌≡◌, ◌≢◌, List, IfOk};
ghost use Rattle.std.specs.List.{AllByRecursion};
ghost use Rattle.diagnostics.specs.declared.refusal.Refusal.TheVariants as r;
ghost use Rattle.pml_tree.specs.declared.tree.Tree.{Tree};
ghost use Rattle.promela_model.specs.declared.mark.Mark.{Mark};
ghost use Rattle.promela_model.specs.Marks.{of_tree};
ghost use Rattle.pml_program.specs.declared.program.Program.{Program};
ghost use Rattle.check_resolve.specs.Model.{numbered_model};
ghost use Rattle.promela_refusals.specs.Judged.{condition_of};
ghost use Rattle.pml_check.specs.Decided.{DecidesCircles, DecidesSteps, DecidesCondition, DecidesModel, Decides, Finds, all_judged};
ghost use Rattle.pml_check.specs.Broken.{AreBroken};
ghost use Rattle.pml_check.specs.Subject.{IsSubject};

use crate::broken::Broken;
use crate::start::has_bad_start;
use crate::subject::Subject;
use diagnostics::Refusal;
use pml_control::findings::Findings;
use std::alloc::{AllocError, Global};

/// Whether a condition is broken on the marks.
fn breaks_condition(refusal: Refusal, broken: Broken) -> bool
    ensures { (ms : List Mark) → AreBroken ms broken → DecidesCondition result (condition_of refusal) ms }
{
    match refusal {
        Refusal::NameTwice => broken.found.twice,
        Refusal::UnknownName => broken.found.unknown,
        Refusal::WrongKind => broken.found.wrong,
        Refusal::ArgumentCount => broken.found.arguments,
        Refusal::Label => broken.found.label,
        Refusal::BreakOutsideDo => broken.loose_break,
        Refusal::DStep => broken.crossed_step,
        Refusal::NumberOutOfRange => broken.found.range,
        Refusal::TooManyCells => broken.found.cells,
        Refusal::NoProcess => broken.no_process,
        Refusal::TooManyAtStart => broken.too_many_at_start,
        _ => false,
    }
}

/// Whether what is asked of the control of the model with its names replaced is broken.
fn breaks_control(refusal: Refusal, control: Findings) -> bool
    requires other { refusal ≢ r.Initialiser }
    ensures { (p : Program) → DecidesCircles control.circle p.proctypes → DecidesSteps control.bad_first_point p.proctypes → DecidesModel result refusal p }
{
    match refusal {
        Refusal::DStep => control.bad_first_point,
        Refusal::CircleOfGotos => control.circle,
        _ => false,
    }
}

/// Whether a refusal applies: any but that of the first state.
#[tactic(auto, unfolding(promela_refusals::specs::Judged::AppliesTo, crate::specs::Fitted::FitsTo))]
fn refuses(refusal: Refusal, subject: &Subject) -> bool
    requires other { refusal ≢ r.Initialiser }
    ensures { (t : Tree) → IsSubject t subject.now → Decides result refusal (of_tree t) (numbered_model t) }
{
    if breaks_condition(refusal, subject.broken) {
        return true;
    }
    breaks_control(refusal, subject.control)
}

/// The first of these refusals that applies.
fn first_of(refusals: &[Refusal], subject: &Subject) -> Option<Refusal>
    requires others { AllByRecursion (λ x. x ≢ r.Initialiser) refusals.now }
    ensures { (t : Tree) → IsSubject t subject.now → Finds refusals.now (of_tree t) (numbered_model t) result }
{
    for refusal in refusals {
        if refuses(*refusal, subject) {
            return Some(*refusal);
        }
    }
    None
}

/// The refusals that are judged on a tree before its first state, in the order in which they go before one another.
const JUDGED: [Refusal; 12] = [
    Refusal::NameTwice,
    Refusal::UnknownName,
    Refusal::WrongKind,
    Refusal::ArgumentCount,
    Refusal::Label,
    Refusal::BreakOutsideDo,
    Refusal::DStep,
    Refusal::CircleOfGotos,
    Refusal::NumberOutOfRange,
    Refusal::TooManyCells,
    Refusal::NoProcess,
    Refusal::TooManyAtStart,
];

/// The least refusal that applies. The first state is asked last: it is begun of a model within its limits alone.
pub fn least_of(alloc: Global, subject: &Subject) -> Result<Option<Refusal>, AllocError>
    requires subject { (t : Tree) × IsSubject t subject.now }
    ensures { (t : Tree) → IsSubject t subject.now → IfOk result (Finds all_judged (of_tree t) (numbered_model t)) }
{
    if let Some(refusal) = first_of(&JUDGED, subject) {
        return Ok(Some(refusal));
    }
    if has_bad_start(alloc, subject.program.get())? {
        return Ok(Some(Refusal::Initialiser));
    }
    Ok(None)
}
