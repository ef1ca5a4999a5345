//! Steps of a walk, on and back. Where memory was refused before, they lead out of that first.

ghost use Rattle.std.specs.Prelude.{◌≡◌, ◌+◌, ◌-◌, OnOk, IfOk, length};
ghost use Rattle.diagnostics.specs.declared.fault.Fault.{Fault};
ghost use Rattle.view_walk.specs.Walks.{SameModel, StandsAs};
ghost use Rattle.view_walk.specs.declared.walk.Went.TheVariants.{On, Faults, Nowhere};

use std::alloc::AllocError;
use view_walk::walk::{Walk, Went};

/// Takes the move with this number, from 1, and appends what it prints. A step that comes to a fault is not taken.
pub fn take(
    walk: &mut Walk<'_, '_>,
    choice: usize,
    printed: &mut Vec<u8>,
) -> Result<Went, AllocError>
    ensures model { SameModel walk.old walk.new }
    ensures nowhere { IfOk result (λ w. w ≡ Nowhere → StandsAs walk.old walk.new) }
    ensures on { IfOk result (λ w. w ≡ On → walk.new.at ≡ walk.old.at + 1) }
    ensures fault { (f : Fault) → IfOk result (λ w. w ≡ Faults f → StandsAs walk.old walk.new) }
{
    let at = walk.at();
    walk.go_to(at)?;
    match walk.choose(choice, printed)? {
        Went::On => Ok(Went::On),
        Went::Faults(fault) => Ok(Went::Faults(fault)),
        Went::Nowhere => Ok(Went::Nowhere),
    }
}

/// Goes to the state behind so many steps, or to the last one. No step is forgotten.
pub fn go_to(walk: &mut Walk<'_, '_>, step: usize) -> Result<(), AllocError>
    ensures model { SameModel walk.old walk.new }
    ensures legs { walk.new.legs ≡ walk.old.legs }
{
    let step = step.min(walk.legs().len());
    walk.go_to(step)
}

/// Goes back by so many steps, or to the first state. No step is forgotten.
pub fn back(walk: &mut Walk<'_, '_>, by: usize) -> Result<(), AllocError>
    ensures model { SameModel walk.old walk.new }
    ensures legs { walk.new.legs ≡ walk.old.legs }
    ensures at { OnOk result (walk.new.at ≡ walk.old.at - by) }
{
    let step = walk.at().saturating_sub(by);
    walk.go_to(step)
}
