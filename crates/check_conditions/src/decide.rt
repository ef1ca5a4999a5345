//! Whether a condition refuses a model.

ghost use Rattle.std.specs.Prelude.{◌≡◌, IfOk};
ghost use Rattle.check_names.specs.Env.{env};
ghost use Rattle.check_conditions.specs.Finds.{AreFound, Decides};

use crate::find::Found;
use crate::start::{begins_somewhere, starts_too_many};
use crate::structure::{breaks_loose, crosses_step};
use check_names::table::Table;
use promela_model::condition::Condition;
use promela_model::mark::Mark;
use std::alloc::{AllocError, Global};

/// Whether a condition refuses the model with these marks, where `all` has the names of all of them, and `found` is what was found of them.
/// Of a d_step this is what its gotos, breaks and unlesses decide; its first point is asked where control is known.
pub fn applies<'a>(
    alloc: Global,
    condition: Condition,
    found: Found,
    all: &Table<'a>,
    marks: &[Mark<'a>],
) -> Result<bool, AllocError>
    requires names { all.now ≡ env marks.now }
    requires found { AreFound marks.now found }
    ensures { IfOk result (λ b. Decides b condition marks.now) }
{
    match condition {
        Condition::Twice => Ok(found.twice),
        Condition::Unknown => Ok(found.unknown),
        Condition::Wrong => Ok(found.wrong),
        Condition::Arguments => Ok(found.arguments),
        Condition::Label => Ok(found.label),
        Condition::Break => breaks_loose(alloc, marks),
        Condition::Step => crosses_step(alloc, marks),
        Condition::Range => Ok(found.range),
        Condition::Cells => Ok(found.cells),
        Condition::NoProcess => Ok(!begins_somewhere(marks)),
        Condition::Start => starts_too_many(alloc, all, marks),
    }
}
