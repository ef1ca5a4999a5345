//! Where a condition is broken first.

ghost use Rattle.std.specs.Prelude.{◌≡◌, ◌≢◌, IfOk};
ghost use Rattle.check_names.specs.Env.{env};
ghost use Rattle.check_conditions.specs.First.{FindsFirst, found_of};
ghost use Rattle.promela_model.specs.declared.condition.Condition.TheVariants as r;

use crate::find::{Found, at_mark};
use crate::first_crossed::{first_crossing, first_loose};
use crate::labels::{add_label, all_labels};
use check_names::names::Names;
use check_names::places::Places;
use check_names::table::Table;
use promela_model::condition::Condition;
use promela_model::mark::Mark;
use std::alloc::{AllocError, Global};

/// What was found of a condition.
fn found_of(condition: Condition, found: Found) -> bool
    ensures { result ≡ found_of condition found }
{
    match condition {
        Condition::Twice => found.twice,
        Condition::Unknown => found.unknown,
        Condition::Wrong => found.wrong,
        Condition::Arguments => found.arguments,
        Condition::Label => found.label,
        Condition::Range => found.range,
        Condition::Cells => found.cells,
        _ => false,
    }
}

/// The first mark at which one of the conditions on names, kinds, counts and ranges is broken.
fn first_judged<'a>(
    alloc: Global,
    condition: Condition,
    all: &Table<'a>,
    marks: &[Mark<'a>],
) -> Result<Option<usize>, AllocError>
    requires names { all.now ≡ env marks.now }
    requires no_break { condition ≢ r.Break }
    requires no_step { condition ≢ r.Step }
    ensures { IfOk result (FindsFirst condition marks.now) }
{
    let every = all_labels(alloc, marks)?;
    let mut names = Names::new(alloc);
    let mut labels = Places::new(alloc);
    for (i, mark) in marks.iter().enumerate() {
        let here = at_mark(all, &every, &names, &labels, mark.owner, &mark.what);
        if found_of(condition, here) {
            return Ok(Some(i));
        }
        names.declare(mark.owner, &mark.what)?;
        add_label(&mut labels, mark.owner, &mark.what)?;
    }
    Ok(None)
}

/// The first mark at which a condition is broken, where `all` has the names of all marks. The conditions on the first state are
/// broken at no mark.
pub fn first_broken<'a>(
    alloc: Global,
    condition: Condition,
    all: &Table<'a>,
    marks: &[Mark<'a>],
) -> Result<Option<usize>, AllocError>
    requires names { all.now ≡ env marks.now }
    ensures { IfOk result (FindsFirst condition marks.now) }
{
    match condition {
        Condition::Break => first_loose(alloc, marks),
        Condition::Step => first_crossing(alloc, marks),
        _ => first_judged(alloc, condition, all, marks),
    }
}
