//! The conditions on names, kinds, counts and ranges, all of them asked in one pass over the marks.

ghost use Rattle.std.specs.Prelude.{◌≡◌, ◌||◌, false, IfOk};
ghost use Rattle.check_names.specs.Env.{env};
ghost use Rattle.check_names.specs.Totals.{IsTotalled};
ghost use Rattle.promela_model.specs.declared.condition.Condition.TheVariants as condition;
ghost use Rattle.promela_model.specs.Conditions.{judged};
ghost use Rattle.check_conditions.specs.Labels.{told_around};
ghost use Rattle.check_conditions.specs.Finds.{AreFound};

use crate::counts::{mislabelled, other_count, out_of_range, too_many, twice};
use crate::labels::{add_label, all_labels};
use crate::unknown::unknown;
use crate::wrong::wrong;
use check_names::names::Names;
use check_names::places::Places;
use check_names::table::Table;
use promela_model::mark::{Mark, What};
use std::alloc::{AllocError, Global};

/// Which of these conditions are broken: at one mark, or somewhere in a text.
#[derive(Clone, Copy, Debug, PartialEq, Eq)]
pub struct Found {
    pub twice: bool,
    pub unknown: bool,
    pub wrong: bool,
    pub arguments: bool,
    pub label: bool,
    pub range: bool,
    pub cells: bool,
}

/// Which are broken at a mark, among the names and labels of all marks and behind those of the marks before it.
#[tactic(auto, unfolding(promela_model::specs::Conditions::judged))]
pub(crate) fn at_mark(
    all: &Table,
    every: &Places<usize>,
    names: &Names,
    labels: &Places<usize>,
    owner: usize,
    what: &What,
) -> Found
    requires { IsTotalled names.now.table names.now.totals names.now.constants }
    ensures twice { result.twice ≡ judged condition.Twice (told_around all.now every.now names.now.table labels.now) owner what.now }
    ensures unknown { result.unknown ≡ judged condition.Unknown (told_around all.now every.now names.now.table labels.now) owner what.now }
    ensures wrong { result.wrong ≡ judged condition.Wrong (told_around all.now every.now names.now.table labels.now) owner what.now }
    ensures arguments { result.arguments ≡ judged condition.Arguments (told_around all.now every.now names.now.table labels.now) owner what.now }
    ensures label { result.label ≡ judged condition.Label (told_around all.now every.now names.now.table labels.now) owner what.now }
    ensures range { result.range ≡ judged condition.Range (told_around all.now every.now names.now.table labels.now) owner what.now }
    ensures cells { result.cells ≡ judged condition.Cells (told_around all.now every.now names.now.table labels.now) owner what.now }
{
    Found {
        twice: twice(&names.table, owner, what),
        unknown: unknown(all, &names.table, owner, what),
        wrong: wrong(all, &names.table, owner, what),
        arguments: other_count(all, &names.table, owner, what),
        label: mislabelled(every, labels, owner, what),
        range: out_of_range(names, what),
        cells: too_many(names, owner, what),
    }
}

/// Which are broken in one or the other.
fn either(a: Found, b: Found) -> Found
    ensures twice { result.twice ≡ (a.twice || b.twice) }
    ensures unknown { result.unknown ≡ (a.unknown || b.unknown) }
    ensures wrong { result.wrong ≡ (a.wrong || b.wrong) }
    ensures arguments { result.arguments ≡ (a.arguments || b.arguments) }
    ensures label { result.label ≡ (a.label || b.label) }
    ensures range { result.range ≡ (a.range || b.range) }
    ensures cells { result.cells ≡ (a.cells || b.cells) }
{
    Found {
        twice: a.twice || b.twice,
        unknown: a.unknown || b.unknown,
        wrong: a.wrong || b.wrong,
        arguments: a.arguments || b.arguments,
        label: a.label || b.label,
        range: a.range || b.range,
        cells: a.cells || b.cells,
    }
}

/// None.
fn nothing() -> Found
    ensures twice { result.twice ≡ false }
    ensures unknown { result.unknown ≡ false }
    ensures wrong { result.wrong ≡ false }
    ensures arguments { result.arguments ≡ false }
    ensures label { result.label ≡ false }
    ensures range { result.range ≡ false }
    ensures cells { result.cells ≡ false }
{
    Found {
        twice: false,
        unknown: false,
        wrong: false,
        arguments: false,
        label: false,
        range: false,
        cells: false,
    }
}

/// Which are broken somewhere in the text with these marks, where `all` has the names of all of them.
pub fn find<'a>(alloc: Global, all: &Table<'a>, marks: &[Mark<'a>]) -> Result<Found, AllocError>
    requires { all.now ≡ env marks.now }
    ensures { IfOk result (AreFound marks.now) }
{
    let every = all_labels(alloc, marks)?;
    let mut names = Names::new(alloc);
    let mut labels = Places::new(alloc);
    let mut found = nothing();
    for mark in marks {
        let here = at_mark(all, &every, &names, &labels, mark.owner, &mark.what);
        found = either(found, here);
        names.declare(mark.owner, &mark.what)?;
        add_label(&mut labels, mark.owner, &mark.what)?;
    }
    Ok(found)
}
