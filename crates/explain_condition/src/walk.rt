//! Where a reference leads.

ghost use Rattle.std.specs.Prelude.{◌≡◌};
ghost use Rattle.promela_model.specs.Names.{visible as seen, field_of_type};
ghost use Rattle.check_names.specs.Entry.{found};
ghost use Rattle.explain_condition.specs.Walks as walks;

use crate::sign::nameless;
use check_names::meaning::{field, visible};
use check_names::names::all_names;
use check_names::table::Table;
use explain_cause::cause::Named;
use explain_cause::place::named;
use pml_program::form::Form;
use promela_model::mark::{Mark, Shape};
use promela_model::thing::Thing;
use std::alloc::{AllocError, Global};

/// How far a reference leads. Its names are counted from 0.
#[derive(Clone, Copy)]
pub enum ReferenceEnd {
    /// It begins where this owner's names are used.
    Start(usize),
    /// To a variable of this type.
    Form(Form),
    /// The name of this number is lacking among the fields of this owner.
    Lacking(usize, usize),
    /// The name of this number stands behind one that has no fields.
    NoFields(usize),
    /// To something that is no variable.
    Other,
}

/// The first index that is not right.
#[derive(Clone, Copy)]
pub enum Index {
    Right,
    /// None stands behind the name of this number, which is an array.
    Missing(usize),
    /// One stands behind the name of this number, which is no array.
    Extra(usize),
}

/// Where a reference leads, and the first index on the way that is not right.
#[derive(Clone, Copy)]
pub struct TracedReference {
    pub end: ReferenceEnd,
    pub index: Index,
}

/// A name on the way.
#[derive(Clone, Copy)]
enum Step {
    /// Whether it is an array, and its type.
    Variable(bool, Form),
    Last(ReferenceEnd),
}

fn lacking(form: Form, number: usize) -> ReferenceEnd
    ensures { result ≡ walks.lacking form number }
{
    match form {
        Form::Struct(owner) => ReferenceEnd::Lacking(number, owner),
        _ => ReferenceEnd::Other,
    }
}

/// What is found of a name.
fn step_of(thing: Thing) -> Step
    ensures { result ≡ walks.step_of thing }
{
    match thing {
        Thing::Variable(v) => Step::Variable(v.array, v.form),
        _ => Step::Last(ReferenceEnd::Other),
    }
}

fn first_step(table: &Table<'_>, owner: usize, name: &[u8]) -> Step
    ensures { result ≡ walks.step_of_name (seen (found table.now) owner name.now) }
{
    match visible(table, owner, name) {
        Some(thing) => step_of(thing),
        None => Step::Last(ReferenceEnd::Other),
    }
}

fn field_step(table: &Table<'_>, form: Form, name: &[u8], number: usize) -> Step
    ensures { result ≡ walks.step_of_field (field_of_type (found table.now) form name.now) form number }
{
    match field(table, form, name) {
        Some(Some(thing)) => step_of(thing),
        Some(None) => Step::Last(lacking(form, number)),
        None => Step::Last(ReferenceEnd::NoFields(number)),
    }
}

fn next_step(table: &Table<'_>, here: ReferenceEnd, name: &[u8], number: usize) -> Step {
    match here {
        ReferenceEnd::Start(owner) => first_step(table, owner, name),
        ReferenceEnd::Form(form) => field_step(table, form, name, number),
        end => Step::Last(end),
    }
}

/// The first index that is not right, at the name of this number or before it.
fn index_of(before: Index, number: usize, indexed: bool, array: bool) -> Index
    ensures { result ≡ walks.index_of before number indexed array }
{
    match before {
        Index::Right => {
            if indexed == array {
                Index::Right
            } else if array {
                Index::Missing(number)
            } else {
                Index::Extra(number)
            }
        }
        wrong => wrong,
    }
}

fn walk_in(table: &Table<'_>, owner: usize, steps: &[Shape<'_>]) -> TracedReference {
    let mut end = ReferenceEnd::Start(owner);
    let mut index = Index::Right;
    for (number, step) in steps.iter().enumerate() {
        match next_step(table, end, step.name.text(), number) {
            Step::Variable(array, form) => {
                index = index_of(index, number, step.indexed, array);
                end = ReferenceEnd::Form(form);
            }
            Step::Last(end) => return TracedReference { end, index },
        }
    }
    TracedReference { end, index }
}

/// Where a reference leads behind these marks.
pub fn walk_behind(
    alloc: Global,
    before: &[Mark<'_>],
    owner: usize,
    steps: &[Shape<'_>],
) -> Result<TracedReference, AllocError> {
    let names = all_names(alloc, before)?;
    Ok(walk_in(&names.table, owner, steps))
}

/// The name of this number, or an empty one.
pub fn name_at<'t>(text: &'t [u8], steps: &[Shape<'_>], number: usize) -> Named<'t>
    ensures { result.offset ≡ walks.offset_at steps.now number }
{
    match steps.get(number) {
        Some(step) => named(text, &step.name),
        None => nameless(text),
    }
}
