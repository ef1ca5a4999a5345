//! What becomes of each token where lists of initialisers are values, or are set by the first step.

ghost use Rattle.std.specs.Prelude.{◌≡◌, IfOk};
ghost use Rattle.listed_values.specs.Changes as changes;

use crate::course::{ListCourse, ListMode, Within};
use crate::lists::begins_with;
use pml_token::token::Kind;
use prepare::changed::Changed;
use prepare::stretch::Stretch;
use std::alloc::{AllocError, Global};

/// What becomes of a token.
#[derive(Clone, Copy)]
pub enum ValueChange {
    /// It stays.
    Kept,
    /// A blank stands for it.
    Blanked,
    /// A `;` stands for it.
    Ended,
    /// The step that sets the elements stands before it.
    Headed,
}

// Whether a token of a list of so many values does not stay.
fn is_blank(mode: ListMode, count: u32, left: u32) -> bool
    ensures { result ≡ changes.is_blank mode count left }
{
    let values = u64::from(count) * 2;
    let left = u64::from(left);
    match mode {
        ListMode::Left => false,
        ListMode::Same => left <= values + 1 && left != values,
        ListMode::Set => left <= values + 2,
    }
}

fn change_of_blank(is_last: bool, back: &[Stretch<'_>]) -> ValueChange
    ensures { result ≡ changes.change_of_blank is_last back.now }
{
    if is_last && !begins_with(Kind::Semicolon, back) {
        ValueChange::Ended
    } else {
        ValueChange::Blanked
    }
}

fn change_within(within: Within, back: &[Stretch<'_>]) -> ValueChange
    ensures { result ≡ changes.change_within within back.now }
{
    if is_blank(within.mode, within.count, within.left) {
        change_of_blank(within.left == 1, back)
    } else {
        ValueChange::Kept
    }
}

fn change_at(
    course: ListCourse,
    is_set: bool,
    kind: Kind,
    token: &[u8],
    back: &[Stretch<'_>],
) -> ValueChange
    ensures { result ≡ changes.change_at course is_set kind token.now back.now }
{
    if course.within.left > 0 {
        change_within(course.within, back)
    } else if is_set && course.is_first(kind, token, back) {
        ValueChange::Headed
    } else {
        ValueChange::Kept
    }
}

/// What becomes of the tokens of a text, where lists of different values are set by the first step or stay.
pub fn changes<'t>(
    alloc: Global,
    is_set: bool,
    stretches: &[Stretch<'t>],
) -> Result<Vec<Changed<'t, ValueChange>>, AllocError>
    ensures { IfOk result (λ v. v.items ≡ changes.changes is_set stretches.now) }
{
    let mut out = Vec::new(alloc);
    let mut course = ListCourse::start();
    let mut rest = stretches;
    while let [stretch, back @ ..] = rest {
        let kind = stretch.kind();
        let token = stretch.token();
        out.push(Changed::new(stretch, change_at(course, is_set, kind, token, back)))?;
        course = course.behind(is_set, kind, token, back);
        rest = back;
    }
    Ok(out)
}
