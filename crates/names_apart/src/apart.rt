//! A text in which names are divided, one behind another.

ghost use Rattle.std.specs.Prelude.{◌≡◌, ◌<◌, IfOk, IfSome};
ghost use Rattle.prepare.specs.Stretches as as_stretches;
ghost use Rattle.names_apart.specs.Writing as writing;
ghost use Rattle.names_apart.specs.Apart.{IsApart, IsDivision, IsLabelDivision, IsStep};

use crate::candidates::{Candidate, DividedSort};
use crate::changes::changes;
use crate::labelled::{label_changes, labelled_of};
use crate::tally::tally_of;
use crate::writing::{MOST_JOINT, joint, written};
use prepare::stretch::Stretch;
use prepare::stretches::stretches;
use std::alloc::{AllocError, Global};

// At most so many bytes are cut into tokens in order to divide names.
const MOST_READ: usize = 33_554_432;

// The text of these stretches in which a variable is divided; nothing where it is not, or where the text became too long.
fn with_variables(
    alloc: Global,
    name: &[u8],
    joint: &[u8],
    stretches: &[Stretch<'_>],
) -> Result<Option<Vec<u8>>, AllocError>
    ensures { IfOk result (λ o. IfSome o (λ v. IsDivision joint.now stretches.now v.items)) }
{
    let tally = tally_of(alloc, name, stretches)?;
    if !tally.is_divided() {
        return Ok(None);
    }
    let changes = changes(alloc, name, &tally.table, stretches)?;
    written(alloc, name, joint, &changes)
}

// The same of the labels of a name.
fn with_labels(
    alloc: Global,
    name: &[u8],
    joint: &[u8],
    stretches: &[Stretch<'_>],
) -> Result<Option<Vec<u8>>, AllocError>
    ensures { IfOk result (λ o. IfSome o (λ v. IsLabelDivision joint.now stretches.now v.items)) }
{
    let tally = labelled_of(alloc, name, stretches)?;
    if !tally.is_divided() {
        return Ok(None);
    }
    let changes = label_changes(alloc, name, &tally.table, stretches)?;
    written(alloc, name, joint, &changes)
}

fn divided(
    alloc: Global,
    candidate: Candidate<'_>,
    joint: &[u8],
    stretches: &[Stretch<'_>],
) -> Result<Option<Vec<u8>>, AllocError>
    ensures { IfOk result (λ o. IfSome o (λ v. IsStep joint.now stretches.now v.items)) }
{
    match candidate.sort {
        DividedSort::Variables => with_variables(alloc, candidate.name, joint, stretches),
        DividedSort::Labels => with_labels(alloc, candidate.name, joint, stretches),
    }
}

// A text in which one name is divided, and the number of the next one.
#[derive(Drop)]
struct Division<'t> {
    text: Vec<u8>,
    candidate: Candidate<'t>,
    next: usize,
}

// Divides the first of the names from one on that is divided in a text.
fn next_division<'t>(
    alloc: Global,
    names: &[Candidate<'t>],
    from: usize,
    joint: &[u8],
    text: &[u8],
) -> Result<Option<Division<'t>>, AllocError>
    ensures apart { IfOk result (λ o. IfSome o (λ d. IsApart joint.now text.now d.text.items)) }
    ensures next { IfOk result (λ o. IfSome o (λ d. from < d.next)) }
{
    let stretches = stretches(alloc, text)?;
    let mut at = from;
    while at < names.len() {
        let candidate = names[at];
        at += 1;
        if let Some(text) = divided(alloc, candidate, joint, &stretches)? {
            return Ok(Some(Division {
                text,
                candidate,
                next: at,
            }));
        }
    }
    Ok(None)
}

/// A text in which names are divided, and which.
#[derive(Drop)]
pub struct DividedText<'t> {
    pub text: Vec<u8>,
    pub names: Vec<Candidate<'t>>,
}

/// Divides these names in a text, as far as its length allows.
pub fn divide_names<'t>(
    alloc: Global,
    names: &[Candidate<'t>],
    text: Vec<u8>,
) -> Result<DividedText<'t>, AllocError>
    ensures { IfOk result (λ a. IsApart (writing.joint text.items) text.items a.text.items) }
{
    let joint = joint(alloc, &text)?;
    let mut text = text;
    let mut found = Vec::new(alloc);
    let mut at = if joint.len() > MOST_JOINT as usize {
        names.len()
    } else {
        0
    };
    let mut left = MOST_READ;
    while at < names.len() && text.len() <= left {
        left -= text.len();
        match next_division(alloc, names, at, &joint, &text)? {
            Some(division) => {
                found.push(division.candidate)?;
                at = division.next;
                text = division.text;
            }
            None => {
                at = names.len();
            }
        }
    }
    Ok(DividedText { text, names: found })
}
