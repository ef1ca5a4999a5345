//! Writes a text in which lists of initialisers are values, or are set by the first step.

ghost use Rattle.std.specs.Prelude.{◌≡◌, ◌≤◌, ◌++◌, length, IfOk, OnOk};
ghost use Rattle.listed_values.specs.Writing as writing;

use crate::changes::{ValueChange, changes};
use crate::settings::{Setup, setup_of};
use pml_token::token::{Kind, same_kind};
use prepare::MOST_BYTES;
use prepare::changed::Changed;
use prepare::stretches::stretches;
use std::alloc::{AllocError, Global};

// Writes the step that sets elements.
fn add_step(out: &mut Vec<u8>, set: &[u8]) -> Result<(), AllocError>
    ensures { OnOk result (out.new.items ≡ out.old.items ++ writing.step set.now) }
{
    out.extend_from_slice(b"d_step { ")?;
    out.extend_from_slice(set)?;
    out.extend_from_slice(b"}; ")
}

fn add_changed(
    out: &mut Vec<u8>,
    set: &[u8],
    changed: &Changed<'_, ValueChange>,
) -> Result<(), AllocError>
    ensures { OnOk result (out.new.items ≡ out.old.items ++ writing.one set.now changed.now) }
{
    out.extend_from_slice(changed.gap())?;
    match changed.change() {
        ValueChange::Kept => out.extend_from_slice(changed.token()),
        ValueChange::Blanked => out.extend_from_slice(b" "),
        ValueChange::Ended => out.extend_from_slice(b";"),
        ValueChange::Headed => {
            add_step(out, set)?;
            out.extend_from_slice(changed.token())
        }
    }
}

/// What is written of all, where this sets elements.
pub fn written(
    alloc: Global,
    set: &[u8],
    all: &[Changed<'_, ValueChange>],
) -> Result<Vec<u8>, AllocError>
    ensures { IfOk result (λ v. v.items ≡ writing.written set.now all.now) }
{
    let mut out = Vec::new(alloc);
    for changed in all {
        add_changed(&mut out, set, changed)?;
    }
    Ok(out)
}

// The line behind a text.
fn line_behind(line: u64, text: &[u8]) -> u64
    ensures { line ≤ result }
{
    let mut line = line;
    for b in text {
        if *b == b'\n' {
            line = line.saturating_add(1);
        }
    }
    line
}

// Whether a token is the `=` of a list that a step sets.
fn is_sign(changed: &Changed<'_, ValueChange>) -> bool
    ensures { result ≡ writing.is_sign changed.now }
{
    matches!(changed.change(), ValueChange::Blanked) && same_kind(changed.kind(), Kind::Assign)
}

// The lines of the lists that a step sets.
fn lines_of(alloc: Global, all: &[Changed<'_, ValueChange>]) -> Result<Vec<u64>, AllocError>
    ensures { IfOk result (λ v. length v.items ≤ length all.now) }
{
    let mut lines: Vec<u64> = Vec::new(alloc);
    let mut line = 1;
    for changed in all {
        line = line_behind(line, changed.gap());
        if is_sign(changed) {
            lines.push(line)?;
        }
        line = line_behind(line, changed.token());
    }
    Ok(lines)
}

/// A text without lists, but for those that cannot be had, and the lines of those that the first step sets.
#[derive(Drop)]
pub struct ValuedText {
    pub text: Vec<u8>,
    pub lines: Vec<u64>,
}

/// A text in which a list of one value is that value, and the first step sets the elements of the other ones if it may; the text as it is where that
/// would be too long.
pub fn with_values(alloc: Global, text: Vec<u8>) -> Result<ValuedText, AllocError>
    ensures { IfOk result (λ v. v.text.items ≡ writing.valued text.items) }
{
    let stretches = stretches(alloc, &text)?;
    let setup: Setup = setup_of(alloc, &stretches)?;
    let changes = changes(alloc, setup.is_set(), &stretches)?;
    let made = written(alloc, &setup.set, &changes)?;
    let lines = lines_of(alloc, &changes)?;
    drop(changes);
    drop(stretches);
    if made.len() > MOST_BYTES {
        let lines = Vec::new(alloc);
        return Ok(ValuedText { text, lines });
    }
    Ok(ValuedText { text: made, lines })
}
