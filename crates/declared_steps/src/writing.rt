//! Writes a text in which declarations that are steps are assignments.

ghost use Rattle.std.specs.Prelude.{◌≡◌, ◌≤◌, ◌++◌, length, IfOk, OnOk};
ghost use Rattle.declared_steps.specs.Writing as writing;

use crate::changes::{StepChange, SteppedToken, changes};
use prepare::MOST_BYTES;
use prepare::stretches::stretches;
use std::alloc::{AllocError, Global};

// Writes `; NAME`, or its first element.
fn add_name(out: &mut Vec<u8>, name: &[u8], is_array: bool) -> Result<(), AllocError>
    ensures { OnOk result (out.new.items ≡ out.old.items ++ writing.target name.now is_array) }
{
    out.extend_from_slice(b"; ")?;
    out.extend_from_slice(name)?;
    if is_array {
        out.extend_from_slice(b"[0]")
    } else {
        Ok(())
    }
}

// Writes what stands before the gap.
fn add_front(out: &mut Vec<u8>, changed: &SteppedToken<'_>) -> Result<(), AllocError>
    ensures { OnOk result (out.new.items ≡ out.old.items ++ writing.front changed.now.name changed.now.change) }
{
    match changed.change() {
        StepChange::Kept | StepChange::Parted => Ok(()),
        StepChange::Assigned(is_array) => add_name(out, changed.name(), is_array),
        StepChange::Cleared(is_array) | StepChange::Ended(is_array) => {
            add_name(out, changed.name(), is_array)?;
            out.extend_from_slice(b" = 0")
        }
    }
}

// Writes what stands behind the gap.
fn add_shown(out: &mut Vec<u8>, changed: &SteppedToken<'_>) -> Result<(), AllocError>
    ensures { OnOk result (out.new.items ≡ out.old.items ++ writing.shown changed.now.word changed.now.change changed.now.token) }
{
    match changed.change() {
        StepChange::Kept | StepChange::Assigned(_) | StepChange::Ended(_) => {
            out.extend_from_slice(changed.token())
        }
        StepChange::Cleared(_) | StepChange::Parted => {
            out.extend_from_slice(b"; ")?;
            out.extend_from_slice(changed.word())
        }
    }
}

fn add_changed(out: &mut Vec<u8>, changed: &SteppedToken<'_>) -> Result<(), AllocError>
    ensures { OnOk result (out.new.items ≡ out.old.items ++ writing.one changed.now) }
{
    add_front(out, changed)?;
    out.extend_from_slice(changed.gap())?;
    add_shown(out, changed)
}

/// What is written of all.
pub fn written(alloc: Global, all: &[SteppedToken<'_>]) -> Result<Vec<u8>, AllocError>
    ensures { IfOk result (λ v. v.items ≡ writing.written all.now) }
{
    let mut out = Vec::new(alloc);
    for changed in all {
        add_changed(&mut out, changed)?;
    }
    Ok(out)
}

// The line behind a text.
fn line_behind(line: u64, text: &[u8]) -> u64
    ensures { line ≤ result }
{
    let mut line = line;
    for b in text {
        if *b == b'\n' {
            line = line.saturating_add(1);
        }
    }
    line
}

fn is_kept(change: StepChange) -> bool
    ensures { result ≡ writing.is_kept change }
{
    matches!(change, StepChange::Kept)
}

// The lines of tokens that do not stay.
fn lines_of(alloc: Global, all: &[SteppedToken<'_>]) -> Result<Vec<u64>, AllocError>
    ensures { IfOk result (λ v. length v.items ≤ length all.now) }
{
    let mut lines: Vec<u64> = Vec::new(alloc);
    let mut line = 1;
    for changed in all {
        line = line_behind(line, changed.gap());
        if !is_kept(changed.change()) {
            lines.push(line)?;
        }
        line = line_behind(line, changed.token());
    }
    Ok(lines)
}

/// A text in which declarations are assignments, and the lines of these.
#[derive(Drop)]
pub struct Stepped {
    pub text: Vec<u8>,
    pub lines: Vec<u64>,
}

/// A text in which declarations that are steps are assignments; the text as it is where that would be too long.
pub fn with_steps(alloc: Global, text: Vec<u8>) -> Result<Stepped, AllocError>
    ensures { IfOk result (λ s. s.text.items ≡ writing.stepped text.items) }
{
    let stretches = stretches(alloc, &text)?;
    let changes = changes(alloc, &stretches)?;
    let made = written(alloc, &changes)?;
    let lines = lines_of(alloc, &changes)?;
    drop(changes);
    drop(stretches);
    if made.len() > MOST_BYTES {
        let lines = Vec::new(alloc);
        return Ok(Stepped { text, lines });
    }
    Ok(Stepped { text: made, lines })
}
