//! Writes a text in which the names of an `mtype` have one comma between them.

ghost use Rattle.std.specs.Prelude.{◌≡◌, ◌≤◌, ◌++◌, length, IfOk, OnOk};
ghost use Rattle.prepare.specs.declared.TheConstants.{MOST_BYTES};
ghost use Rattle.mtype_commas.specs.Writing as writing;

use crate::changes::{CommaChange, changes};
use prepare::MOST_BYTES;
use prepare::changed::Changed;
use prepare::stretches::stretches;
use std::alloc::{AllocError, Global};

fn add_changed(out: &mut Vec<u8>, changed: &Changed<'_, CommaChange>) -> Result<(), AllocError>
    ensures { OnOk result (out.new.items ≡ out.old.items ++ writing.one changed.now) }
{
    if matches!(changed.change(), CommaChange::Parted) {
        out.extend_from_slice(b",")?;
    }
    out.extend_from_slice(changed.gap())?;
    if matches!(changed.change(), CommaChange::Blanked) {
        out.extend_from_slice(b" ")
    } else {
        out.extend_from_slice(changed.token())
    }
}

/// What is written of all.
pub fn written(alloc: Global, all: &[Changed<'_, CommaChange>]) -> Result<Vec<u8>, AllocError>
    ensures { IfOk result (λ v. v.items ≡ writing.written all.now) }
{
    let mut out = Vec::new(alloc);
    for changed in all {
        add_changed(&mut out, changed)?;
    }
    Ok(out)
}

/// A text in which the names of an `mtype` have one comma between them; the text as it is where that would be too long.
pub fn with_commas(alloc: Global, text: &[u8]) -> Result<Vec<u8>, AllocError>
    ensures text { IfOk result (λ v. v.items ≡ writing.punctuated text.now) }
    ensures short { IfOk result (λ v. length text.now ≤ MOST_BYTES → length v.items ≤ MOST_BYTES) }
{
    let stretches = stretches(alloc, text)?;
    let changes = changes(alloc, &stretches)?;
    let made = written(alloc, &changes)?;
    if made.len() > MOST_BYTES {
        let mut same = Vec::new(alloc);
        same.extend_from_slice(text)?;
        return Ok(same);
    }
    Ok(made)
}
