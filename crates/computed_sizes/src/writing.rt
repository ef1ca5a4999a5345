//! Writes a text in which sizes are numbers.

ghost use Rattle.std.specs.Prelude.{◌≡◌, ◌++◌, IfOk, OnOk};
ghost use Rattle.computed_sizes.specs.Resizing as resizing;

use crate::changes::{SizeChange, changes};
use itoa::Buffer;
use prepare::changed::Changed;
use prepare::stretches::stretches;
use std::alloc::{AllocError, Global};

// Writes a blank in place of each byte.
fn add_blanks(out: &mut Vec<u8>, token: &[u8]) -> Result<(), AllocError>
    ensures { OnOk result (out.new.items ≡ out.old.items ++ resizing.blanks token.now) }
{
    let mut rest = token;
    while let [_, back @ ..] = rest {
        out.push(b' ')?;
        rest = back;
    }
    Ok(())
}

fn add_number(out: &mut Vec<u8>, number: u32) -> Result<(), AllocError>
    ensures { OnOk result (out.new.items ≡ out.old.items ++ resizing.digits number) }
{
    let mut digits = Buffer::new();
    out.extend_from_slice(digits.format(number).as_bytes())
}

fn add_changed(out: &mut Vec<u8>, changed: &Changed<'_, SizeChange>) -> Result<(), AllocError>
    ensures { OnOk result (out.new.items ≡ out.old.items ++ resizing.one changed.now) }
{
    out.extend_from_slice(changed.gap())?;
    match changed.change() {
        SizeChange::Kept => out.extend_from_slice(changed.token()),
        SizeChange::Number(number) => add_number(out, number),
        SizeChange::Blanked => add_blanks(out, changed.token()),
    }
}

/// What is written of all.
pub fn written(alloc: Global, all: &[Changed<'_, SizeChange>]) -> Result<Vec<u8>, AllocError>
    ensures { IfOk result (λ v. v.items ≡ resizing.written all.now) }
{
    let mut out = Vec::new(alloc);
    for changed in all {
        add_changed(&mut out, changed)?;
    }
    Ok(out)
}

/// A text in which sizes that are expressions of numbers are these numbers.
pub fn with_sizes(alloc: Global, text: &[u8]) -> Result<Vec<u8>, AllocError>
    ensures { IfOk result (λ v. v.items ≡ resizing.resized text.now) }
{
    let stretches = stretches(alloc, text)?;
    let changes = changes(alloc, &stretches)?;
    written(alloc, &changes)
}
