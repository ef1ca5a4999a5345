//! Writes a text in which a name is divided.

ghost use Rattle.std.specs.Prelude.{◌≡◌, ◌++◌, IfOk, IfSome, OnOk};
ghost use Rattle.std.specs.Fmt.{decimal};
ghost use Rattle.names_apart.specs.Writing as writing;

use crate::changes::NameChange;
use crate::scope::more;
use itoa::Buffer;
use prepare::MOST_BYTES;
use prepare::changed::Changed;
use std::alloc::{AllocError, Global};

/// The most underscores before a digit that are told from more of them.
pub const MOST_JOINT: u32 = 64;

fn run_behind(run: u32, b: u8) -> u32
    ensures { result ≡ writing.run_behind run b }
{
    if b == b'_' {
        run.saturating_add(1).min(MOST_JOINT)
    } else {
        0
    }
}

fn most_behind(most: u32, run: u32, b: u8) -> u32
    ensures { result ≡ writing.most_behind most run b }
{
    if b.is_ascii_digit() {
        most.max(run)
    } else {
        most
    }
}

/// How many underscores stand in a row before a digit in a text at most.
pub fn longest(text: &[u8]) -> u32
    ensures { result ≡ writing.longest text.now }
{
    let mut run = 0;
    let mut most = 0;
    let mut rest = text;
    while let [b, back @ ..] = rest {
        most = most_behind(most, run, *b);
        run = run_behind(run, *b);
        rest = back;
    }
    most
}

/// What stands between a name and its number: one underscore more than stand before a digit anywhere in the text.
pub fn joint(alloc: Global, text: &[u8]) -> Result<Vec<u8>, AllocError>
    ensures { IfOk result (λ v. v.items ≡ writing.joint text.now) }
{
    let most = longest(text);
    let mut out = Vec::new(alloc);
    let mut at = 0;
    while at < most {
        out.push(b'_')?;
        at += 1;
    }
    out.push(b'_')?;
    Ok(out)
}

// Adds the name with a number; the first keeps its name.
fn add_numbered(out: &mut Vec<u8>, name: &[u8], joint: &[u8], number: u32) -> Result<(), AllocError>
    ensures { OnOk result (out.new.items ≡ out.old.items ++ writing.numbered name.now joint.now number) }
{
    out.extend_from_slice(name)?;
    if number < 2 {
        return Ok(());
    }
    out.extend_from_slice(joint)?;
    let mut digits = Buffer::new();
    out.extend_from_slice(digits.format(number).as_bytes())
}

fn add_divider(out: &mut Vec<u8>, is_front: bool) -> Result<(), AllocError>
    ensures { OnOk result (out.new.items ≡ out.old.items ++ writing.divider is_front) }
{
    if is_front {
        Ok(())
    } else {
        out.extend_from_slice(b", ")
    }
}

fn add_passed(
    out: &mut Vec<u8>,
    name: &[u8],
    joint: &[u8],
    first: u32,
    count: u32,
    is_bare: bool,
) -> Result<(), AllocError>
    ensures { OnOk result (out.new.items ≡ out.old.items ++ writing.passed name.now joint.now first is_bare count) }
{
    let mut at = 0;
    while at < count {
        add_divider(out, is_bare && at == 0)?;
        add_numbered(out, name, joint, more(first, at))?;
        at += 1;
    }
    Ok(())
}

fn add_changed(
    out: &mut Vec<u8>,
    name: &[u8],
    joint: &[u8],
    changed: &Changed<'_, NameChange>,
) -> Result<(), AllocError>
    ensures { OnOk result (out.new.items ≡ out.old.items ++ writing.one name.now joint.now changed.now) }
{
    out.extend_from_slice(changed.gap())?;
    match changed.change() {
        NameChange::Kept => out.extend_from_slice(changed.token()),
        NameChange::Named(number) => add_numbered(out, name, joint, number),
        NameChange::Passed(first, count, is_bare) => {
            add_passed(out, name, joint, first, count, is_bare)?;
            out.extend_from_slice(changed.token())
        }
    }
}

/// What is written of all, if it is no longer than a text may be.
pub fn written(
    alloc: Global,
    name: &[u8],
    joint: &[u8],
    all: &[Changed<'_, NameChange>],
) -> Result<Option<Vec<u8>>, AllocError>
    ensures { IfOk result (λ o. IfSome o (λ v. v.items ≡ writing.written name.now joint.now all.now)) }
{
    let mut out = Vec::new(alloc);
    let mut rest = all;
    while let [changed, back @ ..] = rest {
        add_changed(&mut out, name, joint, changed)?;
        if out.len() > MOST_BYTES {
            return Ok(None);
        }
        rest = back;
    }
    Ok(Some(out))
}
