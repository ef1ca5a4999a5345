//! Writes a text in which a record that is a message is its fields.

ghost use Rattle.std.specs.Prelude.{◌≡◌, true, ◌++◌, IfOk, OnOk};
ghost use Rattle.record_messages.specs.Writing as writing;

use crate::changes::{MOST_LOOPS, MessageChange, MessageToken, changes};
use crate::members::{Member, members};
use crate::variables::{DeclaredName, record_of, records};
use itoa::Buffer;
use names_apart::writing::{MOST_JOINT, joint};
use prepare::MOST_BYTES;
use prepare::stretches::stretches;
use std::alloc::{AllocError, Global};

fn add_divider(out: &mut Vec<u8>, is_front: bool) -> Result<(), AllocError>
    ensures { OnOk result (out.new.items ≡ out.old.items ++ writing.divider is_front) }
{
    if is_front {
        Ok(())
    } else {
        out.extend_from_slice(b", ")
    }
}

// Adds the types of the fields of a typedef.
fn add_types(out: &mut Vec<u8>, members: &[Member<'_>], word: &[u8]) -> Result<(), AllocError>
    ensures { OnOk result (out.new.items ≡ out.old.items ++ writing.types true members.now word.now) }
{
    let mut is_front = true;
    let mut rest = members;
    while let [member, back @ ..] = rest {
        if member.home() == word {
            add_divider(out, is_front)?;
            out.extend_from_slice(member.word())?;
            is_front = false;
        }
        rest = back;
    }
    Ok(())
}

// Adds the fields of a record that is of a typedef.
fn add_fields(
    out: &mut Vec<u8>,
    members: &[Member<'_>],
    word: &[u8],
    name: &[u8],
) -> Result<(), AllocError>
    ensures { OnOk result (out.new.items ≡ out.old.items ++ writing.fields true members.now word.now name.now) }
{
    let mut is_front = true;
    let mut rest = members;
    while let [member, back @ ..] = rest {
        if member.home() == word {
            add_divider(out, is_front)?;
            out.extend_from_slice(name)?;
            out.extend_from_slice(b".")?;
            out.extend_from_slice(member.name())?;
            is_front = false;
        }
        rest = back;
    }
    Ok(())
}

// Adds the counter of a loop.
fn add_counter(out: &mut Vec<u8>, joint: &[u8], number: u32) -> Result<(), AllocError>
    ensures { OnOk result (out.new.items ≡ out.old.items ++ writing.counter joint.now number) }
{
    out.extend_from_slice(b"for")?;
    out.extend_from_slice(joint)?;
    let mut digits = Buffer::new();
    out.extend_from_slice(digits.format(number).as_bytes())
}

// Adds the channel of a loop.
fn add_channel(out: &mut Vec<u8>, changed: &MessageToken<'_>) -> Result<(), AllocError>
    ensures { OnOk result (out.new.items ≡ out.old.items ++ writing.channel changed.now.loop) }
{
    out.extend_from_slice(changed.channel())?;
    if changed.index().is_empty() {
        return Ok(());
    }
    out.extend_from_slice(b"[")?;
    out.extend_from_slice(changed.index())?;
    out.extend_from_slice(b"]")
}

// Adds an operation on the channel of a loop, by its sign.
fn add_operation(
    out: &mut Vec<u8>,
    members: &[Member<'_>],
    records: &[DeclaredName<'_>],
    sign: &[u8],
    changed: &MessageToken<'_>,
) -> Result<(), AllocError>
    ensures { OnOk result (out.new.items ≡ out.old.items ++ writing.operation sign.now members.now records.now changed.now.loop) }
{
    let name = changed.name();
    add_channel(out, changed)?;
    out.extend_from_slice(sign)?;
    add_fields(out, members, record_of(records, name), name)
}

// Adds the turn of a message: it is received, and sent again.
fn add_turn(
    out: &mut Vec<u8>,
    members: &[Member<'_>],
    records: &[DeclaredName<'_>],
    changed: &MessageToken<'_>,
) -> Result<(), AllocError>
    ensures { OnOk result (out.new.items ≡ out.old.items ++ writing.turn members.now records.now changed.now.loop) }
{
    out.extend_from_slice(b" ")?;
    add_operation(out, members, records, b"?", changed)?;
    out.extend_from_slice(b"; ")?;
    add_operation(out, members, records, b"!", changed)?;
    out.extend_from_slice(b";")
}

fn add_declared(
    out: &mut Vec<u8>,
    joint: &[u8],
    number: u32,
    token: &[u8],
) -> Result<(), AllocError>
    ensures { OnOk result (out.new.items ≡ out.old.items ++ writing.declared joint.now number token.now) }
{
    out.extend_from_slice(b"byte ")?;
    add_counter(out, joint, number)?;
    out.extend_from_slice(b"; ")?;
    out.extend_from_slice(token)
}

fn add_shown(
    out: &mut Vec<u8>,
    members: &[Member<'_>],
    records: &[DeclaredName<'_>],
    joint: &[u8],
    changed: &MessageToken<'_>,
) -> Result<(), AllocError>
    ensures { OnOk result (out.new.items ≡ out.old.items ++ writing.shown members.now records.now joint.now changed.now) }
{
    let token = changed.token();
    match changed.change() {
        MessageChange::Kept => out.extend_from_slice(token),
        MessageChange::Types => add_types(out, members, token),
        MessageChange::Fields => add_fields(out, members, record_of(records, token), token),
        MessageChange::Declared => add_declared(out, joint, changed.number(), token),
        MessageChange::Counter => add_counter(out, joint, changed.number()),
        MessageChange::Range => out.extend_from_slice(b": 0 .. len("),
        MessageChange::Ended => {
            out.extend_from_slice(b") - 1")?;
            out.extend_from_slice(token)
        }
        MessageChange::Turned => {
            out.extend_from_slice(token)?;
            add_turn(out, members, records, changed)
        }
    }
}

fn add_changed(
    out: &mut Vec<u8>,
    members: &[Member<'_>],
    records: &[DeclaredName<'_>],
    joint: &[u8],
    changed: &MessageToken<'_>,
) -> Result<(), AllocError>
    ensures { OnOk result (out.new.items ≡ out.old.items ++ writing.one members.now records.now joint.now changed.now) }
{
    out.extend_from_slice(changed.gap())?;
    add_shown(out, members, records, joint, changed)
}

// What is written of all, or more than a text may have of it.
fn written(
    alloc: Global,
    members: &[Member<'_>],
    records: &[DeclaredName<'_>],
    joint: &[u8],
    all: &[MessageToken<'_>],
) -> Result<Vec<u8>, AllocError>
    ensures { IfOk result (λ v. writing.IsWritten (writing.written members.now records.now joint.now all.now) v.items) }
{
    let mut out = Vec::new(alloc);
    let mut rest = all;
    while let [changed, back @ ..] = rest {
        add_changed(&mut out, members, records, joint, changed)?;
        if out.len() > MOST_BYTES {
            return Ok(out);
        }
        rest = back;
    }
    Ok(out)
}

// So many loops are taken to be made before: all, where a name may have no number.
fn first(joint: &[u8]) -> u32
    ensures { result ≡ writing.first joint.now }
{
    if joint.len() > MOST_JOINT as usize {
        MOST_LOOPS
    } else {
        0
    }
}

fn made(alloc: Global, text: &[u8]) -> Result<Vec<u8>, AllocError>
    ensures { IfOk result (λ v. writing.IsWritten (writing.made text.now) v.items) }
{
    let stretches = stretches(alloc, text)?;
    let members = members(alloc, &stretches)?;
    let records = records(alloc, &members, &stretches)?;
    let joint = joint(alloc, text)?;
    let changes = changes(alloc, &members, &records, first(&joint), &stretches)?;
    written(alloc, &members, &records, &joint, &changes)
}

/// A text in which a record that is a message is its fields, and a loop over messages one over their number; the text as it is where that would
/// be too long.
pub fn with_fields(alloc: Global, text: Vec<u8>) -> Result<Vec<u8>, AllocError>
    ensures { IfOk result (λ v. v.items ≡ writing.recorded text.items) }
{
    let made = made(alloc, &text)?;
    if made.len() > MOST_BYTES {
        return Ok(text);
    }
    Ok(made)
}
