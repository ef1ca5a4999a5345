//! Bytes behind bytes: with a comma between them or not, with escapes, or in memory that one of them has.

ghost use Rattle.std.specs.Prelude.{◌≡◌, ◌≤◌, ◌+◌, ◌++◌, ◌∷◌, [], IfOk, OnOk, OnErr, length, cond};
ghost use Rattle.std.specs.Str.{IsUtf8};
ghost use Rattle.std.specs.Vec.{vec_len, vec_capacity};
ghost use Rattle.json.specs.Token.{key, string};
ghost use Rattle.json.specs.Print.{token_text};
ghost use Rattle.view_text.specs.Written.{Adds};

use std::alloc::{AllocError, Global};
use view_text::writer::Writer;

// A text that begins has room for so many bytes.
const FIRST_ROOM: usize = 256;

// Makes room for so many bytes more, and at first for many.
fn make_room(out: &mut Vec<u8>, more: usize) -> Result<(), AllocError>
    ensures items { out.new.items ≡ out.old.items }
    ensures room { OnOk result (vec_len out.new + more ≤ vec_capacity out.new) }
{
    if out.capacity() == 0 && more < FIRST_ROOM {
        out.reserve(FIRST_ROOM)
    } else {
        out.reserve(more)
    }
}

// Appends bytes, behind a comma or not: all of it or nothing.
pub(crate) fn append(out: &mut Vec<u8>, comma: bool, bytes: &[u8]) -> Result<(), AllocError>
    ensures added { OnOk result (out.new.items ≡ out.old.items ++ (cond comma (44 ∷ []) [] ++ bytes.now)) }
    ensures kept { OnErr result (out.new.items ≡ out.old.items) }
{
    make_room(out, bytes.len() + 1)?;
    if comma {
        out.push_reserved(b',');
    }
    out.extend_from_slice(bytes)
}

// Appends bytes between a quotation mark and what ends them.
pub(crate) fn append_quoted(
    out: &mut Vec<u8>,
    comma: bool,
    bytes: &[u8],
    close: &[u8],
) -> Result<(), AllocError>
    requires { length close.now ≤ 2 }
    ensures added { OnOk result (out.new.items ≡ out.old.items ++ (cond comma (44 ∷ []) [] ++ 34 ∷ (bytes.now ++ close.now))) }
    ensures kept { OnErr result (out.new.items ≡ out.old.items) }
{
    make_room(out, bytes.len() + 4)?;
    if comma {
        out.push_reserved(b',');
    }
    out.push_reserved(b'"');
    out.extend_from_slice(bytes)?;
    out.extend_from_slice(close)
}

// A string with its escapes.
pub(crate) fn escaped_string(alloc: Global, text: &str) -> Result<Vec<u8>, AllocError>
    ensures value { IfOk result (λ v. v.items ≡ token_text (string text.now)) }
    ensures utf8 { IfOk result (λ v. IsUtf8 v.items) }
{
    let mut one = json::Writer::new(Vec::new(alloc));
    one.string(text)?;
    Ok(one.into_inner())
}

// A key with its escapes.
pub(crate) fn escaped_key(alloc: Global, name: &str) -> Result<Vec<u8>, AllocError>
    ensures value { IfOk result (λ v. v.items ≡ token_text (key name.now)) }
    ensures utf8 { IfOk result (λ v. IsUtf8 v.items) }
{
    let mut one = json::Writer::new(Vec::new(alloc));
    one.key(name)?;
    Ok(one.into_inner())
}

/// A text of at most so many bytes is copied behind another.
const MOST_COPIED: usize = 65_536;

// A text behind another, in its own memory.
fn behind(before: Vec<u8>, text: Vec<u8>) -> Result<Vec<u8>, AllocError>
    ensures { IfOk result (λ v. v.items ≡ before.items ++ text.items) }
{
    let mut whole = text;
    whole.splice(0..0, before)?;
    Ok(whole)
}

// Writes a large text, in its own memory.
fn add_large(text: Vec<u8>, out: &mut Writer)
    ensures { Adds out.old out.new text.items }
{
    let before = out.take();
    if before.is_empty() {
        return out.put(text, Ok(()));
    }
    match behind(before, text) {
        Ok(whole) => out.put(whole, Ok(())),
        Err(error) => out.keep(Err(error)),
    }
}

// Writes a text: a large one, or one with nothing before it, in its own memory.
pub(crate) fn add_whole(text: Vec<u8>, out: &mut Writer)
    ensures { Adds out.old out.new text.items }
{
    if out.len() == 0 || (text.len() > MOST_COPIED && out.len() < text.len()) {
        add_large(text, out);
    } else {
        out.add(text.as_slice());
    }
}
