//! Changes of a text.

ghost use Rattle.std.specs.Prelude.{◌≡◌, codes, IfOk, option_and_then};
ghost use Rattle.serde_json.specs.Find.{get};
ghost use Rattle.serde_json.specs.View.{view};
ghost use Rattle.lsp_results.specs.Asked.{place_in};
ghost use Rattle.lsp_results.specs.Changes.{replaced, end_in, changed, all_changed};

use crate::asked::{place_in, text_in};
use serde_json::Value;
use source_lines::position::between;
use std::alloc::{AllocError, Global};
use text_parts::{ColumnUnit, EditorPlace, offset_of};

/// The text in which another stands between two places: where the second lies before the first, behind the first.
fn replaced(
    alloc: Global,
    text: &[u8],
    from: usize,
    to: usize,
    new: &[u8],
) -> Result<Vec<u8>, AllocError>
    ensures { IfOk result (λ t. t.items ≡ replaced text.now from to new.now) }
{
    let mut out = Vec::new(alloc);
    out.extend_from_slice(between(text, 0, from))?;
    out.extend_from_slice(new)?;
    out.extend_from_slice(between(text, from.max(to), text.len()))?;
    Ok(out)
}

/// The place of this name in an object.
fn end_in(range: &Value, name: &str) -> Option<EditorPlace>
    ensures { result ≡ end_in name.now (view range.now) }
{
    match range.get(name) {
        Some(end) => place_in(end),
        None => None,
    }
}

/// The text behind a change: a change without a range has the whole of it, and one whose range names no places changes nothing.
fn changed(
    alloc: Global,
    unit: ColumnUnit,
    text: Vec<u8>,
    change: &Value,
) -> Result<Vec<u8>, AllocError>
    ensures { IfOk result (λ t. t.items ≡ changed unit text.items (view change.now)) }
{
    let new = text_in(change, "text").as_bytes();
    let Some(range) = change.get("range") else {
        return Vec::from_slice(alloc, new);
    };
    match (end_in(range, "start"), end_in(range, "end")) {
        (Some(start), Some(end)) => {
            let from = offset_of(&text, start, unit);
            let to = offset_of(&text, end, unit);
            replaced(alloc, &text, from, to, new)
        }
        _ => Ok(text),
    }
}

/// The text behind changes, one after the other.
pub fn all_changed(
    alloc: Global,
    unit: ColumnUnit,
    text: Vec<u8>,
    changes: &[Value],
) -> Result<Vec<u8>, AllocError>
    ensures { IfOk result (λ t. t.items ≡ all_changed unit text.items changes.now) }
{
    let mut text = text;
    for change in changes {
        text = changed(alloc, unit, text, change)?;
    }
    Ok(text)
}
