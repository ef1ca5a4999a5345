//! A text as its editor knows it, and places in it.

ghost use Rattle.std.specs.Prelude.{◌≡◌, map, IfOk};
ghost use Rattle.serde_json.specs.Data.{array};
ghost use Rattle.serde_json.specs.View.{view, items_of};
ghost use Rattle.lsp_results.specs.Places.{place_at, end_of, point_of, range_of, location_of, mark_of};

use serde_json::{Value, json};
use std::alloc::{AllocError, Global};
use text_parts::{ColumnUnit, EditorPlace, place_of};

/// A text with the name that its editor gives it, and what a column of it counts.
#[derive(Clone, Copy)]
pub struct Page<'t> {
    pub uri: &'t str,
    pub text: &'t [u8],
    pub unit: ColumnUnit,
}

fn place_at(page: Page<'_>, at: usize) -> EditorPlace
    ensures { result ≡ place_at page.entry at }
{
    place_of(page.text, at, page.unit)
}

/// Where a part of a text ends, which is nowhere behind the text.
pub fn end_of(page: Page<'_>, at: usize, length: usize) -> usize
    ensures { result ≡ end_of page.entry at length }
{
    at.saturating_add(length).min(page.text.len())
}

fn point(alloc: Global, place: EditorPlace) -> Result<Value, AllocError>
    ensures { IfOk result (λ v. view v ≡ point_of place) }
{
    let line = place.line;
    let character = place.column;
    json!(in alloc; {"line": line, "character": character})
}

/// A part of a text: so many bytes behind so many others.
pub fn range(alloc: Global, page: Page<'_>, at: usize, length: usize) -> Result<Value, AllocError>
    ensures { IfOk result (λ v. view v ≡ range_of page.entry length at) }
{
    let start = point(alloc, place_at(page, at))?;
    let end = point(alloc, place_at(page, end_of(page, at, length)))?;
    json!(in alloc; {"start": start, "end": end})
}

/// A part of a text, with the text's name.
pub fn location(
    alloc: Global,
    page: Page<'_>,
    at: usize,
    length: usize,
) -> Result<Value, AllocError>
    ensures { IfOk result (λ v. view v ≡ location_of page.entry length at) }
{
    let uri = page.uri;
    let range = range(alloc, page, at, length)?;
    json!(in alloc; {"uri": uri, "range": range})
}

/// A part of a text that is to be marked.
fn mark(alloc: Global, page: Page<'_>, at: usize, length: usize) -> Result<Value, AllocError>
    ensures { IfOk result (λ v. view v ≡ mark_of page.entry length at) }
{
    let range = range(alloc, page, at, length)?;
    json!(in alloc; {"range": range})
}

/// The parts of one length that stand behind so many bytes each, with the text's name.
pub fn locations(
    alloc: Global,
    page: Page<'_>,
    length: usize,
    places: &[usize],
) -> Result<Value, AllocError>
    ensures { IfOk result (λ v. view v ≡ array (items_of (map (location_of page.entry length) places.now))) }
{
    let mut list = Vec::new(alloc);
    for place in places {
        list.push(location(alloc, page, *place, length)?)?;
    }
    Ok(Value::Array(list))
}

/// The parts of one length that stand behind so many bytes each, to be marked.
pub fn marks(
    alloc: Global,
    page: Page<'_>,
    length: usize,
    places: &[usize],
) -> Result<Value, AllocError>
    ensures { IfOk result (λ v. view v ≡ array (items_of (map (mark_of page.entry length) places.now))) }
{
    let mut list = Vec::new(alloc);
    for place in places {
        list.push(mark(alloc, page, *place, length)?)?;
    }
    Ok(Value::Array(list))
}
