//! Where names stand that mean the same, and where they are declared.

ghost use Rattle.std.specs.Prelude.{◌≡◌, filter, IfOk};
ghost use Rattle.serde_json.specs.View.{view};
ghost use Rattle.model_names.specs.Found.{name_at};
ghost use Rattle.lsp_results.specs.Told.{is_asked, IsDefinition, AreReferences, AreHighlights};

use crate::page::{Page, locations, marks};
use model_names::TextNames;
use serde_json::Value;
use std::alloc::{AllocError, Global};

/// Where the name at a place is declared: at more than one place, if it stands in the body of an inline.
pub fn definition(
    alloc: Global,
    page: Page<'_>,
    names: &TextNames,
    offset: usize,
) -> Result<Value, AllocError>
    ensures { IfOk result (λ v. IsDefinition page.entry names.now (name_at names.now offset) (view v)) }
{
    match names.at(offset) {
        Some(found) => {
            let places = names.declared_at(alloc, found.at)?;
            locations(alloc, page, found.length, &places)
        }
        None => Ok(Value::Null),
    }
}

/// Whether a place is asked for: any, or any but that of a declaration.
fn is_asked(place: usize, declared: usize, with_declaration: bool) -> bool
    ensures { result ≡ is_asked with_declaration declared place }
{
    with_declaration || place != declared
}

/// Those of the places that are asked for.
fn asked_for(
    alloc: Global,
    places: &[usize],
    declared: usize,
    with_declaration: bool,
) -> Result<Vec<usize>, AllocError>
    ensures { IfOk result (λ ps. ps.items ≡ filter (is_asked with_declaration declared) places.now) }
{
    let mut out = Vec::new(alloc);
    for place in places {
        if is_asked(*place, declared, with_declaration) {
            out.push(*place)?;
        }
    }
    Ok(out)
}

/// Where the names stand that mean what the name at a place means, with the declaration or without it.
pub fn references(
    alloc: Global,
    page: Page<'_>,
    names: &TextNames,
    offset: usize,
    with_declaration: bool,
) -> Result<Value, AllocError>
    ensures { IfOk result (λ v. AreReferences page.entry names.now with_declaration (name_at names.now offset) (view v)) }
{
    match names.at(offset) {
        Some(found) => {
            let places = names.places_of(alloc, found.declared)?;
            let asked = asked_for(alloc, &places, found.declared, with_declaration)?;
            locations(alloc, page, found.length, &asked)
        }
        None => Ok(Value::Null),
    }
}

/// The same with the declaration, to be marked in the text.
pub fn highlights(
    alloc: Global,
    page: Page<'_>,
    names: &TextNames,
    offset: usize,
) -> Result<Value, AllocError>
    ensures { IfOk result (λ v. AreHighlights page.entry names.now (name_at names.now offset) (view v)) }
{
    match names.at(offset) {
        Some(found) => {
            let places = names.places_of(alloc, found.declared)?;
            marks(alloc, page, found.length, &places)
        }
        None => Ok(Value::Null),
    }
}
