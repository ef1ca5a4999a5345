//! A name that is to be renamed.

ghost use Rattle.std.specs.Prelude.{◌≡◌, ◌++◌, map, IfOk};
ghost use Rattle.serde_json.specs.Data.{array};
ghost use Rattle.serde_json.specs.View.{view, items_of};
ghost use Rattle.model_names.specs.Told.{AreMeant};
ghost use Rattle.lsp_results.specs.Renames.{edit_of, edits_of, IsTarget, IsRename};

use crate::page::{Page, range};
use model_names::TextNames;
use model_verdicts::renaming::{NoRenaming, Renaming, renamed, target_at};
use serde_json::{Value, json};
use std::alloc::{AllocError, Global};

/// The name at a place that can be renamed.
pub fn target(
    alloc: Global,
    page: Page<'_>,
    names: &TextNames,
    offset: usize,
) -> Result<Value, AllocError>
    ensures { IfOk result (λ v. IsTarget page.entry names.now offset (view v)) }
{
    match target_at(alloc, page.text, names, offset)? {
        Some(found) => range(alloc, page, found.at, found.length),
        None => Ok(Value::Null),
    }
}

/// Another name in place of the one that stands behind so many bytes.
fn edit(
    alloc: Global,
    page: Page<'_>,
    length: usize,
    name: &str,
    at: usize,
) -> Result<Value, AllocError>
    ensures { IfOk result (λ v. view v ≡ edit_of page.entry length name.now at) }
{
    let range = range(alloc, page, at, length)?;
    json!(in alloc; {"range": range, "newText": name})
}

fn edits(
    alloc: Global,
    page: Page<'_>,
    length: usize,
    name: &str,
    places: &[usize],
) -> Result<Value, AllocError>
    ensures { IfOk result (λ v. view v ≡ array (items_of (map (edit_of page.entry length name.now) places.now))) }
{
    let mut list = Vec::new(alloc);
    for place in places {
        list.push(edit(alloc, page, length, name, *place)?)?;
    }
    Ok(Value::Array(list))
}

fn told(alloc: Global, page: Page<'_>, name: &str, renaming: &Renaming) -> Result<Value, AllocError>
    ensures { IfOk result (λ v. view v ≡ edits_of page.entry name.now renaming.now) }
{
    let uri = page.uri;
    let edits = edits(alloc, page, renaming.length, name, &renaming.places)?;
    json!(in alloc; {"changes": {(uri): edits}})
}

/// The edits by which the name at a place is called otherwise, where the text stands for the same model then. `names` are those of the text.
pub fn rename(
    alloc: Global,
    page: Page<'_>,
    names: &TextNames,
    offset: usize,
    name: &str,
) -> Result<Result<Value, NoRenaming>, AllocError>
    requires { AreMeant page.text.now names.now.meant.items }
    ensures { IfOk result (λ r. IfOk r (λ v. IsRename page.entry name.now (view v))) }
{
    match renamed(alloc, page.text, names, offset, name.as_bytes())? {
        Ok(renaming) => Ok(Ok(told(alloc, page, name, &renaming)?)),
        Err(why) => Ok(Err(why)),
    }
}
