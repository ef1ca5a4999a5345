//! What is shown of a name that one points at.

ghost use Rattle.std.specs.Prelude.{◌≡◌, Some, string_bytes, IfOk};
ghost use Rattle.serde_json.specs.View.{view};
ghost use Rattle.model_names.specs.Found.{name_at};
ghost use Rattle.lsp_results.specs.Hover.{sort_words, words_of, hover_of};

use crate::page::{Page, range};
use crate::sorts::sort_at;
use crate::symbols::text_shown;
use itoa::Buffer;
use model_names::{Occurrence, TextNames};
use serde_json::{Value, json};
use source_lines::position::line_of;
use std::alloc::{AllocError, Global};

fn sort_words(names: &TextNames, at: usize) -> &'static str
    ensures { result.now ≡ sort_words names.now at }
{
    match sort_at(names, at) {
        Some(sort) => sort.words(),
        None => "name",
    }
}

/// The line of the declaration, what the name is, and the line's number.
fn words(
    alloc: Global,
    page: Page<'_>,
    names: &TextNames,
    found: Occurrence,
) -> Result<String, AllocError>
    ensures { IfOk result (λ s. string_bytes s ≡ words_of page.entry names.now found) }
{
    let line = line_of(page.text, found.declared);
    let mut digits = Buffer::new();
    let mut words = String::from_str(alloc, "```promela\n")?;
    words.push_str(text_shown(line.bytes))?;
    words.push_str("\n```\n")?;
    words.push_str(sort_words(names, found.declared))?;
    words.push_str(", line ")?;
    words.push_str(digits.format(line.number))?;
    Ok(words)
}

fn shown(
    alloc: Global,
    page: Page<'_>,
    names: &TextNames,
    found: Occurrence,
) -> Result<Value, AllocError>
    ensures { IfOk result (λ v. view v ≡ hover_of page.entry names.now (Some found)) }
{
    let words = words(alloc, page, names, found)?;
    let range = range(alloc, page, found.at, found.length)?;
    json!(in alloc; {"contents": {"kind": "markdown", "value": words}, "range": range})
}

/// What is shown of the name at a place.
pub fn hover(
    alloc: Global,
    page: Page<'_>,
    names: &TextNames,
    offset: usize,
) -> Result<Value, AllocError>
    ensures { IfOk result (λ v. view v ≡ hover_of page.entry names.now (name_at names.now offset)) }
{
    match names.at(offset) {
        Some(found) => shown(alloc, page, names, found),
        None => Ok(Value::Null),
    }
}
