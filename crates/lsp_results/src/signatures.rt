//! What a called proctype or inline takes, for an editor (LSP 3.17, signature help).

ghost use Rattle.std.specs.Prelude.{◌≡◌, map, IfOk};
ghost use Rattle.serde_json.specs.Data.{null};
ghost use Rattle.serde_json.specs.View.{view};
ghost use Rattle.lsp_results.specs.Help.{text_in, name_in, units_to, parameter_of, signature_of, help_of, help_by, IsOfCall, IsHelp};

use crate::page::{Page, end_of};
use crate::symbols::text_shown;
use explain_tokens::placed;
use pml_lex::fault::LexError;
use pml_token::token::Token;
use serde_json::{Value, json};
use source_lines::position::between;
use std::alloc::{AllocError, Global};
use text_parts::{
    ColumnUnit, PartialCall, TextPart, call_around, definition, heading, parameters, units,
};

/// The name that is called.
fn name_in<'t>(page: Page<'t>, call: PartialCall) -> &'t [u8]
    ensures { result.now ≡ name_in page.entry call }
{
    between(page.text, call.at, end_of(page, call.at, call.length))
}

/// A part of a text.
fn text_in<'t>(page: Page<'t>, part: TextPart) -> &'t str
    ensures { result.now ≡ text_in page.entry part }
{
    text_shown(between(page.text, part.from, part.to))
}

/// How many units of UTF-16 stand between two places.
fn units_to(page: Page<'_>, from: usize, to: usize) -> usize
    ensures { result ≡ units_to page.entry from to }
{
    units(ColumnUnit::Utf16, between(page.text, from, to))
}

/// A parameter, by where it stands in a heading.
fn parameter(
    alloc: Global,
    page: Page<'_>,
    heading: TextPart,
    part: TextPart,
) -> Result<Value, AllocError>
    ensures { IfOk result (λ v. view v ≡ parameter_of page.entry heading part) }
{
    let start = units_to(page, heading.from, part.from);
    let end = units_to(page, heading.from, part.to);
    json!(in alloc; {"label": [start, end]})
}

/// The parameters of a heading.
fn listed(
    alloc: Global,
    page: Page<'_>,
    heading: TextPart,
    parts: &[TextPart],
) -> Result<Vec<Value>, AllocError>
    ensures { IfOk result (λ list. map view list.items ≡ map (parameter_of page.entry heading) parts.now) }
{
    let mut list = Vec::new(alloc);
    for part in parts {
        list.push(parameter(alloc, page, heading, *part)?)?;
    }
    Ok(list)
}

/// A heading with its parameters.
fn described(
    alloc: Global,
    page: Page<'_>,
    heading: TextPart,
    parts: &[TextPart],
) -> Result<Value, AllocError>
    ensures { IfOk result (λ v. view v ≡ signature_of page.entry parts.now heading) }
{
    let label = text_in(page, heading);
    let parameters = Value::Array(listed(alloc, page, heading, parts)?);
    json!(in alloc; {"label": label, "parameters": parameters})
}

/// A heading with its parameters, of which one is being written.
fn help(
    alloc: Global,
    page: Page<'_>,
    heading: TextPart,
    parts: &[TextPart],
    number: usize,
) -> Result<Value, AllocError>
    ensures { IfOk result (λ v. view v ≡ help_of page.entry number parts.now heading) }
{
    let signature = described(alloc, page, heading, parts)?;
    json!(in alloc; {"signatures": [signature], "activeSignature": 0, "activeParameter": number})
}

/// What is told of the definition that begins these tokens: nothing, if it has no heading.
fn help_by(
    alloc: Global,
    page: Page<'_>,
    number: usize,
    tokens: &[Token<'_>],
) -> Result<Value, AllocError>
    ensures { IfOk result (λ v. view v ≡ help_by page.entry number tokens.now) }
{
    match heading(tokens) {
        Some(heading) => {
            let parts = parameters(alloc, tokens)?;
            help(alloc, page, heading, &parts, number)
        }
        None => Ok(Value::Null),
    }
}

/// What is told of a call.
fn of_call(alloc: Global, page: Page<'_>, call: PartialCall) -> Result<Value, AllocError>
    ensures { IfOk result (λ v. IsOfCall page.entry call (view v)) }
{
    let tokens = match placed(alloc, page.text) {
        Ok(tokens) => tokens,
        Err(LexError::Memory) => return Err(AllocError),
        Err(_) => return Ok(Value::Null),
    };
    let definition = definition(&tokens, name_in(page, call), call);
    help_by(alloc, page, call.commas, definition)
}

/// What the proctype or inline takes among whose arguments a place stands: nothing elsewhere, and nothing where there is no such definition.
pub fn signature(alloc: Global, page: Page<'_>, offset: usize) -> Result<Value, AllocError>
    ensures { IfOk result (λ v. IsHelp page.entry offset (view v)) }
{
    let tokens = match placed(alloc, between(page.text, 0, offset)) {
        Ok(tokens) => tokens,
        Err(LexError::Memory) => return Err(AllocError),
        Err(_) => return Ok(Value::Null),
    };
    match call_around(&tokens) {
        Some(call) => of_call(alloc, page, call),
        None => Ok(Value::Null),
    }
}
