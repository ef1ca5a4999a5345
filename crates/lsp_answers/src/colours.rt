//! What is answered of the colours of a text.

ghost use Rattle.std.specs.Prelude.{◌≡◌, IfOk};
ghost use Rattle.serde_json.specs.View.{view};
ghost use Rattle.lsp_answers.specs.Colours.{extent_of, whole, place_at, part_within, part_in, part_of, AreTold};

use crate::replies::RequestFault;
use lsp_results::asked::place_in;
use lsp_results::colours::AskedPart;
use lsp_results::page::Page;
use lsp_results::tokens::tokens_of;
use serde_json::Value;
use std::alloc::{AllocError, Global};
use text_parts::{EditorPlace, offset_of};

/// How much of a text a client asks of.
#[derive(Clone, Copy, Debug, PartialEq, Eq)]
pub enum AskedExtent {
    Whole,
    Range,
}

impl AskedExtent {
    /// How much a method asks of, if it asks for colours.
    pub fn of(method: &str) -> Option<AskedExtent>
        ensures { result ≡ extent_of method.now }
    {
        match method {
            "textDocument/semanticTokens/full" => Some(AskedExtent::Whole),
            "textDocument/semanticTokens/range" => Some(AskedExtent::Range),
            _ => None,
        }
    }
}

/// The whole of a text.
fn whole(page: Page<'_>) -> AskedPart
    ensures { result ≡ whole page.entry }
{
    AskedPart {
        from: 0,
        to: page.text.len(),
    }
}

/// The place of this name in an object.
fn place_at(value: &Value, name: &str) -> Option<EditorPlace>
    ensures { result ≡ place_at name.now (view value.now) }
{
    match value.get(name) {
        Some(place) => place_in(place),
        None => None,
    }
}

/// The part of a text between two places that an object names.
fn part_within(page: Page<'_>, range: &Value) -> Option<AskedPart>
    ensures { result ≡ part_within page.entry (view range.now) }
{
    match (place_at(range, "start"), place_at(range, "end")) {
        (Some(start), Some(end)) => Some(AskedPart {
            from: offset_of(page.text, start, page.unit),
            to: offset_of(page.text, end, page.unit),
        }),
        _ => None,
    }
}

/// The part of a text that a request names.
pub fn part_in(page: Page<'_>, parameters: &Value) -> Option<AskedPart>
    ensures { result ≡ part_in page.entry (view parameters.now) }
{
    match parameters.get("range") {
        Some(range) => part_within(page, range),
        None => None,
    }
}

/// The part of a text that a request asks of.
fn part_of(page: Page<'_>, extent: AskedExtent, message: &Value) -> Option<AskedPart>
    ensures { result ≡ part_of extent page.entry (view message.now) }
{
    match extent {
        AskedExtent::Whole => Some(whole(page)),
        AskedExtent::Range => match message.get("params") {
            Some(parameters) => part_in(page, parameters),
            None => None,
        },
    }
}

/// What is answered to one who asks for the colours of a text.
pub fn colours(
    alloc: Global,
    page: Page<'_>,
    extent: AskedExtent,
    message: &Value,
) -> Result<Result<Value, RequestFault>, AllocError>
    ensures { IfOk result (λ r. IfOk r (λ v. AreTold extent page.entry (view message.now) (view v))) }
{
    let Some(part) = part_of(page, extent, message) else {
        return Ok(Err(RequestFault::NoPlace));
    };
    match tokens_of(alloc, page, part)? {
        Some(told) => Ok(Ok(told)),
        None => Ok(Ok(Value::Null)),
    }
}
