//! What is wrong with a text, as an editor shows it.

ghost use Rattle.std.specs.Prelude.{◌≡◌, max, IfOk};
ghost use Rattle.serde_json.specs.View.{view};
ghost use Rattle.source_lines.specs.Places.{shown_offset};
ghost use Rattle.lsp_results.specs.Places.{range_of};

use crate::documents::Document;
use itoa::Buffer;
use lsp_results::page::{Page, range};
use model_verdicts::{Verdict, verdicts_of};
use serde_json::{Value, json};
use source_lines::position::shown_offset;
use std::alloc::{AllocError, Global};
use text_parts::ColumnUnit;

/// A part of a text of one byte at least.
fn part(alloc: Global, page: Page<'_>, offset: usize, length: usize) -> Result<Value, AllocError>
    ensures { IfOk result (λ v. view v ≡ range_of page.entry (max length 1) (shown_offset page.entry.text.now offset)) }
{
    range(alloc, page, shown_offset(page.text, offset), length.max(1))
}

/// The refusal's own words and what is said behind them.
fn message(alloc: Global, verdict: &Verdict) -> Result<String, AllocError> {
    let mut words = String::new(alloc);
    if let Ok(own) = str::from_utf8(diagnostic_words::of_refusal(verdict.refusal)) {
        words.push_str(own)?;
    }
    words.push_str(verdict.words.as_str())?;
    Ok(words)
}

/// The refusal's number, as `M7`.
fn code(alloc: Global, verdict: &Verdict) -> Result<String, AllocError> {
    let mut digits = Buffer::new();
    let mut code = String::from_str(alloc, "M")?;
    code.push_str(digits.format(verdict.refusal.number()))?;
    Ok(code)
}

fn diagnostic(alloc: Global, page: Page<'_>, verdict: &Verdict) -> Result<Value, AllocError> {
    let range = match verdict.place {
        Some(place) => part(alloc, page, place.offset, place.length)?,
        None => part(alloc, page, 0, 1)?,
    };
    let code = code(alloc, verdict)?;
    let words = message(alloc, verdict)?;
    json!(in alloc; {"range": range, "severity": 1, "code": code, "source": "spinplay", "message": words})
}

/// All that is told of what is wrong with a text.
fn diagnostics(alloc: Global, page: Page<'_>) -> Result<Value, AllocError> {
    let verdicts = verdicts_of(alloc, page.text)?;
    let mut list = Vec::new(alloc);
    for verdict in &verdicts {
        list.push(diagnostic(alloc, page, verdict)?)?;
    }
    Ok(Value::Array(list))
}

fn published(
    alloc: Global,
    uri: &str,
    version: Option<i64>,
    list: &Value,
) -> Result<Value, AllocError> {
    let parameters = match version {
        Some(version) => json!(in alloc; {"uri": uri, "version": version, "diagnostics": list})?,
        None => json!(in alloc; {"uri": uri, "diagnostics": list})?,
    };
    json!(in alloc; {"jsonrpc": "2.0", "method": "textDocument/publishDiagnostics", "params": parameters})
}

/// The notification of what is wrong with a text.
pub fn told_of(alloc: Global, unit: ColumnUnit, document: &Document) -> Result<Value, AllocError> {
    let list = diagnostics(alloc, document.page(unit))?;
    published(alloc, document.uri.as_str(), document.version, &list)
}

/// The notification that nothing is told any more of a text.
pub fn told_nothing(alloc: Global, uri: &str) -> Result<Value, AllocError> {
    let list = json!(in alloc; [])?;
    published(alloc, uri, None, &list)
}
