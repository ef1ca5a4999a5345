//! The parts of a model that an editor folds, as values of JSON (LSP 3.17, folding ranges).

ghost use Rattle.std.specs.Prelude.{◌≡◌, map, filter, IfOk, IfSome};
ghost use Rattle.serde_json.specs.Data.{array};
ghost use Rattle.serde_json.specs.View.{view, items_of};
ghost use Rattle.lsp_results.specs.Lines.{lines_of, is_long, told_of, AreFolds};

use crate::page::Page;
use explain_tokens::placed;
use pml_lex::fault::LexError;
use serde_json::{Value, json};
use std::alloc::{AllocError, Global};
use text_parts::{Fold, folds_of, place_of};

/// The lines of a part, from 0: that of what opens it, and that of what closes it.
#[derive(Clone, Copy, Debug, PartialEq, Eq)]
pub struct FoldedLines {
    pub start: usize,
    pub end: usize,
}

fn lines_of(page: Page<'_>, fold: Fold) -> FoldedLines
    ensures { result ≡ lines_of page.entry fold }
{
    FoldedLines {
        start: place_of(page.text, fold.from, page.unit).line,
        end: place_of(page.text, fold.to, page.unit).line,
    }
}

/// Whether a line stands between them.
fn is_long(lines: FoldedLines) -> bool
    ensures { result ≡ is_long lines }
{
    lines.start < lines.end && 1 < lines.end - lines.start
}

/// A part that is folded up to the line before what closes it.
fn told(alloc: Global, lines: FoldedLines) -> Result<Value, AllocError>
    ensures { IfOk result (λ v. view v ≡ told_of lines) }
{
    let start = lines.start;
    let end = lines.end.saturating_sub(1);
    json!(in alloc; {"startLine": start, "endLine": end})
}

/// The parts between which a line stands.
fn listed(alloc: Global, page: Page<'_>, folds: &[Fold]) -> Result<Value, AllocError>
    ensures { IfOk result (λ v. view v ≡ array (items_of (map told_of (filter is_long (map (lines_of page.entry) folds.now))))) }
{
    let mut list = Vec::new(alloc);
    for fold in folds {
        let lines = lines_of(page, *fold);
        if is_long(lines) {
            list.push(told(alloc, lines)?)?;
        }
    }
    Ok(Value::Array(list))
}

/// The parts of a text that an editor folds; nothing of a text that cannot be cut into tokens.
pub fn folding(alloc: Global, page: Page<'_>) -> Result<Option<Value>, AllocError>
    ensures { IfOk result (λ o. IfSome o (λ v. AreFolds page.entry (view v))) }
{
    let tokens = match placed(alloc, page.text) {
        Ok(tokens) => tokens,
        Err(LexError::Memory) => return Err(AllocError),
        Err(_) => return Ok(None),
    };
    let folds = folds_of(alloc, &tokens)?;
    Ok(Some(listed(alloc, page, &folds)?))
}
