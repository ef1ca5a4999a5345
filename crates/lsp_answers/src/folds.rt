//! What is answered of the parts of a text that an editor folds.

ghost use Rattle.std.specs.Prelude.{IfOk};
ghost use Rattle.serde_json.specs.View.{view};
ghost use Rattle.lsp_answers.specs.Aids.{IsFolded};

use lsp_results::folds::folding;
use lsp_results::page::Page;
use serde_json::Value;
use std::alloc::{AllocError, Global};

/// The parts of a text that are folded; of one that cannot be cut into tokens nothing.
pub fn folds(alloc: Global, page: Page<'_>) -> Result<Value, AllocError>
    ensures { IfOk result (λ v. IsFolded page.entry (view v)) }
{
    match folding(alloc, page)? {
        Some(told) => Ok(told),
        None => Ok(Value::Null),
    }
}
