//! What is answered to one who asks what may be typed at a place.

ghost use Rattle.std.specs.Prelude.{◌≡◌, IfOk};
ghost use Rattle.serde_json.specs.View.{view};
ghost use Rattle.lsp_answers.specs.Completions.{offset_asked, IsCompleted};

use crate::answers::offset_in;
use crate::replies::RequestFault;
use lsp_completions::completion;
use lsp_results::page::Page;
use serde_json::Value;
use std::alloc::{AllocError, Global};

/// The place that a request names.
pub fn offset_asked(page: Page<'_>, message: &Value) -> Option<usize>
    ensures { result ≡ offset_asked page.entry (view message.now) }
{
    match message.get("params") {
        Some(parameters) => offset_in(page, parameters),
        None => None,
    }
}

/// What may be typed there.
pub fn completed(
    alloc: Global,
    page: Page<'_>,
    message: &Value,
) -> Result<Result<Value, RequestFault>, AllocError>
    ensures { IfOk result (λ r. IfOk r (λ v. IsCompleted page.entry (view message.now) (view v))) }
{
    match offset_asked(page, message) {
        Some(offset) => Ok(Ok(completion(alloc, page, offset)?)),
        None => Ok(Err(RequestFault::NoPlace)),
    }
}
