//! What is answered to one who asks what is called at a place.

ghost use Rattle.std.specs.Prelude.{IfOk};
ghost use Rattle.serde_json.specs.View.{view};
ghost use Rattle.lsp_answers.specs.Signatures.{IsSigned};

use crate::completions::offset_asked;
use crate::replies::RequestFault;
use lsp_results::page::Page;
use lsp_results::signatures::signature;
use serde_json::Value;
use std::alloc::{AllocError, Global};

/// What the proctype or inline takes that is called there.
pub fn signed(
    alloc: Global,
    page: Page<'_>,
    message: &Value,
) -> Result<Result<Value, RequestFault>, AllocError>
    ensures { IfOk result (λ r. IfOk r (λ v. IsSigned page.entry (view message.now) (view v))) }
{
    match offset_asked(page, message) {
        Some(offset) => Ok(Ok(signature(alloc, page, offset)?)),
        None => Ok(Err(RequestFault::NoPlace)),
    }
}
