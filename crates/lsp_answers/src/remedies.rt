//! What is answered to one who asks what mends a text.

ghost use Rattle.std.specs.Prelude.{◌≡◌, IfOk};
ghost use Rattle.serde_json.specs.View.{view};
ghost use Rattle.lsp_answers.specs.Remedies.{part_asked, AreRemedies};

use crate::colours::part_in;
use crate::replies::RequestFault;
use lsp_results::actions::actions;
use lsp_results::colours::AskedPart;
use lsp_results::page::Page;
use serde_json::Value;
use std::alloc::{AllocError, Global};

/// The part of a text that a request names.
fn part_asked(page: Page<'_>, message: &Value) -> Option<AskedPart>
    ensures { result ≡ part_asked page.entry (view message.now) }
{
    match message.get("params") {
        Some(parameters) => part_in(page, parameters),
        None => None,
    }
}

/// What mends a refusal that touches that part.
pub fn remedies(
    alloc: Global,
    page: Page<'_>,
    message: &Value,
) -> Result<Result<Value, RequestFault>, AllocError>
    ensures { IfOk result (λ r. IfOk r (λ v. AreRemedies page.entry (view message.now) (view v))) }
{
    let Some(AskedPart { from, to }) = part_asked(page, message) else {
        return Ok(Err(RequestFault::NoPlace));
    };
    let part = model_verdicts::SelectedPart { from, to };
    Ok(Ok(actions(alloc, page, part)?))
}
