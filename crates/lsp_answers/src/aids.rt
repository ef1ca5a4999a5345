//! What is answered to one who reads or writes a text, beside what is asked of its names.

ghost use Rattle.std.specs.Prelude.{◌≡◌, IfOk, option_map};
ghost use Rattle.serde_json.specs.View.{view};
ghost use Rattle.lsp_answers.specs.Colours.{extent_of};
ghost use Rattle.lsp_answers.specs.Aids.{aid_of, coloured_by, IsAid};

use crate::colours::{AskedExtent, colours};
use crate::completions::completed;
use crate::folds::folds;
use crate::remedies::remedies;
use crate::replies::RequestFault;
use crate::signatures::signed;
use lsp_results::page::Page;
use serde_json::Value;
use std::alloc::{AllocError, Global};

/// What helps one to read or write a text.
#[derive(Clone, Copy, Debug, PartialEq, Eq)]
pub enum Aid {
    /// What each token is.
    Colours(AskedExtent),
    /// The parts that are folded.
    Folds,
    /// What may be typed at a place.
    Completion,
    /// What is called at a place.
    Signature,
    /// What mends a refusal.
    Remedies,
}

/// Colours, if they are asked of a part of a text.
fn coloured_by(extent: Option<AskedExtent>) -> Option<Aid>
    ensures { result ≡ coloured_by extent }
{
    match extent {
        Some(extent) => Some(Aid::Colours(extent)),
        None => None,
    }
}

impl Aid {
    /// What a method asks for, if it is one of these.
    pub fn of(method: &str) -> Option<Aid>
        ensures { result ≡ aid_of method.now }
    {
        match method {
            "textDocument/foldingRange" => Some(Aid::Folds),
            "textDocument/completion" => Some(Aid::Completion),
            "textDocument/signatureHelp" => Some(Aid::Signature),
            "textDocument/codeAction" => Some(Aid::Remedies),
            _ => coloured_by(AskedExtent::of(method)),
        }
    }
}

/// What is answered to one who asks for that.
pub fn aided(
    alloc: Global,
    page: Page<'_>,
    aid: Aid,
    message: &Value,
) -> Result<Result<Value, RequestFault>, AllocError>
    ensures { IfOk result (λ r. IfOk r (λ v. IsAid aid page.entry (view message.now) (view v))) }
{
    match aid {
        Aid::Colours(extent) => colours(alloc, page, extent, message),
        Aid::Folds => Ok(Ok(folds(alloc, page)?)),
        Aid::Completion => completed(alloc, page, message),
        Aid::Signature => signed(alloc, page, message),
        Aid::Remedies => remedies(alloc, page, message),
    }
}
