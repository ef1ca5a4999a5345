//! What is answered of the names of a text.

ghost use Rattle.std.specs.Prelude.{◌≡◌, IfOk};
ghost use Rattle.serde_json.specs.Data.{null};
ghost use Rattle.serde_json.specs.View.{view};
ghost use Rattle.model_names.specs.Told.{AreMeant};
ghost use Rattle.lsp_results.specs.Renames.{IsRename};
ghost use Rattle.lsp_answers.specs.Questions.{offset_in, has_declaration, IsTold, IsToldAt, IsToldOf, IsAnswerOn};

use crate::documents::Document;
use crate::questions::Question;
use crate::replies::RequestFault;
use lsp_results::asked::{place_in, text_in};
use lsp_results::hover::hover;
use lsp_results::page::Page;
use lsp_results::places::{definition, highlights, references};
use lsp_results::renames::{rename, target};
use lsp_results::symbols::symbols;
use model_names::TextNames;
use model_verdicts::renaming::NoRenaming;
use serde_json::Value;
use std::alloc::{AllocError, Global};
use text_parts::{ColumnUnit, offset_of};

/// The place of a text that a request asks of.
pub fn offset_in(page: Page<'_>, parameters: &Value) -> Option<usize>
    ensures { result ≡ offset_in page.entry (view parameters.now) }
{
    let Some(position) = parameters.get("position") else {
        return None;
    };
    match place_in(position) {
        Some(place) => Some(offset_of(page.text, place, page.unit)),
        None => None,
    }
}

/// Whether a request asks of a declaration too.
fn has_declaration(parameters: &Value) -> bool
    ensures { result ≡ has_declaration (view parameters.now) }
{
    let Some(context) = parameters.get("context") else {
        return true;
    };
    match context.get("includeDeclaration").and_then(Value::as_bool) {
        Some(has_declaration) => has_declaration,
        None => true,
    }
}

/// What is answered of the name at a place, but for another name of it.
fn told(
    alloc: Global,
    page: Page<'_>,
    names: &TextNames,
    question: Question,
    offset: usize,
    parameters: &Value,
) -> Result<Value, AllocError>
    ensures { IfOk result (λ v. IsTold question page.entry names.now (view parameters.now) offset (view v)) }
{
    match question {
        Question::Definition => definition(alloc, page, names, offset),
        Question::References => {
            let has_declaration = has_declaration(parameters);
            references(alloc, page, names, offset, has_declaration)
        }
        Question::Highlights => highlights(alloc, page, names, offset),
        Question::Hover => hover(alloc, page, names, offset),
        Question::Target => target(alloc, page, names, offset),
        Question::Symbols | Question::Rename => Ok(Value::Null),
    }
}

fn renamed(
    alloc: Global,
    page: Page<'_>,
    names: &TextNames,
    offset: usize,
    name: &str,
) -> Result<Result<Value, RequestFault>, AllocError>
    requires { AreMeant page.text.now names.now.meant.items }
    ensures { IfOk result (λ r. IfOk r (λ v. IsRename page.entry name.now (view v))) }
{
    match rename(alloc, page, names, offset, name)? {
        Ok(edits) => Ok(Ok(edits)),
        Err(why) => Ok(Err(RequestFault::NoRenaming(why))),
    }
}

/// What is answered to a question on a place.
fn told_at(
    alloc: Global,
    page: Page<'_>,
    names: &TextNames,
    question: Question,
    parameters: &Value,
) -> Result<Result<Value, RequestFault>, AllocError>
    requires { AreMeant page.text.now names.now.meant.items }
    ensures { IfOk result (λ r. IfOk r (λ v. IsToldAt question page.entry names.now (view parameters.now) (view v))) }
{
    let Some(offset) = offset_in(page, parameters) else {
        return Ok(Err(RequestFault::NoPlace));
    };
    match question {
        Question::Rename => renamed(alloc, page, names, offset, text_in(parameters, "newName")),
        _ => Ok(Ok(told(alloc, page, names, question, offset, parameters)?)),
    }
}

/// What is answered to a question on a text with these names.
fn told_of(
    alloc: Global,
    page: Page<'_>,
    names: &TextNames,
    question: Question,
    parameters: &Value,
) -> Result<Result<Value, RequestFault>, AllocError>
    requires { AreMeant page.text.now names.now.meant.items }
    ensures { IfOk result (λ r. IfOk r (λ v. IsToldOf question page.entry names.now (view parameters.now) (view v))) }
{
    match question {
        Question::Symbols => Ok(Ok(symbols(alloc, page, names)?)),
        _ => told_at(alloc, page, names, question, parameters),
    }
}

/// What is answered to a question on a text whose tokens spell no tree.
fn without_names(question: Question) -> Result<Value, RequestFault>
    ensures { IfOk result (λ v. view v ≡ null) }
{
    match question {
        Question::Rename => Err(RequestFault::NoRenaming(NoRenaming::NoModel)),
        _ => Ok(Value::Null),
    }
}

/// What is answered to a question on a text that is open, by its names, if they were read.
pub fn answer(
    alloc: Global,
    document: &Document,
    unit: ColumnUnit,
    question: Question,
    message: &Value,
) -> Result<Result<Value, RequestFault>, AllocError>
    ensures { IfOk result (λ r. IfOk r (λ v. IsAnswerOn question document.now unit (view message.now) (view v))) }
{
    let Some(parameters) = message.get("params") else {
        return Ok(Err(RequestFault::NoPlace));
    };
    let page = document.page(unit);
    match document.known.names() {
        Some(names) => told_of(alloc, page, names, question, parameters),
        None => Ok(without_names(question)),
    }
}
