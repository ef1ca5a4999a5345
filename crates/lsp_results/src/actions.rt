//! What mends a refused text, as an edit that an editor offers (LSP 3.17, code actions).

ghost use Rattle.std.specs.Prelude.{◌≡◌, ◌++◌, IfOk, string_bytes};
ghost use Rattle.serde_json.specs.View.{view};
ghost use Rattle.serde_json.specs.Data.{array, item, no_items};
ghost use Rattle.lsp_results.specs.Actions.{written_at, title_of, edit_of, edits_of, action_of, AreActions};

use crate::page::{Page, range};
use crate::symbols::text_shown;
use model_verdicts::{ExchangedPart, SelectedPart, remedy_at, words_of};
use serde_json::{Value, json};
use std::alloc::{AllocError, Global};

/// What is written in place of a part of a text.
fn written_at<'t>(page: Page<'t>, exchange: ExchangedPart) -> &'t str
    ensures { result.now ≡ written_at page.entry exchange }
{
    text_shown(words_of(page.text, exchange.words))
}

/// What an exchange does, in words.
fn title(alloc: Global, words: &str) -> Result<String, AllocError>
    ensures { IfOk result (λ t. string_bytes t ≡ title_of words.now) }
{
    if words.is_empty() {
        return String::from_str(alloc, "leave it out");
    }
    let mut title = String::from_str(alloc, "write `")?;
    title.push_str(words)?;
    title.push_str("`")?;
    Ok(title)
}

/// The edit of an exchange.
fn edit(alloc: Global, page: Page<'_>, exchange: ExchangedPart) -> Result<Value, AllocError>
    ensures { IfOk result (λ v. view v ≡ edit_of page.entry exchange) }
{
    let words = written_at(page, exchange);
    let range = range(alloc, page, exchange.at, exchange.length)?;
    json!(in alloc; {"range": range, "newText": words})
}

/// The edits of an exchange, by the name of the text.
fn edits(alloc: Global, page: Page<'_>, exchange: ExchangedPart) -> Result<Value, AllocError>
    ensures { IfOk result (λ v. view v ≡ edits_of page.entry exchange) }
{
    let uri = page.uri;
    let edit = edit(alloc, page, exchange)?;
    json!(in alloc; {"changes": {(uri): [edit]}})
}

/// An exchange, as an edit that is offered.
fn action(alloc: Global, page: Page<'_>, exchange: ExchangedPart) -> Result<Value, AllocError>
    ensures { IfOk result (λ v. view v ≡ action_of page.entry exchange) }
{
    let title = title(alloc, written_at(page, exchange))?;
    let edit = edits(alloc, page, exchange)?;
    json!(in alloc; {"title": title, "kind": "quickfix", "isPreferred": true, "edit": edit})
}

/// The list of one edit that is offered.
fn only(alloc: Global, page: Page<'_>, exchange: ExchangedPart) -> Result<Value, AllocError>
    ensures { IfOk result (λ v. view v ≡ array (item (action_of page.entry exchange) no_items)) }
{
    let action = action(alloc, page, exchange)?;
    json!(in alloc; [action])
}

/// The list of none.
fn none(alloc: Global) -> Result<Value, AllocError>
    ensures { IfOk result (λ v. view v ≡ array no_items) }
{
    json!(in alloc; [])
}

/// What mends the first refusal that touches a part of a text, if something does.
pub fn actions(alloc: Global, page: Page<'_>, part: SelectedPart) -> Result<Value, AllocError>
    ensures { IfOk result (λ v. AreActions page.entry (view v)) }
{
    match remedy_at(alloc, page.text, part)? {
        Some(exchange) => only(alloc, page, exchange),
        None => none(alloc),
    }
}
