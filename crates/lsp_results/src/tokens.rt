//! Coloured tokens as values of JSON.

ghost use Rattle.std.specs.Prelude.{◌≡◌, IfOk, IfSome};
ghost use Rattle.serde_json.specs.View.{view};
ghost use Rattle.lsp_results.specs.Tokens.{numbers_of, told_of, AreColours};

use crate::cells::cells_by;
use crate::colours::{AskedPart, coloured};
use crate::page::Page;
use explain_tokens::placed;
use model_names::{TextNames, names_of};
use pml_lex::fault::LexError;
use pml_token::token::Token;
use serde_json::{Number, Value, json};
use std::alloc::{AllocError, Global};
use text_parts::coded;

/// What the numbers mean, for an editor.
pub fn legend(alloc: Global) -> Result<Value, AllocError> {
    json!(in alloc; {
        "tokenTypes": ["variable", "property", "enumMember", "type", "function", "macro", "parameter", "label", "keyword", "number", "string"],
        "tokenModifiers": [],
    })
}

/// Numbers as a list.
fn listed(alloc: Global, numbers: &[usize]) -> Result<Value, AllocError>
    ensures { IfOk result (λ v. view v ≡ numbers_of numbers.now) }
{
    let mut list = Vec::new(alloc);
    for number in numbers {
        list.push(Value::Number(Number::from(*number)))?;
    }
    Ok(Value::Array(list))
}

/// The numbers of the coloured tokens among those that begin in a part of the text.
fn told(
    alloc: Global,
    page: Page<'_>,
    names: &Option<TextNames>,
    part: AskedPart,
    tokens: &[Token<'_>],
) -> Result<Value, AllocError>
    ensures { IfOk result (λ v. view v ≡ told_of page.entry names.now part tokens.now) }
{
    let cells = cells_by(alloc, page.text.len(), names)?;
    let parts = coloured(alloc, &cells, part, tokens)?;
    let numbers = coded(alloc, page.unit, page.text, &parts)?;
    let data = listed(alloc, &numbers)?;
    json!(in alloc; {"data": data})
}

/// What the tokens are that begin in a part of a text, which an editor colours; nothing of a text that cannot be cut into tokens.
pub fn tokens_of(
    alloc: Global,
    page: Page<'_>,
    part: AskedPart,
) -> Result<Option<Value>, AllocError>
    ensures { IfOk result (λ o. IfSome o (λ v. AreColours page.entry part (view v))) }
{
    let tokens = match placed(alloc, page.text) {
        Ok(tokens) => tokens,
        Err(LexError::Memory) => return Err(AllocError),
        Err(_) => return Ok(None),
    };
    let names = names_of(alloc, page.text)?;
    Ok(Some(told(alloc, page, &names, part, &tokens)?))
}
