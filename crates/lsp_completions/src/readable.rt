//! A text whose names are known: the text itself, or the text without the statement that is being typed.

ghost use Rattle.std.specs.Prelude.{◌≡◌, IfOk, IfSome};
ghost use Rattle.lsp_completions.specs.Readables.{IsLengthBehind, IsOf, IsReadable};

use explain_tokens::placed;
use model_names::{TextNames, names_of};
use offered_names::{gap_end, gap_start, mended};
use pml_lex::fault::LexError;
use pml_token::token::Token;
use source_lines::position::between;
use std::alloc::{AllocError, Global};

/// A text whose names are known, and a place in it.
#[derive(Drop)]
pub struct Readable {
    pub text: Vec<u8>,
    pub names: TextNames,
    pub offset: usize,
}

/// How many bytes of the statement that is being typed stand behind a place, of what stands there: all, if it cannot be cut into tokens.
fn length_behind(alloc: Global, rest: &[u8]) -> Result<usize, AllocError>
    ensures { IfOk result (IsLengthBehind rest.now) }
{
    match placed(alloc, rest) {
        Ok(tokens) => Ok(gap_end(rest.len(), &tokens)),
        Err(LexError::Memory) => Err(AllocError),
        Err(_) => Ok(rest.len()),
    }
}

/// A text with its names, if it has some.
fn with_names(alloc: Global, text: Vec<u8>, offset: usize) -> Result<Option<Readable>, AllocError>
    ensures { IfOk result (λ o. IfSome o (IsOf text.items offset)) }
{
    match names_of(alloc, &text)? {
        Some(names) => Ok(Some(Readable {
            text,
            names,
            offset,
        })),
        None => Ok(None),
    }
}

/// The text with `skip` in place of the statement that is being typed at a place, behind these tokens, if its names are known then.
fn without_statement(
    alloc: Global,
    text: &[u8],
    tokens: &[Token<'_>],
    offset: usize,
) -> Result<Option<Readable>, AllocError>
    ensures { IfOk result (λ o. IfSome o (IsReadable text.now tokens.now offset)) }
{
    let from = gap_start(tokens);
    let behind = length_behind(alloc, between(text, offset, text.len()))?;
    let text = mended(alloc, text, from, offset.saturating_add(behind))?;
    with_names(alloc, text, from)
}

/// The text itself, if its names are known, and else the text without the statement that is being typed at a place, behind these tokens.
pub fn readable_at(
    alloc: Global,
    text: &[u8],
    tokens: &[Token<'_>],
    offset: usize,
) -> Result<Option<Readable>, AllocError>
    ensures { IfOk result (λ o. IfSome o (IsReadable text.now tokens.now offset)) }
{
    let whole = Vec::from_slice(alloc, text)?;
    match with_names(alloc, whole, offset)? {
        Some(found) => Ok(Some(found)),
        None => without_statement(alloc, text, tokens, offset),
    }
}
