//! A text without a body.

ghost use Rattle.std.specs.Prelude.{◌≡◌, take, drop, IfOk, option_map};
ghost use Rattle.text_parts.specs.Rest.{inner, blanked, rest_by, IsRest};

use crate::bodies::{ProcessBody, body_at};
use crate::written::{shown_in, write};
use explain_tokens::placed;
use pml_lex::fault::LexError;
use source_lines::position::between;
use std::alloc::{AllocError, Global};

/// The bytes between the brace that opens a body and what stands behind it.
fn inner(text: &[u8], body: ProcessBody) -> &[u8]
    ensures { result.now ≡ inner text.now body }
{
    between(text, body.brace as usize + 1, body.end)
}

/// So many bytes from the front.
fn front(text: &[u8], count: usize) -> &[u8]
    ensures { result.now ≡ take count text.now }
{
    if count < text.len() {
        &text[..count]
    } else {
        text
    }
}

/// The bytes behind so many others.
fn behind(text: &[u8], count: usize) -> &[u8]
    ensures { result.now ≡ drop count text.now }
{
    if count < text.len() {
        &text[count..]
    } else {
        &text[..0]
    }
}

/// The text with `1}` in place of what stands behind the brace of a body, and else blanks.
fn blanked(alloc: Global, text: &[u8], body: ProcessBody) -> Result<Vec<u8>, AllocError>
    ensures { IfOk result (λ t. t.items ≡ blanked text.now body) }
{
    let mut out = Vec::new(alloc);
    out.extend_from_slice(front(text, body.brace as usize + 1))?;
    write(&mut out, b"1}", inner(text, body))?;
    out.extend_from_slice(behind(text, body.end))?;
    Ok(out)
}

/// The text without a body, if there is one in which more is written than would be then.
fn rest_by(
    alloc: Global,
    text: &[u8],
    body: Option<ProcessBody>,
) -> Result<Option<Vec<u8>>, AllocError>
    ensures { IfOk result (λ o. option_map (λ t. t.items) o ≡ rest_by text.now body) }
{
    match body {
        Some(body) if 2 < shown_in(inner(text, body)) => Ok(Some(blanked(alloc, text, body)?)),
        _ => Ok(None),
    }
}

/// The text without the body in which a place lies: it has a body of one statement that can always be taken, and all else stands where it stood. Nothing, if
/// the place lies in no body, if that body is such a one already, or if the text cannot be cut into tokens.
pub fn rest_of(alloc: Global, text: &[u8], offset: usize) -> Result<Option<Vec<u8>>, AllocError>
    ensures { IfOk result (λ o. IsRest text.now offset (option_map (λ t. t.items) o)) }
{
    let tokens = match placed(alloc, text) {
        Ok(tokens) => tokens,
        Err(LexError::Memory) => return Err(AllocError),
        Err(_) => return Ok(None),
    };
    rest_by(alloc, text, body_at(&tokens, text.len(), offset))
}
