//! The tokens of a text with their places.

ghost use Rattle.std.specs.Prelude.{◌≡◌, ◌≤◌, ◌<◌, ◌+◌, length, IfOk, IfErr};
ghost use Rattle.promela_text.specs.Tokens.{fresh_from};
ghost use Rattle.explain_tokens.specs.Placed.{ArePlaced, IsUnplaced};

use pml_lex::fault::LexError;
use pml_lex::lexeme::{is_blank, next};
use pml_token::token::Token;
use profile::MOST_TEXT_BYTES;
use promela_text::lexeme::Lexeme;
use std::alloc::Global;

/// Whether the line that a text ends in has only blanks, where `fresh` says the same of what stands before it.
fn fresh_behind(fresh: bool, text: &[u8]) -> bool
    ensures { result ≡ fresh_from fresh text.now }
{
    let mut so_far = fresh;
    for b in text {
        so_far = *b == b'\n' || (so_far && is_blank(*b));
    }
    so_far
}

/// The tokens of a text, what is left out among them, each with its place in place of its line: how many bytes of the text stand before it.
/// A text that cannot be cut answers the place where nothing can stand.
pub fn placed<'t>(alloc: Global, text: &'t [u8]) -> Result<Vec<Token<'t>>, LexError>
    ensures ok { IfOk result (λ v. ArePlaced text.now v.items) }
    ensures err { IfErr result (λ f. IsUnplaced text.now f) }
{
    if text.len() > MOST_TEXT_BYTES {
        return Err(LexError::TooLong);
    }
    let mut tokens = Vec::new(alloc);
    let mut rest = text;
    let mut place = 0u32;
    let mut fresh = true;
    while !rest.is_empty() {
        let Some((length, lexeme)) = next(fresh, rest) else {
            return Err(LexError::Lexical(place));
        };
        let (front, back) = rest.split_at(length);
        let behind = place + length as u32;
        match lexeme {
            Lexeme::Token(kind) => {
                tokens.push(Token::new(kind, front, place))?;
                fresh = false;
            }
            Lexeme::Skipped => {
                fresh = fresh_behind(fresh, front);
            }
        }
        place = behind;
        rest = back;
    }
    Ok(tokens)
}
