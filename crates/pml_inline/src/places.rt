//! Tokens by their places in a text.

ghost use Rattle.std.specs.Prelude.{◌≡◌, ◌<◌, IfOk, IfSome, length};
ghost use Rattle.pml_inline.specs.Places.{word_at, words_of, places_from};
ghost use Rattle.promela_text.specs.Inlines as brackets;

use pml_token::token::{Kind, Token, same_kind};
use std::alloc::{AllocError, Global};

/// The places of a text, in order.
pub(crate) fn places(alloc: Global, count: usize) -> Result<Vec<usize>, AllocError>
    ensures { IfOk result (λ v. v.items ≡ places_from 0 count) }
{
    let mut places = Vec::with_capacity(alloc, count)?;
    for place in 0..count {
        places.push(place)?;
    }
    Ok(places)
}

/// The token at a place.
pub(crate) fn token_at<'t>(tokens: &[Token<'t>], place: usize) -> Token<'t>
    ensures { result ≡ word_at tokens.now place }
{
    if place < tokens.len() {
        tokens[place].copied()
    } else {
        Token::new(Kind::End, b"", 0)
    }
}

/// Its kind.
pub(crate) fn kind_at(tokens: &[Token<'_>], place: usize) -> Kind
    ensures { result ≡ (word_at tokens.now place).kind }
{
    if place < tokens.len() {
        tokens[place].kind()
    } else {
        Kind::End
    }
}

/// Its text.
pub(crate) fn text_at<'t>(tokens: &[Token<'t>], place: usize) -> &'t [u8]
    ensures { result.now ≡ (word_at tokens.now place).text }
{
    if place < tokens.len() {
        tokens[place].text()
    } else {
        b""
    }
}

/// Whether a token is the word `inline`.
#[tactic(auto, unfolding(promela_text::specs::Inlines::is_inline))]
pub(crate) fn is_inline(token: &Token<'_>) -> bool
    ensures { result ≡ brackets.is_inline token.now }
{
    same_kind(token.kind(), Kind::Inline)
}

/// Whether the word `inline` is among tokens.
pub(crate) fn has_inline(tokens: &[Token<'_>]) -> bool
    ensures { result ≡ brackets.has_inline tokens.now }
{
    for token in tokens {
        if is_inline(token) {
            return true;
        }
    }
    false
}

/// How many tokens stand before the one that closes a bracket which was opened before them.
pub(crate) fn closing(
    tokens: &[Token<'_>],
    places: &[usize],
    opener: Kind,
    closer: Kind,
) -> Option<usize>
    ensures value { result ≡ brackets.closing opener closer (words_of tokens.now places.now) 0 }
    ensures within { IfSome result (λ n. n < length places.now) }
{
    let mut open = 0usize;
    let mut at = 0;
    while at < places.len() {
        let kind = kind_at(tokens, places[at]);
        if same_kind(kind, closer) {
            if open == 0 {
                return Some(at);
            }
            open -= 1;
        } else if same_kind(kind, opener) {
            open += 1;
        }
        at += 1;
    }
    None
}
