//! Whether a place is one of the tokens of a text.

ghost use Rattle.std.specs.Prelude.{◌≡◌};
ghost use Rattle.std.specs.List.{list_any};
ghost use Rattle.explain_find.specs.Tokens.{is_of, touches, begins, lies, at_first_left_out};

use diagnostics::Refusal;
use explain_cause::cause::Segment;
use pml_token::token::{Kind, Token, same_kind};

/// Whether a place begins where a token does.
pub fn begins(place: Segment, token: &Token<'_>) -> bool
    ensures { result ≡ begins place token.now }
{
    token.line() as usize == place.offset
}

/// Whether a place is that of a token.
pub fn is_of(place: Segment, token: &Token<'_>) -> bool
    ensures { result ≡ is_of place token.now }
{
    token.line() as usize == place.offset && token.text().len() == place.length
}

/// Whether a place begins with a token or within it.
pub fn touches(place: Segment, token: &Token<'_>) -> bool
    ensures { result ≡ touches place token.now }
{
    let start = token.line() as usize;
    start <= place.offset && place.offset < start + token.text().len()
}

/// Whether a place begins with one of some tokens.
pub fn begins_any(place: Segment, tokens: &[Token<'_>]) -> bool
    ensures { result ≡ list_any (begins place) tokens.now }
{
    for token in tokens {
        if begins(place, token) {
            return true;
        }
    }
    false
}

/// Whether a place begins with one of some tokens or within it.
fn touches_any(place: Segment, tokens: &[Token<'_>]) -> bool
    ensures { result ≡ list_any (touches place) tokens.now }
{
    for token in tokens {
        if touches(place, token) {
            return true;
        }
    }
    false
}

/// Whether a place is one that can be told of a refusal of the text with these tokens.
pub fn lies(refusal: Refusal, text: &[u8], tokens: &[Token<'_>], place: Segment) -> bool
    ensures { result ≡ lies refusal text.now tokens.now place }
{
    match refusal {
        Refusal::ArgumentCount => touches_any(place, tokens),
        _ => place.offset == text.len() || begins_any(place, tokens),
    }
}

/// Whether a place is that of the first token that is left out.
pub fn at_first_left_out(place: Segment, tokens: &[Token<'_>]) -> bool
    ensures { result ≡ at_first_left_out tokens.now place }
{
    for token in tokens {
        if same_kind(token.kind(), Kind::LeftOut) {
            return is_of(place, token);
        }
    }
    false
}
