//! The word that is being typed, and the tokens before it.

ghost use Rattle.std.specs.Prelude.{◌≡◌};
ghost use Rattle.lsp_completions.specs.Fronts.{begins_word, is_typed, typed_in, before_typed};

use pml_token::token::Token;

fn begins_word(text: &[u8]) -> bool
    ensures { result ≡ begins_word text.now }
{
    match text {
        [first, ..] => {
            (b'a' <= *first && *first <= b'z')
                || (b'A' <= *first && *first <= b'Z')
                || *first == b'_'
        }
        [] => false,
    }
}

/// Whether a token is a word, and ends at a place.
fn is_typed(offset: usize, token: &Token<'_>) -> bool
    ensures { result ≡ is_typed offset token.now }
{
    begins_word(token.text()) && token.line() as usize + token.text().len() == offset
}

/// What is typed of a word before a place: the last one of the tokens before it, if it ends there.
pub fn typed_in<'a>(tokens: &[Token<'a>], offset: usize) -> &'a [u8]
    ensures { result.now ≡ typed_in offset tokens.now }
{
    match tokens {
        [.., last] if is_typed(offset, last) => last.text(),
        _ => b"",
    }
}

/// The tokens before that word.
pub fn before_typed<'s, 'a>(tokens: &'s [Token<'a>], offset: usize) -> &'s [Token<'a>]
    ensures { result.now ≡ before_typed offset tokens.now }
{
    match tokens {
        [front @ .., last] if is_typed(offset, last) => front,
        _ => tokens,
    }
}
