//! Tokens of a definition of an inline.

ghost use Rattle.std.specs.Prelude.{◌≡◌, ◌+◌, ◌<◌, ◌≤◌, ◌^◌, take, drop};
ghost use Rattle.promela_text.specs.Inlines.{braces_behind, is_name};
ghost use Rattle.model_names.specs.Inlines.{count_before, body_length, parameters_of, body_of};

use pml_token::token::{Kind, Token, same_kind};

/// Whether a token is a name.
pub fn is_name(token: &Token<'_>) -> bool
    ensures { result ≡ is_name token.now }
{
    same_kind(token.kind(), Kind::Name)
}

/// So many tokens from the front.
fn front<'s, 'a>(tokens: &'s [Token<'a>], count: usize) -> &'s [Token<'a>]
    ensures { result.now ≡ take count tokens.now }
{
    if count < tokens.len() {
        &tokens[..count]
    } else {
        tokens
    }
}

/// How many tokens stand before the first of a kind.
fn count_before(tokens: &[Token<'_>], kind: Kind) -> usize
    ensures { result ≡ count_before kind tokens.now }
{
    for (i, token) in tokens.iter().enumerate() {
        if same_kind(token.kind(), kind) {
            return i;
        }
    }
    tokens.len()
}

/// The number of open braces behind a token.
fn braces_behind(depth: usize, token: &Token<'_>) -> usize
    ensures is { depth + 1 < 2 ^ 64 → result ≡ braces_behind depth token.now }
    ensures within { result ≤ depth + 1 }
{
    if same_kind(token.kind(), Kind::OpenBrace) {
        depth.saturating_add(1)
    } else if same_kind(token.kind(), Kind::CloseBrace) {
        depth.saturating_sub(1)
    } else {
        depth
    }
}

/// How many tokens a body has before the brace that closes it.
fn body_length(tokens: &[Token<'_>]) -> usize
    ensures { result ≡ body_length 0 tokens.now }
{
    let mut depth = 0usize;
    for (i, token) in tokens.iter().enumerate() {
        depth = braces_behind(depth, token);
        if depth == 0 {
            return i;
        }
    }
    tokens.len()
}

/// The tokens between the parentheses of a definition, of those behind its `(`.
pub fn parameters_of<'s, 'a>(tokens: &'s [Token<'a>]) -> &'s [Token<'a>]
    ensures { result.now ≡ parameters_of tokens.now }
{
    front(tokens, count_before(tokens, Kind::CloseParen))
}

/// The tokens of a body, of those from its brace on.
pub fn body_of<'s, 'a>(tokens: &'s [Token<'a>]) -> &'s [Token<'a>]
    ensures { result.now ≡ body_of tokens.now }
{
    front(tokens, body_length(tokens))
}

/// The tokens behind so many others.
pub fn behind<'s, 'a>(tokens: &'s [Token<'a>], count: usize) -> &'s [Token<'a>]
    ensures { result.now ≡ drop count tokens.now }
{
    if count < tokens.len() {
        &tokens[count..]
    } else {
        &tokens[..0]
    }
}
