//! The statement that is being typed: what is left of a text without it may be read where the whole may not.

ghost use Rattle.std.specs.Prelude.{◌≡◌, IfOk};
ghost use Rattle.offered_names.specs.Gaps.{parts, gap_start, gap_end, mended};

use pml_token::token::{Kind, Token, same_kind};
use std::alloc::{AllocError, Global};

/// Whether a statement may begin behind this token, or ends before it.
fn parts(kind: Kind) -> bool
    ensures { result ≡ parts kind }
{
    same_kind(kind, Kind::Semicolon)
        || same_kind(kind, Kind::Arrow)
        || same_kind(kind, Kind::OpenBrace)
        || same_kind(kind, Kind::CloseBrace)
        || same_kind(kind, Kind::DoubleColon)
        || same_kind(kind, Kind::Od)
        || same_kind(kind, Kind::Fi)
}

/// How many bytes stand before the statement that is typed behind these tokens.
pub fn gap_start(tokens: &[Token<'_>]) -> usize
    ensures { result ≡ gap_start 0 tokens.now }
{
    let mut start = 0usize;
    for token in tokens {
        if parts(token.kind()) {
            start = token.line() as usize + token.text().len();
        }
    }
    start
}

/// How many bytes of the statement stand before the rest of a text, of which these are the tokens, and how many bytes it has.
pub fn gap_end(length: usize, tokens: &[Token<'_>]) -> usize
    ensures { result ≡ gap_end length tokens.now }
{
    for token in tokens {
        if parts(token.kind()) {
            return token.line() as usize;
        }
    }
    length
}

/// The text in which `skip` stands in place of what lies between two places.
pub fn mended(alloc: Global, text: &[u8], from: usize, to: usize) -> Result<Vec<u8>, AllocError>
    ensures { IfOk result (λ t. t.items ≡ mended text.now from to) }
{
    let front = if from < text.len() {
        &text[..from]
    } else {
        text
    };
    let back = if to < text.len() {
        &text[to..]
    } else {
        &text[..0]
    };
    let mut out = Vec::new(alloc);
    out.extend_from_slice(front)?;
    out.extend_from_slice(b" skip ")?;
    out.extend_from_slice(back)?;
    Ok(out)
}
