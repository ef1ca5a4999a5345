//! The tokens of a text that are coloured.

ghost use Rattle.std.specs.Prelude.{◌≡◌, IfOk};
ghost use Rattle.lsp_results.specs.Colours.{is_word, sort_of, is_within, coloured_in};

use crate::cells::cell_at;
use pml_token::token::{Kind, Token};
use std::alloc::{AllocError, Global};
use text_parts::Coloured;

/// A part of a text, from one byte up to another.
#[derive(Clone, Copy, Debug, PartialEq, Eq)]
pub struct AskedPart {
    pub from: usize,
    pub to: usize,
}

/// Whether a token begins as a word does.
fn is_word(text: &[u8]) -> bool
    ensures { result ≡ is_word text.now }
{
    match text {
        [first, ..] => b'a' <= *first && *first <= b'z',
        [] => false,
    }
}

/// The number of what a token is, from 1; 0 for a sign, and for a name that is declared nowhere.
fn sort_of(cells: &[usize], token: &Token<'_>) -> usize
    ensures { result ≡ sort_of cells.now token.now }
{
    match token.kind() {
        Kind::Name => cell_at(cells, token.line() as usize),
        Kind::Number => 10,
        Kind::Quoted => 11,
        _ => { if is_word(token.text()) { 9 } else { 0 } }
    }
}

fn is_within(part: AskedPart, token: &Token<'_>) -> bool
    ensures { result ≡ is_within part token.now }
{
    let at = token.line() as usize;
    part.from <= at && at < part.to
}

/// The tokens that are coloured, among those that begin in a part of the text.
pub fn coloured(
    alloc: Global,
    cells: &[usize],
    part: AskedPart,
    tokens: &[Token<'_>],
) -> Result<Vec<Coloured>, AllocError>
    ensures { IfOk result (λ cs. cs.items ≡ coloured_in cells.now part tokens.now) }
{
    let mut out = Vec::new(alloc);
    for token in tokens {
        let sort = sort_of(cells, token);
        if is_within(part, token) && 0 < sort {
            out.push(Coloured {
                at: token.line() as usize,
                length: token.text().len(),
                sort: sort - 1,
            })?;
        }
    }
    Ok(out)
}
