//! Statements that are the same but for names of an mtype: Spin gives a number of one subtype the name of another, or writes the number.

ghost use Rattle.std.specs.Prelude.{◌≡◌, ◌++◌};
ghost use Rattle.trail_text.specs.Parts.{is_number};
ghost use Rattle.trail_text.specs.Loose.{is_mtype, stands_for};

use crate::spelled::word_size;
use pml_token::token::Token;

fn is_number(word: &[u8]) -> bool
    ensures { result ≡ is_number word.now }
{
    match word {
        [first, ..] => *first >= b'0' && *first <= b'9',
        [] => false,
    }
}

fn is_mtype(names: &[Token<'_>], word: &[u8]) -> bool
    ensures { result ≡ is_mtype names.now word.now }
{
    names.iter().any(|name| name.text() == word)
}

// Whether one may stand for the other: a name for a name, or for a number.
fn stands_for(names: &[Token<'_>], one: &[u8], other: &[u8]) -> bool
    ensures { result ≡ stands_for names.now one.now other.now }
{
    let first = is_mtype(names, one);
    let second = is_mtype(names, other);
    (first && (second || is_number(other))) || (second && is_number(one))
}

// The word or sign that stands first, and what stands behind it.
fn cut(text: &[u8]) -> (&[u8], &[u8])
    ensures { text.now ≡ result.0.now ++ result.1.now }
{
    let size = word_size(text).max(1).min(text.len());
    (&text[..size], &text[size..])
}

/// Whether two spelled statements are the same but for names of an mtype, of which these are all.
pub fn is_like(names: &[Token<'_>], one: &[u8], other: &[u8]) -> bool {
    let mut one = one;
    let mut other = other;
    for _ in 0..one.len() {
        if one.is_empty() || other.is_empty() {
            break;
        }
        let (first, behind) = cut(one);
        let (second, rest) = cut(other);
        if first != second && !stands_for(names, first, second) {
            return false;
        }
        one = behind;
        other = rest;
    }
    one.is_empty() && other.is_empty()
}
