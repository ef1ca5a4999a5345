//! Bytes as they are shown.

ghost use Rattle.std.specs.Prelude.{◌≡◌, IfOk, string_bytes};
ghost use Rattle.prepared.specs.Shown as as_shown;

use source_lines::shown::show_chars;
use std::alloc::{AllocError, Global};

// Of a token at most so many bytes are shown.
const MOST_SHOWN: usize = 40;

// A byte that a terminal shows, or `?`.
fn printable(b: u8) -> char
    ensures { result ≡ as_shown.printable b }
{
    if b >= b' ' && b < 127 {
        char::from(b)
    } else {
        '?'
    }
}

/// The beginning of a token, as far as it can be shown.
pub fn shown(alloc: Global, token: &[u8]) -> Result<String, AllocError> {
    let mut text = String::new(alloc);
    for b in token.iter().take(MOST_SHOWN) {
        if *b == b'\n' {
            return Ok(text);
        }
        text.push(printable(*b))?;
    }
    Ok(text)
}

/// A name, with `?` in place of what moves a terminal, and signs that are not seen by their numbers.
pub fn shown_name(alloc: Global, name: &str) -> Result<String, AllocError>
    ensures { IfOk result (λ s. string_bytes s ≡ as_shown.shown_name name.now) }
{
    let mut text = String::new(alloc);
    show_chars(&mut text, name)?;
    Ok(text)
}
