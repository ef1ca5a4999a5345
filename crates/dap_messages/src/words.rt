//! Bytes that were written, as text.

use std::alloc::{AllocError, Global};
use view_text::writer::Writer;

fn mended(byte: u8) -> char {
    if byte < 128 {
        char::from(byte)
    } else {
        '\u{fffd}'
    }
}

/// Bytes as text: what is no UTF-8 has U+FFFD in the place of each byte above 127.
pub fn text_of(alloc: Global, bytes: &[u8]) -> Result<String, AllocError> {
    if let Ok(text) = str::from_utf8(bytes) {
        return String::from_str(alloc, text);
    }
    let mut text = String::new(alloc);
    for byte in bytes {
        text.push(mended(*byte))?;
    }
    Ok(text)
}

/// What was written as text, unless memory was refused for it.
pub fn words_of(out: &Writer) -> Result<String, AllocError> {
    if out.is_refused() {
        return Err(AllocError);
    }
    text_of(out.allocator(), out.bytes())
}
