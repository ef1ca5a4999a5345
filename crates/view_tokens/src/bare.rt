//! Bytes that stand in a string of JSON as they are.

ghost use Rattle.std.specs.Prelude.{◌≡◌, slice_get};
ghost use Rattle.std.specs.List.{list_all};
ghost use Rattle.view_tokens.specs.Printing.{is_bare, may_begin};

// Whether a byte stands there as it is, and is a character.
fn is_bare(byte: u8) -> bool
    ensures { result ≡ is_bare byte }
{
    b' ' <= byte && byte <= b'~' && byte != b'"' && byte != b'\\'
}

// Whether all bytes do. No byte ends the loop, so a machine asks many at once.
pub(crate) fn are_bare(bytes: &[u8]) -> bool
    ensures { result ≡ list_all is_bare bytes.now }
{
    let mut are = true;
    for byte in bytes {
        are = are & is_bare(*byte);
    }
    are
}

// Whether a comma stands before a text of tokens that is behind a value: there is none before the end of an object or of an array.
pub(crate) fn begins(text: &[u8]) -> bool
    ensures { result ≡ may_begin (slice_get text.now 0) }
{
    match text.get(0) {
        Some(byte) => *byte != b'}' && *byte != b']',
        None => false,
    }
}
