//! Texts in which nothing is for a preprocessor.

ghost use Rattle.std.specs.Prelude.{◌≡◌};
ghost use Rattle.pml_directives.specs.Plain.{is_plain as plain, is_number_next as number_next, ends_line};

/// Whether blanks and then a digit stand at the front.
fn is_number_next(text: &[u8]) -> bool
    ensures { result ≡ number_next text.now }
{
    let mut rest = text;
    while let [b, others @ ..] = rest {
        if *b == b' ' {
            rest = others;
        } else {
            return b'0' <= *b && *b <= b'9';
        }
    }
    false
}

/// Whether a line ends here.
fn is_end(text: &[u8]) -> bool
    ensures { result ≡ ends_line text.now }
{
    match text {
        [b'\n', ..] => true,
        [b'\r', b'\n', ..] => true,
        _ => false,
    }
}

/// Whether a text has no `\` at the end of a line, no `__`, and a `#` only where its line is the mark of one: `#`, blanks and a number.
pub fn is_plain(text: &[u8]) -> bool
    ensures { result ≡ plain text.now }
{
    let mut last = b'\n';
    let mut rest = text;
    while let [b, others @ ..] = rest {
        if (*b == b'\\' && is_end(others)) || (*b == b'_' && last == b'_') {
            return false;
        }
        if *b == b'#' && !(last == b'\n' && is_number_next(others)) {
            return false;
        }
        last = *b;
        rest = others;
    }
    true
}
