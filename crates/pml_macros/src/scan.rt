//! The lexeme that stands at the front of a text, as a preprocessor cuts it.

ghost use Rattle.std.specs.Prelude.{◌≡◌, ◌≤◌, ◌<◌, false, None, length, IfSome};
ghost use Rattle.pml_macros.specs.Calls as rules;
ghost use Rattle.pml_macros.specs.Cut as cut;

use crate::atom::{AtomSort, same_sort};

/// What a lexeme is.
#[derive(Clone, Copy, Debug, PartialEq, Eq)]
pub enum PreprocessingLexeme {
    /// A blank, or a comment.
    Blank,
    LineFeed,
    Token(AtomSort),
    /// A comment that is not closed, with all that stands behind it.
    Unclosed,
}

/// Whether a byte is a digit.
pub fn is_digit(b: u8) -> bool
    ensures { result ≡ cut.is_digit b }
{
    b'0' <= b && b <= b'9'
}

/// Whether a byte may begin a name.
pub fn is_letter(b: u8) -> bool
    ensures { result ≡ cut.is_letter b }
{
    (b'a' <= b && b <= b'z') || ((b'A' <= b && b <= b'Z') || b == b'_')
}

fn is_blank(b: u8) -> bool
    ensures { result ≡ cut.is_blank b }
{
    b == b' ' || (b'\t' <= b && b <= b'\r')
}

fn is_name_byte(b: u8) -> bool
    ensures { result ≡ cut.is_name_byte b }
{
    is_letter(b) || is_digit(b)
}

/// How many bytes a name goes on.
fn name_bytes(text: &[u8]) -> usize
    ensures { result ≤ length text.now }
{
    let mut end = 0;
    while end < text.len() && is_name_byte(text[end]) {
        end += 1;
    }
    end
}

/// How many bytes a number goes on: digits, letters, and a dot that has no other behind it.
fn number_bytes(text: &[u8]) -> usize
    ensures { result ≤ length text.now }
{
    let mut end = 0;
    while end < text.len() {
        let b = text[end];
        if is_name_byte(b) {
            end += 1;
        } else {
            return end;
        }
    }
    end
}

/// How many bytes stand before the line feed.
fn line_bytes(text: &[u8]) -> usize
    ensures { result ≤ length text.now }
{
    let mut end = 0;
    while end < text.len() && text[end] != b'\n' {
        end += 1;
    }
    end
}

/// The place behind the closing quote, in a text whose first byte is the opening one.
fn quote_end(quote: u8, text: &[u8]) -> Option<usize>
    requires { 0 < length text.now }
    ensures { IfSome result (λ n. (0 < n) × (n ≤ length text.now)) }
{
    let mut end = 1;
    let mut escaped = false;
    while end < text.len() {
        let b = text[end];
        if b == b'\n' {
            return None;
        }
        end += 1;
        if escaped {
            escaped = false;
        } else if b == quote {
            return Some(end);
        } else {
            escaped = b == b'\\';
        }
    }
    None
}

/// The place behind the first `*/`, in a text that begins with `/*`.
fn comment_end(text: &[u8]) -> Option<usize>
    requires { 0 < length text.now }
    ensures { IfSome result (λ n. (0 < n) × (n ≤ length text.now)) }
{
    let mut end = 2;
    while end < text.len() {
        if text[end] == b'/' && end > 2 && text[end - 1] == b'*' {
            return Some(end + 1);
        }
        end += 1;
    }
    None
}

fn quoted(sort: AtomSort, quote: u8, text: &[u8]) -> (usize, PreprocessingLexeme)
    requires { 0 < length text.now }
    ensures { (0 < result.0) × (result.0 ≤ length text.now) }
{
    match quote_end(quote, text) {
        Some(end) => (end, PreprocessingLexeme::Token(sort)),
        None => (
            1 + line_bytes(&text[1..]),
            PreprocessingLexeme::Token(AtomSort::Stray),
        ),
    }
}

fn slash(text: &[u8]) -> (usize, PreprocessingLexeme)
    requires { 0 < length text.now }
    ensures { (0 < result.0) × (result.0 ≤ length text.now) }
{
    match text {
        [_, b'*', ..] => match comment_end(text) {
            Some(end) => (end, PreprocessingLexeme::Blank),
            None => (text.len(), PreprocessingLexeme::Unclosed),
        },
        [_, b'/', rest @ ..] => (2 + line_bytes(rest), PreprocessingLexeme::Blank),
        _ => (1, PreprocessingLexeme::Token(AtomSort::Sign)),
    }
}

/// Whether two bytes are one sign.
fn is_sign_of_two(a: u8, b: u8) -> bool
    ensures { result ≡ cut.is_sign_of_two a b }
{
    if b == b'=' {
        matches!(a, b'=' | b'!' | b'<' | b'>')
    } else if a == b'-' {
        matches!(b, b'>' | b'-')
    } else {
        a == b && is_doubled(a)
    }
}

/// Whether a sign stands twice in one.
fn is_doubled(a: u8) -> bool
    ensures { result ≡ cut.is_doubled a }
{
    match a {
        b':' | b'.' | b'+' | b'<' | b'>' | b'&' | b'|' | b'!' | b'?' => true,
        _ => false,
    }
}

fn sort_of_one(b: u8) -> AtomSort
    ensures { result ≡ cut.sort_of_one b }
{
    if b == b'(' {
        AtomSort::OpenParen
    } else if b == b')' {
        AtomSort::CloseParen
    } else if b == b',' {
        AtomSort::Comma
    } else if b == b'#' {
        AtomSort::Hash
    } else {
        AtomSort::Sign
    }
}

fn sign(text: &[u8]) -> (usize, PreprocessingLexeme)
    requires { 0 < length text.now }
    ensures { (0 < result.0) × (result.0 ≤ length text.now) }
{
    match text {
        [b'#', b'#', ..] => (2, PreprocessingLexeme::Token(AtomSort::HashHash)),
        [first, second, ..] if is_sign_of_two(*first, *second) => (
            2,
            PreprocessingLexeme::Token(AtomSort::Sign),
        ),
        _ => (1, PreprocessingLexeme::Token(sort_of_one(text[0]))),
    }
}

/// The lexeme at the front of a text.
pub fn next(text: &[u8]) -> (usize, PreprocessingLexeme)
    requires { 0 < length text.now }
    ensures { (0 < result.0) × (result.0 ≤ length text.now) }
{
    let first = text[0];
    if first == b'\n' {
        (1, PreprocessingLexeme::LineFeed)
    } else if is_blank(first) {
        (1, PreprocessingLexeme::Blank)
    } else if is_letter(first) {
        (
            name_bytes(text).max(1),
            PreprocessingLexeme::Token(AtomSort::Name),
        )
    } else if is_digit(first) {
        (
            number_bytes(text).max(1),
            PreprocessingLexeme::Token(AtomSort::Number),
        )
    } else if first == b'"' {
        quoted(AtomSort::Quoted, b'"', text)
    } else if first == b'\'' {
        quoted(AtomSort::Character, b'\'', text)
    } else if first == b'/' {
        slash(text)
    } else {
        sign(text)
    }
}

/// What a text is, if it is one token.
pub fn sort_of_whole(text: &[u8]) -> Option<AtomSort>
    ensures empty { length text.now ≡ 0 → result ≡ None }
    ensures one { IfSome result (λ sort. rules.same_sort sort AtomSort.Stray ≡ false) }
{
    if text.is_empty() {
        return None;
    }
    let (length, lexeme) = next(text);
    if length != text.len() {
        return None;
    }
    match lexeme {
        PreprocessingLexeme::Token(sort) if !same_sort(sort, AtomSort::Stray) => Some(sort),
        _ => None,
    }
}
