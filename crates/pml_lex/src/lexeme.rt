//! The lexeme that stands at the front of a text.

ghost use Rattle.std.specs.Prelude.{◌≡◌, ◌<◌, ◌≤◌, ◌+◌, length, drop, false, IfSome};
ghost use Rattle.std.specs.List.{prefix_len};
ghost use Rattle.profile.specs.Characters.{is_digit};
ghost use Rattle.promela_text.specs.Tokens as lexemes;
ghost use Rattle.pml_lex.specs.Scanning as scanning;

use crate::words::{sign_of_one, sign_of_two, word_kind};
use pml_token::token::Kind;
use promela_text::lexeme::{Class, Lexeme};

/// Whether a byte is a blank: a space, or one from the tab to the carriage return.
pub fn is_blank(b: u8) -> bool
    ensures { result ≡ lexemes.is_blank b }
{
    b == b' ' || (b'\t' <= b && b <= b'\r')
}

pub(crate) fn is_digit(b: u8) -> bool
    ensures { result ≡ is_digit b }
{
    b'0' <= b && b <= b'9'
}

fn is_letter(b: u8) -> bool
    ensures { result ≡ lexemes.is_letter b }
{
    (b'a' <= b && b <= b'z') || ((b'A' <= b && b <= b'Z') || b == b'_')
}

fn is_name_byte(b: u8) -> bool
    ensures { result ≡ lexemes.is_name_byte b }
{
    is_letter(b) || is_digit(b)
}

fn is_in_line(b: u8) -> bool
    ensures { result ≡ lexemes.is_in_line b }
{
    b != b'\n'
}

fn is_space(b: u8) -> bool
    ensures { result ≡ lexemes.is_space b }
{
    b == b' ' || b == b'\t'
}

fn class_of(b: u8) -> Class
    ensures { result ≡ lexemes.class_of b }
{
    if is_blank(b) {
        Class::Blank
    } else if is_letter(b) {
        Class::Letter
    } else if is_digit(b) {
        Class::Digit
    } else if b == b'"' {
        Class::Quote
    } else if b == b'/' {
        Class::Slash
    } else if b == b'#' {
        Class::Hash
    } else {
        Class::Other
    }
}

fn name_bytes(text: &[u8]) -> usize
    ensures value { result ≡ prefix_len lexemes.is_name_byte text.now }
    ensures within { result ≤ length text.now }
{
    let mut end = 0;
    while end < text.len() && is_name_byte(text[end]) {
        end += 1;
    }
    end
}

/// How many digits a text begins with.
pub fn digits(text: &[u8]) -> usize
    ensures value { result ≡ prefix_len is_digit text.now }
    ensures within { result ≤ length text.now }
{
    let mut end = 0;
    while end < text.len() && is_digit(text[end]) {
        end += 1;
    }
    end
}

/// How many bytes stand before the first line feed.
pub fn line_bytes(text: &[u8]) -> usize
    ensures value { result ≡ prefix_len lexemes.is_in_line text.now }
    ensures within { result ≤ length text.now }
{
    let mut end = 0;
    while end < text.len() && is_in_line(text[end]) {
        end += 1;
    }
    end
}

/// How many spaces and tabs a text begins with.
pub fn spaces(text: &[u8]) -> usize
    ensures value { result ≡ prefix_len lexemes.is_space text.now }
    ensures within { result ≤ length text.now }
{
    let mut end = 0;
    while end < text.len() && is_space(text[end]) {
        end += 1;
    }
    end
}

fn leads_to_digit(text: &[u8]) -> bool
    ensures { result ≡ lexemes.leads_to_digit text.now }
{
    match &text[spaces(text)..] {
        [] => false,
        [first, ..] => is_digit(*first),
    }
}

fn is_line_mark(text: &[u8]) -> bool
    ensures { result ≡ lexemes.is_line_mark text.now }
{
    leads_to_digit(text) || (text.starts_with(b"line") && leads_to_digit(&text[4..]))
}

/// The place behind the first `*/`, in a text from place `from` on.
fn comment_end(from: usize, text: &[u8]) -> Option<usize>
    requires { from ≤ length text.now }
    ensures value { result ≡ scanning.comment_end from (drop from text.now) }
    ensures within { IfSome result (λ n. n ≤ length text.now) }
{
    let mut end = from;
    while end + 1 < text.len() {
        if text[end] == b'*' && text[end + 1] == b'/' {
            return Some(end + 2);
        }
        end += 1;
    }
    None
}

/// The place behind the closing quote, in a text from place `from` on.
fn quote_end(from: usize, text: &[u8]) -> Option<usize>
    requires { from ≤ length text.now }
    ensures value { result ≡ scanning.quote_end from false (drop from text.now) }
    ensures within { IfSome result (λ n. n ≤ length text.now) }
{
    let mut end = from;
    let mut escaped = false;
    while end < text.len() {
        let b = text[end];
        if b == b'\n' {
            return None;
        }
        end += 1;
        if escaped {
            escaped = false;
        } else if b == b'"' {
            return Some(end);
        } else {
            escaped = b == b'\\';
        }
    }
    None
}

fn slash(text: &[u8]) -> Option<(usize, Lexeme)>
    requires { 0 < length text.now }
    ensures value { result ≡ scanning.slash (drop 1 text.now) }
    ensures within { IfSome result (λ x. x.0 ≤ length text.now) }
{
    match text {
        [_, b'*', ..] => Some((comment_end(2, text)?, Lexeme::Skipped)),
        [_, b'/', rest @ ..] => Some((2 + line_bytes(rest), Lexeme::Skipped)),
        _ => Some((1, Lexeme::Token(Kind::Slash))),
    }
}

fn sign(first: u8, rest: &[u8]) -> Option<(usize, Lexeme)>
    ensures value { result ≡ scanning.sign first rest.now }
    ensures within { IfSome result (λ x. x.0 ≤ 1 + length rest.now) }
{
    if let [second, ..] = rest {
        if let Some(kind) = sign_of_two(first, *second) {
            return Some((2, Lexeme::Token(kind)));
        }
    }
    let kind = sign_of_one(first)?;
    Some((1, Lexeme::Token(kind)))
}

fn hash(fresh: bool, rest: &[u8]) -> Option<(usize, Lexeme)>
    ensures value { result ≡ scanning.hash fresh rest.now }
    ensures within { IfSome result (λ x. x.0 ≤ 1 + length rest.now) }
{
    if !fresh {
        return None;
    }
    let end = line_bytes(rest);
    let lexeme = if is_line_mark(&rest[..end]) {
        Lexeme::Skipped
    } else {
        Lexeme::Token(Kind::LeftOut)
    };
    Some((1 + end, lexeme))
}

/// The longest lexeme at the front of a text. `fresh`: its line has only blanks before it.
#[tactic(auto, unfolding(crate::specs::Scanning::next))]
pub fn next(fresh: bool, text: &[u8]) -> Option<(usize, Lexeme)>
    ensures value { result ≡ scanning.next fresh text.now }
    ensures within { IfSome result (λ x. x.0 ≤ length text.now) }
{
    let [first, rest @ ..] = text else {
        return None;
    };
    match class_of(*first) {
        Class::Blank => Some((1, Lexeme::Skipped)),
        Class::Letter => {
            let length = 1 + name_bytes(rest);
            Some((length, Lexeme::Token(word_kind(&text[..length]))))
        }
        Class::Digit => Some((1 + digits(rest), Lexeme::Token(Kind::Number))),
        Class::Quote => Some((quote_end(1, text)?, Lexeme::Token(Kind::Quoted))),
        Class::Slash => slash(text),
        Class::Hash => hash(fresh, rest),
        Class::Other => sign(*first, rest),
    }
}
