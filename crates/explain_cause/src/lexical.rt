//! Texts without tokens, words that are left out, and texts that are too deep.

ghost use Rattle.std.specs.Prelude.{◌≡◌, ◌≤◌, ◌+◌, length, drop, true, option_map, None, IfSome};
ghost use Rattle.explain_cause.specs.Places as places;
ghost use Rattle.explain_cause.specs.Texts as texts;

use crate::cause::{Finding, Named, Reason, Segment, TextCause};
use crate::place::{at_place, at_token, closes, is_at, named, opens};
use pml_token::token::{Kind, Token, same_kind};
use std::str;

/// Of a text that is too long.
pub fn too_long(text: &[u8]) -> Finding<'_>
    ensures place { result.place ≡ None }
    ensures cause { texts.is_text result.cause ≡ true }
{
    Finding {
        place: None,
        cause: Reason::Text(TextCause::TooLong(text.len())),
    }
}

/// Of a byte that begins no token.
fn stray(rest: &[u8], first: u8) -> TextCause<'_> {
    let length = shown_length(rest);
    if first >= 128 && length > 1 && length <= rest.len() {
        TextCause::Sign(&rest[..length])
    } else {
        TextCause::Stray(first)
    }
}

fn stray_at(rest: &[u8]) -> TextCause<'_> {
    match rest {
        [b'"', ..] => TextCause::OpenString,
        [b'/', ..] => TextCause::OpenComment,
        [b'\\', b'/', ..] => TextCause::Slashes,
        [b'$', next, ..] if next.is_ascii_alphabetic() => TextCause::Dollar,
        [first, ..] => stray(rest, *first),
        [] => TextCause::OpenComment,
    }
}

/// What a byte stands within.
#[derive(Clone, Copy)]
enum Within {
    Code,
    /// A string.
    Text,
    /// A comment to the end of its line.
    Line,
    /// The beginning of a comment to its `*/`, which the next byte does not end.
    Opening,
    /// Such a comment.
    Block,
    /// What a `'` opens, behind so many bytes.
    Quote(usize),
}

/// What stands behind a byte of code, which stands behind another one at a place.
fn behind_code(before: u8, byte: u8, at: usize) -> Within
    ensures { result ≡ texts.behind_code before byte at }
{
    match byte {
        b'"' => Within::Text,
        b'\'' => Within::Quote(at),
        b'/' if before == b'/' => Within::Line,
        b'*' if before == b'/' => Within::Opening,
        _ => Within::Code,
    }
}

/// What stands behind a byte at a place.
fn behind(within: Within, before: u8, byte: u8, at: usize) -> Within
    ensures { result ≡ texts.behind within before byte at }
{
    let ends = match within {
        Within::Code => return behind_code(before, byte, at),
        Within::Opening => return Within::Block,
        Within::Text => byte == b'\n' || (byte == b'"' && before != b'\\'),
        Within::Line => byte == b'\n',
        Within::Block => before == b'*' && byte == b'/',
        Within::Quote(_) => byte == b'\'' || byte == b'\n',
    };
    if ends { Within::Code } else { within }
}

/// Where the `'` stands that opens what is open on its line at a place, if one does.
fn open_quote(text: &[u8], offset: usize) -> Option<usize> {
    let mut within = Within::Code;
    let mut before = b' ';
    for (i, byte) in text.iter().enumerate() {
        if i < offset {
            within = behind(within, before, *byte, i);
            before = *byte;
        }
    }
    match within {
        Within::Quote(at) => Some(at),
        _ => None,
    }
}

/// The byte in front of a place, or a blank where there is none.
fn byte_before(text: &[u8], offset: usize) -> u8
    ensures { result ≡ places.byte_before text.now offset }
{
    match offset.checked_sub(1) {
        Some(before) => match text.get(before) {
            Some(byte) => *byte,
            None => b' ',
        },
        None => b' ',
    }
}

/// The text from a place on.
fn rest_of(text: &[u8], offset: usize) -> &[u8]
    ensures { result.now ≡ drop offset text.now }
{
    if offset <= text.len() {
        &text[offset..]
    } else {
        &text[..0]
    }
}

/// Whether a character in quotes stands there.
fn is_character(rest: &[u8]) -> bool {
    matches!(rest, [_, b'\\', _, b'\'', ..] | [_, _, b'\'', ..])
}

/// Whether a `'` stands on the line behind its first byte.
fn has_quote(rest: &[u8]) -> bool {
    for (i, byte) in rest.iter().enumerate() {
        if *byte == b'\n' {
            return false;
        }
        if *byte == b'\'' && i > 0 {
            return true;
        }
    }
    false
}

/// What a `'` at a place is meant for.
fn quote_at<'t>(text: &'t [u8], token: &Token<'t>) -> TextCause<'t> {
    let offset = token.line() as usize;
    let rest = rest_of(text, offset);
    let before = byte_before(text, offset);
    if before == b'_' || before.is_ascii_alphanumeric() {
        TextCause::Prime
    } else if !is_character(rest) && has_quote(rest) {
        TextCause::Quote
    } else {
        TextCause::LeftOut(token.text())
    }
}

/// What is told of a token that is left out.
fn about_left_out<'t>(text: &'t [u8], token: &Token<'t>) -> TextCause<'t> {
    if token.text() == b"'".as_slice() {
        quote_at(text, token)
    } else {
        TextCause::LeftOut(token.text())
    }
}

/// Whether a text begins with so many bytes that are UTF-8.
fn begins_with_character(rest: &[u8], count: usize) -> bool
    ensures { result ≡ true → count ≤ length rest.now }
{
    count <= rest.len() && str::from_utf8(&rest[..count]).is_ok()
}

/// How many bytes of a text that cannot be cut are shown: one character, or what begins a comment.
fn shown_length(rest: &[u8]) -> usize
    ensures least { 1 ≤ result }
    ensures most { result ≤ 4 }
{
    if let [b'/', _, ..] = rest {
        return 2;
    }
    for length in 1..5 {
        if begins_with_character(rest, length) {
            return length;
        }
    }
    1
}

/// Of a text that cannot be cut behind so many bytes.
pub fn uncut(text: &[u8], offset: usize) -> Finding<'_>
    ensures { texts.is_text result.cause ≡ true }
{
    if offset > text.len() {
        return crate::place::untold();
    }
    if let Some(open) = open_quote(text, offset) {
        let place = Segment {
            offset: open,
            length: 1,
        };
        return at_place(place, Reason::Text(TextCause::Quote));
    }
    let rest = &text[offset..];
    let place = Segment {
        offset,
        length: shown_length(rest),
    };
    if is_conjunction(text, offset) {
        return at_place(place, Reason::Text(TextCause::Slashes));
    }
    at_place(place, Reason::Text(stray_at(rest)))
}

/// Whether the `\` of a `/\` stands there.
fn is_conjunction(text: &[u8], offset: usize) -> bool {
    byte_before(text, offset) == b'/' && matches!(rest_of(text, offset), [b'\\', ..])
}

/// The first token that is left out.
pub fn left_out<'t>(text: &'t [u8], tokens: &[Token<'t>]) -> Option<Finding<'t>>
    ensures place { texts.place_of result ≡ places.left_out tokens.now }
    ensures cause { IfSome result (λ found. texts.is_text found.cause ≡ true) }
{
    for token in tokens {
        if same_kind(token.kind(), Kind::LeftOut) {
            return Some(at_token(token, Reason::Text(about_left_out(text, token))));
        }
    }
    None
}

/// The name in front of the `(` that stands at `at`, if one does.
fn called_at(tokens: &[Token<'_>], at: usize) -> Option<usize>
    ensures { IfSome result (λ name. name + 1 ≡ at) }
{
    let before = at.checked_sub(1)?;
    if is_at(tokens, at, Kind::OpenParen) && is_at(tokens, before, Kind::Name) {
        Some(before)
    } else {
        None
    }
}

/// Whether the name at `at` is that of a proctype or of an inline.
fn is_defined(tokens: &[Token<'_>], at: usize) -> bool
    ensures { result ≡ texts.is_defined tokens.now at }
{
    match at.checked_sub(1) {
        Some(before) => {
            is_at(tokens, before, Kind::Proctype) || is_at(tokens, before, Kind::Inline)
        }
        None => false,
    }
}

/// The name with parentheses that stands last before the outermost brace that is open at `end`.
fn head_before(tokens: &[Token<'_>], end: usize) -> Option<usize> {
    let mut depth = 0usize;
    let mut last = None;
    let mut head = None;
    for (i, token) in tokens.iter().enumerate() {
        if i >= end {
            return head;
        }
        if depth == 0 {
            last = called_at(tokens, i).or(last);
        }
        if opens(token.kind()) {
            if depth == 0 && matches!(token.kind(), Kind::OpenBrace) {
                head = last;
                last = None;
            }
            depth = depth.saturating_add(1);
        } else if closes(token.kind()) {
            depth = depth.saturating_sub(1);
        }
    }
    head
}

/// The name of what is written as a function, within which the first `return` stands.
fn function_of<'t>(text: &'t [u8], tokens: &[Token<'t>], at: usize) -> Option<Named<'t>> {
    let head = head_before(tokens, at)?;
    if is_defined(tokens, head) {
        return None;
    }
    Some(named(text, tokens.get(head)?))
}

/// The first token that is left out, if it is a `return` in what is written as a function.
pub fn returned<'t>(text: &'t [u8], tokens: &[Token<'t>]) -> Option<Finding<'t>>
    ensures { IfSome result (λ found. found.place ≡ places.left_out tokens.now) }
{
    for (i, token) in tokens.iter().enumerate() {
        if same_kind(token.kind(), Kind::LeftOut) {
            if token.text() != b"return".as_slice() {
                return None;
            }
            let cause = TextCause::ReturnOf(function_of(text, tokens, i)?);
            return Some(at_token(token, Reason::Text(cause)));
        }
    }
    None
}

/// Of tokens that pass this limit at the token with so many bytes before it.
pub fn too_deep<'t>(tokens: &[Token<'t>], offset: u32, limit: TextCause<'t>) -> Finding<'t>
    ensures { texts.is_text result.cause ≡ true }
{
    for token in tokens {
        if token.line() == offset {
            return at_token(token, Reason::Text(limit));
        }
    }
    Finding {
        place: None,
        cause: Reason::Text(limit),
    }
}
