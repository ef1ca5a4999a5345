//! Tokens that have their places in place of their lines.

ghost use Rattle.std.specs.Prelude.{◌≡◌, ◌≤◌, ◌+◌, ◌-◌, length, take, drop, Some, None};
ghost use Rattle.pml_token.specs.Word.{same_kind as equal};
ghost use Rattle.explain_cause.specs.Places as specified;

use crate::cause::{Finding, Named, Reason, Segment};
use pml_token::token::{Kind, Token, same_kind};

/// The place of a token.
pub fn place_of(token: &Token<'_>) -> Segment
    ensures offset { result.offset ≡ token.now.line }
    ensures length { result.length ≡ length token.now.text }
{
    Segment {
        offset: token.line() as usize,
        length: token.text().len(),
    }
}

/// The place behind the last byte.
pub fn end_of(text: &[u8]) -> Segment
    ensures { result.offset ≡ length text.now }
{
    Segment {
        offset: text.len(),
        length: 0,
    }
}

/// The bytes at a place, or none where it is not in the text.
pub fn bytes_at(text: &[u8], place: Segment) -> &[u8]
    ensures { place.offset + place.length ≤ length text.now → result.now ≡ take place.length (drop place.offset text.now) }
{
    let end = place.offset.saturating_add(place.length);
    if place.offset <= end && end <= text.len() {
        &text[place.offset..end]
    } else {
        &text[..0]
    }
}

/// The bytes of a token, as they stand in the text.
pub fn bytes_of<'t>(text: &'t [u8], token: &Token<'_>) -> &'t [u8]
    ensures { token.now.line + length token.now.text ≤ length text.now → result.now ≡ take (length token.now.text) (drop token.now.line text.now) }
{
    bytes_at(text, place_of(token))
}

/// A token that is a name, with its place.
pub fn named<'t>(text: &'t [u8], token: &Token<'_>) -> Named<'t>
    ensures { result.offset ≡ token.now.line }
{
    Named {
        name: bytes_of(text, token),
        offset: token.line() as usize,
    }
}

/// What is found at a token.
pub fn at_token<'t>(token: &Token<'_>, cause: Reason<'t>) -> Finding<'t>
    ensures place { result.place ≡ Some (record { offset = token.now.line; length = length token.now.text }) }
    ensures cause { result.cause ≡ cause.entry }
{
    Finding {
        place: Some(place_of(token)),
        cause,
    }
}

/// What is found at a place.
pub fn at_place(place: Segment, cause: Reason<'_>) -> Finding<'_>
    ensures place { result.place ≡ Some place }
    ensures cause { result.cause ≡ cause.entry }
{
    Finding {
        place: Some(place),
        cause,
    }
}

/// No more is known.
pub fn untold<'t>() -> Finding<'t>
    ensures place { result.place ≡ None }
    ensures cause { result.cause ≡ Reason.Untold }
{
    Finding {
        place: None,
        cause: Reason::Untold,
    }
}

/// The kind of the token at a place of a list, `End` behind it.
pub fn kind_at(tokens: &[Token<'_>], at: usize) -> Kind
    ensures { result ≡ specified.kind_at tokens.now at }
{
    match tokens.get(at) {
        Some(token) => token.kind(),
        None => Kind::End,
    }
}

/// The tokens from a place of a list on.
pub fn from<'s, 't>(tokens: &'s [Token<'t>], at: usize) -> &'s [Token<'t>]
    ensures { at ≤ length tokens.now → result.now ≡ drop at tokens.now }
{
    if at <= tokens.len() {
        &tokens[at..]
    } else {
        &tokens[..0]
    }
}

/// The tokens from a place of a list to the one in front of another.
pub fn between<'s, 't>(tokens: &'s [Token<'t>], at: usize, end: usize) -> &'s [Token<'t>]
    ensures { at ≤ end → end ≤ length tokens.now → result.now ≡ take (end - at) (drop at tokens.now) }
{
    if at <= end && end <= tokens.len() {
        &tokens[at..end]
    } else {
        &tokens[..0]
    }
}

/// The place of the first token in a list that so many bytes of the text stand before.
pub fn index_at(tokens: &[Token<'_>], offset: usize) -> Option<usize>
    ensures { result ≡ specified.index_at offset tokens.now }
{
    let mut passed = 0usize;
    let mut rest = tokens;
    while !rest.is_empty() {
        if rest[0].line() as usize == offset {
            return Some(passed);
        }
        passed += 1;
        rest = &rest[1..];
    }
    None
}

/// Whether a token of this kind stands there.
pub fn is_at(tokens: &[Token<'_>], at: usize, kind: Kind) -> bool
    ensures { result ≡ equal (specified.kind_at tokens.now at) kind }
{
    same_kind(kind_at(tokens, at), kind)
}

/// Whether a token is of one of these kinds.
#[tactic(auto, unfolding(crate::specs::Places::is_among))]
pub fn is_among(kind: Kind, kinds: &[Kind]) -> bool
    ensures { result ≡ specified.is_among kind kinds.now }
{
    for one in kinds {
        if same_kind(kind, *one) {
            return true;
        }
    }
    false
}

/// Whether a token opens something: `( [ { if do`.
pub fn opens(kind: Kind) -> bool
    ensures { result ≡ specified.opens kind }
{
    matches!(
        kind,
        Kind::OpenParen | Kind::OpenBracket | Kind::OpenBrace | Kind::If | Kind::Do
    )
}

/// Whether a token closes something: `) ] } fi od`.
pub fn closes(kind: Kind) -> bool
    ensures { result ≡ specified.closes kind }
{
    matches!(
        kind,
        Kind::CloseParen | Kind::CloseBracket | Kind::CloseBrace | Kind::Fi | Kind::Od
    )
}

/// What closes what this opens.
pub fn closer_of(kind: Kind) -> Kind
    ensures { result ≡ specified.closer_of kind }
{
    match kind {
        Kind::OpenParen => Kind::CloseParen,
        Kind::OpenBracket => Kind::CloseBracket,
        Kind::OpenBrace => Kind::CloseBrace,
        Kind::If => Kind::Fi,
        Kind::Do => Kind::Od,
        _ => Kind::End,
    }
}
