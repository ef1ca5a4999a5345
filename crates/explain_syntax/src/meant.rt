//! What is told before what is open and what stands beside a token: by the layout of lines, by words that are mistyped, and by a sign for `->`.

ghost use Rattle.std.specs.Prelude.{◌≡◌, ◌+◌, true, IfSome, IfOk};
ghost use Rattle.explain_syntax.specs.Wanted as sorts;

use crate::called::is_call;
use crate::kinds::UNITS;
use crate::layout::{left_by_layout, unclosed_by_layout};
use crate::stopped::{is_before, kind_before, name_at, name_before};
use crate::tried::is_behind_condition;
use crate::within::is_of_fields;
use crate::words::{foreign_beside, is_declared, near_at};
use explain_cause::cause::{Expected, Named, Segment};
use explain_cause::foreign::Foreign;
use explain_cause::place::{bytes_at, is_among, is_at, kind_at};
use explain_condition::near::nearest_word;
use pml_token::token::{Kind, Token};
use std::alloc::{AllocError, Global};

/// What closes is missing in front of a token, by the indentation of the lines.
fn by_layout<'t>(
    alloc: Global,
    text: &'t [u8],
    tokens: &[Token<'_>],
    opener: Option<usize>,
    at: usize,
) -> Result<Option<Expected<'t>>, AllocError>
    ensures { IfOk result (λ found. IfSome found (λ wish. sorts.is_by_layout wish ≡ true)) }
{
    let suspect = if is_among(kind_at(tokens, at), &UNITS) {
        unclosed_by_layout(alloc, text, tokens, opener, at)?
    } else {
        left_by_layout(text, tokens, opener, at)
    };
    match suspect {
        Some(open) => Ok(Some(Expected::CloserByLayout(name_at(text, tokens, open)))),
        None => Ok(None),
    }
}

/// The type that a mistyped name is near to in the fields of a channel.
fn near_type<'t>(
    alloc: Global,
    text: &'t [u8],
    tokens: &[Token<'_>],
    opener: Option<usize>,
    at: usize,
) -> Result<Option<Expected<'t>>, AllocError>
    ensures { IfOk result (λ found. IfSome found (λ wish. sorts.is_word wish ≡ true)) }
{
    match opener {
        Some(open) if is_of_fields(tokens, open) => near_at(alloc, text, tokens, at),
        _ => Ok(None),
    }
}

/// What is told of a word of another language where it stands for the type of a parameter.
fn of_parameter(wanted: Expected<'_>) -> Expected<'_>
    ensures meant { result ≡ sorts.of_parameter wanted.entry }
    ensures foreign { sorts.is_foreign wanted.entry ≡ true → sorts.is_foreign result ≡ true }
{
    match wanted {
        Expected::ForeignWord(Foreign::Channel, name) => {
            Expected::ForeignWord(Foreign::ChannelParameter, name)
        }
        wanted => wanted,
    }
}

/// What is told of the type of a parameter, where that is a name which nothing declares: the name of the parameter stands at `at`.
fn unknown_type<'t>(
    alloc: Global,
    text: &'t [u8],
    tokens: &[Token<'_>],
    opener: Option<usize>,
    at: usize,
) -> Result<Option<Expected<'t>>, AllocError>
    ensures { IfOk result (λ found. IfSome found (λ wish. sorts.is_by_type wish ≡ true)) }
{
    let Some(place) = unknown_before(tokens, opener, at) else {
        return Ok(None);
    };
    if let Some(word) = foreign_beside(text, tokens, at) {
        return Ok(Some(of_parameter(word)));
    }
    match near_at(alloc, text, tokens, place)? {
        Some(word) => Ok(Some(word)),
        None => Ok(Some(Expected::NoType(name_at(text, tokens, place)))),
    }
}

/// The name that stands for a type directly before the name of a parameter, where nothing declares it.
fn unknown_before(tokens: &[Token<'_>], opener: Option<usize>, at: usize) -> Option<usize>
    ensures { IfSome result (λ place. place + 1 ≡ at) }
{
    let place = at.checked_sub(1)?;
    let names = is_at(tokens, at, Kind::Name) && is_at(tokens, place, Kind::Name);
    let is_parameter = is_before(tokens, opener?, 2, Kind::Proctype);
    let is_first = matches!(
        kind_before(tokens, place, 1),
        Kind::OpenParen | Kind::Comma | Kind::Semicolon
    );
    let name = tokens.get(place)?;
    if names && is_parameter && is_first && !is_declared(tokens, place, name.text()) {
        Some(place)
    } else {
        None
    }
}

/// A word in front of a name and its parentheses that is near to `run`.
fn near_run<'t>(
    alloc: Global,
    text: &'t [u8],
    tokens: &[Token<'_>],
    at: usize,
) -> Result<Option<Expected<'t>>, AllocError>
    ensures { IfOk result (λ found. IfSome found (λ wish. sorts.is_word wish ≡ true)) }
{
    if !is_call(tokens, at) || !is_before(tokens, at, 2, Kind::Name) {
        return Ok(None);
    }
    match near_at(alloc, text, tokens, at.saturating_sub(2))? {
        Some(Expected::Word(name, word)) if word == b"run".as_slice() => {
            Ok(Some(Expected::Word(name, word)))
        }
        _ => Ok(None),
    }
}

/// A sign that stands in an option between a condition and an assignment, whose `=` is the token at `at`.
fn arrow_before<'t>(text: &'t [u8], tokens: &[Token<'_>], at: usize) -> Option<Expected<'t>>
    ensures { IfSome result (λ wish. sorts.is_arrow wish ≡ true) }
{
    let sign = at.checked_sub(2)?;
    let is_assigned = is_at(tokens, at, Kind::Assign) && is_before(tokens, at, 1, Kind::Name);
    let is_sign = matches!(kind_at(tokens, sign), Kind::Greater | Kind::Minus);
    if is_assigned && is_sign && is_behind_condition(tokens, sign) {
        Some(Expected::ArrowFor(name_at(text, tokens, sign)))
    } else {
        None
    }
}

/// What is told before what is open at a token and what stands beside it.
pub fn meant_first<'t>(
    alloc: Global,
    text: &'t [u8],
    tokens: &[Token<'_>],
    opener: Option<usize>,
    at: usize,
) -> Result<Option<Expected<'t>>, AllocError>
    ensures { IfOk result (λ found. IfSome found (λ wish. sorts.is_meant_first wish ≡ true)) }
{
    if let Some(wanted) = by_layout(alloc, text, tokens, opener, at)? {
        return Ok(Some(wanted));
    }
    if let Some(wanted) = near_type(alloc, text, tokens, opener, at)? {
        return Ok(Some(wanted));
    }
    if let Some(wanted) = unknown_type(alloc, text, tokens, opener, at)? {
        return Ok(Some(wanted));
    }
    match near_run(alloc, text, tokens, at)? {
        Some(wanted) => Ok(Some(wanted)),
        None => Ok(arrow_before(text, tokens, at)),
    }
}

/// The two names in front of a token with a `-` between them and no blank, as one name.
fn joined_before<'t>(text: &'t [u8], tokens: &[Token<'_>], at: usize) -> Option<Named<'t>> {
    let first = name_at(text, tokens, at.checked_sub(3)?);
    let last = name_before(text, tokens, at, 1);
    let names = is_before(tokens, at, 3, Kind::Name) && is_before(tokens, at, 1, Kind::Name);
    let offset = first.offset;
    let length = first
        .name
        .len()
        .saturating_add(last.name.len())
        .saturating_add(1);
    let is_joined = offset.saturating_add(length) == last.offset.saturating_add(last.name.len());
    if names && is_joined && is_before(tokens, at, 2, Kind::Minus) {
        Some(Named {
            name: bytes_at(text, Segment { offset, length }),
            offset,
        })
    } else {
        None
    }
}

/// The word of the language that such a name is near to.
fn near_joined<'t>(
    alloc: Global,
    text: &'t [u8],
    tokens: &[Token<'_>],
    at: usize,
) -> Result<Option<Expected<'t>>, AllocError>
    ensures { IfOk result (λ found. IfSome found (λ wish. sorts.is_word wish ≡ true)) }
{
    let Some(name) = joined_before(text, tokens, at) else {
        return Ok(None);
    };
    match nearest_word(alloc, name.name)? {
        Some(word) => Ok(Some(Expected::Word(name, word))),
        None => Ok(None),
    }
}

/// What is told of a mistyped word before a name and its parentheses or braces, as of that of a proctype or a typedef, or of one that has a `-` in it.
pub fn near_unit<'t>(
    alloc: Global,
    text: &'t [u8],
    tokens: &[Token<'_>],
    at: usize,
) -> Result<Option<Expected<'t>>, AllocError>
    ensures { IfOk result (λ found. IfSome found (λ wish. sorts.is_word wish ≡ true)) }
{
    let opens = matches!(kind_at(tokens, at), Kind::OpenParen | Kind::OpenBrace);
    if opens && is_before(tokens, at, 1, Kind::Name) && is_before(tokens, at, 2, Kind::Name) {
        near_at(alloc, text, tokens, at.saturating_sub(2))
    } else {
        near_joined(alloc, text, tokens, at)
    }
}
