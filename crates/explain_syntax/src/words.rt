//! Words of other languages, and names that are near to words of this one, beside the token that no rule reads.

ghost use Rattle.std.specs.Prelude.{◌≡◌, ◌-◌, true, None, IfOk, IfSome};
ghost use Rattle.explain_syntax.specs.Wanted as sorts;
ghost use Rattle.explain_syntax.specs.Beside as beside;
ghost use Rattle.explain_syntax.specs.Trials as trials;

use crate::called::name_behind;
use crate::declared::meant_at;
use crate::kinds::{DECLARING, UNITS, is_type};
use crate::stopped::{begin_of, is_before, kind_before, kind_behind, name_at};
use crate::within::is_headless;
use explain_cause::cause::{Expected, Named, Segment};
use explain_cause::foreign::Foreign;
use explain_cause::place::{between, bytes_at, is_among, is_at, kind_at};
use explain_cause::words::foreign_word;
use explain_condition::near::nearest_word;
use pml_token::token::{Kind, Token};
use std::alloc::{AllocError, Global};

/// Whether a name seems to be declared in front of the token at `end`.
pub fn is_declared(tokens: &[Token<'_>], end: usize, name: &[u8]) -> bool {
    let mut declared = false;
    for (i, token) in tokens.iter().enumerate() {
        if i >= end {
            return false;
        }
        if declared && token.text() == name {
            return true;
        }
        declared = is_among(token.kind(), &DECLARING);
    }
    false
}

/// A word of another language, and what it is meant for.
#[derive(Clone, Copy)]
struct Spoken<'t> {
    foreign: Foreign,
    name: Named<'t>,
}

/// The token at `at`, where it is a name that nothing declares in front of it and a word of another language.
fn word_at<'t>(text: &'t [u8], tokens: &[Token<'_>], at: usize) -> Option<Spoken<'t>>
    ensures { IfSome result (λ word. word.name.offset ≡ beside.offset_at text.now tokens.now at) }
{
    if !is_at(tokens, at, Kind::Name) {
        return None;
    }
    let name = name_at(text, tokens, at);
    let meant = foreign_word(name.name);
    if is_headless(tokens, at) {
        let foreign = match meant {
            Some(Foreign::Main) => Foreign::Main,
            _ => Foreign::Headless,
        };
        return Some(Spoken { foreign, name });
    }
    match meant {
        Some(foreign) if !is_declared(tokens, at, name.name) => {
            Some(Spoken {
                foreign: meant_at(tokens, at, foreign),
                name,
            })
        }
        _ => None,
    }
}

/// The token that stands so many before the one at `at`, where it is a word of another language.
fn word_before<'t>(
    text: &'t [u8],
    tokens: &[Token<'_>],
    at: usize,
    count: usize,
) -> Option<Spoken<'t>>
    ensures { IfSome result (λ word. word.name.offset ≡ beside.offset_at text.now tokens.now (at - count)) }
{
    word_at(text, tokens, at.checked_sub(count)?)
}

/// Of two words side by side the first, but for one in front of `main`.
fn first_of<'t>(first: Option<Spoken<'t>>, second: Option<Spoken<'t>>) -> Option<Spoken<'t>>
    ensures second { first.entry ≡ None → result ≡ second.entry }
    ensures first { second.entry ≡ None → result ≡ first.entry }
{
    match (first, second) {
        (Some(_), Some(word)) if matches!(word.foreign, Foreign::Main) => second,
        (Some(_), _) => first,
        _ => second,
    }
}

/// A word of another language up to three tokens before the one at `at`, as the kind of what stands between them allows.
fn spoken_before<'t>(text: &'t [u8], tokens: &[Token<'_>], at: usize) -> Option<Spoken<'t>> {
    let second = word_before(text, tokens, at, 2);
    match kind_before(tokens, at, 1) {
        Kind::Name => first_of(second, word_before(text, tokens, at, 1)),
        Kind::Bang => second,
        before => {
            if is_type(before) && is_before(tokens, at, 2, Kind::Name) {
                word_before(text, tokens, at, 3)
            } else {
                None
            }
        }
    }
}

/// The last `typedef` in front of a token.
fn last_typedef(tokens: &[Token<'_>], at: usize) -> Option<usize> {
    let mut last = None;
    for (i, token) in between(tokens, 0, at).iter().enumerate() {
        if matches!(token.kind(), Kind::Typedef) {
            last = Some(i);
        }
    }
    last
}

/// The `struct` of a `typedef` that has its name behind its fields, where a token stands behind that name.
fn struct_before<'t>(text: &'t [u8], tokens: &[Token<'_>], at: usize) -> Option<Spoken<'t>> {
    if !is_before(tokens, at, 1, Kind::Name) || !is_before(tokens, at, 2, Kind::CloseBrace) {
        return None;
    }
    word_at(text, tokens, last_typedef(tokens, at)?.saturating_add(1))
}

/// A word of another language before the token that no rule reads.
fn word_in_front<'t>(text: &'t [u8], tokens: &[Token<'_>], at: usize) -> Option<Spoken<'t>> {
    let beside = spoken_before(text, tokens, at).or(struct_before(text, tokens, at));
    if is_at(tokens, at, Kind::Of) {
        beside.or(word_at(text, tokens, begin_of(tokens, at)))
    } else {
        beside
    }
}

/// A word of another language at the token that no rule reads, or before it.
pub fn foreign_beside<'t>(text: &'t [u8], tokens: &[Token<'_>], at: usize) -> Option<Expected<'t>>
    ensures { IfSome result (λ wish. sorts.is_foreign wish ≡ true) }
{
    match word_at(text, tokens, at).or(word_in_front(text, tokens, at)) {
        Some(word) => Some(Expected::ForeignWord(word.foreign, word.name)),
        None => None,
    }
}

/// A word of another language with `!` in front of the `(` that is open.
pub fn foreign_call<'t>(text: &'t [u8], tokens: &[Token<'_>], opener: usize) -> Option<Expected<'t>>
    ensures { IfSome result (λ wish. sorts.is_foreign wish ≡ true) }
{
    if !is_at(tokens, opener, Kind::OpenParen) || !is_before(tokens, opener, 1, Kind::Bang) {
        return None;
    }
    let word = word_before(text, tokens, opener, 2)?;
    Some(Expected::ForeignWord(word.foreign, word.name))
}

/// The number and the name that stand side by side without a blank, the name at `at`.
fn joined_at<'t>(text: &'t [u8], tokens: &[Token<'_>], at: usize) -> Option<Named<'t>>
    ensures { IfSome result (λ name. name.offset ≡ beside.offset_at text.now tokens.now (at - 1)) }
{
    let number = name_at(text, tokens, at.checked_sub(1)?);
    let name = name_at(text, tokens, at);
    let length = number.name.len().saturating_add(name.name.len());
    let is_joined = number.offset.saturating_add(number.name.len()) == name.offset;
    if is_joined && is_before(tokens, at, 1, Kind::Number) && is_at(tokens, at, Kind::Name) {
        let offset = number.offset;
        Some(Named {
            name: bytes_at(text, Segment { offset, length }),
            offset,
        })
    } else {
        None
    }
}

/// What a number with letters behind it is meant for, where a token of this kind stands behind these: a label, or a number.
fn joined_form(behind: Kind) -> Foreign
    ensures { result ≡ trials.joined_form behind }
{
    match behind {
        Kind::Colon => Foreign::NameBegins,
        _ => Foreign::Digits,
    }
}

/// A number of another form, or a label that begins with one, at the token that no rule reads or directly before it.
pub fn number_beside<'t>(text: &'t [u8], tokens: &[Token<'_>], at: usize) -> Option<Expected<'t>>
    ensures { IfSome result (λ wish. sorts.is_foreign wish ≡ true) }
{
    if let Some(own) = joined_at(text, tokens, at) {
        return Some(Expected::ForeignWord(joined_form(kind_behind(tokens, at)), own));
    }
    let before = at.checked_sub(1)?;
    let form = joined_form(kind_at(tokens, at));
    Some(Expected::ForeignWord(form, joined_at(text, tokens, before)?))
}

/// Whether a `=` stands behind two names, as of a type and its variable.
pub fn is_typed(tokens: &[Token<'_>], at: usize) -> bool
    ensures { result ≡ beside.is_typed tokens.now at }
{
    is_at(tokens, at, Kind::Assign)
        && is_before(tokens, at, 1, Kind::Name)
        && is_before(tokens, at, 2, Kind::Name)
}

/// The name of a type that a variable is declared of, where a `=` stands behind the variable.
pub fn type_before<'t>(text: &'t [u8], tokens: &[Token<'_>], at: usize) -> Option<Expected<'t>>
    ensures { IfSome result (λ wish. sorts.is_typed wish ≡ true) }
{
    if !is_typed(tokens, at) {
        return None;
    }
    let place = at.checked_sub(2)?;
    let name = name_at(text, tokens, place);
    if is_declared(tokens, place, name.name) {
        return Some(Expected::Form(Foreign::RecordValue));
    }
    let variable = name_at(text, tokens, at.saturating_sub(1));
    if is_declared(tokens, place, variable.name) {
        Some(Expected::ForeignWord(Foreign::LabelColon, name))
    } else {
        Some(Expected::NoType(name))
    }
}

/// Whether the name at a place is declared in front of it as one of a typedef.
pub fn is_record(tokens: &[Token<'_>], at: usize) -> bool {
    let Some(name) = tokens.get(at) else {
        return false;
    };
    let mut is_named = false;
    for token in between(tokens, 0, at) {
        if is_named && token.text() == name.text() {
            return true;
        }
        is_named = matches!(token.kind(), Kind::Name);
    }
    false
}

/// The name that stands in front of a type or of a unit, and is none of the words that do.
pub fn no_word<'t>(text: &'t [u8], tokens: &[Token<'_>], at: usize) -> Option<Expected<'t>>
    ensures { IfSome result (λ wish. sorts.is_wordless wish ≡ true) }
{
    let place = at.checked_sub(1)?;
    let kind = kind_at(tokens, at);
    let is_declaring = is_type(kind) || is_among(kind, &UNITS);
    if !is_declaring || !is_at(tokens, place, Kind::Name) {
        return None;
    }
    let name = name_at(text, tokens, place);
    let is_second = is_before(tokens, place, 1, Kind::Name)
        || is_type(kind_before(tokens, place, 1));
    if is_declared(tokens, place, name.name) || is_second {
        None
    } else if matches!(kind_behind(tokens, at), Kind::Assign | Kind::Semicolon) {
        Some(Expected::Form(Foreign::TypeBehind))
    } else {
        Some(Expected::NoWord(name))
    }
}

/// A variable that is called as a function, in front of the `(` at `at`.
pub fn called_variable<'t>(text: &'t [u8], tokens: &[Token<'_>], at: usize) -> Option<Expected<'t>>
    ensures { IfSome result (λ wish. sorts.is_index wish ≡ true) }
{
    let place = at.checked_sub(1)?;
    let name = name_at(text, tokens, place);
    if is_declared(tokens, place, name.name) {
        Some(Expected::Index(name))
    } else {
        None
    }
}

/// What a name in front of `(` or `{` is: the name of a proctype, or of one that is being declared.
pub fn proctype_beside<'t>(text: &'t [u8], tokens: &[Token<'_>], at: usize) -> Option<Expected<'t>>
    ensures { IfSome result (λ wish. sorts.is_proctype wish ≡ true) }
{
    if !is_before(tokens, at, 1, Kind::Name) {
        return None;
    }
    let name = name_at(text, tokens, at.saturating_sub(1));
    if is_before(tokens, at, 2, Kind::Proctype) {
        return Some(Expected::Parameters(name.name));
    }
    if !is_at(tokens, at, Kind::OpenParen) {
        return None;
    }
    match name_behind(text, tokens, Kind::Proctype, name.name) {
        Some(proctype) => Some(Expected::RunOf(proctype, name)),
        None => None,
    }
}

/// The word of the language that the token at `at` is near to, where it is a name that nothing declares in front of it.
pub fn near_at<'t>(
    alloc: Global,
    text: &'t [u8],
    tokens: &[Token<'_>],
    at: usize,
) -> Result<Option<Expected<'t>>, AllocError>
    ensures { IfOk result (λ found. IfSome found (λ wish. sorts.is_word wish ≡ true)) }
{
    if !matches!(kind_at(tokens, at), Kind::Name) {
        return Ok(None);
    }
    let name = name_at(text, tokens, at);
    if is_declared(tokens, at, name.name) {
        return Ok(None);
    }
    match nearest_word(alloc, name.name)? {
        Some(word) => Ok(Some(Expected::Word(name, word))),
        None => Ok(None),
    }
}

/// The words of the language that `(` may stand behind, or is written behind by those who know them from elsewhere.
const CALLED: [&[u8]; 15] = [
    b"assert", b"atomic", b"do", b"empty", b"eval", b"for", b"full", b"if", b"init", b"len",
    b"nempty", b"nfull", b"printf", b"printm", b"select",
];

/// Whether a word may stand for the name directly in front of a token.
fn may_be_meant(tokens: &[Token<'_>], at: usize, wanted: Option<Expected<'_>>) -> bool
    ensures { result ≡ true → IfSome wanted.entry (λ wish. sorts.is_word wish ≡ true) }
{
    match wanted {
        Some(Expected::Word(_, word)) => !is_at(tokens, at, Kind::OpenParen)
            || CALLED.contains(&word),
        _ => false,
    }
}

/// The word of the language that the name directly before the token that no rule reads is near to.
fn near_before<'t>(
    alloc: Global,
    text: &'t [u8],
    tokens: &[Token<'_>],
    at: usize,
) -> Result<Option<Expected<'t>>, AllocError>
    ensures { IfOk result (λ found. IfSome found (λ wish. sorts.is_word wish ≡ true)) }
{
    let Some(before) = at.checked_sub(1) else {
        return Ok(None);
    };
    let wanted = near_at(alloc, text, tokens, before)?;
    if may_be_meant(tokens, at, wanted) {
        Ok(wanted)
    } else {
        Ok(None)
    }
}

/// The word of the language that a name at the token that no rule reads, or directly before it, is near to.
pub fn near_beside<'t>(
    alloc: Global,
    text: &'t [u8],
    tokens: &[Token<'_>],
    at: usize,
) -> Result<Option<Expected<'t>>, AllocError>
    ensures { IfOk result (λ found. IfSome found (λ wish. sorts.is_word wish ≡ true)) }
{
    match near_at(alloc, text, tokens, at)? {
        Some(wanted) => Ok(Some(wanted)),
        None => near_before(alloc, text, tokens, at),
    }
}
