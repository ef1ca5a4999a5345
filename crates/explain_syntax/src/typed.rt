//! Forms of other languages, told by the word, the number or the string that no rule reads and its neighbours.

ghost use Rattle.std.specs.Prelude.{◌≡◌, true, IfSome};
ghost use Rattle.explain_syntax.specs.Wanted as sorts;
ghost use Rattle.explain_syntax.specs.Beside as beside;

use crate::elements::is_declaration;
use crate::kinds::{BEFORE_TEXTS, is_type};
use crate::stopped::{are_before, begin_of, is_before, is_in_statement, kind_before, kind_behind};
use explain_cause::foreign::Foreign;
use explain_cause::place::{is_among, is_at, kind_at};
use pml_token::token::{Kind, Token, same_kind};

/// What a name is meant for.
fn at_name(tokens: &[Token<'_>], at: usize, before: Kind) -> Option<Foreign>
    ensures { IfSome result (λ form. sorts.is_of_word form ≡ true) }
{
    let behind = kind_behind(tokens, at);
    match before {
        Kind::For => Some(Foreign::LoopParens),
        Kind::Select => Some(Foreign::SelectRange),
        Kind::CloseBracket if is_in_statement(tokens, at, Kind::Active) => {
            Some(Foreign::ActiveProctype)
        }
        Kind::Active if matches!(behind, Kind::OpenParen | Kind::OpenBrace) => {
            Some(Foreign::ActiveProctype)
        }
        Kind::Atomic | Kind::DStep => Some(Foreign::BraceBody),
        Kind::Break => Some(Foreign::BreakLabel),
        Kind::OpenParen if is_before(tokens, at, 2, Kind::Printf) => {
            if same_kind(behind, Kind::Quoted) {
                Some(Foreign::TextPrefix)
            } else {
                None
            }
        }
        _ => None,
    }
}

/// What a number is meant for.
fn at_number(tokens: &[Token<'_>], at: usize, before: Kind) -> Option<Foreign>
    ensures { IfSome result (λ form. sorts.is_of_word form ≡ true) }
{
    match before {
        Kind::Active => Some(Foreign::ActiveCount),
        Kind::Proctype | Kind::Typedef => Some(Foreign::NameBegins),
        Kind::OpenParen if is_before(tokens, at, 2, Kind::Select) => Some(Foreign::SelectRange),
        Kind::Comma if is_declaration(tokens, at) => Some(Foreign::ListValue),
        _ => {
            if is_type(before) {
                Some(Foreign::NameBegins)
            } else {
                None
            }
        }
    }
}

/// What a string is meant for.
fn at_text(tokens: &[Token<'_>], at: usize, before: Kind) -> Option<Foreign>
    ensures { IfSome result (λ form. sorts.is_of_word form ≡ true) }
{
    if is_before(tokens, at, 3, Kind::Mtype) {
        return Some(Foreign::QuotedName);
    }
    if are_before(tokens, at, Kind::Printm, Kind::OpenParen) {
        return Some(Foreign::PrintmText);
    }
    match before {
        Kind::Printf => Some(Foreign::Print),
        Kind::CloseParen if is_in_statement(tokens, at, Kind::Assert) => Some(Foreign::AssertText),
        Kind::Comma | Kind::Quoted if is_in_statement(tokens, at, Kind::Printf) => {
            Some(Foreign::PrintTexts)
        }
        _ => {
            if is_among(before, &BEFORE_TEXTS) {
                Some(Foreign::Text)
            } else {
                None
            }
        }
    }
}

/// What a type is meant for.
fn at_type(tokens: &[Token<'_>], at: usize, before: Kind) -> Option<Foreign>
    ensures { IfSome result (λ form. sorts.is_of_word form ≡ true) }
{
    match before {
        Kind::Of => Some(Foreign::ChannelTypes),
        Kind::Chan | Kind::CloseBracket => Some(Foreign::Channel),
        Kind::Typedef => Some(Foreign::Record),
        Kind::Proctype => Some(Foreign::ProctypeResult),
        Kind::Name if is_before(tokens, at, 2, Kind::Typedef) => Some(Foreign::Record),
        Kind::Assign => Some(match kind_at(tokens, at) {
            Kind::Chan => Foreign::Channel,
            Kind::Pid => Foreign::Own,
            _ => Foreign::Cast,
        }),
        Kind::Query | Kind::QueryQuery => Some(Foreign::ReceivedType),
        Kind::Colon if is_before(tokens, at, 2, Kind::Name) => Some(Foreign::LabelDeclaration),
        Kind::Comma if is_type(kind_at(tokens, begin_of(tokens, at))) => {
            Some(Foreign::RepeatedType)
        }
        before if is_type(before) => Some(Foreign::TwoTypes),
        Kind::OpenParen if is_before(tokens, at, 2, Kind::For) => Some(Foreign::LoopType),
        Kind::OpenParen if same_kind(kind_behind(tokens, at), Kind::CloseParen) => {
            Some(Foreign::Cast)
        }
        _ => None,
    }
}

/// Whether an `of` stands in what is meant for a channel.
fn is_of_channel(tokens: &[Token<'_>], at: usize, before: Kind) -> bool {
    matches!(before, Kind::CloseBracket | Kind::Assign | Kind::Number)
        || are_before(tokens, at, Kind::Chan, Kind::Name)
}

/// What another word is meant for.
fn at_keyword(tokens: &[Token<'_>], at: usize, kind: Kind) -> Option<Foreign>
    ensures { IfSome result (λ form. sorts.is_of_word form ≡ true) }
{
    let before = kind_before(tokens, at, 1);
    match kind {
        Kind::Init if same_kind(before, Kind::Active) => Some(Foreign::ActiveInit),
        Kind::Active if same_kind(before, Kind::Proctype) => Some(Foreign::ActiveProctype),
        Kind::Of if is_of_channel(tokens, at, before) => Some(Foreign::Channel),
        Kind::If if same_kind(before, Kind::Assign) => Some(Foreign::Conditional),
        Kind::Else if is_at(tokens, at.saturating_add(1), Kind::If) => Some(Foreign::ElseIf),
        Kind::Unless => Some(Foreign::Try),
        Kind::Empty | Kind::Full | Kind::Len | Kind::Nempty | Kind::Nfull
            if same_kind(before, Kind::Dot) => { Some(Foreign::ChannelQuestion) }
        _ => None,
    }
}

/// Whether `unsigned` has no number of bits where a token stands.
fn at_width(tokens: &[Token<'_>], at: usize) -> Option<Foreign>
    ensures { IfSome result (λ form. sorts.is_of_word form ≡ true) }
{
    let named = are_before(tokens, at, Kind::Unsigned, Kind::Name);
    let typed = is_type(kind_at(tokens, at)) && is_before(tokens, at, 1, Kind::Unsigned);
    if named || typed {
        Some(Foreign::Width)
    } else {
        None
    }
}

/// What a word, a number or a string is meant for, where that is told by its own kind.
fn by_kind(tokens: &[Token<'_>], at: usize, kind: Kind) -> Option<Foreign>
    ensures { IfSome result (λ form. sorts.is_of_word form ≡ true) }
{
    let before = kind_before(tokens, at, 1);
    match kind {
        Kind::Name => at_name(tokens, at, before),
        Kind::Number => at_number(tokens, at, before),
        Kind::Quoted => at_text(tokens, at, before),
        _ => {
            if is_type(kind) {
                at_type(tokens, at, before)
            } else {
                at_keyword(tokens, at, kind)
            }
        }
    }
}

/// Whether a token stands behind `run` alone.
fn at_run(tokens: &[Token<'_>], at: usize) -> Option<Foreign>
    ensures { IfSome result (λ form. sorts.is_of_word form ≡ true) }
{
    if is_before(tokens, at, 1, Kind::Run) && !is_at(tokens, at, Kind::Name) {
        Some(Foreign::RunName)
    } else {
        None
    }
}

/// What a word, a number or a string is meant for.
pub fn form_of_word(tokens: &[Token<'_>], at: usize, kind: Kind) -> Option<Foreign>
    ensures { IfSome result (λ form. sorts.is_of_word form ≡ true) }
{
    if let Some(form) = by_kind(tokens, at, kind) {
        return Some(form);
    }
    match at_run(tokens, at) {
        Some(form) => Some(form),
        None => at_width(tokens, at),
    }
}

/// Whether a name stands where the `:` of a `select` is wanted.
pub fn is_select_range(tokens: &[Token<'_>], at: usize) -> bool
    ensures { result ≡ beside.is_select_range tokens.now at }
{
    is_at(tokens, at, Kind::Name)
        && is_before(tokens, at, 3, Kind::Select)
        && are_before(tokens, at, Kind::OpenParen, Kind::Name)
}
