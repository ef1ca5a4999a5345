//! What a token that no rule reads is meant for, by what is open there.

ghost use Rattle.std.specs.Prelude.{◌≡◌, true, ◌≤◌, ◌&&◌, ◌||◌, IfSome};
ghost use Rattle.explain_cause.specs.Places.{is_among as among};
ghost use Rattle.explain_syntax.specs.Wanted as sorts;
ghost use Rattle.explain_syntax.specs.Beside as beside;

use crate::declared::{behind_parameter, is_half_range};
use crate::kinds::{
    CHANNEL_QUESTIONS, OPTION_ENDS, OPTIONS, PARTS_OF_PARENS, TYPES, UNITS, is_type,
};
use crate::stopped::{are_before, begin_of, is_before, is_open, kind_before, kind_behind};
use explain_cause::brackets::{closing, fits};
use explain_cause::foreign::Foreign;
use explain_cause::place::{between, is_among, is_at, kind_at};
use pml_token::token::{Kind, Token, same_kind};

/// Whether a token stands where a declaration has its name: behind a type, `proctype` or `typedef`.
pub fn is_named_there(tokens: &[Token<'_>], at: usize) -> bool
    ensures { result ≡ (among (beside.kind_before tokens.now at 1) TYPES || beside.is_naming (beside.kind_before tokens.now at 1)) }
{
    let before = kind_before(tokens, at, 1);
    is_type(before) || matches!(before, Kind::Proctype | Kind::Typedef)
}

/// Whether a word stands where a name is declared: between a type and what goes on with the declaration or ends it.
pub fn is_declared_word(tokens: &[Token<'_>], at: usize) -> bool
    ensures { result ≡ (among (beside.kind_before tokens.now at 1) TYPES && beside.is_behind_name (beside.kind_behind tokens.now at)) }
{
    is_type(kind_before(tokens, at, 1))
        && matches!(
            kind_behind(tokens, at),
            Kind::Semicolon | Kind::Comma | Kind::Assign | Kind::OpenBracket
        )
}

/// Whether what the token at `opener` opens is closed, and by what closes it.
pub fn is_closed(tokens: &[Token<'_>], opener: usize) -> bool {
    match closing(tokens, opener) {
        Some(end) => fits(tokens, opener, end),
        None => false,
    }
}

/// Whether a definition without its first word begins at a name: parentheses and a `{` stand behind it, and a unit may begin there.
pub fn is_headless(tokens: &[Token<'_>], at: usize) -> bool {
    let behind = at.saturating_add(1);
    if !is_at(tokens, behind, Kind::OpenParen) || begin_of(tokens, at) != at {
        return false;
    }
    let is_unit = at == 0
        || matches!(
            kind_before(tokens, at, 1),
            Kind::CloseBrace | Kind::Semicolon
        );
    match closing(tokens, behind) {
        Some(end) => is_unit && is_at(tokens, end.saturating_add(1), Kind::OpenBrace),
        None => false,
    }
}

/// The first `->` between two tokens.
pub fn arrow_between(tokens: &[Token<'_>], opener: usize, at: usize) -> Option<usize>
    ensures { IfSome result (λ arrow. opener ≤ arrow) }
{
    for (i, token) in between(tokens, opener, at).iter().enumerate() {
        if same_kind(token.kind(), Kind::Arrow) {
            return Some(opener.saturating_add(i));
        }
    }
    None
}

/// Whether a token ends what stands in parentheses or in brackets.
fn ends_inside(tokens: &[Token<'_>], opener: usize, kind: Kind) -> bool
    ensures { result ≡ beside.ends_inside tokens.now opener kind }
{
    match kind {
        Kind::Semicolon | Kind::DoubleColon => true,
        Kind::Assign | Kind::Arrow => is_at(tokens, opener, Kind::OpenBracket),
        _ => false,
    }
}

/// Whether what the token at `opener` opens has to be closed in front of a token of a kind.
pub fn is_left_open(tokens: &[Token<'_>], opener: usize, kind: Kind) -> bool {
    let is_inside = is_at(tokens, opener, Kind::OpenParen)
        || is_at(tokens, opener, Kind::OpenBracket);
    is_among(kind, &UNITS)
        || (is_inside && ends_inside(tokens, opener, kind))
        || (same_kind(kind, Kind::DoubleColon) && is_of_option(tokens, opener))
        || (same_kind(kind, Kind::Semicolon) && is_of_fields(tokens, opener))
}

/// Whether braces stand round the fields of a channel.
pub fn is_of_fields(tokens: &[Token<'_>], opener: usize) -> bool
    ensures { result ≡ beside.is_of_fields tokens.now opener }
{
    is_at(tokens, opener, Kind::OpenBrace) && is_before(tokens, opener, 1, Kind::Of)
}

/// Whether braces with a statement in them stand in an option.
fn is_of_option(tokens: &[Token<'_>], opener: usize) -> bool {
    let is_filled = !is_at(tokens, opener.saturating_add(1), Kind::DoubleColon);
    is_at(tokens, opener, Kind::OpenBrace)
        && (is_before(tokens, opener, 1, Kind::Arrow)
            || (is_filled && is_open(tokens, opener, &OPTIONS, &OPTION_ENDS)))
}

/// Whether the parameters of a proctype are open, and a name without a type stands directly before a token.
fn is_untyped(tokens: &[Token<'_>], opener: usize, at: usize) -> bool
    ensures { result ≡ beside.is_untyped tokens.now opener at }
{
    is_before(tokens, opener, 2, Kind::Proctype)
        && is_before(tokens, at, 1, Kind::Name)
        && matches!(
            kind_before(tokens, at, 2),
            Kind::OpenParen | Kind::Comma | Kind::Semicolon
        )
}

/// What a name without a type directly before a token is meant for, as a parameter.
fn untyped(tokens: &[Token<'_>], at: usize) -> Foreign
    ensures { sorts.is_within result ≡ true }
{
    match tokens.get(at.saturating_sub(1)) {
        Some(token) if token.text() == b"void".as_slice() => Foreign::NoParameters,
        _ => Foreign::ParameterType,
    }
}

/// What a token is meant for in the parentheses that stand behind this kind.
fn in_parens(before: Kind, kind: Kind) -> Option<Foreign>
    ensures { IfSome result (λ form. sorts.is_within form ≡ true) }
{
    match before {
        Kind::Assert if same_kind(kind, Kind::Comma) => Some(Foreign::AssertText),
        Kind::For if same_kind(kind, Kind::DotDot) => Some(Foreign::LoopRange),
        Kind::For if is_among(kind, &PARTS_OF_PARENS) => Some(Foreign::Counting),
        Kind::Semicolon | Kind::OpenBrace | Kind::Arrow if same_kind(kind, Kind::Comma) => {
            Some(Foreign::TwoAssignments)
        }
        Kind::Select if is_among(kind, &PARTS_OF_PARENS) => Some(Foreign::SelectRange),
        Kind::Bang | Kind::BangBang | Kind::Query | Kind::QueryQuery
            if same_kind(kind, Kind::Comma) => { Some(Foreign::MessageFields) }
        _ => None,
    }
}

/// What a token is meant for among the arguments of a process, which the one at `opener` opens.
fn argument(tokens: &[Token<'_>], opener: usize, kind: Kind) -> Option<Foreign>
    ensures { IfSome result (λ form. sorts.is_within form ≡ true) }
{
    if !is_before(tokens, opener, 2, Kind::Run) {
        return None;
    }
    match kind {
        Kind::Semicolon if is_closed(tokens, opener) => Some(Foreign::ArgumentComma),
        kind if is_type(kind) => Some(Foreign::ArgumentType),
        _ => None,
    }
}

/// What a token is meant for where a channel is asked for.
fn asked(tokens: &[Token<'_>], opener: usize, at: usize) -> Option<Foreign>
    ensures { IfSome result (λ form. sorts.is_within form ≡ true) }
{
    if !is_among(kind_before(tokens, opener, 1), &CHANNEL_QUESTIONS) {
        None
    } else if is_before(tokens, at, 1, Kind::Name) {
        Some(Foreign::ChannelAlone)
    } else if opener.saturating_add(1) == at && is_at(tokens, at, Kind::CloseParen) {
        Some(Foreign::NoChannel)
    } else {
        None
    }
}

/// What the token at `at` is meant for within parentheses.
fn within_parens(tokens: &[Token<'_>], opener: usize, at: usize, kind: Kind) -> Option<Foreign>
    ensures { IfSome result (λ form. sorts.is_within form ≡ true) }
{
    if is_half_range(tokens, opener, at) {
        return Some(Foreign::LoopRange);
    }
    if let Some(form) = in_parens(kind_before(tokens, opener, 1), kind) {
        return Some(form);
    }
    if let Some(form) = behind_parameter(tokens, opener, at, kind) {
        return Some(form);
    }
    if is_untyped(tokens, opener, at) {
        return Some(untyped(tokens, at));
    }
    if let Some(form) = argument(tokens, opener, kind) {
        return Some(form);
    }
    if let Some(form) = asked(tokens, opener, at) {
        return Some(form);
    }
    if same_kind(kind, Kind::Of) && is_before(tokens, opener, 2, Kind::Proctype) {
        return Some(Foreign::ChannelParameter);
    }
    if same_kind(kind, Kind::CloseParen) && arrow_between(tokens, opener, at).is_some() {
        Some(Foreign::Implication)
    } else {
        None
    }
}

/// What a token is meant for in the fields of a channel.
fn in_fields(tokens: &[Token<'_>], opener: usize, at: usize, kind: Kind) -> Option<Foreign>
    ensures { IfSome result (λ form. sorts.is_within form ≡ true) }
{
    if same_kind(kind, Kind::Semicolon) {
        if is_closed(tokens, opener) && is_type(kind_behind(tokens, at)) {
            Some(Foreign::FieldComma)
        } else {
            None
        }
    } else if matches!(kind, Kind::Name | Kind::OpenBracket)
        && is_type(kind_before(tokens, at, 1))
    {
        Some(Foreign::ChannelFields)
    } else if same_kind(kind, Kind::Name) {
        Some(Foreign::ChannelRecord)
    } else {
        None
    }
}

/// What the token at `at` is meant for within braces.
fn within_braces(tokens: &[Token<'_>], opener: usize, at: usize, kind: Kind) -> Option<Foreign>
    ensures { IfSome result (λ form. sorts.is_within form ≡ true) }
{
    let is_of_names = is_before(tokens, opener, 1, Kind::Mtype)
        || are_before(tokens, opener, Kind::Mtype, Kind::Assign);
    if same_kind(kind, Kind::Assign) && is_of_names {
        return Some(Foreign::NumberedName);
    }
    if is_before(tokens, opener, 1, Kind::Of) {
        return in_fields(tokens, opener, at, kind);
    }
    if same_kind(kind, Kind::DoubleColon) && !is_of_option(tokens, opener) {
        Some(match kind_before(tokens, at, 1) {
            Kind::Fi | Kind::Od => Foreign::OptionBehind,
            _ => Foreign::Cases,
        })
    } else if is_among(kind, &UNITS) && is_closed(tokens, opener) && !is_declared_word(tokens, at) {
        Some(Foreign::NestedUnit)
    } else {
        None
    }
}

/// What the token at `at` is meant for within what the one at `opener` opens.
pub fn form_within(tokens: &[Token<'_>], opener: usize, at: usize) -> Option<Foreign>
    ensures { IfSome result (λ form. sorts.is_within form ≡ true) }
{
    let kind = kind_at(tokens, at);
    match kind_at(tokens, opener) {
        Kind::OpenParen => within_parens(tokens, opener, at, kind),
        Kind::OpenBrace => within_braces(tokens, opener, at, kind),
        Kind::OpenBracket if matches!(kind, Kind::DotDot | Kind::Colon) => {
            Some(Foreign::ArrayRange)
        }
        _ => None,
    }
}
