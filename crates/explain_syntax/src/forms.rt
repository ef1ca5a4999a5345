//! Forms of other languages, told by the sign that no rule reads and its neighbours.

ghost use Rattle.std.specs.Prelude.{◌≡◌, true, IfSome};
ghost use Rattle.explain_syntax.specs.Wanted as sorts;

use crate::declared::{behind_head, declared_form, is_function};
use crate::elements::{empty_brackets, is_comment, is_declaration, is_of_thousands};
use crate::kinds::{RECEIVES, TAKING_VALUES, is_type};
use crate::stopped::{
    are_before, begin_of, has_in_statement, is_before, is_in_statement, kind_before, kind_behind,
};
use crate::tables::{ASSIGNS, BRACES, NAMED_PARENS, PARENS, form_for};
use crate::typed::form_of_word;
use explain_cause::foreign::Foreign;
use explain_cause::place::{is_at, kind_at};
use pml_token::token::{Kind, Token, same_kind};

/// What a `=` is meant for.
fn at_assign(tokens: &[Token<'_>], at: usize) -> Option<Foreign> {
    match kind_behind(tokens, at) {
        Kind::Greater => return Some(Foreign::FatArrow),
        Kind::Less => return at_less(tokens, at.saturating_add(1), Kind::Assign),
        _ => {}
    }
    if is_in_statement(tokens, at, Kind::Proctype) {
        return None;
    }
    if are_before(tokens, at, Kind::Typedef, Kind::Name) {
        return Some(Foreign::Record);
    }
    if is_before(tokens, at, 1, Kind::Colon) {
        return Some(Foreign::ColonEquals);
    }
    if matches!(kind_before(tokens, at, 1), Kind::Equal | Kind::Unequal) {
        return Some(Foreign::ThreeEquals);
    }
    if are_before(tokens, at, Kind::OpenParen, Kind::Name) {
        return Some(match kind_before(tokens, at, 3) {
            Kind::For => Foreign::Counting,
            Kind::Select => Foreign::SelectRange,
            _ => Foreign::Comparison,
        });
    }
    form_for(kind_before(tokens, at, 1), &ASSIGNS)
}

/// Whether a name stands before a `{`, and a number or a name alone between it and its `}`.
fn is_element(tokens: &[Token<'_>], at: usize) -> bool {
    is_before(tokens, at, 1, Kind::Name)
        && matches!(kind_behind(tokens, at), Kind::Number | Kind::Name)
        && is_at(tokens, at.saturating_add(2), Kind::CloseBrace)
}

/// What a `(` is meant for.
fn at_paren(tokens: &[Token<'_>], at: usize) -> Option<Foreign> {
    match kind_before(tokens, at, 1) {
        Kind::Name if is_function(tokens, at) => Some(Foreign::Function),
        Kind::Name => form_for(kind_before(tokens, at, 2), &NAMED_PARENS),
        before => form_for(before, &PARENS),
    }
}

/// What a `[` is meant for.
fn at_bracket(tokens: &[Token<'_>], at: usize, before: Kind) -> Option<Foreign> {
    match before {
        Kind::Chan => Some(Foreign::Channel),
        Kind::CloseBracket if !is_declaration(tokens, at) => Some(Foreign::TwoIndexes),
        Kind::CloseBracket => Some(Foreign::TwoSizes),
        Kind::Proctype => Some(Foreign::ActiveCount),
        Kind::Of => Some(Foreign::ChannelTypes),
        Kind::Bang | Kind::BangBang | Kind::Query | Kind::QueryQuery => {
            Some(Foreign::MessageFields)
        }
        before if is_type(before) => Some(Foreign::Size),
        _ => None,
    }
}

/// What a `?` is meant for.
fn at_query(tokens: &[Token<'_>], at: usize, before: Kind) -> Foreign
    ensures { sorts.is_of_query result ≡ true }
{
    let is_named = matches!(before, Kind::Name | Kind::CloseBracket);
    if is_named
        && (is_before(tokens, at, 2, Kind::Assign)
            || has_in_statement(tokens, at, &TAKING_VALUES))
    {
        Foreign::ReceivedValue
    } else if is_named && is_before(tokens, at, 2, Kind::Comma) {
        Foreign::TwoMessages
    } else if matches!(kind_before(tokens, at, 2), Kind::Query | Kind::QueryQuery) {
        Foreign::MessageFields
    } else {
        Foreign::Conditional
    }
}

/// What a `(`, `[`, `{` or `?` is meant for.
fn at_opener(tokens: &[Token<'_>], at: usize, kind: Kind) -> Option<Foreign> {
    let before = kind_before(tokens, at, 1);
    match kind {
        Kind::OpenParen => at_paren(tokens, at),
        Kind::OpenBracket => at_bracket(tokens, at, before),
        Kind::OpenBrace if is_element(tokens, at) => Some(Foreign::Element),
        Kind::OpenBrace => form_for(before, &BRACES),
        Kind::Query => Some(at_query(tokens, at, before)),
        _ => None,
    }
}

/// What braces with nothing in them are meant for.
fn empty_braces(tokens: &[Token<'_>], at: usize) -> Foreign
    ensures { sorts.is_of_empty result ≡ true }
{
    match kind_before(tokens, at, 2) {
        Kind::Of => Foreign::NoFields,
        Kind::Mtype | Kind::Assign => Foreign::Enumeration,
        Kind::Name if is_before(tokens, at, 3, Kind::Typedef) => Foreign::Record,
        _ => Foreign::EmptyBody,
    }
}

/// Whether an option, braces or brackets have nothing in them where a token stands.
fn at_empty(tokens: &[Token<'_>], at: usize, kind: Kind) -> Option<Foreign>
    ensures { IfSome result (λ form. sorts.is_of_empty form ≡ true) }
{
    let before = kind_before(tokens, at, 1);
    match kind {
        Kind::Fi | Kind::Od | Kind::DoubleColon if same_kind(before, Kind::DoubleColon) => {
            Some(Foreign::EmptyOption)
        }
        Kind::DoubleColon if matches!(before, Kind::OpenBrace | Kind::Semicolon | Kind::Arrow) => {
            Some(Foreign::Cases)
        }
        Kind::CloseBrace if same_kind(before, Kind::OpenBrace) => Some(empty_braces(tokens, at)),
        Kind::CloseBracket if same_kind(before, Kind::OpenBracket) => {
            Some(empty_brackets(tokens, at, kind_before(tokens, at, 2)))
        }
        _ => None,
    }
}

/// What a `*` is meant for.
fn at_star(tokens: &[Token<'_>], at: usize, before: Kind) -> Option<Foreign>
    ensures { IfSome result (λ form. sorts.is_of_star form ≡ true) }
{
    if same_kind(kind_behind(tokens, at), Kind::Slash) {
        Some(Foreign::CommentEnd)
    } else if same_kind(before, Kind::Star) {
        Some(Foreign::Power)
    } else if is_type(before) {
        Some(Foreign::Pointer)
    } else {
        None
    }
}

/// Whether a name that is declared stands directly before a token.
fn is_declared_name(tokens: &[Token<'_>], at: usize) -> bool {
    let before = kind_before(tokens, at, 2);
    let declares = is_type(before) || matches!(before, Kind::Proctype | Kind::Typedef);
    declares && is_before(tokens, at, 1, Kind::Name)
}

/// What a sign of arithmetic is meant for.
fn at_operator(tokens: &[Token<'_>], at: usize, kind: Kind) -> Option<Foreign>
    ensures { IfSome result (λ form. sorts.is_of_operator form ≡ true) }
{
    let before = kind_before(tokens, at, 1);
    match kind {
        kind if is_comment(tokens, at, kind) => Some(Foreign::CommentSign),
        Kind::Star => at_star(tokens, at, before),
        Kind::Ampersand if is_type(before) => Some(Foreign::Pointer),
        Kind::Ampersand if matches!(before, Kind::Assign | Kind::OpenParen | Kind::Comma) => {
            Some(Foreign::Pointer)
        }
        Kind::Percent if is_in_statement(tokens, at, Kind::Printf) => Some(Foreign::PrintTexts),
        Kind::Plus | Kind::Percent if same_kind(before, Kind::Quoted) => Some(Foreign::PrintJoined),
        Kind::Minus | Kind::Dot if is_declared_name(tokens, at) => Some(Foreign::NameSigns),
        Kind::Tilde if same_kind(kind_behind(tokens, at), Kind::Assign) => Some(Foreign::Unequal),
        Kind::Increment | Kind::Decrement => Some(match kind_behind(tokens, at) {
            Kind::Name => Foreign::Prefix,
            Kind::Greater => Foreign::FatArrow,
            _ => Foreign::Postfix,
        }),
        _ => None,
    }
}

/// What a `<` is meant for.
fn at_less(tokens: &[Token<'_>], at: usize, before: Kind) -> Option<Foreign>
    ensures { IfSome result (λ form. sorts.is_of_less form ≡ true) }
{
    match before {
        Kind::Chan => Some(Foreign::Channel),
        Kind::Bang | Kind::BangBang => Some(Foreign::MessageFields),
        Kind::Assign if is_at(tokens, at.saturating_add(1), Kind::Minus) => {
            Some(Foreign::ReceivedValue)
        }
        Kind::Assign => Some(Foreign::LessEquals),
        _ => None,
    }
}

/// What a sign of a comparison or a condition is meant for.
fn at_comparison(tokens: &[Token<'_>], at: usize, kind: Kind) -> Option<Foreign>
    ensures { IfSome result (λ form. sorts.is_of_comparison form ≡ true) }
{
    let before = kind_before(tokens, at, 1);
    match kind {
        Kind::Less => at_less(tokens, at, before),
        Kind::Greater if same_kind(before, Kind::Less) => Some(Foreign::Unequal),
        Kind::Greater if same_kind(before, Kind::Assign) => Some(Foreign::GreaterEquals),
        Kind::Greater if same_kind(before, Kind::Equal) => Some(Foreign::FatArrow),
        Kind::Arrow if same_kind(before, Kind::Less) => Some(Foreign::Same),
        Kind::OrOr | Kind::AndAnd | Kind::Bar if is_in_statement(tokens, at, Kind::Run) => {
            Some(Foreign::Parallel)
        }
        _ => behind_receive(tokens, at),
    }
}

/// What a sign of a condition is meant for behind a receive.
fn behind_receive(tokens: &[Token<'_>], at: usize) -> Option<Foreign>
    ensures { IfSome result (λ form. sorts.is_of_comparison form ≡ true) }
{
    if has_in_statement(tokens, at, &RECEIVES) && !is_at(tokens, at, Kind::Arrow) {
        Some(Foreign::ReceiveInCondition)
    } else {
        None
    }
}

/// What a `:` is meant for.
fn at_colon(tokens: &[Token<'_>], at: usize, before: Kind) -> Option<Foreign>
    ensures { IfSome result (λ form. sorts.is_of_colon form ≡ true) }
{
    if is_at(tokens, at.saturating_add(1), Kind::Assign) {
        return Some(Foreign::ColonEquals);
    }
    match before {
        Kind::Else => Some(Foreign::ElseArrow),
        Kind::Number if begin_of(tokens, at).saturating_add(1) == at => Some(Foreign::LabelName),
        Kind::Name if is_before(tokens, at, 2, Kind::Goto) => Some(Foreign::GotoColon),
        Kind::Name if is_before(tokens, at, 2, Kind::Chan) => Some(Foreign::Channel),
        Kind::Name if is_type(kind_before(tokens, at, 2)) => Some(Foreign::OtherWidth),
        Kind::Name if is_type(kind_behind(tokens, at)) => Some(Foreign::TypeBehind),
        before if is_type(before) => Some(Foreign::TypeName),
        _ => None,
    }
}

/// Whether a `,` stands between names, of which the second is assigned.
fn is_between_names(tokens: &[Token<'_>], at: usize) -> bool {
    is_before(tokens, at, 1, Kind::Name)
        && is_at(tokens, at.saturating_add(1), Kind::Name)
        && is_at(tokens, at.saturating_add(2), Kind::Assign)
}

/// What a `,`, a `:` or a `.` is meant for.
fn at_separator(tokens: &[Token<'_>], at: usize, kind: Kind) -> Option<Foreign> {
    let before = kind_before(tokens, at, 1);
    match kind {
        Kind::Colon => at_colon(tokens, at, before),
        Kind::Dot if same_kind(before, Kind::Number) => Some(Foreign::Fraction),
        Kind::Dot if same_kind(before, Kind::Quoted) => Some(Foreign::PrintJoined),
        Kind::Dot => at_operator(tokens, at, kind),
        Kind::Comma if is_in_statement(tokens, at, Kind::Assert) => Some(Foreign::AssertText),
        Kind::Comma if is_between_names(tokens, at) => Some(Foreign::TwoAssignments),
        Kind::Comma if is_of_thousands(tokens, at) => Some(Foreign::Digits),
        _ => None,
    }
}

/// What a sign that no rule reads is meant for, by its neighbours.
fn form_of_sign(tokens: &[Token<'_>], at: usize, kind: Kind) -> Option<Foreign> {
    match kind {
        Kind::Assign => at_assign(tokens, at),
        Kind::OpenParen | Kind::OpenBracket | Kind::OpenBrace | Kind::Query => {
            at_opener(tokens, at, kind)
        }
        Kind::Fi | Kind::Od | Kind::DoubleColon | Kind::CloseBrace | Kind::CloseBracket => {
            at_empty(tokens, at, kind)
        }
        Kind::Less | Kind::Greater | Kind::Arrow | Kind::OrOr | Kind::AndAnd | Kind::Bar => {
            at_comparison(tokens, at, kind)
        }
        Kind::Equal | Kind::Unequal | Kind::AtMost | Kind::AtLeast => behind_receive(tokens, at),
        Kind::Comma | Kind::Colon | Kind::Dot => at_separator(tokens, at, kind),
        Kind::Bang | Kind::BangBang if is_in_statement(tokens, at, Kind::Bang) => {
            Some(Foreign::MessageFields)
        }
        _ => at_operator(tokens, at, kind),
    }
}

/// Whether a token closes or ends what a `,` directly before it goes on with.
fn is_behind_comma(tokens: &[Token<'_>], at: usize, kind: Kind) -> bool {
    is_before(tokens, at, 1, Kind::Comma)
        && matches!(
            kind,
            Kind::CloseBrace | Kind::CloseParen | Kind::CloseBracket | Kind::Semicolon
        )
}

/// What a token is meant for that stands where a list of names, a text or a body begins.
fn at_beginning(tokens: &[Token<'_>], at: usize) -> Option<Foreign>
    ensures { IfSome result (λ form. sorts.is_of_beginning form ≡ true) }
{
    if are_before(tokens, at, Kind::Mtype, Kind::Assign) {
        return Some(Foreign::Enumeration);
    }
    if are_before(tokens, at, Kind::Printf, Kind::OpenParen) {
        return Some(Foreign::PrintValue);
    }
    match kind_before(tokens, at, 1) {
        Kind::Init => Some(Foreign::Main),
        Kind::Atomic | Kind::DStep => Some(Foreign::BraceBody),
        Kind::CloseParen if is_in_statement(tokens, at, Kind::For) => Some(Foreign::LoopBody),
        _ => None,
    }
}

/// Whether a token stands behind the parameters of a proctype.
pub fn is_behind_head(tokens: &[Token<'_>], at: usize) -> bool {
    is_before(tokens, at, 1, Kind::CloseParen) && is_in_statement(tokens, at, Kind::Proctype)
}

/// What a token that no rule reads is meant for, by its neighbours.
pub fn form_at(tokens: &[Token<'_>], at: usize) -> Option<Foreign> {
    let kind = kind_at(tokens, at);
    if is_behind_comma(tokens, at, kind) {
        return Some(Foreign::LastComma);
    }
    if same_kind(kind, Kind::CloseParen) && is_before(tokens, at, 1, Kind::Semicolon) {
        return Some(Foreign::LastSemicolon);
    }
    if is_behind_head(tokens, at) {
        return Some(behind_head(tokens, at));
    }
    form_by_kind(tokens, at, kind).or(at_beginning(tokens, at))
}

/// The same by its own kind.
fn form_by_kind(tokens: &[Token<'_>], at: usize, kind: Kind) -> Option<Foreign> {
    let own = declared_form(tokens, at, kind).or(form_of_sign(tokens, at, kind));
    own.or(form_of_word(tokens, at, kind))
}
