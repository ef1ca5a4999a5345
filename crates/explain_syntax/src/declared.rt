//! Slips of declarations and of words that have one form: names side by side or without a type, and what cannot stand there.

ghost use Rattle.std.specs.Prelude.{◌≡◌, true, ◌&&◌, IfSome};
ghost use Rattle.explain_syntax.specs.Wanted as sorts;
ghost use Rattle.explain_syntax.specs.Beside as beside;
ghost use Rattle.explain_cause.specs.Places.{is_among as among};
ghost use Rattle.pml_token.specs.declared.token.Kind.TheVariants.{Name};

use crate::called::{call_at, definition_of, name_behind};
use crate::kinds::{
    CHANNEL_QUESTIONS, DECLARATION_ENDS, NO_LABELS, OF_CONDITIONS, PLAIN_TYPES, RECEIVES,
    STATEMENT_ENDS, SUMS, is_type,
};
use crate::stopped::{
    are_before, begin_of, begins_line, has_in_statement, is_before, is_in_statement, is_open,
    kind_before, kind_behind, name_at,
};
use crate::words::foreign_beside;
use explain_cause::brackets::closing;
use explain_cause::cause::{Expected, Named};
use explain_cause::foreign::Foreign;
use explain_cause::place::{between, is_among, is_at, kind_at};
use pml_token::token::{Kind, Token, same_kind};

/// Whether a name that a type stands before stands directly before a token.
fn is_typed_name(tokens: &[Token<'_>], at: usize) -> bool
    ensures { result ≡ (beside.is_before tokens.now at 1 Name && among (beside.kind_before tokens.now at 2) PLAIN_TYPES) }
{
    is_before(tokens, at, 1, Kind::Name) && is_among(kind_before(tokens, at, 2), &PLAIN_TYPES)
}

/// What a sign behind the name of a parameter is meant for.
pub fn behind_parameter(
    tokens: &[Token<'_>],
    opener: usize,
    at: usize,
    kind: Kind,
) -> Option<Foreign>
    ensures { IfSome result (λ form. sorts.is_within form ≡ true) }
{
    if !is_before(tokens, opener, 2, Kind::Proctype) || !is_typed_name(tokens, at) {
        return None;
    }
    match kind {
        Kind::OpenBracket => Some(Foreign::ParameterArray),
        Kind::Assign => Some(Foreign::ParameterValue),
        _ => None,
    }
}

/// Whether a range of a loop has one end alone where its `)` stands.
pub fn is_half_range(tokens: &[Token<'_>], opener: usize, at: usize) -> bool
    ensures { result ≡ beside.is_half_range tokens.now opener at }
{
    let has_colon = is_at(tokens, opener.saturating_add(2), Kind::Colon);
    is_before(tokens, opener, 1, Kind::For) && has_colon && is_at(tokens, at, Kind::CloseParen)
}

/// Whether a name without a type stands directly before a token that ends a declaration.
fn is_untyped(tokens: &[Token<'_>], opener: Option<usize>, at: usize) -> bool {
    if !is_among(kind_at(tokens, at), &DECLARATION_ENDS) || !is_before(tokens, at, 1, Kind::Name) {
        return false;
    }
    let before = kind_before(tokens, at, 2);
    match opener {
        Some(open) if is_before(tokens, open, 2, Kind::Typedef) => {
            matches!(before, Kind::OpenBrace | Kind::Semicolon)
        }
        None => matches!(before, Kind::Semicolon | Kind::CloseBrace),
        _ => false,
    }
}

/// The second of two names side by side, directly before a token, in a declaration that begins with a type.
fn second_before<'t>(text: &'t [u8], tokens: &[Token<'_>], at: usize) -> Option<Named<'t>> {
    let ends = is_among(kind_at(tokens, at), &DECLARATION_ENDS) || is_at(tokens, at, Kind::Assign);
    let is_declared = is_among(kind_at(tokens, begin_of(tokens, at)), &PLAIN_TYPES);
    if ends && is_declared && are_before(tokens, at, Kind::Name, Kind::Name) {
        Some(name_at(text, tokens, at.saturating_sub(1)))
    } else {
        None
    }
}

/// The same where the second name is the token itself, and begins no line.
fn second_at<'t>(text: &'t [u8], tokens: &[Token<'_>], at: usize) -> Option<Named<'t>> {
    let is_named = is_at(tokens, at, Kind::Name) && is_typed_name(tokens, at);
    let name = name_at(text, tokens, at);
    if is_named
        && is_among(kind_behind(tokens, at), &DECLARATION_ENDS)
        && !begins_line(text, name.offset)
    {
        Some(name)
    } else {
        None
    }
}

/// What is told of the name directly before a token: the one of a proctype, or of what has no type.
fn without_type<'t>(text: &'t [u8], tokens: &[Token<'_>], at: usize) -> Expected<'t>
    ensures { sorts.is_untyped result ≡ true }
{
    let name = name_at(text, tokens, at.saturating_sub(1));
    match name_behind(text, tokens, Kind::Proctype, name.name) {
        Some(proctype) => Expected::RunOf(proctype, name),
        None => Expected::Untyped(name),
    }
}

/// What is told of names in a declaration: one without a type, or two side by side.
pub fn names_beside<'t>(
    text: &'t [u8],
    tokens: &[Token<'_>],
    opener: Option<usize>,
    at: usize,
) -> Option<Expected<'t>>
    ensures { IfSome result (λ wish. sorts.is_beside wish ≡ true) }
{
    if foreign_beside(text, tokens, at).is_some() {
        return None;
    }
    if is_untyped(tokens, opener, at) {
        return Some(without_type(text, tokens, at));
    }
    let second = second_before(text, tokens, at).or(second_at(text, tokens, at));
    Some(Expected::CommaBefore(second?))
}

/// Whether a sign that computes or stores stands behind an argument of a receive.
fn is_of_receive(tokens: &[Token<'_>], at: usize, kind: Kind) -> bool {
    let receives = has_in_statement(tokens, at, &RECEIVES);
    let is_behind = matches!(kind_before(tokens, at, 1), Kind::Name | Kind::Number);
    let is_sign = is_among(kind, &SUMS) || same_kind(kind, Kind::Assign);
    is_sign && is_behind && receives && !is_in_statement(tokens, at, Kind::Eval)
}

/// Whether a `<` stands behind the `?` of a token's statement.
fn is_peek(tokens: &[Token<'_>], at: usize) -> bool {
    let mut receives = false;
    for token in between(tokens, begin_of(tokens, at), at) {
        if receives && matches!(token.kind(), Kind::Less) {
            return true;
        }
        receives = matches!(token.kind(), Kind::Query | Kind::QueryQuery);
    }
    false
}

/// What a token is meant for that stands behind a word that takes one thing alone.
fn behind_word(tokens: &[Token<'_>], at: usize, kind: Kind) -> Option<Foreign>
    ensures { IfSome result (λ form. sorts.is_behind_word form ≡ true) }
{
    match kind_before(tokens, at, 1) {
        Kind::Else if is_among(kind, &OF_CONDITIONS) => Some(Foreign::ElseCondition),
        Kind::Increment | Kind::Decrement
            if is_among(kind, &OF_CONDITIONS) || is_among(kind, &SUMS) => { Some(Foreign::Postfix) }
        Kind::Goto if is_among(kind, &NO_LABELS) => Some(Foreign::GotoLabel),
        Kind::DoubleColon if same_kind(kind, Kind::Arrow) => Some(Foreign::OptionArrow),
        Kind::Unless if is_among(kind, &STATEMENT_ENDS) => Some(Foreign::Try),
        Kind::Eval if same_kind(kind, Kind::Name) => Some(Foreign::EvalParens),
        Kind::True | Kind::False if same_kind(kind, Kind::OpenParen) => {
            Some(Foreign::ValueParens)
        }
        before if is_among(before, &CHANNEL_QUESTIONS) && same_kind(kind, Kind::Name) => {
            Some(Foreign::ChannelParens)
        }
        Kind::Assert | Kind::Printf | Kind::Printm | Kind::Eval
            if matches!(kind, Kind::OpenBrace | Kind::OpenBracket) => { Some(Foreign::CallParens) }
        _ => None,
    }
}

/// Whether a token stands directly behind the braces round the fields of a channel.
fn is_behind_fields(tokens: &[Token<'_>], at: usize) -> bool {
    let mut is_of_fields = false;
    let mut before = Kind::End;
    for token in between(tokens, 0, at) {
        if matches!(token.kind(), Kind::OpenBrace) {
            is_of_fields = same_kind(before, Kind::Of);
        }
        before = token.kind();
    }
    is_of_fields && same_kind(before, Kind::CloseBrace)
}

/// Whether a type, a name and parentheses stand in front of a `{`, as in the definition of a function; the parentheses begin at `at`.
pub fn is_function(tokens: &[Token<'_>], at: usize) -> bool {
    match closing(tokens, at) {
        Some(end) => is_typed_name(tokens, at)
            && is_at(tokens, end.saturating_add(1), Kind::OpenBrace),
        None => false,
    }
}

/// What a token behind the parameters of a proctype is meant for.
pub fn behind_head(tokens: &[Token<'_>], at: usize) -> Foreign {
    let begins_other = is_at(tokens, at.saturating_add(1), Kind::Proctype)
        || is_at(tokens, at.saturating_add(4), Kind::Proctype);
    if is_at(tokens, at, Kind::Active) && !begins_other {
        Foreign::ActiveProctype
    } else {
        Foreign::BodyBrace
    }
}

/// What a token is meant for by its own kind and what stands before it.
pub fn declared_form(tokens: &[Token<'_>], at: usize, kind: Kind) -> Option<Foreign>
    ensures { IfSome result (λ form. sorts.is_of_declaration form ≡ true) }
{
    let is_valued = is_type(kind_before(tokens, at, 1));
    match kind {
        Kind::Assign if are_before(tokens, at, Kind::Unsigned, Kind::Name) => Some(Foreign::Width),
        Kind::OpenBracket if is_behind_fields(tokens, at) => Some(Foreign::Size),
        Kind::OpenBrace if are_before(tokens, at, Kind::Mtype, Kind::Name) => {
            Some(Foreign::NamedMtype)
        }
        Kind::Equal if is_typed_name(tokens, at) => Some(Foreign::DeclaredEqual),
        Kind::Proctype | Kind::Inline | Kind::Init if is_valued => Some(Foreign::ProctypeType),
        kind if is_among(kind, &STATEMENT_ENDS) && is_peek(tokens, at) => Some(Foreign::PeekEnd),
        kind if is_of_receive(tokens, at, kind) => Some(Foreign::ReceiveValue),
        kind => behind_word(tokens, at, kind),
    }
}

/// What a word of another language is meant for where it stands: `in` and a range are a condition but in the head of a loop, and `done` is a label
/// where no loop is open.
pub fn meant_at(tokens: &[Token<'_>], at: usize, foreign: Foreign) -> Foreign {
    let has_range = is_at(tokens, at.saturating_add(2), Kind::DotDot);
    let is_of_loop = is_in_statement(tokens, at, Kind::For);
    match foreign {
        Foreign::In if has_range && is_of_loop => Foreign::LoopIn,
        Foreign::In if has_range => Foreign::InRange,
        Foreign::EndLoop if !is_open(tokens, at, &[Kind::Do], &[Kind::Od]) => Foreign::LabelColon,
        foreign => foreign,
    }
}

/// The inline whose name stands where another thing has it.
pub fn inline_at<'t>(
    text: &'t [u8],
    originals: &[Token<'_>],
    tokens: &[Token<'_>],
    at: usize,
) -> Option<Expected<'t>>
    ensures { IfSome result (λ wish. sorts.is_inline_name wish ≡ true) }
{
    let before = kind_before(tokens, at, 1);
    let is_named = matches!(before, Kind::Proctype | Kind::Typedef | Kind::Run);
    if !is_named && !is_among(before, &PLAIN_TYPES) {
        return None;
    }
    let call = call_at(text, originals, tokens, at)?;
    let definition = definition_of(text, originals, call.name)?;
    Some(match before {
        Kind::Run => Expected::InlineRun(call, definition),
        _ => Expected::NameOfInline(call, definition),
    })
}
