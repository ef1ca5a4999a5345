//! Definitions and calls of inlines that are not right.

ghost use Rattle.std.specs.Prelude.{◌≡◌, Bool, true, IfSome};
ghost use Rattle.explain_find.specs.Inlines.{IsOfMisuse};

use crate::inlines::is_of_misuse;
use crate::kept::placeless;
use explain_cause::cause::{Finding, InlineCause, Named, Reason};
use explain_cause::place::{at_token, between, bytes_of, named, untold};
use explain_syntax::kinds::is_type;
use pml_token::token::{Kind, Token};
use promela_text::misuse::{Misuse, Rule};

/// What is told of a definition.
fn of_definition<'t>(rule: Rule, name: &'t [u8], definition: Named<'t>) -> InlineCause<'t> {
    match rule {
        Rule::Outside => InlineCause::Within,
        Rule::Body => InlineCause::OpenBody(definition.name),
        Rule::Parameters => InlineCause::ParameterTwice(name),
        Rule::Names => InlineCause::Twice(definition),
        _ => InlineCause::Form,
    }
}

/// What is told where a token of this name breaks a rule.
fn cause_of<'t>(rule: Rule, name: &'t [u8], definition: Named<'t>) -> InlineCause<'t> {
    match rule {
        Rule::Call => InlineCause::OpenCall(name),
        Rule::Arguments(given, wanted) => InlineCause::Arguments(definition, given, wanted),
        Rule::Empty => InlineCause::EmptyArgument(name),
        Rule::Recursion => InlineCause::CallsItself(name),
        Rule::Depth => InlineCause::TooDeep(name),
        Rule::Length => InlineCause::TooLong(name),
        rule => of_definition(rule, name, definition),
    }
}

/// Whether a name stands behind a word that declares something of it: `proctype` or a type.
fn is_taken(tokens: &[Token<'_>], at: usize) -> bool {
    match between(tokens, at.saturating_sub(1), at) {
        [before, ..] => {
            is_type(before.kind()) || matches!(before.kind(), Kind::Unsigned | Kind::Proctype)
        }
        [] => false,
    }
}

/// Whether a definition has its parameters, and no `{` behind them.
fn is_bodiless(tokens: &[Token<'_>], misuse: Misuse) -> bool {
    match between(tokens, misuse.at.saturating_sub(1), misuse.at) {
        [before, ..] => {
            matches!(misuse.rule, Rule::Form) && matches!(before.kind(), Kind::CloseParen)
        }
        [] => false,
    }
}

/// The token at a place of a list as a name, or an empty one.
fn name_at<'t>(text: &'t [u8], tokens: &[Token<'_>], at: usize) -> Named<'t> {
    match tokens.get(at) {
        Some(token) => named(text, token),
        None => Named {
            name: &text[..0],
            offset: 0,
        },
    }
}

/// What is found at the token that a misuse names.
fn found<'t>(text: &'t [u8], tokens: &[Token<'_>], misuse: Misuse) -> Finding<'t> {
    let Some(token) = tokens.get(misuse.at) else {
        return untold();
    };
    let definition = name_at(text, tokens, misuse.definition);
    let cause = if is_taken(tokens, misuse.at) {
        InlineCause::NameTaken(definition)
    } else if is_bodiless(tokens, misuse) {
        InlineCause::NoBody
    } else {
        cause_of(misuse.rule, bytes_of(text, token), definition)
    };
    at_token(token, Reason::Inline(cause))
}

/// Of a definition or a call of an inline that is not right.
pub fn of_misuse<'t>(text: &'t [u8], tokens: &[Token<'_>], misuse: Misuse) -> Finding<'t>
    ensures { IfSome result.place (IsOfMisuse tokens.now misuse) }
{
    let finding = found(text, tokens, misuse);
    match finding.place {
        Some(place) if is_of_misuse(tokens, misuse, place) => finding,
        _ => placeless(finding),
    }
}
