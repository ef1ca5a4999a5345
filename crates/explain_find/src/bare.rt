//! Names that are declared nowhere: inlines without the parentheses of their call, and those that stand alone as a statement.

ghost use Rattle.std.specs.Prelude.{◌≡◌};

use explain_cause::cause::{Finding, NameSort, Reason, UnknownCause};
use explain_cause::place::is_among;
use explain_syntax::definition_of;
use explain_syntax::kinds::PARTING;
use pml_token::token::{Kind, Token};

/// The name that is declared nowhere, where a variable is wanted.
fn lacking<'t>(cause: Reason<'t>) -> Option<&'t [u8]> {
    match cause {
        Reason::Unknown(UnknownCause::Nowhere(NameSort::Variable, name, _)) => Some(name),
        Reason::Unknown(UnknownCause::Foreign(name, _)) => Some(name),
        Reason::Unknown(UnknownCause::Word(name, _)) => Some(name),
        _ => None,
    }
}

/// Whether a name is a statement by itself where so many bytes stand before it.
fn is_statement(tokens: &[Token<'_>], offset: usize) -> bool {
    let mut before = Kind::End;
    let mut is_there = false;
    for token in tokens {
        if is_there {
            return is_among(before, &PARTING) && is_among(token.kind(), &PARTING);
        }
        is_there = token.line() as usize == offset;
        before = if is_there { before } else { token.kind() };
    }
    false
}

/// What is told of a name that is declared nowhere and is a statement by itself.
fn alone<'t>(tokens: &[Token<'_>], finding: Finding<'t>) -> Option<Reason<'t>> {
    let place = finding.place?;
    match finding.cause {
        Reason::Unknown(UnknownCause::Nowhere(NameSort::Variable, name, None)) => {
            if is_statement(tokens, place.offset) {
                Some(Reason::Unknown(UnknownCause::Bare(name)))
            } else {
                None
            }
        }
        _ => None,
    }
}

/// The same cause, or that a name is one of an inline, or a statement by itself.
fn told<'t>(text: &'t [u8], tokens: &[Token<'_>], finding: Finding<'t>) -> Reason<'t> {
    if let Some(name) = lacking(finding.cause) {
        if let Some(inline) = definition_of(text, tokens, name) {
            return Reason::Unknown(UnknownCause::Inline(inline));
        }
    }
    match alone(tokens, finding) {
        Some(cause) => cause,
        None => finding.cause,
    }
}

/// The same finding, where a name that is declared nowhere may be one of an inline of the text, or a statement by itself.
pub fn with_inline<'t>(text: &'t [u8], tokens: &[Token<'_>], finding: Finding<'t>) -> Finding<'t>
    ensures { result.place ≡ finding.entry.place }
{
    Finding {
        place: finding.place,
        cause: told(text, tokens, finding),
    }
}
