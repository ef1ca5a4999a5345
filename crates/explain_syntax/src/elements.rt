//! Elements of arrays, numbers and comments that are written as elsewhere.

ghost use Rattle.std.specs.Prelude.{◌≡◌, true};
ghost use Rattle.explain_syntax.specs.Wanted as sorts;

use crate::kinds::is_type;
use crate::stopped::{are_before, begin_of, is_before};
use explain_cause::cause::Expected;
use explain_cause::foreign::Foreign;
use explain_cause::place::{is_at, kind_at};
use pml_token::token::{Kind, Token};

/// Whether a declaration stands in front of a token in its statement.
pub fn is_declaration(tokens: &[Token<'_>], at: usize) -> bool {
    let first = kind_at(tokens, begin_of(tokens, at));
    is_type(first) || matches!(first, Kind::Unsigned | Kind::Proctype | Kind::Active)
}

/// What brackets with nothing in them are meant for, where this stands before them.
pub fn empty_brackets(tokens: &[Token<'_>], at: usize, before: Kind) -> Foreign
    ensures { sorts.is_of_empty result ≡ true }
{
    match before {
        Kind::Assign => Foreign::Channel,
        Kind::Name if !is_declaration(tokens, at) => Foreign::EmptyIndex,
        _ => Foreign::EmptyBrackets,
    }
}

/// What a `,` in brackets is meant for.
pub fn in_brackets<'t>(tokens: &[Token<'_>], opener: usize) -> Expected<'t>
    ensures { sorts.is_list result ≡ true }
{
    if !is_before(tokens, opener, 1, Kind::Name) {
        Expected::NoList
    } else if is_declaration(tokens, opener) {
        Expected::Form(Foreign::TwoSizes)
    } else {
        Expected::Form(Foreign::TwoIndexes)
    }
}

/// Whether a sign begins a statement, as one that begins a comment elsewhere.
pub fn is_comment(tokens: &[Token<'_>], at: usize, kind: Kind) -> bool {
    let is_sign = match kind {
        Kind::Slash | Kind::Percent => true,
        Kind::Decrement => is_at(tokens, at.saturating_add(2), Kind::Name),
        _ => false,
    };
    is_sign && begin_of(tokens, at) == at
}

/// Whether a `,` stands between a number that is stored and three digits.
pub fn is_of_thousands(tokens: &[Token<'_>], at: usize) -> bool {
    let behind = at.saturating_add(1);
    let is_three = match tokens.get(behind) {
        Some(token) => token.text().len() == 3,
        None => false,
    };
    is_three
        && are_before(tokens, at, Kind::Assign, Kind::Number)
        && is_at(tokens, behind, Kind::Number)
}
