//! Fields of records that are written behind `->`.

ghost use Rattle.std.specs.Prelude.{◌≡◌, IfSome};

use explain_cause::cause::{Finding, NameSort, Named, Reason, UnknownCause};
use explain_cause::place::{index_at, is_at};
use explain_syntax::stopped::{is_before, name_at};
use pml_token::token::{Kind, Token};

/// Whether a variable of this name is declared of a typedef.
fn is_record(tokens: &[Token<'_>], name: &[u8]) -> bool {
    for (i, token) in tokens.iter().enumerate() {
        if token.text() == name && is_before(tokens, i, 1, Kind::Name) {
            return true;
        }
    }
    false
}

/// The record in front of the `->` that stands before a place.
fn record_before<'t>(text: &'t [u8], tokens: &[Token<'_>], offset: usize) -> Option<Named<'t>> {
    let at = index_at(tokens, offset)?;
    let holder = at.checked_sub(2)?;
    let name = name_at(text, tokens, holder);
    let is_field = is_before(tokens, at, 1, Kind::Arrow) && is_at(tokens, holder, Kind::Name);
    if is_field && is_record(tokens, name.name) {
        Some(name)
    } else {
        None
    }
}

/// The same finding, or what is told of a field behind `->`.
fn told<'t>(text: &'t [u8], tokens: &[Token<'_>], finding: Finding<'t>) -> Option<Finding<'t>>
    ensures { IfSome result (λ found. found.place ≡ finding.entry.place) }
{
    match finding.cause {
        Reason::Unknown(UnknownCause::Nowhere(NameSort::Variable, field, _)) => {
            let holder = record_before(text, tokens, finding.place?.offset)?;
            Some(Finding {
                place: finding.place,
                cause: Reason::Unknown(UnknownCause::Arrow(holder, field)),
            })
        }
        _ => None,
    }
}

/// What is found of a name that is not declared, where it may be a field behind `->`.
pub fn with_fields<'t>(text: &'t [u8], tokens: &[Token<'_>], finding: Finding<'t>) -> Finding<'t>
    ensures { result.place ≡ finding.entry.place }
{
    match told(text, tokens, finding) {
        Some(found) => found,
        None => finding,
    }
}
