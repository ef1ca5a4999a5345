//! What becomes of each token where one name is divided.

ghost use Rattle.std.specs.Prelude.{◌≡◌, IfOk};
ghost use Rattle.names_apart.specs.Changes as changes;

use crate::scope::{Force, NameScope, is_name, more};
use crate::tally::{InlineCount, count_at};
use pml_token::token::Kind;
use prepare::changed::Changed;
use prepare::stretch::Stretch;
use std::alloc::{AllocError, Global};

/// What becomes of a token.
#[derive(Clone, Copy)]
pub enum NameChange {
    /// It stays.
    Kept,
    /// The name with this number stands for it.
    Named(u32),
    /// Names with numbers from the first on stand before it, so many; whether nothing else stands before them.
    Passed(u32, u32, bool),
}

// The number that is written: in an inline one more, since there the name is a parameter, which is to be no field.
pub(crate) fn index(is_inline: bool, number: u32) -> u32
    ensures { result ≡ changes.index is_inline number }
{
    if is_inline { more(number, 1) } else { number }
}

// The number of the first declaration of a call.
fn first(force: Force) -> u32
    ensures { result ≡ changes.first force }
{
    if force.level > 0 {
        force.number
    } else {
        more(force.number, 1)
    }
}

// The declaration that a token is of.
fn force_at(scope: NameScope, name: &[u8], kind: Kind, token: &[u8]) -> Force
    ensures { result ≡ changes.force_at scope name.now kind token.now }
{
    if scope.declares(name, kind, token) {
        scope.force_behind(name, kind, token)
    } else {
        scope.force
    }
}

fn named(is_inline: bool, force: Force) -> NameChange
    ensures { result ≡ changes.named is_inline force }
{
    if force.level > 0 {
        NameChange::Named(index(is_inline, force.number))
    } else {
        NameChange::Kept
    }
}

fn change_at(scope: NameScope, name: &[u8], kind: Kind, token: &[u8]) -> NameChange
    ensures { result ≡ changes.change_at scope name.now kind token.now }
{
    if is_name(name, kind, token) {
        if scope.is_field || scope.is_header() {
            return NameChange::Kept;
        }
        return named(scope.is_inline, force_at(scope, name, kind, token));
    }
    if scope.ends_call(kind) {
        let call = scope.call;
        return NameChange::Passed(
            index(scope.is_inline, first(scope.force)),
            call.within,
            call.is_bare,
        );
    }
    NameChange::Kept
}

/// What becomes of the tokens of a text where a name is divided which these inlines declare.
pub fn changes<'t>(
    alloc: Global,
    name: &[u8],
    table: &[InlineCount<'_>],
    stretches: &[Stretch<'t>],
) -> Result<Vec<Changed<'t, NameChange>>, AllocError>
    ensures { IfOk result (λ v. v.items ≡ changes.changes name.now table.now stretches.now) }
{
    let mut out = Vec::new(alloc);
    let mut scope = NameScope::start();
    let mut rest = stretches;
    while let [stretch, back @ ..] = rest {
        let kind = stretch.kind();
        let token = stretch.token();
        out.push(Changed::new(stretch, change_at(scope, name, kind, token)))?;
        scope = scope.behind(name, count_at(table, kind, token), kind, token);
        rest = back;
    }
    Ok(out)
}
