//! What becomes of each token where the names of an `mtype` have one comma between them.

ghost use Rattle.std.specs.Prelude.{◌≡◌, IfOk};
ghost use Rattle.mtype_commas.specs.Changes as changes;

use crate::place::{MtypePlace, behind};
use pml_token::token::{Kind, same_kind};
use prepare::changed::Changed;
use prepare::stretch::Stretch;
use std::alloc::{AllocError, Global};

/// What becomes of a token.
#[derive(Clone, Copy)]
pub enum CommaChange {
    /// It stays.
    Kept,
    /// A blank stands for it, which is a comma.
    Blanked,
    /// A comma stands before it, which is a name.
    Parted,
}

/// Whether the names end at the front of stretches, or another comma stands there.
fn is_spare(stretches: &[Stretch<'_>]) -> bool
    ensures { result ≡ changes.is_spare stretches.now }
{
    match stretches {
        [stretch, ..] => {
            same_kind(stretch.kind(), Kind::CloseBrace) || same_kind(stretch.kind(), Kind::Comma)
        }
        _ => false,
    }
}

/// What becomes of a token among names, before these stretches.
fn change_within(is_named: bool, kind: Kind, back: &[Stretch<'_>]) -> CommaChange
    ensures { result ≡ changes.change_within is_named kind back.now }
{
    if same_kind(kind, Kind::Comma) && is_spare(back) {
        CommaChange::Blanked
    } else if same_kind(kind, Kind::Name) && is_named {
        CommaChange::Parted
    } else {
        CommaChange::Kept
    }
}

fn change_at(place: MtypePlace, kind: Kind, back: &[Stretch<'_>]) -> CommaChange
    ensures { result ≡ changes.change_at place kind back.now }
{
    match place {
        MtypePlace::Within(is_named) => change_within(is_named, kind, back),
        _ => CommaChange::Kept,
    }
}

/// What becomes of the tokens of a text.
pub fn changes<'t>(
    alloc: Global,
    stretches: &[Stretch<'t>],
) -> Result<Vec<Changed<'t, CommaChange>>, AllocError>
    ensures { IfOk result (λ v. v.items ≡ changes.changes stretches.now) }
{
    let mut out = Vec::new(alloc);
    let mut place = MtypePlace::Outside;
    let mut rest = stretches;
    while let [stretch, back @ ..] = rest {
        let kind = stretch.kind();
        out.push(Changed::new(stretch, change_at(place, kind, back)))?;
        place = behind(place, kind);
        rest = back;
    }
    Ok(out)
}
