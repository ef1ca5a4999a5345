//! What becomes of each token where sizes are numbers.

ghost use Rattle.std.specs.Prelude.{◌≡◌, IfOk};
ghost use Rattle.computed_sizes.specs.Sized as sized;

use crate::worth::worth;
use pml_token::token::{Kind, same_kind};
use prepare::changed::Changed;
use prepare::sizes::DeclarationReading;
use prepare::stretch::Stretch;
use std::alloc::{AllocError, Global};

/// What becomes of a token.
#[derive(Clone, Copy)]
pub enum SizeChange {
    /// It stays.
    Kept,
    /// A number stands for it, which begins an expression.
    Number(u32),
    /// Blanks stand for it, which is another token of the expression.
    Blanked,
}

/// What is to be done before a token.
#[derive(Clone, Copy)]
pub enum SizePlace {
    Outside,
    /// A `[` stands here, and behind it an expression that comes to this number.
    Ahead(u32),
    /// The first token of that stands here.
    First(u32),
    /// Another one, or `]`.
    Within,
}

// What an expression comes to that stands in brackets at the front of stretches, and has more tokens than one.
fn size_ahead(stretches: &[Stretch<'_>]) -> Option<u32>
    ensures { result ≡ sized.size_ahead stretches.now }
{
    match stretches {
        [opening, back @ ..] => {
            if same_kind(opening.kind(), Kind::OpenBracket) && !is_single(back) {
                worth(back)
            } else {
                None
            }
        }
        _ => None,
    }
}

// Whether one token stands before a `]`.
fn is_single(stretches: &[Stretch<'_>]) -> bool
    ensures { result ≡ sized.is_single stretches.now }
{
    match stretches {
        [_, closing, ..] => same_kind(closing.kind(), Kind::CloseBracket),
        _ => false,
    }
}

fn ahead(size: Option<u32>) -> SizePlace
    ensures { result ≡ sized.ahead size }
{
    match size {
        Some(size) => {
            if size == 0 {
                SizePlace::Outside
            } else {
                SizePlace::Ahead(size)
            }
        }
        None => SizePlace::Outside,
    }
}

// Behind a token outside of such an expression, before these stretches.
fn behind_other(reading: DeclarationReading, kind: Kind, back: &[Stretch<'_>]) -> SizePlace
    ensures { result ≡ sized.behind_other reading kind back.now }
{
    if reading.declares(kind) && !reading.is_header {
        ahead(size_ahead(back))
    } else {
        SizePlace::Outside
    }
}

fn behind(
    place: SizePlace,
    reading: DeclarationReading,
    kind: Kind,
    back: &[Stretch<'_>],
) -> SizePlace
    ensures { result ≡ sized.behind place reading kind back.now }
{
    match place {
        SizePlace::Outside => behind_other(reading, kind, back),
        SizePlace::Ahead(size) => SizePlace::First(size),
        SizePlace::First(_) => SizePlace::Within,
        SizePlace::Within => {
            if same_kind(kind, Kind::CloseBracket) {
                SizePlace::Outside
            } else {
                SizePlace::Within
            }
        }
    }
}

fn change_at(place: SizePlace, kind: Kind) -> SizeChange
    ensures { result ≡ sized.change_at place kind }
{
    match place {
        SizePlace::First(size) => SizeChange::Number(size),
        SizePlace::Within => {
            if same_kind(kind, Kind::CloseBracket) {
                SizeChange::Kept
            } else {
                SizeChange::Blanked
            }
        }
        _ => SizeChange::Kept,
    }
}

/// What becomes of the tokens of a text.
pub fn changes<'t>(
    alloc: Global,
    stretches: &[Stretch<'t>],
) -> Result<Vec<Changed<'t, SizeChange>>, AllocError>
    ensures { IfOk result (λ v. v.items ≡ sized.changes stretches.now) }
{
    let mut out = Vec::new(alloc);
    let mut place = SizePlace::Outside;
    let mut reading = DeclarationReading::start();
    let mut rest = stretches;
    while let [stretch, back @ ..] = rest {
        let kind = stretch.kind();
        let token = stretch.token();
        out.push(Changed::new(stretch, change_at(place, kind)))?;
        place = behind(place, reading, kind, back);
        reading = reading.behind(kind, token);
        rest = back;
    }
    Ok(out)
}
