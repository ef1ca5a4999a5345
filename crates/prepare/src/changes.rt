//! Writes what this profile has in place of subtypes of `mtype`, and of a `for` over an array.

ghost use Rattle.std.specs.Prelude.{◌≡◌, ◌≤◌, ◌<◌, ◌++◌, drop, length, IfOk, OnOk};
ghost use Rattle.std.specs.Fmt.{decimal};
ghost use Rattle.prepare.specs.Sizes.{declared, agreed};
ghost use Rattle.prepare.specs.Changes as changes;
ghost use Rattle.prepare.specs.Found.{AreSizes};

use crate::changed::Changed;
use crate::markers::MOST_LINE;
use crate::sizes::{ArraySizes, is_in, sizes_of};
use crate::spelling::{add_blanks, add_feeds};
use crate::stretch::Stretch;
use itoa::Buffer;
use pml_token::token::{Kind, same_kind};
use std::alloc::{AllocError, Global};

/// What the tokens before one are the beginning of.
#[derive(Clone, Copy)]
pub enum PhraseHead {
    Outside,
    /// `mtype`.
    Typed,
    /// `mtype` and a colon.
    Subtyped,
    /// `for`.
    For,
    /// `for` and `(`.
    Enters,
    /// These, and a name.
    Counts,
    /// These, and `in`.
    In,
}

/// What becomes of a token.
#[derive(Clone, Copy)]
pub enum Respelling {
    /// It stays.
    Kept,
    /// It stays, and this profile has nothing for it.
    Left,
    /// Blanks stand for it.
    Blanked,
    /// `:` stands for it.
    Colon,
    /// The range from 0 to this number stands for it.
    Range(u32),
}

fn begun(kind: Kind) -> PhraseHead
    ensures { result ≡ changes.begun kind }
{
    match kind {
        Kind::Mtype => PhraseHead::Typed,
        Kind::For => PhraseHead::For,
        _ => PhraseHead::Outside,
    }
}

fn head_behind(head: PhraseHead, kind: Kind, token: &[u8]) -> PhraseHead
    ensures { result ≡ changes.head_behind head kind token.now }
{
    match head {
        PhraseHead::Typed => {
            if same_kind(kind, Kind::Colon) {
                PhraseHead::Subtyped
            } else {
                begun(kind)
            }
        }
        PhraseHead::For => {
            if same_kind(kind, Kind::OpenParen) {
                PhraseHead::Enters
            } else {
                begun(kind)
            }
        }
        PhraseHead::Enters => {
            if same_kind(kind, Kind::Name) {
                PhraseHead::Counts
            } else {
                begun(kind)
            }
        }
        PhraseHead::Counts => {
            if is_in(kind, token) {
                PhraseHead::In
            } else {
                begun(kind)
            }
        }
        _ => begun(kind),
    }
}

fn begins_with(kind: Kind, stretches: &[Stretch<'_>]) -> bool
    ensures { result ≡ changes.begins_with kind stretches.now }
{
    match stretches {
        [stretch, ..] => same_kind(stretch.kind(), kind),
        _ => false,
    }
}

fn last_of(elements: Option<u32>) -> Option<u32>
    ensures { result ≡ changes.last_of elements }
{
    match elements {
        Some(count) => { if count > 0 { Some(count - 1) } else { None } }
        None => None,
    }
}

/// The number of the last element of an array that stands at the front of some of the stretches.
fn last_element(
    sizes: &ArraySizes<'_>,
    all: &[Stretch<'_>],
    stretches: &[Stretch<'_>],
) -> Option<u32>
    requires sizes { AreSizes sizes.now.numbers all.now }
    ensures { result ≡ changes.last_element (declared all.now) stretches.now }
{
    match stretches {
        [stretch, back @ ..] => {
            if same_kind(stretch.kind(), Kind::Name) && begins_with(Kind::CloseParen, back) {
                last_of(sizes.find(stretch.token()))
            } else {
                None
            }
        }
        _ => None,
    }
}

fn colon(is_range: bool) -> Respelling
    ensures { result ≡ changes.colon is_range }
{
    if is_range {
        Respelling::Colon
    } else {
        Respelling::Kept
    }
}

fn range(last: Option<u32>) -> Respelling
    ensures { result ≡ changes.range last }
{
    match last {
        Some(last) => Respelling::Range(last),
        None => Respelling::Left,
    }
}

/// What becomes of the colon behind `mtype`, where these stretches stand behind it.
fn colon_of_subtype(stretches: &[Stretch<'_>]) -> Respelling
    ensures { result ≡ changes.colon_of_subtype stretches.now }
{
    if begins_with(Kind::Name, stretches) {
        Respelling::Blanked
    } else {
        Respelling::Left
    }
}

/// What becomes of the token at the front of some of the stretches.
fn change_at(
    sizes: &ArraySizes<'_>,
    all: &[Stretch<'_>],
    head: PhraseHead,
    stretches: &[Stretch<'_>],
) -> Respelling
    requires sizes { AreSizes sizes.now.numbers all.now }
    ensures { result ≡ changes.change_at (declared all.now) head stretches.now }
{
    let [stretch, back @ ..] = stretches else {
        return Respelling::Kept
    };
    match head {
        PhraseHead::Typed => {
            if same_kind(stretch.kind(), Kind::Colon) {
                colon_of_subtype(back)
            } else {
                Respelling::Kept
            }
        }
        PhraseHead::Subtyped => {
            if same_kind(stretch.kind(), Kind::Name) {
                Respelling::Blanked
            } else {
                Respelling::Kept
            }
        }
        PhraseHead::Counts => colon(
            is_in(stretch.kind(), stretch.token()) && last_element(sizes, all, back).is_some(),
        ),
        PhraseHead::In => range(last_element(sizes, all, stretches)),
        _ => Respelling::Kept,
    }
}

/// What becomes of the stretches of a text that has its separators.
///
/// The colon of a subtype of `mtype` and the name behind it become blanks: the names of all subtypes are of one type here. `for (i in a)`
/// becomes `for (i : 0 .. 4)` where all declarations of `a` in the text are of an array of five elements.
pub fn exchanges<'t>(
    alloc: Global,
    stretches: &[Stretch<'t>],
) -> Result<Vec<Changed<'t, Respelling>>, AllocError>
    ensures { IfOk result (λ v. v.items ≡ changes.exchanges stretches.now) }
{
    let sizes = sizes_of(alloc, stretches)?;
    let mut out = Vec::new(alloc);
    let mut head = PhraseHead::Outside;
    let mut rest = stretches;
    while let [stretch, back @ ..] = rest {
        out.push(Changed::new(stretch, change_at(&sizes, stretches, head, rest)))?;
        head = head_behind(head, stretch.kind(), stretch.token());
        rest = back;
    }
    Ok(out)
}

fn add_numbers(out: &mut Vec<u8>, last: u32) -> Result<(), AllocError>
    ensures { OnOk result (out.new.items ≡ out.old.items ++ changes.numbers last) }
{
    out.extend_from_slice(b"0 .. ")?;
    let mut digits = Buffer::new();
    out.extend_from_slice(digits.format(last.min(MOST_LINE)).as_bytes())
}

fn add_shown(out: &mut Vec<u8>, change: Respelling, token: &[u8]) -> Result<(), AllocError>
    ensures { OnOk result (out.new.items ≡ out.old.items ++ changes.shown change token.now) }
{
    match change {
        Respelling::Kept | Respelling::Left => out.extend_from_slice(token),
        Respelling::Blanked => add_blanks(out, token),
        Respelling::Colon => {
            out.push(b':')?;
            add_feeds(out, token)
        }
        Respelling::Range(last) => {
            add_numbers(out, last)?;
            add_feeds(out, token)
        }
    }
}

fn add_exchange(out: &mut Vec<u8>, exchange: &Changed<'_, Respelling>) -> Result<(), AllocError>
    ensures { OnOk result (out.new.items ≡ out.old.items ++ changes.respelled_one exchange.now) }
{
    out.extend_from_slice(exchange.gap())?;
    add_shown(out, exchange.change(), exchange.token())
}

/// What is written of all.
pub fn respelled(alloc: Global, all: &[Changed<'_, Respelling>]) -> Result<Vec<u8>, AllocError>
    ensures { IfOk result (λ v. v.items ≡ changes.respelled all.now) }
{
    let mut out = Vec::new(alloc);
    for exchange in all {
        add_exchange(&mut out, exchange)?;
    }
    Ok(out)
}
