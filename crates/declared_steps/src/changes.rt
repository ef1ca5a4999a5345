//! What becomes of each token where declarations are steps.

ghost use Rattle.std.specs.Prelude.{◌≡◌, IfOk};
ghost use Rattle.declared_steps.specs.Changes as changes;

use crate::stage::{DeclarationStage, PendingStep, ends, item_behind};
use pml_token::token::{Kind, same_kind};
use prepare::stretch::Stretch;
use std::alloc::{AllocError, Global};
use std::marker::Model;

/// What becomes of a token. `NAME` is the name that was declared last, or its first element; `TYPE` is its type.
#[derive(Clone, Copy)]
pub enum StepChange {
    /// It stays.
    Kept,
    /// `; NAME` stands before it, which is `=`; whether the name is an array.
    Assigned(bool),
    /// `; NAME = 0` stands before it, which is a comma, and `; TYPE` stands for it; whether the name is an array.
    Cleared(bool),
    /// `; TYPE` stands for it, which is a comma.
    Parted,
    /// `; NAME = 0` stands before it; whether the name is an array.
    Ended(bool),
}

/// A token, with what becomes of it.
#[derive(Drop)]
pub struct SteppedToken<'t> {
    gap: &'t [u8],
    token: &'t [u8],
    change: StepChange,
    name: &'t [u8],
    word: &'t [u8],
}

impl<'t> Model for SteppedToken<'t> {
    ghost use Rattle.declared_steps.specs.SteppedToken.{SteppedToken as Seen};

    ghost Value = { Seen };

    ghost view = { λ c. record { gap = c.gap.now; token = c.token.now; change = c.change; name = c.name.now; word = c.word.now } };
}

impl<'t> SteppedToken<'t> {
    /// The blanks and comments before the token.
    pub fn gap(&self) -> &'t [u8]
        ensures { result.now ≡ self.now.gap }
    {
        self.gap
    }

    /// The token.
    pub fn token(&self) -> &'t [u8]
        ensures { result.now ≡ self.now.token }
    {
        self.token
    }

    /// What becomes of it.
    pub fn change(&self) -> StepChange
        ensures { result ≡ self.now.change }
    {
        self.change
    }

    /// The name that was declared last before it.
    pub fn name(&self) -> &'t [u8]
        ensures { result.now ≡ self.now.name }
    {
        self.name
    }

    /// The type of that.
    pub fn word(&self) -> &'t [u8]
        ensures { result.now ≡ self.now.word }
    {
        self.word
    }
}

// What becomes of a token of a channel, which is left without a value.
fn change_of_channel(kind: Kind, is_array: bool, item: PendingStep) -> StepChange
    ensures { result ≡ changes.change_of_channel kind is_array item }
{
    if same_kind(kind, Kind::Assign) && matches!(item, PendingStep::Valued) {
        StepChange::Assigned(is_array)
    } else {
        StepChange::Kept
    }
}

// Whether a stretch is this name.
fn is_name(name: &[u8], stretch: &Stretch<'_>) -> bool
    ensures { result ≡ changes.is_name name.now stretch.now }
{
    same_kind(stretch.kind(), Kind::Name) && stretch.token() == name
}

// Whether a name stands before the end of a statement.
fn reads(name: &[u8], stretches: &[Stretch<'_>]) -> bool
    ensures { result ≡ changes.reads name.now stretches.now }
{
    let mut rest = stretches;
    while let [stretch, back @ ..] = rest {
        if ends(stretch.kind()) {
            return false;
        }
        if is_name(name, stretch) {
            return true;
        }
        rest = back;
    }
    false
}

// Whether a value that is not made of the name is assigned at the front of stretches.
fn is_new(name: &[u8], stretches: &[Stretch<'_>]) -> bool
    ensures { result ≡ changes.is_new name.now stretches.now }
{
    match stretches {
        [sign, back @ ..] => same_kind(sign.kind(), Kind::Assign) && !reads(name, back),
        _ => false,
    }
}

// Whether `[0]` stands before what assigns such a value.
fn is_first_new(name: &[u8], stretches: &[Stretch<'_>]) -> bool
    ensures { result ≡ changes.is_first_new name.now stretches.now }
{
    match stretches {
        [opening, number, closing, back @ ..] => {
            (same_kind(opening.kind(), Kind::OpenBracket)
                && (number.token() == b"0".as_slice()
                    && same_kind(closing.kind(), Kind::CloseBracket)))
                && is_new(name, back)
        }
        _ => false,
    }
}

// Whether a value that is not made of the name is assigned to it, or to its first element, at the front of stretches.
fn is_set(is_array: bool, name: &[u8], stretches: &[Stretch<'_>]) -> bool
    ensures { result ≡ changes.is_set is_array name.now stretches.now }
{
    match stretches {
        [one, back @ ..] => {
            is_name(name, one)
                && (if is_array {
                    is_first_new(name, back)
                } else {
                    is_new(name, back)
                })
        }
        _ => false,
    }
}

// Whether a `for` stands at the front of stretches, which assigns a number to a name at once.
fn is_counted(name: &[u8], stretches: &[Stretch<'_>]) -> bool
    ensures { result ≡ changes.is_counted name.now stretches.now }
{
    match stretches {
        [word, opening, one, colon, number, dots, ..] => {
            (same_kind(word.kind(), Kind::For) && same_kind(opening.kind(), Kind::OpenParen))
                && (is_name(name, one)
                    && (same_kind(colon.kind(), Kind::Colon)
                        && (same_kind(number.kind(), Kind::Number)
                            && same_kind(dots.kind(), Kind::DotDot))))
        }
        _ => false,
    }
}

// Whether a value follows a declaration at once.
fn is_given(is_array: bool, name: &[u8], stretches: &[Stretch<'_>]) -> bool
    ensures { result ≡ changes.is_given is_array name.now stretches.now }
{
    is_set(is_array, name, stretches) || is_counted(name, stretches)
}

// What becomes of the end of a declaration without a value.
fn change_of_end(is_array: bool, kind: Kind, name: &[u8], back: &[Stretch<'_>]) -> StepChange
    ensures { result ≡ changes.change_of_end is_array kind name.now back.now }
{
    if same_kind(kind, Kind::Semicolon) && is_given(is_array, name, back) {
        StepChange::Kept
    } else {
        StepChange::Ended(is_array)
    }
}

fn change_of_variable(is_array: bool, kind: Kind, name: &[u8], back: &[Stretch<'_>]) -> StepChange
    ensures { result ≡ changes.change_of_variable is_array kind name.now back.now }
{
    if same_kind(kind, Kind::Assign) {
        StepChange::Assigned(is_array)
    } else if same_kind(kind, Kind::Comma) {
        StepChange::Cleared(is_array)
    } else if ends(kind) {
        change_of_end(is_array, kind, name, back)
    } else {
        StepChange::Kept
    }
}

// What becomes of a token that stands in no brackets of the declaration.
fn change_of(item: PendingStep, kind: Kind, name: &[u8], back: &[Stretch<'_>]) -> StepChange
    ensures { result ≡ changes.change_of item kind name.now back.now }
{
    match item {
        PendingStep::Nothing => StepChange::Kept,
        PendingStep::Named(is_array, is_channel) => {
            if is_channel {
                change_of_channel(kind, is_array, item_behind(item, kind, back))
            } else {
                change_of_variable(is_array, kind, name, back)
            }
        }
        PendingStep::Valued => {
            if same_kind(kind, Kind::Comma) {
                StepChange::Parted
            } else {
                StepChange::Kept
            }
        }
    }
}

fn change_at(stage: DeclarationStage, kind: Kind, name: &[u8], back: &[Stretch<'_>]) -> StepChange
    ensures { result ≡ changes.change_at stage kind name.now back.now }
{
    if stage.reading.depth == 0 {
        change_of(stage.item, kind, name, back)
    } else {
        StepChange::Kept
    }
}

// Of two texts the first, where that is asked for.
fn either<'t>(is_first: bool, one: &'t [u8], other: &'t [u8]) -> &'t [u8]
    ensures { result.now ≡ changes.either is_first one.now other.now }
{
    if is_first { one } else { other }
}

/// What becomes of the tokens of a text where declarations are steps.
pub fn changes<'t>(
    alloc: Global,
    stretches: &[Stretch<'t>],
) -> Result<Vec<SteppedToken<'t>>, AllocError>
    ensures { IfOk result (λ v. v.items ≡ changes.changes stretches.now) }
{
    let mut out = Vec::new(alloc);
    let mut stage = DeclarationStage::start();
    let mut last: &'t [u8] = b"";
    let mut name: &'t [u8] = b"";
    let mut word: &'t [u8] = b"";
    let mut rest = stretches;
    while let [stretch, back @ ..] = rest {
        let kind = stretch.kind();
        let token = stretch.token();
        out.push(SteppedToken {
            gap: stretch.gap(),
            token,
            change: change_at(stage, kind, name, back),
            name,
            word,
        })?;
        word = either(stage.is_first(kind), last, word);
        name = either(stage.reading.declares(kind), token, name);
        stage = stage.behind(kind, token, back);
        last = token;
        rest = back;
    }
    Ok(out)
}
