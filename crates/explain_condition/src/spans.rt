//! Where the parts of a declaration stand among the tokens.

ghost use Rattle.std.specs.Prelude.{◌≡◌, ◌≤◌, ◌<◌, true, IfSome};
ghost use Rattle.pml_token.specs.Word.{same_kind as equal};
ghost use Rattle.explain_cause.specs.Places.{kind_at as kind_there, offset_at};

use crate::sign::place_of_name;
use explain_cause::brackets::closing;
use explain_cause::cause::{Named, Segment};
use explain_cause::place::{closes, from, index_at, is_among, is_at, opens, place_of};
use pml_token::token::{Kind, Token, same_kind};

/// A part of a declaration.
#[derive(Clone, Copy)]
pub enum DeclarationPart {
    /// The size of an array.
    Size,
    /// The capacity of a channel.
    Capacity,
    Initialiser,
    /// How many processes of an `active` proctype begin.
    Count,
}

/// From the token at `first` to the one in front of `end`.
fn span(tokens: &[Token<'_>], first: usize, end: usize) -> Option<Segment>
    ensures offset { IfSome result (λ place. place.offset ≡ offset_at tokens.now first) }
    ensures some { IfSome result (λ place. 1 ≤ place.length) }
{
    let last = end.checked_sub(1)?;
    let from = place_of(tokens.get(first)?);
    let to = place_of(tokens.get(last)?);
    let behind = to.offset.saturating_add(to.length);
    Some(Segment {
        offset: from.offset,
        length: behind.saturating_sub(from.offset).max(1),
    })
}

/// What stands in the `[ ]` that the token at `open` opens.
fn inside(tokens: &[Token<'_>], open: usize) -> Option<Segment>
    ensures { IfSome result (λ place. 1 ≤ place.length) }
{
    let end = closing(tokens, open)?;
    span(tokens, open.saturating_add(1), end)
}

/// The size of the array whose name is the token at `name`.
fn size_place(tokens: &[Token<'_>], name: usize) -> Option<Segment>
    ensures { IfSome result (λ place. 1 ≤ place.length) }
{
    let behind = name.saturating_add(1);
    if is_at(tokens, behind, Kind::OpenBracket) {
        inside(tokens, behind)
    } else {
        None
    }
}

/// Where the initialiser of a variable stands: the `=` behind its name, its size and its width.
pub fn assign_of(tokens: &[Token<'_>], name: usize) -> Option<usize>
    ensures { IfSome result (λ at. equal (kind_there tokens.now at) Kind.Assign ≡ true) }
{
    let mut at = name.saturating_add(1);
    if is_at(tokens, at, Kind::OpenBracket) {
        at = closing(tokens, at)?.saturating_add(1);
    }
    if is_at(tokens, at, Kind::Colon) {
        at = at.saturating_add(2);
    }
    if is_at(tokens, at, Kind::Assign) {
        Some(at)
    } else {
        None
    }
}

/// The capacity of the channel whose name is the token at `name`.
fn capacity_place(tokens: &[Token<'_>], name: usize) -> Option<Segment>
    ensures { IfSome result (λ place. 1 ≤ place.length) }
{
    let assign = assign_of(tokens, name)?;
    inside(tokens, assign.saturating_add(1))
}

/// What ends the declaration of one variable.
const DECLARATION_ENDS: [Kind; 8] = [
    Kind::Comma,
    Kind::Semicolon,
    Kind::Arrow,
    Kind::CloseBrace,
    Kind::CloseParen,
    Kind::DoubleColon,
    Kind::Fi,
    Kind::Od,
];

/// Behind the last token of the expression that begins at `first`, as far as a declaration goes.
pub fn end_of_initialiser(tokens: &[Token<'_>], first: usize) -> usize {
    let mut depth = 0usize;
    for (i, token) in from(tokens, first).iter().enumerate() {
        if opens(token.kind()) {
            depth = depth.saturating_add(1);
        } else if depth == 0 && is_among(token.kind(), &DECLARATION_ENDS) {
            return first.saturating_add(i);
        } else if closes(token.kind()) {
            depth = depth.saturating_sub(1);
        }
    }
    tokens.len()
}

/// The initialiser of the variable whose name is the token at `name`.
pub fn initialiser_place(tokens: &[Token<'_>], name: usize) -> Option<Segment>
    ensures { IfSome result (λ place. 1 ≤ place.length) }
{
    let assign = assign_of(tokens, name)?;
    let first = assign.saturating_add(1);
    span(tokens, first, end_of_initialiser(tokens, first))
}

/// Where the number of processes of an `active` proctype begins, the last one in front of a token.
fn count_start(tokens: &[Token<'_>], end: usize) -> Option<usize> {
    let mut open = None;
    for (i, token) in tokens.iter().enumerate() {
        if i < end && same_kind(token.kind(), Kind::Active) {
            open = Some(i.saturating_add(2));
        }
    }
    open
}

/// The number of processes of the `active` proctype whose name is the token at `name`.
fn count_place(tokens: &[Token<'_>], name: usize) -> Option<Segment>
    ensures { IfSome result (λ place. 1 ≤ place.length) }
{
    let end = name.checked_sub(2)?;
    let start = count_start(tokens, end)?;
    span(tokens, start, end)
}

fn part_place(tokens: &[Token<'_>], name: usize, part: DeclarationPart) -> Option<Segment>
    ensures { IfSome result (λ place. 1 ≤ place.length) }
{
    match part {
        DeclarationPart::Size => size_place(tokens, name),
        DeclarationPart::Capacity => capacity_place(tokens, name),
        DeclarationPart::Initialiser => initialiser_place(tokens, name),
        DeclarationPart::Count => count_place(tokens, name),
    }
}

/// A part of the declaration of this name, or the name where there is none.
pub fn place_in(tokens: &[Token<'_>], name: Named<'_>, part: DeclarationPart) -> Segment {
    let place = match index_at(tokens, name.offset) {
        Some(index) => part_place(tokens, index, part),
        None => None,
    };
    match place {
        Some(place) => place,
        None => place_of_name(name),
    }
}
