//! Numbers out of range, and too many cells.

ghost use Rattle.std.specs.Prelude.{◌≡◌, true, false, option_map, IfSome};
ghost use Rattle.explain_condition.specs.Causes.{is_range};
ghost use Rattle.explain_condition.specs.Told as told_of;

use crate::sign::{
    NamedMark, Saying, behind, front, is_declared, last_proctype, next_name, place_of_name, sign_at,
};
use crate::spans::{DeclarationPart, place_in};
use explain_cause::cause::{Finding, Named, RangeCause, Reason, Segment};
use explain_cause::place::{at_place, untold};
use pml_token::token::Token;
use profile::MOST_FIELDS;
use promela_model::mark::{Constant, Mark};

/// A number that is out of range, and where it shows.
#[derive(Clone, Copy)]
struct Ranged<'t> {
    place: Segment,
    cause: RangeCause<'t>,
}

/// A cause, by what a constant expression gives.
fn of_constant<'t>(name: &'t [u8], constant: Constant, outside: RangeCause<'t>) -> RangeCause<'t>
    ensures outside { told_of.is_number constant ≡ true → result ≡ outside.entry }
    ensures divided { told_of.is_number constant ≡ false → told_of.is_divided result ≡ true }
{
    match constant {
        Constant::Is(_) => outside,
        _ => RangeCause::Divides(name),
    }
}

fn number_of(constant: Constant) -> i32 {
    match constant {
        Constant::Is(n) => n,
        _ => 0,
    }
}

fn of_name<'t>(name: Named<'t>, cause: RangeCause<'t>) -> Ranged<'t>
    ensures place { result.place.offset ≡ name.entry.offset }
    ensures cause { result.cause ≡ cause.entry }
{
    let place = place_of_name(name);
    Ranged { place, cause }
}

fn of_starts<'t>(tokens: &[Token<'_>], name: Named<'t>, constant: Constant) -> Ranged<'t>
    ensures { told_of.is_of_starts result.cause ≡ true }
{
    let outside = RangeCause::Count(name.name, number_of(constant));
    Ranged {
        place: place_in(tokens, name, DeclarationPart::Count),
        cause: of_constant(name.name, constant, outside),
    }
}

fn of_channel<'t>(
    tokens: &[Token<'_>],
    name: Named<'t>,
    constant: Constant,
    fields: usize,
) -> Ranged<'t>
    ensures { told_of.is_of_channel result.cause ≡ true }
{
    if fields > MOST_FIELDS && matches!(constant, Constant::Is(0..=65535)) {
        return of_name(name, RangeCause::Fields(name.name, fields));
    }
    let outside = RangeCause::Capacity(name.name, number_of(constant));
    Ranged {
        place: place_in(tokens, name, DeclarationPart::Capacity),
        cause: of_constant(name.name, constant, outside),
    }
}

fn of_size<'t>(tokens: &[Token<'_>], name: Named<'t>, constant: Constant) -> Ranged<'t>
    ensures { told_of.is_of_size result.cause ≡ true }
{
    let outside = RangeCause::Size(name.name, number_of(constant));
    Ranged {
        place: place_in(tokens, name, DeclarationPart::Size),
        cause: of_constant(name.name, constant, outside),
    }
}

/// Of a size, a channel or an initialiser in the declaration of this name.
fn of_declared<'t>(tokens: &[Token<'_>], name: Named<'t>, matter: Saying) -> Ranged<'t>
    ensures { told_of.is_of_declared result.cause ≡ true }
{
    match matter {
        Saying::Channel(constant, fields) => of_channel(tokens, name, constant, fields),
        Saying::Misplaced(constant, fields) => of_channel(tokens, name, constant, fields),
        Saying::Size(constant) => of_size(tokens, name, constant),
        _ => Ranged {
            place: place_in(tokens, name, DeclarationPart::Initialiser),
            cause: RangeCause::Divides(name.name),
        },
    }
}

/// Of a count, or of what stands in the next declaration.
fn of_value<'t>(
    text: &'t [u8],
    tokens: &[Token<'_>],
    marks: &[Mark<'_>],
    at: usize,
    matter: Saying,
) -> Option<Ranged<'t>>
    ensures { IfSome result (λ it. told_of.is_of_value it.cause ≡ true) }
{
    if let Saying::Starts(constant) = matter {
        let name = last_proctype(text, front(marks, at))?;
        return Some(of_starts(tokens, name, constant));
    }
    let name = next_name(text, behind(marks, at))?;
    Some(of_declared(tokens, name, matter))
}

fn range_at<'t>(
    text: &'t [u8],
    tokens: &[Token<'_>],
    marks: &[Mark<'_>],
    at: usize,
) -> Option<Ranged<'t>> {
    let sign = sign_at(text, marks, at);
    let name = sign.name;
    match sign.matter {
        Saying::Number => Some(of_name(name, RangeCause::Number(name.name))),
        Saying::Width => Some(of_name(name, RangeCause::Width(name.name))),
        Saying::Constant => Some(of_name(name, RangeCause::Constants(name.name))),
        matter => of_value(text, tokens, marks, at, matter),
    }
}

fn told(ranged: Option<Ranged<'_>>) -> Finding<'_>
    ensures place { result.place ≡ option_map (λ r. r.place) ranged.entry }
    ensures cause { is_range result.cause ≡ true }
{
    match ranged {
        Some(ranged) => at_place(ranged.place, Reason::Range(ranged.cause)),
        None => untold(),
    }
}

/// Of a number out of range, in the mark at `at`.
pub fn of_range<'t>(
    text: &'t [u8],
    tokens: &[Token<'_>],
    marks: &[Mark<'_>],
    at: usize,
) -> Finding<'t>
    ensures { is_range result.cause ≡ true }
{
    told(range_at(text, tokens, marks, at))
}

/// Of what has too many cells, and the marks from it on.
fn of_sign<'t>(text: &'t [u8], rest: &[Mark<'_>], sign: NamedMark<'t>) -> Option<Ranged<'t>>
    ensures { IfSome result (λ it. told_of.is_of_cells it.cause ≡ true) }
{
    match sign.matter {
        Saying::Channel(_, _) | Saying::Misplaced(_, _) => {
            let name = next_name(text, rest)?;
            Some(of_name(name, RangeCause::ChannelCells(name.name)))
        }
        matter => {
            if is_declared(matter) {
                Some(of_name(sign.name, RangeCause::Cells(sign.name.name)))
            } else {
                None
            }
        }
    }
}

/// Of too many cells, in the mark at `at`.
pub fn of_cells<'t>(text: &'t [u8], marks: &[Mark<'_>], at: usize) -> Finding<'t>
    ensures { is_range result.cause ≡ true }
{
    told(of_sign(text, behind(marks, at), sign_at(text, marks, at)))
}
