//! Breaks and d_steps.

ghost use Rattle.std.specs.Prelude.{◌≡◌, nat_eq, ◌&&◌, true, IfSome, IfOk};
ghost use Rattle.explain_condition.specs.Causes.{is_control};
ghost use Rattle.explain_condition.specs.Told as told_of;

use crate::sign::{Lookup, NamedMark, Saying, first_name, front, place_of_name, sign_at, sign_of};
use explain_cause::brackets::closing;
use explain_cause::cause::{ControlCause, Finding, Named, Reason, Segment};
use explain_cause::place::{place_of, untold};
use pml_token::token::{Kind, Token, same_kind};
use promela_model::mark::{Mark, What};
use std::alloc::{AllocError, Global};

/// How many breaks these marks are.
fn breaks_in(marks: &[Mark<'_>]) -> usize {
    let mut count = 0usize;
    for mark in marks {
        if let What::Break = &mark.what {
            count = count.saturating_add(1);
        }
    }
    count
}

/// The place of the `break` that a mark is, where `breaks` are how many bytes stand before each of the text.
fn break_place(breaks: &[Option<u32>], marks: &[Mark<'_>], at: usize) -> Option<Segment>
    ensures { IfSome result (λ place. place.length ≡ 5) }
{
    match breaks.get(breaks_in(front(marks, at))) {
        Some(Some(offset)) => Some(Segment {
            offset: *offset as usize,
            length: b"break".len(),
        }),
        _ => None,
    }
}

/// What is told of control, and where.
#[derive(Clone, Copy)]
struct Controlled<'t> {
    place: Option<Segment>,
    cause: ControlCause<'t>,
}

fn told(controlled: Controlled<'_>) -> Finding<'_>
    ensures place { result.place ≡ controlled.entry.place }
    ensures cause { is_control result.cause ≡ true }
{
    Finding {
        place: controlled.place,
        cause: Reason::Control(controlled.cause),
    }
}

/// Of a `break` that no `do` is round, which the mark at `at` is; `breaks` are how many bytes stand before each of the text.
pub fn of_break<'t>(breaks: &[Option<u32>], marks: &[Mark<'_>], at: usize) -> Finding<'t>
    ensures { is_control result.cause ≡ true }
{
    told(Controlled {
        place: break_place(breaks, marks, at),
        cause: ControlCause::LooseBreak,
    })
}

/// Whether a mark is a label or a goto whose name stands behind so many bytes of the text.
fn is_at(sign: NamedMark<'_>, offset: usize) -> bool
    ensures { result ≡ (told_of.is_goal sign.entry.matter && nat_eq sign.entry.name.offset offset) }
{
    matches!(sign.matter, Saying::Label | Saying::Goto) && sign.name.offset == offset
}

/// How many marks stand before the innermost d_step round the label or goto whose name is there.
fn step_of(
    alloc: Global,
    text: &[u8],
    marks: &[Mark<'_>],
    offset: usize,
) -> Result<Option<usize>, AllocError> {
    let mut open: Vec<Option<usize>> = Vec::new(alloc);
    let mut step = None;
    for (i, mark) in marks.iter().enumerate() {
        let sign = sign_of(text, mark);
        if is_at(sign, offset) {
            return Ok(step);
        }
        match sign.matter {
            Saying::Step => {
                open.push(step)?;
                step = Some(i);
            }
            Saying::Loop => open.push(step)?,
            Saying::Leave => step = open.pop().unwrap_or(None),
            _ => {}
        }
    }
    Ok(None)
}

/// Whether a goto leaves its d_step, or else enters another.
fn leaves(from: Option<usize>, to: Option<usize>) -> bool
    ensures { result ≡ told_of.leaves from to }
{
    match (from, to) {
        (Some(from), Some(to)) => to < from,
        (Some(_), None) => true,
        (None, _) => false,
    }
}

fn crossing<'t>(target: Named<'t>, from: Option<usize>, to: Option<usize>) -> ControlCause<'t>
    ensures { result ≡ told_of.crossing target.entry from to }
{
    if leaves(from, to) {
        ControlCause::GotoLeaves(target)
    } else {
        ControlCause::GotoEnters(target)
    }
}

/// Of a goto of the name to the target.
fn of_target<'t>(
    alloc: Global,
    text: &'t [u8],
    marks: &[Mark<'_>],
    name: Named<'t>,
    target: Named<'t>,
) -> Result<Option<Controlled<'t>>, AllocError>
    ensures { IfOk result (λ found. IfSome found (λ it. IfSome it.place (λ place. place.offset ≡ name.entry.offset))) }
{
    let from = step_of(alloc, text, marks, name.offset)?;
    let to = step_of(alloc, text, marks, target.offset)?;
    let place = Some(place_of_name(name));
    let cause = crossing(target, from, to);
    Ok(Some(Controlled { place, cause }))
}

fn of_goto<'t>(
    alloc: Global,
    text: &'t [u8],
    marks: &[Mark<'_>],
    owner: usize,
    name: Named<'t>,
) -> Result<Option<Controlled<'t>>, AllocError>
    ensures { IfOk result (λ found. IfSome found (λ it. IfSome it.place (λ place. place.offset ≡ name.entry.offset))) }
{
    match first_name(text, marks, Lookup::Label(owner), name.name) {
        Some(target) => of_target(alloc, text, marks, name, target),
        None => Ok(None),
    }
}

/// The place of the first `unless` in a d_step.
fn unless_place(tokens: &[Token<'_>]) -> Option<Segment> {
    let mut end = 0usize;
    for (i, token) in tokens.iter().enumerate() {
        if end <= i && same_kind(token.kind(), Kind::DStep) {
            end = closing(tokens, i.saturating_add(1)).unwrap_or(end);
        }
        if i < end && same_kind(token.kind(), Kind::Unless) {
            return Some(place_of(token));
        }
    }
    None
}

fn step_at<'t>(
    alloc: Global,
    text: &'t [u8],
    tokens: &[Token<'_>],
    breaks: &[Option<u32>],
    marks: &[Mark<'_>],
    at: usize,
) -> Result<Option<Controlled<'t>>, AllocError> {
    let sign = sign_at(text, marks, at);
    match sign.matter {
        Saying::Break => Ok(Some(Controlled {
            place: break_place(breaks, marks, at),
            cause: ControlCause::BreakOfStep,
        })),
        Saying::Unless => Ok(Some(Controlled {
            place: unless_place(tokens),
            cause: ControlCause::Unless,
        })),
        Saying::Goto => of_goto(alloc, text, marks, sign.owner, sign.name),
        _ => Ok(None),
    }
}

fn told_step(controlled: Option<Controlled<'_>>) -> Finding<'_>
    ensures { is_control result.cause ≡ true }
{
    match controlled {
        Some(controlled) => told(controlled),
        None => untold(),
    }
}

/// Of what enters or leaves a d_step, or an unless in one, in the mark at `at`; `breaks` are how many bytes stand before each `break`.
pub fn of_step<'t>(
    alloc: Global,
    text: &'t [u8],
    tokens: &[Token<'_>],
    breaks: &[Option<u32>],
    marks: &[Mark<'_>],
    at: usize,
) -> Result<Finding<'t>, AllocError>
    ensures { IfOk result (λ found. is_control found.cause ≡ true) }
{
    match step_at(alloc, text, tokens, breaks, marks, at) {
        Ok(controlled) => Ok(told_step(controlled)),
        Err(AllocError) => Err(AllocError),
    }
}
