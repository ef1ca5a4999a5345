//! What the fault of a statement was about: an index, a channel's number, or how many fields.

ghost use Rattle.std.specs.Prelude.{◌≡◌, IfSome, Err};
ghost use Rattle.promela_process.specs.Expressions.{val};
ghost use Rattle.pml_value.specs.Seen.{seen};
ghost use Rattle.view_text.specs.Written.{Stays};

use crate::offers::offered;
use diagnostics::Fault;
use pml_eval::eval::{eval, place};
use pml_eval::ground::Ground;
use pml_program::expr::{Expr, Target, Turn, Want};
use pml_program::program::{Action, Basic};
use pml_value::view::{View, named};
use promela_run::moves::{Move, Pick};
use run_state::live::Live;
use view_text::writer::Writer;

/// What a fault was about.
#[derive(Clone, Copy, Debug, PartialEq, Eq)]
pub enum Detail {
    /// An index, and how many elements its array has.
    Index(i32, u32),
    /// A number that no live channel has.
    Channel(i32),
    /// How many fields are given, and how many the channel has.
    Fields(usize, usize),
}

// Of an index: that it is none of its array's, or the fault in its own value.
#[cycle(detail)]
fn of_index(turn: &Turn, view: &View<'_>, fault: Fault) -> Option<Detail> {
    let index = turn.index.as_ref()?;
    match eval(index.get(), view) {
        Ok(number) => {
            if fault == Fault::IndexOutOfRange && !is_within(number, turn.length) {
                Some(Detail::Index(number, turn.length))
            } else {
                None
            }
        }
        Err(_) => of_value(index.get(), view, fault),
    }
}

fn is_within(number: i32, length: u32) -> bool {
    match u32::try_from(number) {
        Ok(number) => number < length,
        Err(_) => false,
    }
}

// Of a reference: of the first of its indices that comes to the fault.
#[cycle(detail)]
fn of_target(target: &Target, view: &View<'_>, fault: Fault) -> Option<Detail> {
    for turn in target.turns.as_slice() {
        if let Some(detail) = of_index(turn, view, fault) {
            return Some(detail);
        }
    }
    None
}

// Of a channel that is named with so many fields, or is asked how full it is.
#[cycle(detail)]
fn of_channel(
    target: &Target,
    count: Option<usize>,
    view: &View<'_>,
    fault: Fault,
) -> Option<Detail> {
    let Ok(at) = place(target, view) else {
        return of_target(target, view, fault);
    };
    let number = view.number(at);
    match (fault, named(view.channels, number), count) {
        (Fault::NoSuchChannel, None, _) => Some(Detail::Channel(number)),
        (Fault::WrongNumberOfFields, Some(channel), Some(given)) => {
            let wanted = channel.types().len();
            if given != wanted {
                Some(Detail::Fields(given, wanted))
            } else {
                None
            }
        }
        _ => None,
    }
}

// Of the first of these expressions that comes to the fault.
fn of_list(list: &[Expr], view: &View<'_>, fault: Fault) -> Option<Detail> {
    for one in list {
        if let Some(detail) = of_value(one, view, fault) {
            return Some(detail);
        }
    }
    None
}

// Of the first of these arguments of a receive that comes to the fault.
#[cycle(detail)]
fn of_wants(wants: &[Want], view: &View<'_>, fault: Fault) -> Option<Detail> {
    for want in wants {
        let found = match want {
            Want::Equal(e) => of_value(e.get(), view, fault),
            Want::Into(target) => of_target(target, view, fault),
            _ => None,
        };
        if found.is_some() {
            return found;
        }
    }
    None
}

// Of the parts of an expression that comes to the fault, from the left.
#[cycle(detail)]
fn of_parts(e: &Expr, view: &View<'_>, fault: Fault) -> Option<Detail> {
    match e {
        Expr::Read(target) => of_target(target, view, fault),
        Expr::Ask(_, target) => of_channel(target.get(), None, view, fault),
        Expr::Poll(target, _, wants) => {
            let wants = wants.as_slice();
            let found = of_channel(target.get(), Some(wants.len()), view, fault);
            found.or(of_wants(wants, view, fault))
        }
        Expr::Unary(_, a) => of_value(a.get(), view, fault),
        Expr::Binary(_, a, b) => {
            let found = of_value(a.get(), view, fault);
            found.or(of_value(b.get(), view, fault))
        }
        Expr::Choice(a, b, c) => {
            let found = of_value(a.get(), view, fault);
            found
                .or(of_value(b.get(), view, fault))
                .or(of_value(c.get(), view, fault))
        }
        _ => None,
    }
}

/// What the fault of an expression was about, where its value is this fault.
#[cycle(detail)]
pub fn of_value(e: &Expr, view: &View<'_>, fault: Fault) -> Option<Detail>
    ensures { IfSome result (λ _. val e.now (seen view.now) ≡ Err fault) }
{
    match eval(e, view) {
        Err(found) if found == fault => of_parts(e, view, fault),
        _ => None,
    }
}

fn of_place(target: Option<&Target>, view: &View<'_>, fault: Fault) -> Option<Detail> {
    of_target(target?, view, fault)
}

// Of a statement, in the order in which it is evaluated.
fn of_action<'w>(action: &'w Action<'w>, view: &View<'_>, fault: Fault) -> Option<Detail> {
    match action {
        Action::Else => None,
        Action::Assign(target, e) => {
            of_value(e, view, fault).or(of_place(target.as_ref(), view, fault))
        }
        Action::Printm(e) | Action::Assert(e) | Action::Holds(e) => of_value(e, view, fault),
        Action::AssignRun(target, run) => {
            let found = of_list(run.arguments.as_slice(), view, fault);
            found.or(of_place(target.as_ref(), view, fault))
        }
        Action::Run(run) => of_list(run.arguments.as_slice(), view, fault),
        Action::Increment(target) | Action::Decrement(target) => of_target(target, view, fault),
        Action::Send(target, _, fields) => {
            let fields = fields.as_slice();
            let found = of_channel(target, Some(fields.len()), view, fault);
            found.or(of_list(fields, view, fault))
        }
        Action::Receive(target, _, _, wants) => {
            let wants = wants.as_slice();
            let found = of_channel(target, Some(wants.len()), view, fault);
            found.or(of_wants(wants, view, fault))
        }
        Action::Printf(_, arguments) => of_list(arguments.as_slice(), view, fault),
    }
}

fn of_pick(live: &Live<'_, '_>, pick: Pick, timeout: bool, fault: Fault) -> Option<Detail> {
    let (view, basic) = offered(live, pick, timeout)?;
    match basic {
        Some(Basic::Plain(action)) => of_action(action, &view, fault),
        _ => None,
    }
}

/// What the fault of a move was about: of a pair first of its sender. Of what stands within a d_step nothing is told.
pub fn detail_of(live: &Live<'_, '_>, m: &Move, fault: Fault) -> Option<Detail> {
    match m {
        Move::Death(_) => None,
        Move::Alone(pick, timeout) => of_pick(live, *pick, *timeout, fault),
        Move::Pair(sender, receiver, timeout) => {
            let found = of_pick(live, *sender, *timeout, fault);
            found.or(of_pick(live, *receiver, *timeout, fault))
        }
    }
}

// Writes `1 field` or `3 fields`.
fn add_count(count: usize, what: &[u8], out: &mut Writer)
    ensures { Stays out.old out.new }
{
    out.number(count);
    out.add(what);
    if count != 1 {
        out.add(b"s");
    }
}

/// Writes a line with what a fault was about: `  index 7: the array has 3 elements`; none, where there is nothing to tell.
pub fn add_detail(detail: Option<Detail>, out: &mut Writer)
    ensures { Stays out.old out.new }
{
    match detail {
        None => return,
        Some(Detail::Index(number, length)) => {
            out.add(b"  index ");
            out.signed(number);
            out.add(b": the array has ");
            add_count(length as usize, b" element", out);
        }
        Some(Detail::Channel(0)) => out.add(b"  channel 0: no channel was put there"),
        Some(Detail::Channel(number)) => {
            out.add(b"  channel ");
            out.signed(number);
            out.add(b": no channel has this number");
        }
        Some(Detail::Fields(given, wanted)) => {
            out.add(b"  ");
            add_count(given, b" field", out);
            out.add(b" here, and the channel has ");
            out.number(wanted);
        }
    }
    out.add(b"\n");
}
