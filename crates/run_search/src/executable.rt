//! When a statement can be taken by itself.

ghost use Rattle.std.specs.Prelude.{◌≡◌, Bool, true, IfOk, IfErr, Ok, Err, Some, length};
ghost use Rattle.pml_tree.specs.declared.tree.SendOrder.{SendOrder};
ghost use Rattle.pml_tree.specs.declared.tree.Removal.{Removal};
ghost use Rattle.pml_program.specs.declared.program.Action.TheVariants.{Send, Receive};
ghost use Rattle.promela_process.specs.Expressions.{val, asked_by};
ghost use Rattle.promela_run.specs.State.{channel_at as numbered_at};
ghost use Rattle.pml_value.specs.Seen.{seen};
ghost use Rattle.run_search.specs.Fields.{evaluated};
ghost use Rattle.promela_run.specs.Moves.{named as names, or_fault, can_send as sends, can_receive as receives};
ghost use Rattle.promela_run.specs.Statements.{values};
ghost use Rattle.run_search.specs.Lifted.{nonzero};
ghost use Rattle.run_search.specs.Viewed.{can_by};
ghost use Rattle.run_search.specs.Taking.{TakesAny, EachTakesAny};

use diagnostics::Fault;
use pml_channel::channel::Channel;
use pml_eval::eval::{eval, has_match, place};
use pml_eval::ground::Ground;
use pml_program::expr::{Expr, Target, Want};
use pml_program::program::Action;
use pml_tree::tree::Search;
use pml_value::view::{View, named as channel_at};
use profile::MOST_PROCESSES;

/// The channel that a variable names, with its number, where it has so many fields.
#[inline(always)]
pub fn named<'w>(
    view: &View<'w>,
    target: &Target,
    count: usize,
) -> Result<(i32, &'w Channel), Fault>
    ensures ok { IfOk result (λ c. names view.now.channels.now (seen view.now) target.now count ≡ Ok (record { number = c.0; contents = c.1.now })) }
    ensures err { IfErr result (λ f. names view.now.channels.now (seen view.now) target.now count ≡ Err f) }
{
    let at = place(target, view)?;
    let number = view.number(at);
    match channel_at(view.channels, number) {
        None => Err(Fault::NoSuchChannel),
        Some(channel) => {
            if channel.types().len() == count {
                Ok((number, channel))
            } else {
                Err(Fault::WrongNumberOfFields)
            }
        }
    }
}

/// The first fault from the left in the values of expressions, if there is one.
#[inline(always)]
pub fn first_fault_of(list: &[Expr], view: &View<'_>) -> Result<(), Fault>
    ensures { result ≡ evaluated (values list.now (seen view.now)) }
{
    for one in list {
        eval(one, view)?;
    }
    Ok(())
}

/// Whether a condition holds, or comes to a fault.
#[inline(never)]
fn holds(view: &View<'_>, value: &Expr) -> bool
    ensures { result ≡ or_fault (nonzero (val value.now (seen view.now))) }
{
    match eval(value, view) {
        Ok(number) => number != 0,
        Err(_) => true,
    }
}

/// Whether a send can be taken by itself.
#[inline(always)]
pub(crate) fn can_send(
    view: &View<'_>,
    lossy: bool,
    in_d_step: bool,
    channel: &Channel,
    fields: &[Expr],
) -> bool
    ensures { result ≡ or_fault (sends lossy in_d_step channel.now (values fields.now (seen view.now))) }
{
    if channel.capacity() != 0 {
        return lossy || channel.len() < usize::from(channel.capacity());
    }
    !in_d_step && first_fault_of(fields, view).is_err()
}

/// Whether an argument takes any number, as a variable and `_` do.
#[inline(always)]
#[tactic(auto, using(crate::proofs::Taking::into_any, crate::proofs::Taking::anything_any))]
fn takes_any(argument: &Want) -> bool
    ensures { result ≡ true → TakesAny argument.now }
{
    match argument {
        Want::Into(_) | Want::Anything => true,
        _ => false,
    }
}

/// Whether each argument takes any number.
#[inline(always)]
#[tactic(auto, using(crate::proofs::Taking::also_any))]
fn take_any(arguments: &[Want]) -> bool
    ensures { result ≡ true → EachTakesAny arguments.now }
{
    for argument in arguments {
        if !takes_any(argument) {
            return false;
        }
    }
    true
}

/// Whether a receive from the channel with this number can be taken by itself: the oldest message will do where any is asked.
#[tactic(auto, using(crate::proofs::Taking::received))]
fn can_receive(
    view: &View<'_>,
    search: Search,
    number: i32,
    channel: &Channel,
    arguments: &[Want],
) -> bool
    requires { numbered_at view.now.channels.now number ≡ Some channel.now }
    ensures { result ≡ or_fault (receives search channel.now (asked_by arguments.now (seen view.now))) }
{
    if channel.capacity() == 0 || channel.len() == 0 {
        return false;
    }
    if take_any(arguments) && channel.message(0).len() == arguments.len() {
        return true;
    }
    match has_match(arguments, search, number, view) {
        Ok(found) => found,
        Err(_) => true,
    }
}

/// Whether a send to a channel can be taken by itself.
#[inline(never)]
fn can_send_to(
    view: &View<'_>,
    lossy: bool,
    in_d_step: bool,
    target: &Target,
    fields: &[Expr],
) -> bool
    ensures { (order : SendOrder) → result ≡ can_by lossy in_d_step view.now (Send target.now order fields.now) }
{
    match named(view, target, fields.len()) {
        Ok((_, channel)) => can_send(view, lossy, in_d_step, channel, fields),
        Err(_) => true,
    }
}

/// Whether a receive from a channel can be taken by itself.
#[inline(never)]
#[tactic(auto, using(crate::proofs::Naming::named_at))]
fn can_receive_from(view: &View<'_>, search: Search, target: &Target, arguments: &[Want]) -> bool
    ensures { (lossy in_d_step : Bool) (removal : Removal) → result ≡ can_by lossy in_d_step view.now (Receive target.now search removal arguments.now) }
{
    match named(view, target, arguments.len()) {
        Ok((number, channel)) => can_receive(view, search, number, channel, arguments),
        Err(_) => true,
    }
}

/// Whether a statement can be taken by itself, where messages to full channels are lost or not, inside a d_step or not. What has no value
/// can: to take it is the fault.
pub fn can_be_taken(view: &View<'_>, lossy: bool, in_d_step: bool, action: &Action<'_>) -> bool
    ensures { result ≡ can_by lossy in_d_step view.now action.now }
{
    match action {
        Action::Holds(value) => holds(view, value),
        Action::Run(_) => usize::from(view.process_count) < MOST_PROCESSES,
        Action::Send(target, _, fields) => {
            can_send_to(view, lossy, in_d_step, target, fields.as_slice())
        }
        Action::Receive(target, search, _, arguments) => {
            can_receive_from(view, *search, target, arguments.as_slice())
        }
        _ => true,
    }
}
