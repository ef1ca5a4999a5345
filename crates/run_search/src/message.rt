//! The message that a rendezvous send offers.

ghost use Rattle.std.specs.Prelude.{◌≡◌, ◌<◌, List, Ok, false, length, pos, get_or};
ghost use Rattle.std.specs.Option.{option_copied};
ghost use Rattle.promela_process.specs.declared.sought.Sought.{Sought};
ghost use Rattle.promela_process.specs.Expressions.{Reading, matched, val, asked_by};
ghost use Rattle.pml_value.specs.Seen.{seen};
ghost use Rattle.promela_run.specs.declared.live_channel.LiveChannel.{LiveChannel};
ghost use Rattle.promela_run.specs.Moves.{Message as Sent, named as names, message_on, does_match, accepts};
ghost use Rattle.promela_run.specs.Statements.{values};
ghost use Rattle.run_search.specs.Fields.{worth, worths};
ghost use Rattle.promela_process.specs.Store.{cut};
ghost use Rattle.run_search.specs.Viewed.{message_in};

use crate::executable::{first_fault_of, named};
use diagnostics::Fault;
use pml_channel::channel::Channel;
use pml_eval::clip::clip;
use pml_eval::eval::{eval, first_fault, want};
use pml_eval::pattern::takes;
use pml_program::expr::{Expr, Target, Want};
use pml_program::form::Form;
use pml_program::program::{Action, Basic};
use pml_value::view::View;
use std::marker::Model;

/// A message that is offered to receivers: the number of its channel, and its fields cut to their types. A field is evaluated each
/// time that it is asked for, so that no memory is taken for it.
#[derive(Drop)]
pub struct Message<'w, 'p> {
    view: View<'w>,
    number: i32,
    types: &'w [Form],
    fields: &'p [Expr],
}

impl<'w, 'p> Model for Message<'w, 'p> {
    ghost use Rattle.std.specs.Prelude.{◌≡◌, length};
    ghost use Rattle.std.specs.Coded.{codes};
    ghost use Rattle.pml_program.specs.contracts.expr.Expr as worth;
    ghost use Rattle.promela_process.specs.Store.{cut};
    ghost use Rattle.pml_value.specs.Seen.{seen};
    ghost use Rattle.run_search.specs.Fields.{worths};
    ghost use Rattle.promela_run.specs.Moves.{Message};

    ghost Value = { Message };

    ghost coded = { Prim.hlevel (codes, worth.the_row.coded) };

    ghost view = { λ m. record { number = m.number; fields = cut m.types.now (worths m.fields.now (seen m.view)) } };

    ghost invariant = { λ m. length m.fields.now ≡ length m.types.now };
}

impl<'w, 'p> Message<'w, 'p> {
    /// The number of its channel.
    pub fn number(&self) -> i32
        ensures { result ≡ self.now.number }
    {
        self.number
    }

    /// How many fields it has.
    pub fn len(&self) -> usize
        ensures { result ≡ length self.now.fields }
    {
        self.types.len()
    }

    /// A field.
    pub fn field(&self, place: usize) -> i32
        requires { place < length self.now.fields }
        ensures { result ≡ get_or self.now.fields place (pos 0) }
    {
        field_of(self.types, self.fields, &self.view, place)
    }
}

/// A field, cut to its type.
fn field_of(types: &[Form], fields: &[Expr], view: &View<'_>, place: usize) -> i32
    requires there { place < length types.now }
    requires as_many { length fields.now ≡ length types.now }
    ensures { result ≡ get_or (cut types.now (worths fields.now (seen view.now))) place (pos 0) }
{
    clip(types[place], worth_of(&fields[place], view))
}

/// A value, or 0 where there is none.
fn worth_of(e: &Expr, view: &View<'_>) -> i32
    ensures { result ≡ worth (val e.now (seen view.now)) }
{
    match eval(e, view) {
        Ok(number) => number,
        Err(_) => 0,
    }
}

/// The message that is sent over a channel.
pub(crate) fn message_over<'w, 'p>(
    view: View<'w>,
    number: i32,
    channel: &'w Channel,
    fields: &'p [Expr],
) -> Message<'w, 'p>
    requires { length fields.now ≡ length channel.now.types }
    ensures { result ≡ record { number = number; fields = cut channel.now.types (worths fields.now (seen view.entry)) } }
{
    Message {
        view,
        number,
        types: channel.types(),
        fields,
    }
}

/// The message of a rendezvous on the channel that a variable names, where that and all fields have a value.
fn message_to<'w, 'p>(
    view: View<'w>,
    target: &Target,
    fields: &'p [Expr],
) -> Option<Message<'w, 'p>>
    ensures { result ≡ message_on (names view.entry.channels.now (seen view.entry) target.now (length fields.now)) (values fields.now (seen view.entry)) }
{
    let Ok((number, channel)) = named(&view, target, fields.len()) else {
        return None;
    };
    if channel.capacity() != 0 || first_fault_of(fields, &view).is_err() {
        return None;
    }
    Some(message_over(view, number, channel, fields))
}

/// What a statement offers to receivers, if nothing in it has a fault.
pub fn offered<'w, 'p>(view: View<'w>, basic: Option<&'p Basic<'_>>) -> Option<Message<'w, 'p>>
    ensures { result ≡ message_in view.entry (option_copied basic.entry) }
{
    match basic {
        Some(Basic::Plain(Action::Send(target, _, fields))) => {
            message_to(view, target, fields.as_slice())
        }
        _ => None,
    }
}

/// Whether each field of a message is what is asked of it. What is asked has no fault.
fn is_asked(arguments: &[Want], m: &Message<'_, '_>, view: &View<'_>) -> Result<bool, Fault>
    ensures { (ws : List Sought) → asked_by arguments.now (seen view.now) ≡ Ok ws → result ≡ Ok (matched ws m.now.fields) }
{
    if arguments.len() != m.len() {
        return Ok(false);
    }
    for i in 0..arguments.len() {
        let one = want(&arguments[i], view)?;
        if !takes(one, m.field(i)) {
            return Ok(false);
        }
    }
    Ok(true)
}

/// Whether what a receive asks matches a message; it does where it has no value.
fn is_matched(arguments: &[Want], m: &Message<'_, '_>, view: &View<'_>) -> bool
    ensures { result ≡ does_match (asked_by arguments.now (seen view.now)) m.now.fields }
{
    if first_fault(arguments, view).is_err() {
        return true;
    }
    match is_asked(arguments, m, view) {
        Ok(matches) => matches,
        Err(_) => true,
    }
}

/// Whether a statement is a receive: nothing else takes a message.
#[inline(always)]
pub(crate) fn is_receive(basic: Option<&Basic<'_>>) -> bool
    ensures { (cs : List LiveChannel) (r : Reading) (m : Sent) → result ≡ false → accepts cs r m (option_copied basic.entry) ≡ false }
{
    match basic {
        Some(Basic::Plain(Action::Receive(_, _, _, _))) => true,
        _ => false,
    }
}

/// Whether a statement receives a message.
pub fn is_received(view: &View<'_>, m: &Message<'_, '_>, basic: Option<&Basic<'_>>) -> bool
    ensures { result ≡ accepts view.now.channels.now (seen view.now) m.now (option_copied basic.entry) }
{
    let Some(Basic::Plain(Action::Receive(target, _, _, arguments))) = basic else {
        return false;
    };
    let Ok((number, _)) = named(view, target, arguments.len()) else {
        return false;
    };
    number == m.number() && is_matched(arguments.as_slice(), m, view)
}
