//! Which channel a variable names, sends that a process takes by itself, and `assert` (Holzmann, *The SPIN Model Checker*, chapter 3).

ghost use Rattle.std.specs.Prelude.{◌≡◌, ◌<◌, ◌≤◌, [], Ok, Err, IfOk, IfErr, OnOk, OnErr, length};
ghost use Rattle.profile.specs.declared.TheConstants.{MOST_FIELDS};
ghost use Rattle.pml_value.specs.declared.few.TheConstants.{FEW_FIELDS};
ghost use Rattle.promela_run.specs.Statements.{place_named, contents_at, changed, values, with_message, addressed, asserted};
ghost use Rattle.pml_value.specs.Seen.{seen};

use crate::few::{FEW_FIELDS, FewFields};
use crate::fields::Fields;
use crate::view::{View, named as channel_at};
use diagnostics::Fault;
use pml_channel::channel::Channel;
use pml_eval::eval::{eval, place};
use pml_eval::ground::Ground;
use pml_program::expr::{Expr, Target};
use pml_tree::tree::SendOrder;
use profile::MOST_FIELDS;
use promela_run::live_channel::LiveChannel;
use std::alloc::AllocError;

/// The place among the live channels of the one that a variable names, where it has so many fields.
pub fn named(view: &View<'_>, target: &Target, count: usize) -> Result<usize, Fault>
    ensures value { result ≡ place_named view.now.channels.now (seen view.now) target.now count }
    ensures there { IfOk result (λ n. n < length view.now.channels.now) }
    ensures arity { IfOk result (λ n. count ≡ length (contents_at view.now.channels.now n).types) }
    ensures few { OnOk result (count ≤ MOST_FIELDS) }
{
    let at = place(target, view)?;
    let number = view.number(at);
    let Some(channel) = channel_at(view.channels, number) else {
        return Err(Fault::NoSuchChannel);
    };
    if count != channel.types().len() || count > MOST_FIELDS {
        return Err(Fault::WrongNumberOfFields);
    }
    Ok(number as usize - 1)
}

/// The values of expressions, or the first fault from the left.
pub fn values(expressions: &[Expr], view: &View<'_>) -> Result<Fields, Fault>
    requires { length expressions.now ≤ MOST_FIELDS }
    ensures value { result ≡ values expressions.now (seen view.now) }
    ensures arity { IfOk result (λ xs. length xs ≡ length expressions.now) }
{
    let mut fields = Fields::new();
    for one in expressions {
        fields.push(eval(one, view)?);
    }
    Ok(fields)
}

/// Whether the value of an expression is not 0, as `assert` asks.
pub fn assert(value: &Expr, view: &View<'_>) -> Result<(), Fault>
    ensures { result ≡ asserted value.now (seen view.now) }
{
    if eval(value, view)? == 0 {
        return Err(Fault::AssertionViolated);
    }
    Ok(())
}

/// Where a message goes, and its fields.
pub fn addressed(
    target: &Target,
    expressions: &[Expr],
    view: &View<'_>,
) -> Result<(usize, Fields), Fault>
    ensures value { result ≡ addressed view.now.channels.now (seen view.now) target.now expressions.now }
    ensures there { IfOk result (λ x. x.0 < length view.now.channels.now) }
    ensures arity { IfOk result (λ x. length x.1 ≡ length (contents_at view.now.channels.now x.0).types) }
{
    let at = named(view, target, expressions.len())?;
    Ok((at, values(expressions, view)?))
}

/// Adds the values of a few expressions, or answers the first fault from the left.
fn add_values(expressions: &[Expr], view: &View<'_>, fields: &mut FewFields) -> Result<(), Fault>
    requires few { length expressions.now ≤ FEW_FIELDS }
    requires none { fields.old ≡ [] }
    ensures ok { OnOk result (values expressions.now (seen view.now) ≡ Ok fields.new) }
    ensures err { IfErr result (λ f. values expressions.now (seen view.now) ≡ Err f) }
    ensures arity { OnOk result (length fields.new ≡ length expressions.now) }
{
    for one in expressions {
        fields.push(eval(one, view)?);
    }
    Ok(())
}

/// The same of a message of a few fields, which are added.
pub fn address_few(
    target: &Target,
    expressions: &[Expr],
    view: &View<'_>,
    fields: &mut FewFields,
) -> Result<usize, Fault>
    requires few { length expressions.now ≤ FEW_FIELDS }
    requires none { fields.old ≡ [] }
    ensures ok { IfOk result (λ n. addressed view.now.channels.now (seen view.now) target.now expressions.now ≡ Ok (n, fields.new)) }
    ensures err { IfErr result (λ f. addressed view.now.channels.now (seen view.now) target.now expressions.now ≡ Err f) }
    ensures there { IfOk result (λ n. n < length view.now.channels.now) }
    ensures arity { IfOk result (λ n. length fields.new ≡ length (contents_at view.now.channels.now n).types) }
{
    let at = named(view, target, expressions.len())?;
    add_values(expressions, view, fields)?;
    Ok(at)
}

/// Puts a message into a channel that is not full. Want of memory changes nothing.
fn put(channel: &mut Channel, order: SendOrder, fields: &[i32]) -> Result<(), AllocError>
    requires { length fields.now ≡ length channel.old.types }
    ensures ok { OnOk result (channel.new ≡ with_message order fields.now channel.old) }
    ensures err { OnErr result (channel.new ≡ channel.old) }
{
    if channel.len() >= usize::from(channel.capacity()) {
        return Ok(());
    }
    match order {
        SendOrder::Fifo => channel.send(fields),
        SendOrder::Sorted => channel.send_sorted(fields),
    }
}

/// Puts a message into the channel at a place, where that is not full. Want of memory changes nothing.
pub fn put_at(
    channels: &mut [LiveChannel],
    at: usize,
    order: SendOrder,
    fields: &[i32],
) -> Result<(), AllocError>
    requires there { at < length channels.old }
    requires arity { length fields.now ≡ length (contents_at channels.old at).types }
    ensures ok { OnOk result (channels.new ≡ changed at (with_message order fields.now) channels.old) }
    ensures err { OnErr result (channels.new ≡ channels.old) }
{
    put(&mut channels[at].channel, order, fields)
}
