//! What the receiver of a rendezvous stores.

ghost use Rattle.std.specs.Prelude.{◌≡◌, ◌∷◌, ◌++◌, ◌<◌, [], drop, Ok, IfOk, IfErr, OnOk, length};
ghost use Rattle.std.specs.Option.{option_copied};
ghost use Rattle.promela_process.specs.Store.{size_at};
ghost use Rattle.pml_eval.specs.There.{IsThere};
ghost use Rattle.promela_process.specs.Expressions.{asked_by};
ghost use Rattle.promela_run.specs.Statements.{goes_of, stores};
ghost use Rattle.pml_value.specs.Seen.{seen};
ghost use Rattle.run_step.specs.Arguments.{Stops};
ghost use Rattle.run_state.specs.Live.{Keeps, Leads};
ghost use Rattle.run_state.specs.Storing.{AreIn};
ghost use Rattle.run_step.specs.Passing.{Refuses, taken_by, passed_between, passes};

use diagnostics::Stop;
use pml_eval::clip::clip;
use pml_eval::eval::{first_fault, want};
use pml_program::expr::Want;
use pml_program::program::{Action, Basic};
use pml_value::view::View;
use promela_process::sought::Sought;
use promela_run::goes::Goes;
use run_search::message::{Message, offered};
use run_state::live::Live;
use std::alloc::{AllocError, Global};

/// Adds where a field goes, if it has a place.
fn add_field(
    view: &View<'_>,
    one: Sought,
    field: i32,
    numbers: &mut Vec<Goes>,
) -> Result<(), AllocError>
    requires here { IsThere (size_at view.now.store.now.frames) one }
    requires there { AreIn view.now.store.now.frames numbers.old.items }
    ensures ok { OnOk result (numbers.new.items ≡ numbers.old.items ++ goes_of one field) }
    ensures there { AreIn view.now.store.now.frames numbers.new.items }
{
    if let Sought::Into(place, form) = one {
        let number = clip(form, field);
        numbers.push(Goes { place, number })?;
    }
    Ok(())
}

/// The same at a place of a message, which may have no such field.
fn add_field_at(
    view: &View<'_>,
    one: Sought,
    message: &Message<'_, '_>,
    place: usize,
    numbers: &mut Vec<Goes>,
) -> Result<(), AllocError>
    requires here { IsThere (size_at view.now.store.now.frames) one }
    requires there { AreIn view.now.store.now.frames numbers.old.items }
    ensures ok { OnOk result (numbers.new.items ≡ numbers.old.items ++ stores (one ∷ []) (drop place message.now.fields)) }
    ensures there { AreIn view.now.store.now.frames numbers.new.items }
{
    if place < message.len() {
        add_field(view, one, message.field(place), numbers)?;
    }
    Ok(())
}

/// What is stored of a message by one who asks this of it.
fn taken_of(
    alloc: Global,
    wants: &[Want],
    message: &Message<'_, '_>,
    view: &View<'_>,
) -> Result<Vec<Goes>, Stop>
    ensures ok { IfOk result (λ v. taken_by wants.now message.now.fields (seen view.now) ≡ Ok v.items) }
    ensures err { IfErr result (Stops (asked_by wants.now (seen view.now))) }
    ensures there { IfOk result (λ v. AreIn view.now.store.now.frames v.items) }
{
    let mut numbers = Vec::new(alloc);
    for i in 0..wants.len() {
        let one = want(&wants[i], view).map_err(Stop::Fault)?;
        add_field_at(view, one, message, i, &mut numbers).map_err(|_| Stop::Memory)?;
    }
    Ok(numbers)
}

/// What the receiver of a rendezvous stores, or its fault, of a message as it is before anything is stored. Where the sender offers no
/// message, or the other receives none, nothing is stored.
fn numbers_passed(
    alloc: Global,
    sender: View<'_>,
    sent: Option<&Basic<'_>>,
    receiver: &View<'_>,
    received: Option<&Basic<'_>>,
) -> Result<Vec<Goes>, Stop>
    ensures ok { let d = passed_between sender.entry (option_copied sent.entry) receiver.now (option_copied received.entry) in
        IfOk result (λ v. d ≡ Ok v.items) }
    ensures err { let d = passed_between sender.entry (option_copied sent.entry) receiver.now (option_copied received.entry) in
        IfErr result (Refuses d) }
    ensures there { IfOk result (λ v. AreIn receiver.now.store.now.frames v.items) }
{
    let Some(message) = offered(sender, sent) else {
        return Ok(Vec::new(alloc));
    };
    let Some(Basic::Plain(Action::Receive(_, _, _, wants))) = received else {
        return Ok(Vec::new(alloc));
    };
    first_fault(wants.as_slice(), receiver).map_err(Stop::Fault)?;
    taken_of(alloc, wants.as_slice(), &message, receiver)
}

/// A process stores what another one sends it.
#[inline(never)]
pub fn pass(
    live: &mut Live<'_, '_>,
    sender: usize,
    sent: Option<&Basic<'_>>,
    receiver: usize,
    received: Option<&Basic<'_>>,
    timeout: bool,
) -> Result<(), Stop>
    requires sends { sender < length live.old.state.stands }
    requires receives { receiver < length live.old.state.stands }
    ensures value { Leads (passes live.old.state sender receiver timeout (option_copied sent.entry) (option_copied received.entry)) result
        live.new.state }
    ensures keeps { Keeps live.old live.new }
{
    let alloc = *live.variables().cells().allocator();
    let sends = live.view(sender, timeout);
    let receives = live.view(receiver, timeout);
    match numbers_passed(alloc, sends, sent, &receives, received) {
        Err(stop) => Err(stop),
        Ok(numbers) => live.put_all(numbers.as_slice()),
    }
}
