//! Receives that a process takes by itself (Holzmann, *The SPIN Model Checker*, chapter 3).

ghost use Rattle.std.specs.Prelude.{◌≡◌, ◌<◌, ◌≤◌, [], Ok, Err, IfOk, IfErr, IfSome, OnOk, OnErr, length};
ghost use Rattle.promela_process.specs.Store.{size_at};
ghost use Rattle.pml_store.specs.Writing.{before};
ghost use Rattle.promela_process.specs.Expressions.{asked_by};
ghost use Rattle.pml_value.specs.declared.few.TheConstants.{FEW_FIELDS};
ghost use Rattle.pml_eval.specs.There.{IsThere, AreThere};
ghost use Rattle.promela_run.specs.Statements.{contents_at, changed, found, goes_of, stores, without, taken_at, asked_at};
ghost use Rattle.pml_value.specs.Storing.{stored_all, AreAsLarge, StoresSome, AllReceived, PartReceived};
ghost use Rattle.pml_value.specs.Seen.{seen};

use crate::few::{FEW_FIELDS, FewSought};
use crate::message::named;
use crate::view::View;
use diagnostics::Fault;
use pml_channel::channel::Channel;
use pml_eval::clip::clip;
use pml_eval::eval::{pattern, want};
use pml_eval::pattern::{Pattern, matches};
use pml_program::expr::{Target, Want};
use pml_store::store::Store;
use pml_tree::tree::{Removal, Search};
use promela_process::sought::Sought;
use promela_run::live_channel::LiveChannel;
use std::alloc::AllocError;

/// What a receive says: the variable that names its channel, which message it looks for, whether it takes it out, and what it asks of
/// the fields.
#[derive(Clone, Copy)]
pub struct Reception<'a> {
    pub target: &'a Target,
    pub search: Search,
    pub removal: Removal,
    pub wants: &'a [Want],
}

/// Where a message is received, and what is asked of it.
pub fn asked_at(target: &Target, wants: &[Want], view: &View<'_>) -> Result<(usize, Pattern), Fault>
    ensures value { result ≡ asked_at view.now.channels.now (seen view.now) target.now wants.now }
    ensures there { IfOk result (λ x. x.0 < length view.now.channels.now) }
    ensures places { IfOk result (λ x. AreThere (size_at view.now.store.now.frames) x.1) }
{
    let at = named(view, target, wants.len())?;
    Ok((at, pattern(wants, view)?))
}

/// Adds what a few arguments ask, or answers the first fault from the left.
fn add_wants(wants: &[Want], view: &View<'_>, sought: &mut FewSought) -> Result<(), Fault>
    requires few { length wants.now ≤ FEW_FIELDS }
    requires none { sought.old ≡ [] }
    ensures ok { OnOk result (asked_by wants.now (seen view.now) ≡ Ok sought.new) }
    ensures err { IfErr result (λ f. asked_by wants.now (seen view.now) ≡ Err f) }
    ensures places { OnOk result (AreThere (size_at view.now.store.now.frames) sought.new) }
{
    for one in wants {
        sought.push(want(one, view)?);
    }
    Ok(())
}

/// Where a message of a few fields is received; what is asked of it is added.
pub fn ask_few(
    target: &Target,
    wants: &[Want],
    view: &View<'_>,
    sought: &mut FewSought,
) -> Result<usize, Fault>
    requires few { length wants.now ≤ FEW_FIELDS }
    requires none { sought.old ≡ [] }
    ensures ok { IfOk result (λ n. asked_at view.now.channels.now (seen view.now) target.now wants.now ≡ Ok (n, sought.new)) }
    ensures err { IfErr result (λ f. asked_at view.now.channels.now (seen view.now) target.now wants.now ≡ Err f) }
    ensures there { IfOk result (λ n. n < length view.now.channels.now) }
    ensures places { OnOk result (AreThere (size_at view.now.store.now.frames) sought.new) }
{
    let at = named(view, target, wants.len())?;
    add_wants(wants, view, sought)?;
    Ok(at)
}

/// The place of the message that is received: the oldest if it matches, or the first that does.
fn find(channel: &Channel, search: Search, sought: &[Sought]) -> Option<usize>
    ensures value { result ≡ found search sought.now channel.now.messages }
    ensures within { IfSome result (λ n. n < length channel.now.messages) }
{
    match search {
        Search::Matching => channel.find(sought),
        Search::First => {
            if channel.len() == 0 || !matches(sought, channel.message(0)) {
                return None;
            }
            Some(0)
        }
    }
}

/// Stores a field that has a place. Want of memory changes nothing.
fn store_field(store: &mut Store, one: Sought, field: i32) -> Result<(), AllocError>
    requires { IsThere (size_at store.old.frames) one }
    ensures ok { OnOk result (store.new ≡ stored_all store.old (goes_of one field)) }
    ensures err { OnErr result (store.new ≡ store.old) }
    ensures sizes { AreAsLarge store.old store.new }
    ensures past { before store.new ≡ before store.old }
{
    match one {
        Sought::Into(place, form) => store.set(place, clip(form, field)),
        Sought::Exactly(_) | Sought::Anything => Ok(()),
    }
}

/// Stores the fields that have a place, from left to right. Want of memory leaves those that are stored by then.
pub fn store_fields(store: &mut Store, sought: &[Sought], fields: &[i32]) -> Result<(), AllocError>
    requires { AreThere (size_at store.old.frames) sought.now }
    ensures ok { OnOk result (store.new ≡ stored_all store.old (stores sought.now fields.now)) }
    ensures err { OnErr result (StoresSome store.old store.new (stores sought.now fields.now)) }
    ensures past { before store.new ≡ before store.old }
{
    for i in 0..sought.len().min(fields.len()) {
        store_field(store, sought[i], fields[i])?;
    }
    Ok(())
}

/// Removes a message of the channel at a place.
fn remove_at(channels: &mut [LiveChannel], at: usize, removal: Removal, message: usize)
    requires there { at < length channels.old }
    requires within { message < length (contents_at channels.old at).messages }
    ensures { channels.new ≡ changed at (without removal message) channels.old }
{
    match removal {
        Removal::Keep => {}
        Removal::Remove => channels[at].channel.take(message),
    }
}

/// Receives the message that is found, if there is one. Want of memory leaves the channels, and what is stored by then.
pub fn take_from(
    store: &mut Store,
    channels: &mut [LiveChannel],
    at: usize,
    search: Search,
    removal: Removal,
    sought: &[Sought],
) -> Result<(), AllocError>
    requires there { at < length channels.old }
    requires places { AreThere (size_at store.old.frames) sought.now }
    ensures ok { let x = taken_at channels.old at search removal sought.now in
        OnOk result (AllReceived x store.old store.new channels.new) }
    ensures err { let x = taken_at channels.old at search removal sought.now in
        OnErr result (PartReceived x store.old store.new channels.old channels.new) }
    ensures past { before store.new ≡ before store.old }
{
    let Some(message) = find(&channels[at].channel, search, sought) else {
        return Ok(());
    };
    store_fields(store, sought, channels[at].channel.message(message))?;
    remove_at(channels, at, removal, message);
    Ok(())
}
