//! What a move does with a message, and words for that.

ghost use Rattle.std.specs.Prelude.{◌≡◌, ℕ, true, false, [], List, codes, Decides};
ghost use Rattle.promela_run.specs.State.{State};
ghost use Rattle.view_tokens.specs.Printed.{Writes};
ghost use Rattle.view_waits.specs.declared.transfer.Does.TheVariants.{Statement};
ghost use Rattle.view_json.specs.Objects.{detail};
ghost use Rattle.view_json.specs.Lines.{dealt};
ghost use Rattle.view_json.specs.Before.{Deals, IsWritten};

use crate::lines::transfer;
use crate::objects::detail;
use promela_run::moves::{Move, Pick};
use run_state::live::Live;
use std::alloc::Global;
use view_state::choices::add_effect;
use view_text::writer::Writer;
use view_tokens::tokens::Json;
use view_waits::transfer::{Does, Transfer, transfer_of};

/// A move that does nothing with a message.
pub(crate) fn no_transfer(alloc: Global) -> Transfer
    ensures { dealt result ≡ record { does = Statement; channel = 0; message = [] } }
{
    Transfer {
        does: Does::Statement,
        channel: 0,
        message: Vec::new(alloc),
    }
}

// Whether two moves do the same.
fn are_same(one: &Transfer, other: &Transfer) -> bool
    ensures { Decides result (dealt one.now ≡ dealt other.now) }
{
    one.does == other.does
        && one.channel == other.channel
        && one.message.as_slice() == other.message.as_slice()
}

/// Whether a move does this with a message; one that neither sends nor receives does nothing.
pub(crate) fn does_same(live: &Live<'_, '_>, m: Move, deals: bool, done: &Transfer) -> bool
    ensures { deals ≡ false → Decides result (done.now.does ≡ Statement) }
{
    if !deals {
        return done.does == Does::Statement;
    }
    match transfer_of(*done.message.allocator(), live, &m) {
        Ok(by) => are_same(&by, done),
        Err(_) => false,
    }
}

/// Writes what a move does with a message in words, without the blank before them, if it does anything.
pub(crate) fn effect_of(live: &Live<'_, '_>, json: &mut Json, done: &Transfer)
    ensures { (words : List ℕ) × Writes json.old json.new (detail (codes "effect") words) }
{
    let mut words = Writer::new(json.allocator());
    add_effect(live, done, &mut words);
    let bytes = words.bytes();
    let bare = bytes.strip_prefix(b" ").unwrap_or(bytes);
    detail(json, "effect", bare, &words);
}

/// What was written of what a send over a rendezvous channel does.
#[derive(Drop)]
pub(crate) struct Deal {
    of: Pick,
    is_late: bool,
    by: Transfer,
    pub done: Json,
    pub effect: Json,
}

impl Deal {
    /// Nothing was written.
    pub fn new(alloc: Global, of: Pick) -> Deal
        ensures { (s : State) → Deals s result }
    {
        let mut done = Json::new(alloc);
        done.refuse();
        let mut effect = Json::new(alloc);
        effect.refuse();
        Deal {
            of,
            is_late: false,
            by: no_transfer(alloc),
            done,
            effect,
        }
    }

    /// Whether a rendezvous of this sender does the same.
    pub fn is_of(&self, live: &Live<'_, '_>, of: Pick, to: Pick, is_late: bool) -> bool
        ensures written { result ≡ true → IsWritten self.now }
        ensures same { IsWritten self.now → self.now.of ≡ of → self.now.is_late ≡ is_late → result ≡ true }
    {
        if self.done.is_refused() || self.effect.is_refused() {
            return false;
        }
        if self.of == of && self.is_late == is_late {
            return true;
        }
        does_same(live, Move::Pair(of, to, is_late), true, &self.by)
    }

    /// The same of another sender.
    pub fn go_on(&mut self, of: Pick, is_late: bool)
        ensures done { self.new.done ≡ self.old.done }
        ensures effect { self.new.effect ≡ self.old.effect }
    {
        self.of = of;
        self.is_late = is_late;
    }
}

// Writes what a send does anew.
fn write(live: &Live<'_, '_>, by: &Transfer, last: &mut Deal)
    ensures { Deals live.now.state last.new }
{
    last.done.clear();
    transfer(live, &mut last.done, by);
    last.effect.clear();
    effect_of(live, &mut last.effect, by);
}

// Writes what a send does anew, where nothing is known of it.
fn renew(live: &Live<'_, '_>, of: Pick, to: Pick, is_late: bool, last: &mut Deal)
    ensures { Deals live.now.state last.new }
{
    match transfer_of(last.done.allocator(), live, &Move::Pair(of, to, is_late)) {
        Ok(by) => {
            write(live, &by, last);
            last.of = of;
            last.is_late = is_late;
            last.by = by;
        }
        Err(_) => *last = Deal::new(last.done.allocator(), of),
    }
}

/// Writes what a send does, where it is not the same as before.
pub(crate) fn keep_deal(live: &Live<'_, '_>, of: Pick, to: Pick, is_late: bool, last: &mut Deal)
    requires { Deals live.now.state last.old }
    ensures { Deals live.now.state last.new }
{
    if last.is_of(live, of, to, is_late) {
        last.go_on(of, is_late);
        return;
    }
    renew(live, of, to, is_late, last);
}
