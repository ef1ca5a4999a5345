//! Rendezvous as objects: what was written of one is written again for the next that does the same.

ghost use Rattle.std.specs.Prelude.{◌≡◌, Bool, true, false, codes};
ghost use Rattle.promela_run.specs.declared.moves.Move.TheVariants.{Pair};
ghost use Rattle.promela_run.specs.State.{State};
ghost use Rattle.view_tokens.specs.Printed.{Writes};
ghost use Rattle.view_json.specs.Objects.{member, object};
ghost use Rattle.view_json.specs.Choices.{actor, AddsChoice};
ghost use Rattle.view_json.specs.Known.{Knows, alike, of_pick};
ghost use Rattle.view_json.specs.Before.{Deals, Meets, AreSeen, couple_alike};

use crate::deal::{Deal, keep_deal};
use crate::known::{Known, Seen, is_alike, know};
use promela_run::moves::Pick;
use run_state::live::Live;
use std::alloc::Global;
use view_tokens::tokens::Json;

/// What was written of a rendezvous, from its sender, its receiver, and what it does.
#[derive(Drop)]
pub(crate) struct Couple {
    pub first: Known,
    pub partner: Known,
    deal: Deal,
    whole: Json,
}

/// A sender and a receiver, whether `timeout` is true, and the offers of both.
#[derive(Clone, Copy)]
pub(crate) struct Meeting<'p> {
    pub sender: Pick,
    pub receiver: Pick,
    pub is_late: bool,
    pub first: Seen<'p>,
    pub partner: Seen<'p>,
}

impl Couple {
    /// Nothing was written.
    pub fn new(alloc: Global, pick: Pick) -> Couple
        ensures { (s : State) → Meets s result }
    {
        let mut whole = Json::new(alloc);
        whole.refuse();
        Couple {
            first: Known::new(alloc, pick),
            partner: Known::new(alloc, pick),
            deal: Deal::new(alloc, pick),
            whole,
        }
    }
}

/// Whether what was written is of the same processes, at offers that are seen so.
pub(crate) fn are_alike(last: &Couple, of: Meeting<'_>) -> bool
    ensures both { result ≡ couple_alike of.entry last.now }
    ensures first { result ≡ true → alike last.now.first of.entry.sender.process of.entry.first ≡ true }
    ensures partner { result ≡ true → alike last.now.partner of.entry.receiver.process of.entry.partner ≡ true }
{
    is_alike(&last.partner, of.receiver.process, of.partner)
        && is_alike(&last.first, of.sender.process, of.first)
}

// Whether a rendezvous of the same processes at the same offers has the same object.
fn is_same(live: &Live<'_, '_>, of: Meeting<'_>, last: &Couple) -> bool
    ensures { result ≡ true → last.now.whole.refused ≡ false }
{
    !last.whole.is_refused() && last.deal.is_of(live, of.sender, of.receiver, of.is_late)
}

// Writes the receiver of a rendezvous.
fn add_partner(live: &Live<'_, '_>, json: &mut Json, receiver: &Known)
    requires { Knows live.now.state receiver.now }
    ensures { Writes json.old json.new (member (codes "to") (object (actor live.now.state receiver.now.pick))) }
{
    json.key("to");
    json.begin_object();
    json.join(&receiver.written);
    json.end_object();
}

// Writes a rendezvous.
fn write(live: &Live<'_, '_>, json: &mut Json, sender: &Known, receiver: &Known, deal: &Deal)
    requires sender { Knows live.now.state sender.now }
    requires receiver { Knows live.now.state receiver.now }
    requires deal { Deals live.now.state deal.now }
    ensures { (is_late : Bool) → AddsChoice live.now.state (Pair sender.now.pick receiver.now.pick is_late) json.old json.new }
{
    json.begin_object();
    json.join(&sender.written);
    json.join(&deal.done);
    add_partner(live, json, receiver);
    json.join(&deal.effect);
    json.end_object();
}

// Writes a rendezvous anew.
fn renew(live: &Live<'_, '_>, of: Meeting<'_>, last: &mut Couple)
    requires meets { Meets live.now.state last.old }
    requires seen { AreSeen live.now.state of }
    ensures meets { Meets live.now.state last.new }
    ensures sender { last.new.first.pick ≡ of.entry.sender }
    ensures receiver { last.new.partner.pick ≡ of.entry.receiver }
{
    know(live, of.sender, of.first, &mut last.first);
    know(live, of.receiver, of.partner, &mut last.partner);
    keep_deal(live, of.sender, of.receiver, of.is_late, &mut last.deal);
    last.whole.clear();
    write(
        live,
        &mut last.whole,
        &last.first,
        &last.partner,
        &last.deal,
    );
}

// The same of other picks.
fn go_on(of: Meeting<'_>, last: &mut Couple)
    ensures first { last.new.first ≡ of_pick of.entry.sender last.old.first }
    ensures partner { last.new.partner ≡ of_pick of.entry.receiver last.old.partner }
    ensures done { last.new.deal.done ≡ last.old.deal.done }
    ensures effect { last.new.deal.effect ≡ last.old.deal.effect }
    ensures whole { last.new.whole ≡ last.old.whole }
{
    last.first.pick = of.sender;
    last.partner.pick = of.receiver;
    last.deal.go_on(of.sender, of.is_late);
}

// Writes a rendezvous that is seen as this was, where it is not the same as before.
fn settle(live: &Live<'_, '_>, of: Meeting<'_>, last: &mut Couple)
    requires meets { Meets live.now.state last.old }
    requires seen { AreSeen live.now.state of }
    requires first { alike last.old.first of.sender.process of.first ≡ true }
    requires partner { alike last.old.partner of.receiver.process of.partner ≡ true }
    ensures meets { Meets live.now.state last.new }
    ensures sender { last.new.first.pick ≡ of.entry.sender }
    ensures receiver { last.new.partner.pick ≡ of.entry.receiver }
{
    if is_same(live, of, last) {
        go_on(of, last);
        return;
    }
    renew(live, of, last);
}

/// Writes a rendezvous again, where this was written before of one that is seen so.
pub(crate) fn add_again(live: &Live<'_, '_>, json: &mut Json, of: Meeting<'_>, last: &mut Couple)
    requires meets { Meets live.now.state last.old }
    requires seen { AreSeen live.now.state of }
    requires first { alike last.old.first of.sender.process of.first ≡ true }
    requires partner { alike last.old.partner of.receiver.process of.partner ≡ true }
    ensures choice { AddsChoice live.now.state (Pair of.entry.sender of.entry.receiver of.entry.is_late) json.old json.new }
    ensures meets { Meets live.now.state last.new }
{
    settle(live, of, last);
    json.join(&last.whole);
}

// Writes a rendezvous that is not known.
fn add_anew(live: &Live<'_, '_>, json: &mut Json, of: Meeting<'_>, last: &mut Couple)
    requires meets { Meets live.now.state last.old }
    requires seen { AreSeen live.now.state of }
    ensures choice { AddsChoice live.now.state (Pair of.entry.sender of.entry.receiver of.entry.is_late) json.old json.new }
    ensures meets { Meets live.now.state last.new }
{
    renew(live, of, last);
    json.join(&last.whole);
}

/// Writes a rendezvous, where this was written before.
pub(crate) fn add_couple(live: &Live<'_, '_>, json: &mut Json, of: Meeting<'_>, last: &mut Couple)
    requires meets { Meets live.now.state last.old }
    requires seen { AreSeen live.now.state of }
    ensures choice { AddsChoice live.now.state (Pair of.entry.sender of.entry.receiver of.entry.is_late) json.old json.new }
    ensures meets { Meets live.now.state last.new }
{
    if are_alike(last, of) {
        add_again(live, json, of, last);
    } else {
        add_anew(live, json, of, last);
    }
}
