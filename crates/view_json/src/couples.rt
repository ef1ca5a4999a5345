//! Rendezvous as objects, each written again where it was among the last few: first the last of all is asked.

ghost use Rattle.std.specs.Prelude.{◌≡◌, ◌<◌, [], All, length};
ghost use Rattle.std.specs.List.{position};
ghost use Rattle.promela_run.specs.declared.moves.Move.TheVariants.{Pair};
ghost use Rattle.promela_run.specs.State.{State};
ghost use Rattle.view_json.specs.Choices.{AddsChoice};
ghost use Rattle.view_json.specs.Before.{Meets, AreSeen, couple_alike};
ghost use Rattle.view_json.specs.Places.{passes_at};

use crate::couple::{Couple, Meeting, add_again, add_couple, are_alike};
use crate::known::seen_at;
use crate::singles::{behind, most_of};
use promela_run::moves::Pick;
use run_state::live::Live;
use std::alloc::Global;
use view_tokens::tokens::Json;

/// The last rendezvous that differ, and the place of the last of all.
#[derive(Drop)]
pub(crate) struct Couples {
    all: Vec<Couple>,
    at: usize,
    most: usize,
}

impl Couples {
    /// None yet, of so many that are to be written.
    pub fn new(alloc: Global, count: usize) -> Couples
        ensures { result.all.items ≡ [] }
    {
        Couples {
            all: Vec::new(alloc),
            at: 0,
            most: most_of(count),
        }
    }
}

// Whether what stands at a place is of the same processes, at offers that are seen so.
fn is_at(all: &[Couple], at: usize, of: Meeting<'_>) -> bool
    ensures { result ≡ passes_at (couple_alike of.entry) all.now at }
{
    match all.get(at) {
        Some(one) => are_alike(one, of),
        None => false,
    }
}

// The place of a rendezvous.
fn place_of(all: &[Couple], of: Meeting<'_>) -> Option<usize>
    ensures { result ≡ position (couple_alike of.entry) all.now }
{
    for at in 0..all.len() {
        if is_at(all, at, of) {
            return Some(at);
        }
    }
    None
}

// A place for one more: a new one, or where there are enough that of the one that was written first.
fn make_place(pick: Pick, last: &mut Couples) -> usize
    ensures { (s : State) → All (Meets s) last.old.all.items → All (Meets s) last.new.all.items }
{
    let len = last.all.len();
    if len < last.most {
        let one = Couple::new(*last.all.allocator(), pick);
        return match last.all.push(one) {
            Ok(()) => len,
            Err(_) => len,
        };
    }
    behind(last.at, len)
}

// The place for a rendezvous.
fn place_for(of: Meeting<'_>, last: &mut Couples) -> usize
    ensures { (s : State) → All (Meets s) last.old.all.items → All (Meets s) last.new.all.items }
{
    match place_of(last.all.as_slice(), of) {
        Some(at) => at,
        None => make_place(of.sender, last),
    }
}

// Writes a rendezvous at a place.
fn add_at(live: &Live<'_, '_>, json: &mut Json, of: Meeting<'_>, at: usize, last: &mut Couples)
    requires meet { All (Meets live.now.state) last.old.all.items }
    requires seen { AreSeen live.now.state of }
    ensures choice { AddsChoice live.now.state (Pair of.entry.sender of.entry.receiver of.entry.is_late) json.old json.new }
    ensures meet { All (Meets live.now.state) last.new.all.items }
{
    last.at = at;
    if at < last.all.len() {
        add_couple(live, json, of, &mut last.all[at]);
    } else {
        json.refuse();
    }
}

/// Writes a rendezvous, where this was written before.
pub(crate) fn add_pair(
    live: &Live<'_, '_>,
    json: &mut Json,
    sender: Pick,
    receiver: Pick,
    is_late: bool,
    last: &mut Couples,
)
    requires { All (Meets live.now.state) last.old.all.items }
    ensures choice { AddsChoice live.now.state (Pair sender receiver is_late) json.old json.new }
    ensures meet { All (Meets live.now.state) last.new.all.items }
{
    let of = Meeting {
        sender,
        receiver,
        is_late,
        first: seen_at(live, sender),
        partner: seen_at(live, receiver),
    };
    let at = last.at;
    if at < last.all.len() {
        if are_alike(&last.all[at], of) {
            return add_again(live, json, of, &mut last.all[at]);
        }
    }
    let at = place_for(of, last);
    add_at(live, json, of, at, last);
}
