//! Moves of one process as objects: what was written of one is written again for the next that does the same.

ghost use Rattle.std.specs.Prelude.{◌≡◌, Bool, true, false};
ghost use Rattle.promela_run.specs.declared.moves.Move.TheVariants.{Alone};
ghost use Rattle.promela_run.specs.State.{State};
ghost use Rattle.view_json.specs.Choices.{AddsChoice};
ghost use Rattle.view_json.specs.Known.{Knows, IsSeen, alike};
ghost use Rattle.view_json.specs.Before.{Tells};

use crate::deal::{does_same, effect_of, no_transfer};
use crate::known::{Known, Seen, deals_at, is_alike, know};
use crate::lines::transfer;
use promela_run::moves::{Move, Pick};
use run_state::live::Live;
use std::alloc::Global;
use view_tokens::tokens::Json;
use view_waits::transfer::{Transfer, transfer_of};

/// What was written of a move, from its process, whether its offer sends or receives, and what it does with a message.
#[derive(Drop)]
pub(crate) struct Single {
    pub first: Known,
    deals: bool,
    done: Transfer,
    whole: Json,
}

impl Single {
    /// Nothing was written.
    pub fn new(alloc: Global, pick: Pick) -> Single
        ensures { (s : State) → Tells s result }
    {
        let mut whole = Json::new(alloc);
        whole.refuse();
        Single {
            first: Known::new(alloc, pick),
            deals: false,
            done: no_transfer(alloc),
            whole,
        }
    }
}

// Whether a move that is seen as this was has the same object. It has the same text, and so it sends or receives where that did.
fn is_same(live: &Live<'_, '_>, pick: Pick, is_late: bool, last: &Single) -> bool
    ensures { result ≡ true → last.now.whole.refused ≡ false }
{
    !last.whole.is_refused() && does_same(live, Move::Alone(pick, is_late), last.deals, &last.done)
}

// Writes a move that does this with a message.
fn write(live: &Live<'_, '_>, json: &mut Json, first: &Known, done: &Transfer)
    requires { Knows live.now.state first.now }
    ensures { (is_late : Bool) → AddsChoice live.now.state (Alone first.now.pick is_late) json.old json.new }
{
    json.begin_object();
    json.join(&first.written);
    transfer(live, json, done);
    effect_of(live, json, done);
    json.end_object();
}

// Writes a move anew.
fn renew(live: &Live<'_, '_>, pick: Pick, is_late: bool, seen: Seen<'_>, last: &mut Single)
    requires tells { Tells live.now.state last.old }
    requires seen { IsSeen live.now.state pick seen }
    ensures tells { Tells live.now.state last.new }
    ensures pick { last.new.first.pick ≡ pick }
{
    know(live, pick, seen, &mut last.first);
    last.whole.clear();
    match transfer_of(last.whole.allocator(), live, &Move::Alone(pick, is_late)) {
        Ok(done) => {
            write(live, &mut last.whole, &last.first, &done);
            last.deals = deals_at(live, pick);
            last.done = done;
        }
        Err(_) => last.whole.refuse(),
    }
}

// Writes a move that is seen as this was, where it is not the same as before.
fn settle(live: &Live<'_, '_>, pick: Pick, is_late: bool, seen: Seen<'_>, last: &mut Single)
    requires tells { Tells live.now.state last.old }
    requires seen { IsSeen live.now.state pick seen }
    requires alike { alike last.old.first pick.process seen ≡ true }
    ensures tells { Tells live.now.state last.new }
    ensures pick { last.new.first.pick ≡ pick }
{
    if is_same(live, pick, is_late, last) {
        last.first.pick = pick;
        return;
    }
    renew(live, pick, is_late, seen, last);
}

/// Writes a move again, where this was written before of one that is seen so.
pub(crate) fn add_again(
    live: &Live<'_, '_>,
    json: &mut Json,
    pick: Pick,
    is_late: bool,
    seen: Seen<'_>,
    last: &mut Single,
)
    requires tells { Tells live.now.state last.old }
    requires seen { IsSeen live.now.state pick seen }
    requires alike { alike last.old.first pick.process seen ≡ true }
    ensures choice { AddsChoice live.now.state (Alone pick is_late) json.old json.new }
    ensures tells { Tells live.now.state last.new }
{
    settle(live, pick, is_late, seen, last);
    json.join(&last.whole);
}

// Writes a move that is not known.
fn add_anew(
    live: &Live<'_, '_>,
    json: &mut Json,
    pick: Pick,
    is_late: bool,
    seen: Seen<'_>,
    last: &mut Single,
)
    requires tells { Tells live.now.state last.old }
    requires seen { IsSeen live.now.state pick seen }
    ensures choice { AddsChoice live.now.state (Alone pick is_late) json.old json.new }
    ensures tells { Tells live.now.state last.new }
{
    renew(live, pick, is_late, seen, last);
    json.join(&last.whole);
}

/// Writes a move, where this was written before.
pub(crate) fn add_single(
    live: &Live<'_, '_>,
    json: &mut Json,
    pick: Pick,
    is_late: bool,
    seen: Seen<'_>,
    last: &mut Single,
)
    requires tells { Tells live.now.state last.old }
    requires seen { IsSeen live.now.state pick seen }
    ensures choice { AddsChoice live.now.state (Alone pick is_late) json.old json.new }
    ensures tells { Tells live.now.state last.new }
{
    if is_alike(&last.first, pick.process, seen) {
        add_again(live, json, pick, is_late, seen, last);
    } else {
        add_anew(live, json, pick, is_late, seen, last);
    }
}
