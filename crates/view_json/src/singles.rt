//! Moves of one process as objects, each written again where it was among the last few: first the last of all is asked.

ghost use Rattle.std.specs.Prelude.{◌≡◌, ◌<◌, [], All, length};
ghost use Rattle.std.specs.List.{position};
ghost use Rattle.promela_run.specs.declared.moves.Move.TheVariants.{Alone};
ghost use Rattle.promela_run.specs.State.{State};
ghost use Rattle.view_json.specs.Choices.{AddsChoice};
ghost use Rattle.view_json.specs.Known.{IsSeen};
ghost use Rattle.view_json.specs.Before.{Tells, single_alike};
ghost use Rattle.view_json.specs.Places.{passes_at, most, place_behind};

use crate::known::{Seen, is_alike, seen_at};
use crate::single::{Single, add_again, add_single};
use promela_run::moves::Pick;
use run_state::live::Live;
use std::alloc::Global;
use view_tokens::tokens::Json;

/// So many are kept of many, and of few just the last.
const MOST: usize = 8;

const FEW: usize = 64;

/// How many are kept of so many that are to be written.
pub(crate) fn most_of(count: usize) -> usize
    ensures { result ≡ most count }
{
    if count > FEW { MOST } else { 1 }
}

/// The last moves that differ, and the place of the last of all.
#[derive(Drop)]
pub(crate) struct Singles {
    all: Vec<Single>,
    at: usize,
    most: usize,
}

impl Singles {
    /// None yet, of so many that are to be written.
    pub fn new(alloc: Global, count: usize) -> Singles
        ensures { result.all.items ≡ [] }
    {
        Singles {
            all: Vec::new(alloc),
            at: 0,
            most: most_of(count),
        }
    }
}

// Whether what stands at a place is of the same process, at an offer that is seen so.
fn is_at(all: &[Single], at: usize, process: usize, seen: Seen<'_>) -> bool
    ensures { result ≡ passes_at (single_alike process seen.entry) all.now at }
{
    match all.get(at) {
        Some(one) => is_alike(&one.first, process, seen),
        None => false,
    }
}

// The place of a move that is seen so.
fn place_of(all: &[Single], process: usize, seen: Seen<'_>) -> Option<usize>
    ensures { result ≡ position (single_alike process seen.entry) all.now }
{
    for at in 0..all.len() {
        if is_at(all, at, process, seen) {
            return Some(at);
        }
    }
    None
}

/// The place behind another.
pub(crate) fn behind(at: usize, len: usize) -> usize
    ensures { result ≡ place_behind at len }
{
    if at < len && len - at > 1 { at + 1 } else { 0 }
}

// A place for one more: a new one, or where there are enough that of the one that was written first.
fn make_place(pick: Pick, last: &mut Singles) -> usize
    ensures { (s : State) → All (Tells s) last.old.all.items → All (Tells s) last.new.all.items }
{
    let len = last.all.len();
    if len < last.most {
        let one = Single::new(*last.all.allocator(), pick);
        return match last.all.push(one) {
            Ok(()) => len,
            Err(_) => len,
        };
    }
    behind(last.at, len)
}

// The place for a move that is seen so.
fn place_for(pick: Pick, seen: Seen<'_>, last: &mut Singles) -> usize
    ensures { (s : State) → All (Tells s) last.old.all.items → All (Tells s) last.new.all.items }
{
    match place_of(last.all.as_slice(), pick.process, seen) {
        Some(at) => at,
        None => make_place(pick, last),
    }
}

// Writes a move at the place of the last.
fn add_at(
    live: &Live<'_, '_>,
    json: &mut Json,
    pick: Pick,
    is_late: bool,
    seen: Seen<'_>,
    last: &mut Singles,
)
    requires tell { All (Tells live.now.state) last.old.all.items }
    requires seen { IsSeen live.now.state pick seen }
    ensures choice { AddsChoice live.now.state (Alone pick is_late) json.old json.new }
    ensures tell { All (Tells live.now.state) last.new.all.items }
{
    let at = last.at;
    if at < last.all.len() {
        add_single(live, json, pick, is_late, seen, &mut last.all[at]);
    } else {
        json.refuse();
    }
}

/// Writes a move, where this was written before.
pub(crate) fn add_alone(
    live: &Live<'_, '_>,
    json: &mut Json,
    pick: Pick,
    is_late: bool,
    last: &mut Singles,
)
    requires { All (Tells live.now.state) last.old.all.items }
    ensures choice { AddsChoice live.now.state (Alone pick is_late) json.old json.new }
    ensures tell { All (Tells live.now.state) last.new.all.items }
{
    let seen = seen_at(live, pick);
    let at = last.at;
    if at < last.all.len() {
        if is_alike(&last.all[at].first, pick.process, seen) {
            return add_again(live, json, pick, is_late, seen, &mut last.all[at]);
        }
    }
    let at = place_for(pick, seen, last);
    last.at = at;
    add_at(live, json, pick, is_late, seen, last);
}
