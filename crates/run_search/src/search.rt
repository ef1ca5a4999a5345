//! The search for moves: the holder of exclusive control alone, else all processes, else all under `timeout`; of each process the
//! highest level that has a move.

#![tactic(auto, using(crate::proofs::Keeping::kept_on, crate::proofs::Keeping::kept_same, crate::proofs::Keeping::kept_push))]

ghost use Rattle.std.specs.Prelude.{◌≡◌, ◌++◌, ◌-◌, ◌<◌, ◌≤◌, true, false, [], Some, OnOk, length, slice_get, take};
ghost use Rattle.run_search.specs.Kept.{Extends};
ghost use Rattle.run_state.specs.Coded.{HasBody};
ghost use Rattle.run_state.specs.Standing.{stand_of, IsBody};
ghost use Rattle.promela_run.specs.Moves.{moves_held, moves as all_moves};
ghost use Rattle.run_search.specs.First.{AreFirst, moves_from, moves_of_level};
ghost use Rattle.run_search.specs.Round.{IsKnown, round_under, live_under};

use crate::demands::{ENOUGH_PROCESSES, all_demands, are_worth_knowing};
use crate::foremost::first_asked;
use crate::lent::lent;
use crate::listeners::{NOBODY, all_listeners};
use crate::process::{add_moves_at, add_moves_on};
use crate::round::{Round, is_added_at_once};
use crate::runs::add_moves_of_many;
use crate::tier::Tier;
use pml_flow::edge::Edge;
use promela_run::moves::Move;
use run_state::body::Body;
use run_state::live::Live;
use run_state::seat::Seat;
use std::alloc::AllocError;

// ---- all processes

/// Adds the moves of all processes.
#[inline(always)]
fn add_moves_of_all(round: &Round<'_, '_, '_>, moves: &mut Vec<Move>) -> Result<(), AllocError>
    requires { IsKnown round.now }
    ensures added { OnOk result (moves.new.items ≡ moves.old.items ++ round_under round.now) }
    ensures kept { Extends moves.new.items moves.old.items }
{
    let seats = round.live.seats();
    for process in 0..seats.len() {
        add_moves_at(round, process, seats[process], moves)?;
    }
    Ok(())
}

/// Adds the moves of all processes, where it is worth to know first what each waits for.
#[inline(never)]
fn add_moves_knowing(
    live: &Live<'_, '_>,
    timeout: bool,
    moves: &mut Vec<Move>,
) -> Result<(), AllocError>
    ensures added { OnOk result (moves.new.items ≡ moves.old.items ++ live_under live.now timeout) }
    ensures kept { Extends moves.new.items moves.old.items }
{
    let alloc = *moves.allocator();
    let demands = all_demands(alloc, live, timeout)?;
    let heard = all_listeners(alloc, demands.as_slice(), live.channels().len())?;
    let round = Round {
        live,
        timeout,
        demands: demands.as_slice(),
        spans: heard.spans.as_slice(),
        any: heard.any,
    };
    add_moves_of_many(&round, moves)
}

/// Adds the moves of all processes under a value of `timeout`.
#[inline(always)]
fn add_moves_under(
    live: &Live<'_, '_>,
    timeout: bool,
    moves: &mut Vec<Move>,
) -> Result<(), AllocError>
    ensures added { OnOk result (moves.new.items ≡ moves.old.items ++ live_under live.now timeout) }
    ensures kept { Extends moves.new.items moves.old.items }
{
    if are_worth_knowing(live) {
        return add_moves_knowing(live, timeout, moves);
    }
    let round = Round {
        live,
        timeout,
        demands: &[],
        spans: &[],
        any: NOBODY,
    };
    if live.process_count() >= ENOUGH_PROCESSES {
        return add_moves_of_many(&round, moves);
    }
    add_moves_of_all(&round, moves)
}

/// Adds the moves of all processes under `timeout`, which is seldom asked.
#[inline(never)]
fn add_moves_at_last(live: &Live<'_, '_>, moves: &mut Vec<Move>) -> Result<(), AllocError>
    ensures added { OnOk result (moves.new.items ≡ moves.old.items ++ live_under live.now true) }
    ensures kept { Extends moves.new.items moves.old.items }
{
    add_moves_under(live, true, moves)
}

/// Adds the moves of a state, where nobody who holds exclusive control has any.
#[inline(never)]
fn add_moves_unheld(live: &Live<'_, '_>, moves: &mut Vec<Move>) -> Result<(), AllocError>
    requires { moves_held live.now.state live.now.state.holder ≡ [] }
    ensures added { OnOk result (moves.new.items ≡ moves.old.items ++ all_moves live.now.state) }
    ensures kept { Extends moves.new.items moves.old.items }
{
    let before = moves.len();
    add_moves_under(live, false, moves)?;
    if moves.len() != before {
        return Ok(());
    }
    add_moves_at_last(live, moves)
}

// ---- who is asked first

/// Adds the moves of a state by who is asked first.
#[inline(never)]
fn add_moves_by(
    live: &Live<'_, '_>,
    process: usize,
    seat: Seat,
    moves: &mut Vec<Move>,
) -> Result<(), AllocError>
    requires there { process < length live.now.state.stands }
    requires stands { let s = live.now.state in slice_get s.stands process ≡ Some (stand_of s.program seat) }
    requires first { AreFirst live.now.state (moves_from live.now.state process seat) }
    ensures added { OnOk result (moves.new.items ≡ moves.old.items ++ all_moves live.now.state) }
    ensures kept { Extends moves.new.items moves.old.items }
{
    let before = moves.len();
    let round = Round {
        live,
        timeout: false,
        demands: &[],
        spans: &[],
        any: NOBODY,
    };
    add_moves_at(&round, process, seat, moves)?;
    if moves.len() != before {
        return Ok(());
    }
    add_moves_unheld(live, moves)
}

/// Adds the moves of a state by the one level of who is asked first, where so many of the last moves are of that level already.
#[inline(never)]
fn add_moves_after(
    live: &Live<'_, '_>,
    body: &Body<'_, '_, '_>,
    process: usize,
    edges: &[Edge],
    place: usize,
    moves: &mut Vec<Move>,
) -> Result<(), AllocError>
    requires there { process < length live.now.state.stands }
    requires body { IsBody body.now }
    requires stands { HasBody live.now.state process body.now }
    requires first { AreFirst live.now.state (moves_of_level live.now.state body.now process edges.now) }
    requires so_far { place ≤ length moves.old.items }
    ensures added { OnOk result (moves.new.items ≡ take (length moves.old.items - place) moves.old.items ++ all_moves live.now.state) }
    ensures kept { Extends moves.new.items (take (length moves.old.items - place) moves.old.items) }
{
    let before = moves.len() - place;
    moves.truncate(before);
    let round = Round {
        live,
        timeout: false,
        demands: &[],
        spans: &[],
        any: NOBODY,
    };
    add_moves_on(&round, body, Tier { process, level: 0 }, edges, moves)?;
    if moves.len() != before {
        return Ok(());
    }
    add_moves_unheld(live, moves)
}

/// Adds the moves of a state by the one level of who is asked first: at once, while its offers need nothing.
#[inline(always)]
fn add_moves_at_once(
    live: &Live<'_, '_>,
    body: &Body<'_, '_, '_>,
    process: usize,
    edges: &[Edge],
    moves: &mut Vec<Move>,
) -> Result<(), AllocError>
    requires there { process < length live.now.state.stands }
    requires body { IsBody body.now }
    requires stands { HasBody live.now.state process body.now }
    requires first { AreFirst live.now.state (moves_of_level live.now.state body.now process edges.now) }
    ensures added { OnOk result (moves.new.items ≡ moves.old.items ++ all_moves live.now.state) }
    ensures kept { Extends moves.new.items moves.old.items }
{
    let tier = Tier { process, level: 0 };
    for place in 0..edges.len() {
        if !is_added_at_once(body, tier.pick(place), edges[place], moves) {
            return add_moves_after(live, &lent(body), process, edges, place, moves);
        }
    }
    if edges.is_empty() {
        return add_moves_unheld(live, moves);
    }
    Ok(())
}

/// Adds the moves of a state by who is asked first.
#[inline(always)]
fn add_moves_first(
    live: &Live<'_, '_>,
    process: usize,
    seat: Seat,
    moves: &mut Vec<Move>,
) -> Result<(), AllocError>
    requires there { process < length live.now.state.stands }
    requires stands { let s = live.now.state in slice_get s.stands process ≡ Some (stand_of s.program seat) }
    requires first { AreFirst live.now.state (moves_from live.now.state process seat) }
    ensures added { OnOk result (moves.new.items ≡ moves.old.items ++ all_moves live.now.state) }
    ensures kept { Extends moves.new.items moves.old.items }
{
    if let Some(body) = live.standing(seat) {
        if let Some(edges) = body.graph.only_level(seat.node) {
            return add_moves_at_once(live, &body, process, edges, moves);
        }
    }
    add_moves_by(live, process, seat, moves)
}

/// Adds the moves of a state.
pub fn add_moves(live: &Live<'_, '_>, moves: &mut Vec<Move>) -> Result<(), AllocError>
    ensures added { OnOk result (moves.new.items ≡ moves.old.items ++ all_moves live.now.state) }
    ensures kept { Extends moves.new.items moves.old.items }
{
    match first_asked(live) {
        Some(process) => add_moves_first(live, process, live.seats()[process], moves),
        None => add_moves_unheld(live, moves),
    }
}
