//! Seats at which every process can take the same, so that of many who stand there one is asked.

ghost use Rattle.std.specs.Prelude.{◌≡◌, ◌+◌, ◌++◌, ◌<◌, ◌≤◌, true, OnOk, length, map, take, drop};
ghost use Rattle.common_offers.specs.Offers.{AreCommonOffers, by_process};
ghost use Rattle.run_state.specs.Standing.{IsBody, shows};
ghost use Rattle.run_search.specs.Kept.{Extends};
ghost use Rattle.run_search.specs.Together.{IsCommonSeat, StandThere};

use common_offers::statement::is_common_offer;
use pml_flow::edge::Edge;
use promela_run::moves::{Move, Pick};
use run_state::body::Body;
use run_state::live::Live;
use run_state::seat::Seat;
use std::alloc::AllocError;

/// Whether every process can take all offers of a level, or none can.
fn is_common_level(body: &Body<'_, '_, '_>, edges: &[Edge]) -> bool
    requires { IsBody body.now }
    ensures { result ≡ true → AreCommonOffers (map (shows body.now) edges.now) }
{
    for edge in edges {
        if !is_common_offer(body.basic(*edge)) {
            return false;
        }
    }
    true
}

/// Whether of the processes that stand there one can be asked for all, as at a closing brace. It may say no where that is so.
#[inline(never)]
#[tactic(auto, using(crate::proofs::Together::common_seat, crate::proofs::Together::closed_seat))]
pub(crate) fn is_common_seat(live: &Live<'_, '_>, seat: Seat) -> bool
    ensures { result ≡ true → IsCommonSeat live.now.state seat }
{
    let Some(body) = live.standing(seat) else {
        return true;
    };
    match body.graph.only_level(seat.node) {
        Some(edges) => is_common_level(&body, edges),
        None => false,
    }
}

/// Whether two processes stand at one place of one proctype. Both numbers are compared, whatever the first says: so many can be
/// compared at once.
#[inline(always)]
fn is_same(one: Seat, other: Seat) -> bool
    ensures { result ≡ true → one ≡ other }
{
    (one.sort == other.sort) & (one.node == other.node)
}

/// Whether a process stands there.
#[inline(always)]
fn is_at(live: &Live<'_, '_>, at: usize, seat: Seat) -> bool
    requires { at < length live.now.state.stands }
    ensures { result ≡ true → StandThere live.now.state seat at (at + 1) }
{
    is_same(live.seats()[at], seat)
}

/// Whether a process and the next one stand there.
#[inline(always)]
fn are_two_at(live: &Live<'_, '_>, at: usize, end: usize, seat: Seat) -> bool
    requires order { at + 2 ≤ end }
    requires lives { end ≤ length live.now.state.stands }
    ensures { result ≡ true → StandThere live.now.state seat at (at + 2) }
{
    let one = is_at(live, at, seat);
    let next = is_at(live, at + 1, seat);
    one & next
}

/// Whether a process and the next three stand there.
#[inline(always)]
fn are_four_at(live: &Live<'_, '_>, at: usize, end: usize, seat: Seat) -> bool
    requires order { at + 4 ≤ end }
    requires lives { end ≤ length live.now.state.stands }
    ensures { result ≡ true → StandThere live.now.state seat at (at + 4) }
{
    let one = are_two_at(live, at, end, seat);
    let next = are_two_at(live, at + 2, end, seat);
    one & next
}

/// Whether a process and the next seven stand there: they are compared at once.
#[inline(always)]
fn are_eight_at(live: &Live<'_, '_>, at: usize, end: usize, seat: Seat) -> bool
    requires order { at + 8 ≤ end }
    requires lives { end ≤ length live.now.state.stands }
    ensures { result ≡ true → StandThere live.now.state seat at (at + 8) }
{
    let one = are_four_at(live, at, end, seat);
    let next = are_four_at(live, at + 4, end, seat);
    one & next
}

/// Whether a process stands there too, as those before it do from the first on.
#[inline(always)]
fn is_there(live: &Live<'_, '_>, first: usize, at: usize, seat: Seat) -> bool
    requires lives { at < length live.now.state.stands }
    requires before { StandThere live.now.state seat first at }
    ensures { result ≡ true → StandThere live.now.state seat first (at + 1) }
{
    is_at(live, at, seat)
}

/// Whether the next eight, all older than another, stand there too.
#[inline(always)]
fn are_eight_there(live: &Live<'_, '_>, first: usize, at: usize, younger: usize, seat: Seat) -> bool
    requires order { at + 8 ≤ younger }
    requires lives { younger < length live.now.state.stands }
    requires before { StandThere live.now.state seat first at }
    ensures { result ≡ true → StandThere live.now.state seat first (at + 8) }
{
    are_eight_at(live, at, younger, seat)
}

/// Passes over those behind a process who stand where it does, by eights: up to whom they do, at most to the youngest.
#[inline(always)]
fn behind_eights(live: &Live<'_, '_>, process: usize, youngest: usize, seat: Seat) -> usize
    requires there { StandThere live.now.state seat process (process + 1) }
    requires order { process < youngest }
    requires lives { youngest < length live.now.state.stands }
    ensures behind { process < result }
    ensures within { result ≤ youngest }
    ensures there { StandThere live.now.state seat process result }
{
    let mut at = process + 1;
    while 8 <= youngest - at && are_eight_there(live, process, at, youngest, seat) {
        at += 8;
    }
    at
}

/// The next process that stands elsewhere, or the youngest, of whom nothing is known: it may die.
#[inline(always)]
pub(crate) fn next_elsewhere(live: &Live<'_, '_>, process: usize, seat: Seat) -> usize
    requires there { StandThere live.now.state seat process (process + 1) }
    requires lives { process < length live.now.state.stands }
    ensures behind { process < result }
    ensures within { result ≤ length live.now.state.stands }
    ensures there { StandThere live.now.state seat process result }
    ensures older { process + 1 < result → result < length live.now.state.stands }
{
    let youngest = live.process_count() - 1;
    if process == youngest || !is_there(live, process, process + 1, seat) {
        return process + 1;
    }
    for at in behind_eights(live, process, youngest, seat)..youngest {
        if !is_there(live, process, at, seat) {
            return at;
        }
    }
    youngest
}

/// The same move by another process.
#[inline(always)]
fn copied(one: Move, process: usize) -> Move
    ensures { result ≡ by_process process one }
{
    match one {
        Move::Alone(offer, timeout) => Move::Alone(Pick { process, ..offer }, timeout),
        _ => one,
    }
}

/// Adds the moves from one place of the list on up to another, by another process.
#[inline(always)]
pub(crate) fn add_copies(
    process: usize,
    first: usize,
    end: usize,
    moves: &mut Vec<Move>,
) -> Result<(), AllocError>
    requires { end ≤ length moves.old.items }
    ensures added { OnOk result (moves.new.items ≡ moves.old.items ++ map (by_process process) (drop first (take end moves.old.items))) }
    ensures kept { Extends moves.new.items moves.old.items }
{
    for at in first..end {
        moves.push(copied(moves[at], process))?;
    }
    Ok(())
}
