//! What processes wait for: a send then asks those alone that may receive its message.

ghost use Rattle.std.specs.Prelude.{◌≡◌, ◌+◌, ◌<◌, ◌≤◌, false, IfOk, OnOk, length, map, slice_get};
ghost use Rattle.std.specs.Option.{option_copied};
ghost use Rattle.run_state.specs.Standing.{stand_of, IsBody, shows, offers_at};
ghost use Rattle.promela_run.specs.Moves.{Message as Sent};
ghost use Rattle.run_search.specs.Together.{StandThere};
ghost use Rattle.run_search.specs.Demands.{may_take, may_at, own_at, DemandsOn, DemandsDown, DemandsFor, AreDemands, AreIdleOn};
ghost use Rattle.run_search.specs.declared.demand.OwnMoves.TheVariants.{Unknown};

use crate::common::{is_common_seat, next_elsewhere};
use crate::demand::{Demand, NO_DEMAND, NO_DEMAND_YET, OwnMoves};
use crate::lent::lent;
use crate::message::Message;
use pml_flow::edge::Edge;
use promela_run::live_channel::LiveChannel;
use run_state::body::Body;
use run_state::live::Live;
use run_state::seat::Seat;
use std::alloc::{AllocError, Global};

/// As many processes are enough to look beforehand what each waits for.
pub(crate) const ENOUGH_PROCESSES: usize = 8;

/// What may be received so far, or by the offers of a level.
#[inline(always)]
fn demand_on(
    live: &Live<'_, '_>,
    body: &Body<'_, '_, '_>,
    j: usize,
    timeout: bool,
    edges: &[Edge],
    so_far: Demand,
) -> Demand
    requires there { j < length live.now.state.stands }
    requires body { IsBody body.now }
    ensures one { (m : Sent) → may_take result.interests m ≡ false → may_take so_far.interests m ≡ false }
    ensures other { DemandsOn live.now.state timeout j (map (shows body.now) edges.now) result.interests }
    ensures idle { AreIdleOn result.own live.now.state timeout j (map (shows body.now) edges.now) }
{
    let mut demand = so_far;
    for edge in edges {
        demand = demand.or_offer(live, j, timeout, body.basic(*edge));
    }
    demand
}

/// What may be received at a node of several levels.
#[inline(never)]
fn demand_down(
    live: &Live<'_, '_>,
    body: &Body<'_, '_, '_>,
    j: usize,
    timeout: bool,
    node: usize,
) -> Demand
    requires there { j < length live.now.state.stands }
    requires body { IsBody body.now }
    requires node { node < length body.now.graph.now.nodes }
    ensures demands { DemandsDown live.now.state timeout j (offers_at body.now node) result.interests }
    ensures own { result.own ≡ Unknown }
{
    let mut demand = NO_DEMAND;
    for level in 0..body.graph.level_count(node) {
        let edges = body.graph.level(node, level);
        demand = demand_on(live, body, j, timeout, edges, demand);
    }
    demand.with_unknown()
}

/// What a process may receive.
fn demand_of(live: &Live<'_, '_>, j: usize, timeout: bool, seat: Seat) -> Demand
    requires { j < length live.now.state.stands }
    ensures { DemandsFor live.now.state timeout j (stand_of live.now.state.program seat) result }
{
    let Some(body) = live.standing(seat) else {
        return NO_DEMAND;
    };
    match body.graph.only_level(seat.node) {
        Some(edges) => demand_on(live, &body, j, timeout, edges, NO_DEMAND_YET),
        None => demand_down(live, &lent(&body), j, timeout, seat.node),
    }
}

/// Adds what the processes behind one that was asked may receive, up to another, who stand where it does.
#[inline(never)]
fn add_demands_behind(
    live: &Live<'_, '_>,
    timeout: bool,
    asked: usize,
    end: usize,
    seat: Seat,
    demands: &mut Vec<Demand>,
) -> Result<(), AllocError>
    requires order { asked < end }
    requires older { end < length live.now.state.stands }
    requires there { StandThere live.now.state seat asked end }
    requires known { AreDemands live.now.state timeout demands.old.items }
    requires many { length demands.old.items ≡ asked + 1 }
    ensures demands { OnOk result (AreDemands live.now.state timeout demands.new.items) }
    ensures many { OnOk result (length demands.new.items ≡ end) }
{
    let is_common = is_common_seat(live, seat);
    let first = demands[asked];
    for j in asked + 1..end {
        let demand = if is_common {
            first
        } else {
            demand_of(live, j, timeout, seat)
        };
        demands.push(demand)?;
    }
    Ok(())
}

/// Adds what a process and those behind it may receive who stand where it does: who comes next.
#[inline(always)]
fn add_demands_of_run(
    live: &Live<'_, '_>,
    timeout: bool,
    j: usize,
    demands: &mut Vec<Demand>,
) -> Result<usize, AllocError>
    requires there { j < length live.now.state.stands }
    requires known { AreDemands live.now.state timeout demands.old.items }
    requires many { length demands.old.items ≡ j }
    ensures demands { OnOk result (AreDemands live.now.state timeout demands.new.items) }
    ensures many { IfOk result (λ end. length demands.new.items ≡ end) }
    ensures on { IfOk result (λ end. (j < end) × (end ≤ length live.now.state.stands)) }
{
    let seat = live.seats()[j];
    demands.push(demand_of(live, j, timeout, seat))?;
    let end = next_elsewhere(live, j, seat);
    if j + 1 < end {
        add_demands_behind(live, timeout, j, end, seat, demands)?;
    }
    Ok(end)
}

/// What each process may receive. Of those beside one another at a seat where all wait for the same one is asked.
pub(crate) fn all_demands(
    alloc: Global,
    live: &Live<'_, '_>,
    timeout: bool,
) -> Result<Vec<Demand>, AllocError>
    ensures demands { IfOk result (λ v. AreDemands live.now.state timeout v.items) }
    ensures many { IfOk result (λ v. length v.items ≡ length live.now.state.stands) }
{
    let count = live.process_count();
    let mut demands = Vec::with_capacity(alloc, count)?;
    let mut j = 0;
    while j < count {
        j = add_demands_of_run(live, timeout, j, &mut demands)?;
    }
    Ok(demands)
}

/// Whether one of these channels keeps no message.
fn has_rendezvous(channels: &[LiveChannel]) -> bool {
    for live in channels {
        if live.channel.capacity() == 0 {
            return true;
        }
    }
    false
}

/// Whether it is worth to look beforehand what processes wait for: many live, and some can meet.
pub(crate) fn are_worth_knowing(live: &Live<'_, '_>) -> bool {
    live.process_count() >= ENOUGH_PROCESSES && has_rendezvous(live.channels())
}

fn demand_at(demands: &[Demand], j: usize) -> Option<&Demand>
    ensures { option_copied result ≡ slice_get demands.now j }
{
    demands.get(j)
}

/// Whether process j may receive a message, as far as is known.
pub(crate) fn may_receive(demands: &[Demand], j: usize, message: &Message<'_, '_>) -> bool
    ensures { result ≡ may_at (slice_get demands.now j) message.now }
{
    match demand_at(demands, j) {
        Some(demand) => demand.interests.takes(message),
        None => true,
    }
}

/// What is known of the own moves of process j.
#[inline(always)]
pub(crate) fn own_moves(demands: &[Demand], j: usize) -> OwnMoves
    ensures { result ≡ own_at (slice_get demands.now j) }
{
    let Some(demand) = demand_at(demands, j) else {
        return OwnMoves::Unknown;
    };
    demand.own
}
