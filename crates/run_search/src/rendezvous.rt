//! The pairs of a message that a rendezvous send offers with the receives of other processes: of each process those on the highest
//! level that has any.

#![tactic(auto, using(crate::proofs::Keeping::kept_on, crate::proofs::Keeping::kept_same, crate::proofs::Keeping::kept_push))]

ghost use Rattle.std.specs.Prelude.{◌≡◌, ◌++◌, ◌<◌, false, [], OnOk, length, slice_get};
ghost use Rattle.std.specs.Option.{option_copied};
ghost use Rattle.run_search.specs.Kept.{Extends};
ghost use Rattle.run_state.specs.Standing.{IsBody, shows};
ghost use Rattle.run_search.specs.Paired.{pair_by, paired_on, paired_down, paired_with, paired_by};
ghost use Rattle.run_search.specs.Demands.{may_at};
ghost use Rattle.run_search.specs.Listeners.{AreKnown};

use crate::demand::Demand;
use crate::demands::may_receive;
use crate::listeners::Known;
use crate::message::{Message, is_receive, is_received};
use crate::tier::Tier;
use pml_flow::edge::Edge;
use pml_program::program::Basic;
use promela_run::moves::{Move, Pick};
use run_state::body::Body;
use run_state::live::Live;
use run_state::seat::Seat;
use std::alloc::AllocError;

/// A message, by which offer it is sent, and under which value of `timeout`.
#[derive(Drop)]
pub(crate) struct Sending<'w, 'p> {
    pub message: Message<'w, 'p>,
    pub sender: Pick,
    pub timeout: bool,
}

/// Adds the pair of a message with a receive, where that takes it.
fn add_received(
    live: &Live<'_, '_>,
    sending: &Sending<'_, '_>,
    receiver: Pick,
    basic: Option<&Basic<'_>>,
    moves: &mut Vec<Move>,
) -> Result<(), AllocError>
    requires there { receiver.process < length live.now.state.stands }
    ensures added { OnOk result (moves.new.items ≡ moves.old.items ++ pair_by live.now.state sending.now receiver (option_copied basic.entry)) }
    ensures kept { Extends moves.new.items moves.old.items }
{
    let view = live.view(receiver.process, sending.timeout);
    if !is_received(&view, &sending.message, basic) {
        return Ok(());
    }
    moves.push(Move::Pair(sending.sender, receiver, sending.timeout))?;
    Ok(())
}

/// Adds the pair of a message with an offer, where that receives it. Only a receive is asked.
fn add_pair(
    live: &Live<'_, '_>,
    body: &Body<'_, '_, '_>,
    sending: &Sending<'_, '_>,
    receiver: Pick,
    edge: Edge,
    moves: &mut Vec<Move>,
) -> Result<(), AllocError>
    requires there { receiver.process < length live.now.state.stands }
    requires body { IsBody body.now }
    ensures added { OnOk result (moves.new.items ≡ moves.old.items ++ pair_by live.now.state sending.now receiver (shows body.now edge).basic) }
    ensures kept { Extends moves.new.items moves.old.items }
{
    let basic = body.basic(edge);
    if !is_receive(basic) {
        return Ok(());
    }
    add_received(live, sending, receiver, basic, moves)
}

/// Adds the pairs of a message with the receives of a level of process j.
#[inline(always)]
fn add_pairs_on(
    live: &Live<'_, '_>,
    body: &Body<'_, '_, '_>,
    sending: &Sending<'_, '_>,
    tier: Tier,
    edges: &[Edge],
    moves: &mut Vec<Move>,
) -> Result<(), AllocError>
    requires there { tier.process < length live.now.state.stands }
    requires body { IsBody body.now }
    ensures added { OnOk result (moves.new.items ≡ moves.old.items ++ paired_on live.now.state sending.now body.now tier edges.now) }
    ensures kept { Extends moves.new.items moves.old.items }
{
    for place in 0..edges.len() {
        add_pair(live, body, sending, tier.pick(place), edges[place], moves)?;
    }
    Ok(())
}

/// Adds those with the highest level of a node that has a receive of it.
#[inline(never)]
fn add_pairs_down(
    live: &Live<'_, '_>,
    body: &Body<'_, '_, '_>,
    sending: &Sending<'_, '_>,
    j: usize,
    node: usize,
    moves: &mut Vec<Move>,
) -> Result<(), AllocError>
    requires there { j < length live.now.state.stands }
    requires body { IsBody body.now }
    requires node { node < length body.now.graph.now.nodes }
    ensures added { OnOk result (moves.new.items ≡ moves.old.items ++ paired_down live.now.state sending.now body.now j node) }
    ensures kept { Extends moves.new.items moves.old.items }
{
    let before = moves.len();
    let mut level = body.graph.level_count(node);
    while 0 < level {
        level -= 1;
        let edges = body.graph.level(node, level);
        let tier = Tier { process: j, level };
        add_pairs_on(live, body, sending, tier, edges, moves)?;
        if moves.len() != before {
            return Ok(());
        }
    }
    Ok(())
}

/// Adds those with the highest level of a node that has a receive of it: at once where the node has just one level, as most have.
fn add_pairs_in(
    live: &Live<'_, '_>,
    body: &Body<'_, '_, '_>,
    sending: &Sending<'_, '_>,
    j: usize,
    node: usize,
    moves: &mut Vec<Move>,
) -> Result<(), AllocError>
    requires there { j < length live.now.state.stands }
    requires body { IsBody body.now }
    requires node { node < length body.now.graph.now.nodes }
    ensures added { OnOk result (moves.new.items ≡ moves.old.items ++ paired_down live.now.state sending.now body.now j node) }
    ensures kept { Extends moves.new.items moves.old.items }
{
    match body.graph.only_level(node) {
        Some(edges) => {
            let tier = Tier {
                process: j,
                level: 0,
            };
            add_pairs_on(live, body, sending, tier, edges, moves)
        }
        None => add_pairs_down(live, body, sending, j, node, moves),
    }
}

/// Adds the pairs of a message with the receives of process j.
fn add_pairs_with(
    live: &Live<'_, '_>,
    sending: &Sending<'_, '_>,
    j: usize,
    seat: Seat,
    moves: &mut Vec<Move>,
) -> Result<(), AllocError>
    requires there { j < length live.now.state.stands }
    ensures added { OnOk result (moves.new.items ≡ moves.old.items ++ paired_with live.now.state sending.now j seat) }
    ensures kept { Extends moves.new.items moves.old.items }
{
    if j == sending.sender.process {
        return Ok(());
    }
    match live.standing(seat) {
        None => Ok(()),
        Some(body) => add_pairs_in(live, &body, sending, j, seat.node, moves),
    }
}

/// Adds the pairs of a message with the receives of process j, unless it waits for another.
fn add_pairs_where(
    live: &Live<'_, '_>,
    sending: &Sending<'_, '_>,
    demands: &[Demand],
    j: usize,
    seat: Seat,
    moves: &mut Vec<Move>,
) -> Result<(), AllocError>
    requires there { j < length live.now.state.stands }
    requires demands { may_at (slice_get demands.now j) sending.now.message ≡ false
        → paired_with live.now.state sending.now j seat ≡ [] }
    ensures added { OnOk result (moves.new.items ≡ moves.old.items ++ paired_with live.now.state sending.now j seat) }
    ensures kept { Extends moves.new.items moves.old.items }
{
    if !may_receive(demands, j, &sending.message) {
        return Ok(());
    }
    add_pairs_with(live, sending, j, seat, moves)
}

/// Adds the pairs of a message, where this is known of what processes wait for.
#[inline(never)]
pub(crate) fn add_pairs(
    live: &Live<'_, '_>,
    sending: &Sending<'_, '_>,
    known: Known<'_>,
    moves: &mut Vec<Move>,
) -> Result<(), AllocError>
    requires { AreKnown live.now.state sending.now.timeout known }
    ensures added { OnOk result (moves.new.items ≡ moves.old.items ++ paired_by live.now sending.now) }
    ensures kept { Extends moves.new.items moves.old.items }
{
    let seats = live.seats();
    let (first, end) = known.heard(sending.message.number(), seats.len());
    for j in first..end {
        add_pairs_where(live, sending, known.demands, j, seats[j], moves)?;
    }
    Ok(())
}
