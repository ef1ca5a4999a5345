//! The moves of a process: those of the highest level that has any.

#![tactic(auto, using(crate::proofs::Keeping::kept_on, crate::proofs::Keeping::kept_same, crate::proofs::Keeping::kept_push))]

ghost use Rattle.std.specs.Prelude.{◌≡◌, ◌++◌, ◌<◌, [], Some, false, IfOk, OnOk, length, slice_get};
ghost use Rattle.run_search.specs.Kept.{Extends};
ghost use Rattle.run_state.specs.Coded.{HasBody};
ghost use Rattle.run_state.specs.Standing.{stand_of, IsBody, shows};
ghost use Rattle.promela_run.specs.Moves.{is_else as else_of, only_if};
ghost use Rattle.run_search.specs.Round.{IsKnown, round_plain_for, round_plain, else_on, round_on, round_down, round_at};
ghost use Rattle.promela_run.specs.declared.moves.Move.TheVariants.{Alone};

use crate::alone::needs_nothing;
use crate::d_step::is_else;
use crate::lent::lent;
use crate::round::{Round, add_alone, add_asked};
use crate::tier::Tier;
use pml_flow::edge::Edge;
use promela_run::moves::{Move, Pick};
use run_state::body::Body;
use run_state::seat::Seat;
use std::alloc::AllocError;

/// Adds the moves of an offer, none where it is an `else`, and answers whether it is one. What needs nothing is offered at once.
#[inline(always)]
fn add_plain_by(
    round: &Round<'_, '_, '_>,
    body: &Body<'_, '_, '_>,
    offer: Pick,
    edge: &Edge,
    moves: &mut Vec<Move>,
) -> Result<bool, AllocError>
    requires known { IsKnown round.now }
    requires there { offer.process < length round.now.live.now.state.stands }
    requires body { IsBody body.now }
    requires stands { HasBody round.now.live.now.state offer.process body.now }
    ensures added { OnOk result (moves.new.items ≡ moves.old.items ++ round_plain_for round.now body.now offer edge.now) }
    ensures other { IfOk result (λ is. is ≡ else_of (shows body.now edge.now).basic) }
    ensures kept { Extends moves.new.items moves.old.items }
{
    let basic = body.basic(*edge);
    if needs_nothing(basic) {
        moves.reserve(1)?;
        moves.push_reserved(Move::Alone(offer, round.timeout));
        return Ok(false);
    }
    if is_else(basic) {
        return Ok(true);
    }
    add_asked(round, body, offer, edge, moves)?;
    Ok(false)
}

/// Adds the moves of a level's offers that are no `else`, and answers whether one is.
#[inline(always)]
fn add_plain(
    round: &Round<'_, '_, '_>,
    body: &Body<'_, '_, '_>,
    tier: Tier,
    edges: &[Edge],
    moves: &mut Vec<Move>,
) -> Result<bool, AllocError>
    requires known { IsKnown round.now }
    requires there { tier.process < length round.now.live.now.state.stands }
    requires body { IsBody body.now }
    requires stands { HasBody round.now.live.now.state tier.process body.now }
    ensures added { OnOk result (moves.new.items ≡ moves.old.items ++ round_plain round.now body.now tier edges.now) }
    ensures other { IfOk result (λ is. is ≡ false → else_on body.now tier round.now.timeout edges.now ≡ []) }
    ensures kept { Extends moves.new.items moves.old.items }
{
    let mut has_else = false;
    for place in 0..edges.len() {
        if add_plain_by(round, body, tier.pick(place), &edges[place], moves)? {
            has_else = true;
        }
    }
    Ok(has_else)
}

/// Adds an offer, where it is an `else`.
fn add_else_by(
    body: &Body<'_, '_, '_>,
    timeout: bool,
    offer: Pick,
    edge: Edge,
    moves: &mut Vec<Move>,
) -> Result<(), AllocError>
    requires { IsBody body.now }
    ensures added { OnOk result (moves.new.items ≡ moves.old.items ++ only_if (else_of (shows body.now edge).basic) (Alone offer timeout)) }
    ensures kept { Extends moves.new.items moves.old.items }
{
    if !is_else(body.basic(edge)) {
        return Ok(());
    }
    add_alone(offer, timeout, moves)
}

/// Adds a level's `else` offers.
#[inline(always)]
fn add_else(
    body: &Body<'_, '_, '_>,
    tier: Tier,
    timeout: bool,
    edges: &[Edge],
    moves: &mut Vec<Move>,
) -> Result<(), AllocError>
    requires { IsBody body.now }
    ensures added { OnOk result (moves.new.items ≡ moves.old.items ++ else_on body.now tier timeout edges.now) }
    ensures kept { Extends moves.new.items moves.old.items }
{
    for place in 0..edges.len() {
        add_else_by(body, timeout, tier.pick(place), edges[place], moves)?;
    }
    Ok(())
}

/// Adds the moves of a level: its `else` offers where no other gives any.
#[inline(always)]
pub(crate) fn add_moves_on(
    round: &Round<'_, '_, '_>,
    body: &Body<'_, '_, '_>,
    tier: Tier,
    edges: &[Edge],
    moves: &mut Vec<Move>,
) -> Result<(), AllocError>
    requires known { IsKnown round.now }
    requires there { tier.process < length round.now.live.now.state.stands }
    requires body { IsBody body.now }
    requires stands { HasBody round.now.live.now.state tier.process body.now }
    ensures added { OnOk result (moves.new.items ≡ moves.old.items ++ round_on round.now body.now tier edges.now) }
    ensures kept { Extends moves.new.items moves.old.items }
{
    let before = moves.len();
    let has_else = add_plain(round, body, tier, edges, moves)?;
    if moves.len() != before {
        return Ok(());
    }
    if !has_else {
        return Ok(());
    }
    add_else(body, tier, round.timeout, edges, moves)
}

/// Adds the moves of the highest level of a node that has any.
#[inline(never)]
fn add_moves_down(
    round: &Round<'_, '_, '_>,
    body: &Body<'_, '_, '_>,
    process: usize,
    node: usize,
    moves: &mut Vec<Move>,
) -> Result<(), AllocError>
    requires known { IsKnown round.now }
    requires there { process < length round.now.live.now.state.stands }
    requires body { IsBody body.now }
    requires stands { HasBody round.now.live.now.state process body.now }
    requires node { node < length body.now.graph.now.nodes }
    ensures added { OnOk result (moves.new.items ≡ moves.old.items ++ round_down round.now body.now process node) }
    ensures kept { Extends moves.new.items moves.old.items }
{
    let before = moves.len();
    let mut level = body.graph.level_count(node);
    while 0 < level {
        level -= 1;
        let edges = body.graph.level(node, level);
        let tier = Tier { process, level };
        add_moves_on(round, body, tier, edges, moves)?;
        if moves.len() != before {
            return Ok(());
        }
    }
    Ok(())
}

/// Adds the moves of the highest level of a node that has any: at once where the node has just one level, as most have.
#[inline(always)]
fn add_moves_in(
    round: &Round<'_, '_, '_>,
    body: &Body<'_, '_, '_>,
    process: usize,
    node: usize,
    moves: &mut Vec<Move>,
) -> Result<(), AllocError>
    requires known { IsKnown round.now }
    requires there { process < length round.now.live.now.state.stands }
    requires body { IsBody body.now }
    requires stands { HasBody round.now.live.now.state process body.now }
    requires node { node < length body.now.graph.now.nodes }
    ensures added { OnOk result (moves.new.items ≡ moves.old.items ++ round_down round.now body.now process node) }
    ensures kept { Extends moves.new.items moves.old.items }
{
    match body.graph.only_level(node) {
        Some(edges) => {
            let tier = Tier { process, level: 0 };
            add_moves_on(round, body, tier, edges, moves)
        }
        None => add_moves_down(round, &lent(body), process, node, moves),
    }
}

/// Adds the moves of a process.
#[inline(always)]
pub(crate) fn add_moves_at(
    round: &Round<'_, '_, '_>,
    process: usize,
    seat: Seat,
    moves: &mut Vec<Move>,
) -> Result<(), AllocError>
    requires known { IsKnown round.now }
    requires there { process < length round.now.live.now.state.stands }
    requires stands { let s = round.now.live.now.state in slice_get s.stands process ≡ Some (stand_of s.program seat) }
    ensures added { OnOk result (moves.new.items ≡ moves.old.items ++ round_at round.now process seat) }
    ensures kept { Extends moves.new.items moves.old.items }
{
    if let Some(body) = round.live.standing(seat) {
        return add_moves_in(round, &body, process, seat.node, moves);
    }
    if round.live.process_count() == process + 1 {
        moves.push(Move::Death(process))?;
    }
    Ok(())
}
