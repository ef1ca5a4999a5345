//! A round of the search, and the moves of an offer that is no `else`.

#![tactic(auto, using(crate::proofs::Keeping::kept_on, crate::proofs::Keeping::kept_same, crate::proofs::Keeping::kept_push))]

ghost use Rattle.std.specs.Prelude.{◌≡◌, ◌++◌, ◌+◌, ◌<◌, ◌∷◌, true, false, Some, [], OnOk, length};
ghost use Rattle.run_search.specs.Kept.{Extends};
ghost use Rattle.pml_program.specs.declared.program.Action.TheVariants.{Holds};
ghost use Rattle.pml_program.specs.declared.program.Basic.{Plain};
ghost use Rattle.run_state.specs.Coded.{HasBody, IsNumbered};
ghost use Rattle.run_state.specs.Standing.{IsBody, shows};
ghost use Rattle.run_search.specs.Viewed.{IsSilent};
ghost use Rattle.run_search.specs.Listeners.{AreKnown};
ghost use Rattle.promela_run.specs.Moves.{Message as Sent, can};
ghost use Rattle.promela_run.specs.State.{State, reads};
ghost use Rattle.run_search.specs.First.{moves_of_offer};
ghost use Rattle.run_search.specs.Round.{IsKnown, alone_at, round_pairs, round_send, round_for};
ghost use Rattle.promela_run.specs.declared.moves.Move.TheVariants.{Alone};

use crate::alone::{can_be_alone, needs_nothing};
use crate::demand::Demand;
use crate::executable::{can_be_taken, can_send, named};
use crate::lent::lent;
use crate::listeners::{Known, Span};
use crate::message::{Message, message_over};
use crate::rendezvous::{Sending, add_pairs};
use pml_eval::eval::eval;
use pml_flow::edge::Edge;
use pml_program::expr::{Expr, Target};
use pml_program::program::{Action, Basic};
use promela_run::moves::{Move, Pick};
use run_state::body::Body;
use run_state::live::Live;
use std::alloc::AllocError;

/// A round of the search: over which state, under which value of `timeout`, and what is known of what processes wait for.
#[derive(Clone, Copy)]
pub(crate) struct Round<'r, 'p, 'a> {
    pub live: &'r Live<'p, 'a>,
    pub timeout: bool,
    pub demands: &'r [Demand],
    pub spans: &'r [Span],
    pub any: Span,
}

// ---- an offer

/// Adds the move of an offer by itself.
pub(crate) fn add_alone(offer: Pick, timeout: bool, moves: &mut Vec<Move>) -> Result<(), AllocError>
    ensures added { OnOk result (moves.new.items ≡ moves.old.items ++ Alone offer timeout ∷ []) }
    ensures kept { Extends moves.new.items moves.old.items }
{
    moves.push(Move::Alone(offer, timeout))?;
    Ok(())
}

/// Adds the move of an offer that needs nothing, where there is room for it: whether it did.
#[inline(always)]
pub(crate) fn is_added_at_once(
    body: &Body<'_, '_, '_>,
    offer: Pick,
    edge: Edge,
    moves: &mut Vec<Move>,
) -> bool
    requires { IsBody body.now }
    ensures added { result ≡ true → (s : State) → moves.new.items ≡ moves.old.items ++ moves_of_offer s body.now offer edge }
    ensures one { result ≡ true → length moves.new.items ≡ length moves.old.items + 1 }
    ensures nothing { result ≡ false → moves.new.items ≡ moves.old.items }
    ensures kept { Extends moves.new.items moves.old.items }
{
    if !needs_nothing(body.basic(edge)) || moves.len() == moves.capacity() {
        return false;
    }
    moves.push_reserved(Move::Alone(offer, false));
    true
}

/// What a round knows of what processes wait for.
#[inline(always)]
fn known<'r>(round: &Round<'r, '_, '_>) -> Known<'r>
    requires { IsKnown round.now }
    ensures { AreKnown round.now.live.now.state round.now.timeout result }
{
    Known {
        demands: round.demands,
        spans: round.spans,
        any: round.any,
    }
}

/// Whether nobody is heard on a channel, so that a message over it has no pairs.
#[inline(always)]
pub(crate) fn is_unheard(round: &Round<'_, '_, '_>, number: i32) -> bool
    requires { IsKnown round.now }
    ensures { (offer : Pick) (m : Sent) → result ≡ true → number ≡ m.number → round_pairs round.now offer (Some m) ≡ [] }
{
    known(round).is_unheard(number, round.live.process_count())
}

/// Adds the pairs of a message.
#[inline(always)]
fn add_sent(
    round: &Round<'_, '_, '_>,
    message: Message<'_, '_>,
    offer: Pick,
    moves: &mut Vec<Move>,
) -> Result<(), AllocError>
    requires { IsKnown round.now }
    ensures added { OnOk result (moves.new.items ≡ moves.old.items ++ round_pairs round.now offer (Some message.entry)) }
    ensures kept { Extends moves.new.items moves.old.items }
{
    let sending = Sending {
        message,
        sender: offer,
        timeout: round.timeout,
    };
    add_pairs(round.live, &sending, known(round), moves)
}

/// Adds the moves of a send: its channel is looked up once, and each field evaluated once.
#[inline(never)]
fn add_send(
    round: &Round<'_, '_, '_>,
    offer: Pick,
    target: &Target,
    fields: &[Expr],
    moves: &mut Vec<Move>,
) -> Result<(), AllocError>
    requires known { IsKnown round.now }
    requires there { offer.process < length round.now.live.now.state.stands }
    ensures added { OnOk result (moves.new.items ≡ moves.old.items ++ round_send round.now offer target.now fields.now) }
    ensures kept { Extends moves.new.items moves.old.items }
{
    let view = round.live.view(offer.process, round.timeout);
    let Ok((number, channel)) = named(&view, target, fields.len()) else {
        return add_alone(offer, round.timeout, moves);
    };
    if can_send(&view, round.live.is_lossy(), false, channel, fields) {
        return add_alone(offer, round.timeout, moves);
    }
    if channel.capacity() != 0 || is_unheard(round, number) {
        return Ok(());
    }
    add_sent(
        round,
        message_over(view, number, channel, fields),
        offer,
        moves,
    )
}

/// Whether a statement of a process can be taken by itself.
#[inline(never)]
fn can_act(live: &Live<'_, '_>, timeout: bool, process: usize, action: &Action<'_>) -> bool
    requires { process < length live.now.state.stands }
    ensures { result ≡ can live.now.state.lossy live.now.state.channels (reads live.now.state process timeout) false action.now }
{
    let view = live.view(process, timeout);
    can_be_taken(&view, live.is_lossy(), false, action)
}

/// Whether a condition of a process without a flat code holds, or comes to a fault.
#[inline(never)]
fn holds_slowly(live: &Live<'_, '_>, timeout: bool, process: usize, value: &Expr) -> bool
    requires { process < length live.now.state.stands }
    ensures { result ≡ can live.now.state.lossy live.now.state.channels (reads live.now.state process timeout) false (Holds value.now) }
{
    match eval(value, &live.view(process, timeout)) {
        Ok(number) => number != 0,
        Err(_) => true,
    }
}

/// Whether a condition of a process holds, or comes to a fault, by its number: at once, where it has a flat code.
#[inline(always)]
fn holds(live: &Live<'_, '_>, timeout: bool, process: usize, value: &Expr, statement: usize) -> bool
    requires there { process < length live.now.state.stands }
    requires numbered { IsNumbered live.now.state process statement (Some (Plain (Holds value.now))) }
    ensures { result ≡ can live.now.state.lossy live.now.state.channels (reads live.now.state process timeout) false (Holds value.now) }
{
    match live.can_flat(process, statement) {
        Some(can) => can,
        None => holds_slowly(live, timeout, process, value),
    }
}

/// Whether an offer of a process, mostly a d_step, is a move by itself.
#[inline(never)]
fn can_begin_alone(
    live: &Live<'_, '_>,
    body: &Body<'_, '_, '_>,
    timeout: bool,
    process: usize,
    edge: &Edge,
) -> bool
    requires there { process < length live.now.state.stands }
    requires body { IsBody body.now }
    ensures { result ≡ alone_at live.now.state timeout body.now process edge.now }
{
    let view = live.view(process, timeout);
    can_be_alone(body, &view, live.is_lossy(), *edge, body.basic(*edge))
}

/// Whether an offer of a process is a move by itself.
#[inline(always)]
fn goes_alone(
    live: &Live<'_, '_>,
    body: &Body<'_, '_, '_>,
    timeout: bool,
    process: usize,
    edge: &Edge,
) -> bool
    requires there { process < length live.now.state.stands }
    requires body { IsBody body.now }
    requires stands { HasBody live.now.state process body.now }
    ensures { result ≡ alone_at live.now.state timeout body.now process edge.now }
{
    match body.basic(*edge) {
        Some(Basic::Plain(Action::Holds(value))) => {
            holds(live, timeout, process, value, edge.statement)
        }
        Some(Basic::Plain(action)) => can_act(live, timeout, process, action),
        _ => can_begin_alone(live, &lent(body), timeout, process, edge),
    }
}

/// Adds the move of an offer that sends nothing, where it can be taken by itself.
#[inline(always)]
fn add_other(
    round: &Round<'_, '_, '_>,
    body: &Body<'_, '_, '_>,
    offer: Pick,
    edge: &Edge,
    moves: &mut Vec<Move>,
) -> Result<(), AllocError>
    requires there { offer.process < length round.now.live.now.state.stands }
    requires body { IsBody body.now }
    requires stands { HasBody round.now.live.now.state offer.process body.now }
    requires silent { IsSilent (shows body.now edge.now).basic }
    ensures added { OnOk result (moves.new.items ≡ moves.old.items ++ round_for round.now body.now offer edge.now) }
    ensures kept { Extends moves.new.items moves.old.items }
{
    if goes_alone(round.live, body, round.timeout, offer.process, edge) {
        return add_alone(offer, round.timeout, moves);
    }
    Ok(())
}

/// Adds the moves of an offer that is no `else`, as the state has it.
#[inline(always)]
pub(crate) fn add_asked(
    round: &Round<'_, '_, '_>,
    body: &Body<'_, '_, '_>,
    offer: Pick,
    edge: &Edge,
    moves: &mut Vec<Move>,
) -> Result<(), AllocError>
    requires known { IsKnown round.now }
    requires there { offer.process < length round.now.live.now.state.stands }
    requires body { IsBody body.now }
    requires stands { HasBody round.now.live.now.state offer.process body.now }
    ensures added { OnOk result (moves.new.items ≡ moves.old.items ++ round_for round.now body.now offer edge.now) }
    ensures kept { Extends moves.new.items moves.old.items }
{
    match body.basic(*edge) {
        Some(Basic::Plain(Action::Send(target, _, fields))) => {
            add_send(round, offer, target, fields.as_slice(), moves)
        }
        _ => add_other(round, body, offer, edge, moves),
    }
}
