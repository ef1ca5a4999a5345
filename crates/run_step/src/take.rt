//! What a move leads to.

ghost use Rattle.std.specs.Prelude.{◌≡◌, ◌<◌, ℕ, List, None, IfSome, OnOk, OnErr, length};
ghost use Rattle.std.specs.Io.{StartsWith};
ghost use Rattle.std.specs.Option.{option_copied};
ghost use Rattle.promela_run.specs.State.{picked as picks};
ghost use Rattle.promela_run.specs.declared.moves.Move.TheVariants.{Alone, Pair};
ghost use Rattle.profile.specs.declared.TheConstants.{MOST_DSTEP_STATEMENTS};
ghost use Rattle.run_step.specs.Done.{Does, Grows};
ghost use Rattle.run_state.specs.Coded.{IsNumbered};
ghost use Rattle.run_state.specs.Live.{Joins, PastGrows};
ghost use Rattle.promela_run.specs.Steps.{after_move};
ghost use Rattle.run_step.specs.Taking.{IsOffer, DoesWithin, DoesOffer, CanDie, PastBy};

use crate::effect::effect;
use crate::pair::pass;
use crate::within::within;
use diagnostics::Stop;
use pml_flow::edge::Edge;
use pml_program::program::Basic;
use promela_run::moves::{Move, Pick};
use run_search::picked::picked;
use run_state::live::Live;

/// An offer: its edge, and its statement without its labels.
#[derive(Drop)]
struct Offer<'p, 'a> {
    edge: &'p Edge,
    basic: Option<&'p Basic<'a>>,
}

/// The offer that a pick names.
#[inline(always)]
fn find_offer<'p, 'a>(live: &Live<'p, 'a>, pick: Pick) -> Option<Offer<'p, 'a>>
    ensures some { IfSome result (λ o. IsOffer live.now.state pick o) }
    ensures numbered { IfSome result (λ o. IsNumbered live.now.state pick.process o.edge.now.statement (option_copied o.basic)) }
    ensures none { result ≡ None → picks live.now.state pick ≡ None }
{
    let offered = picked(live, pick)?;
    let edge = offered.edge;
    let basic = offered.body.basic(*edge);
    Some(Offer { edge, basic })
}

/// Takes the statements of a d_step, from the node inside at which it begins.
#[inline(never)]
fn inside(
    live: &mut Live<'_, '_>,
    pick: Pick,
    timeout: bool,
    entry: Option<usize>,
    text: &mut Vec<u8>,
) -> Result<(), Stop>
    requires { pick.process < length live.old.state.stands }
    ensures value { let s = live.old.state in
        DoesWithin MOST_DSTEP_STATEMENTS s pick.process timeout entry result live.new.state text.old.items text.new.items }
    ensures grows { Grows result live.old live.new text.old.items text.new.items }
{
    match entry {
        Some(node) => within(live, pick.process, timeout, node, text),
        None => Ok(()),
    }
}

/// Takes the statement of an offer.
fn take_offer(
    live: &mut Live<'_, '_>,
    pick: Pick,
    timeout: bool,
    offer: &Offer<'_, '_>,
    text: &mut Vec<u8>,
) -> Result<(), Stop>
    requires offer { IsOffer live.old.state pick offer.now }
    requires numbered { IsNumbered live.old.state pick.process offer.now.edge.now.statement (option_copied offer.now.basic) }
    ensures value { let s = live.old.state in
        DoesOffer MOST_DSTEP_STATEMENTS s pick timeout result live.new.state text.old.items text.new.items }
    ensures grows { Grows result live.old live.new text.old.items text.new.items }
{
    match offer.basic {
        Some(Basic::DStep(_)) => inside(live, pick, timeout, offer.edge.entry, text),
        _ => effect(
            live,
            pick.process,
            timeout,
            offer.basic,
            offer.edge.statement,
            text,
        ),
    }
}

/// A process takes an offer by itself.
fn alone(
    live: &mut Live<'_, '_>,
    pick: &Pick,
    timeout: bool,
    text: &mut Vec<u8>,
) -> Result<(), Stop>
    ensures value { let d = after_move MOST_DSTEP_STATEMENTS live.old.state (Alone pick.now timeout) in
        Does d result live.new.state text.old.items text.new.items }
    ensures kept { OnErr result (StartsWith text.new.items text.old.items) }
    ensures joins { OnErr result (Joins live.old.state live.new.state) }
    ensures program { live.new.state.program ≡ live.old.state.program }
    ensures past { OnOk result (PastGrows live.old live.new) }
{
    let pick = *pick;
    let Some(offer) = find_offer(live, pick) else {
        return Ok(());
    };
    take_offer(live, pick, timeout, &offer, text)?;
    live.follow(pick.process, *offer.edge);
    Ok(())
}

/// A process sends to another: that one stores, and both go on.
fn pass_on(
    live: &mut Live<'_, '_>,
    sender: Pick,
    sent: &Offer<'_, '_>,
    receiver: Pick,
    received: &Offer<'_, '_>,
    timeout: bool,
) -> Result<(), Stop>
    requires sends { IsOffer live.old.state sender sent.now }
    requires receives { IsOffer live.old.state receiver received.now }
    ensures value { (text : List ℕ) → Does (after_move MOST_DSTEP_STATEMENTS live.old.state (Pair sender receiver timeout))
        result live.new.state text text }
    ensures joins { OnErr result (Joins live.old.state live.new.state) }
    ensures program { live.new.state.program ≡ live.old.state.program }
    ensures past { OnOk result (PastGrows live.old live.new) }
{
    pass(
        live,
        sender.process,
        sent.basic,
        receiver.process,
        received.basic,
        timeout,
    )?;
    live.go_to(sender.process, sent.edge.target);
    live.follow(receiver.process, *received.edge);
    Ok(())
}

/// Two processes meet.
#[inline(never)]
fn pair(live: &mut Live<'_, '_>, sender: Pick, receiver: Pick, timeout: bool) -> Result<(), Stop>
    ensures value { (text : List ℕ) → Does (after_move MOST_DSTEP_STATEMENTS live.old.state (Pair sender receiver timeout))
        result live.new.state text text }
    ensures joins { OnErr result (Joins live.old.state live.new.state) }
    ensures program { live.new.state.program ≡ live.old.state.program }
    ensures past { OnOk result (PastGrows live.old live.new) }
{
    let Some(sent) = find_offer(live, sender) else {
        return Ok(());
    };
    let Some(received) = find_offer(live, receiver) else {
        return Ok(());
    };
    pass_on(live, sender, &sent, receiver, &received, timeout)
}

/// Takes a move, and appends what it prints. After a fault, or want of memory, variables and channels may hold anything; no process has
/// moved, but some may have been added.
#[inline(always)]
pub fn take(live: &mut Live<'_, '_>, m: &Move, text: &mut Vec<u8>) -> Result<(), Stop>
    requires { CanDie live.old.state m.now }
    ensures value { Does (after_move MOST_DSTEP_STATEMENTS live.old.state m.now) result live.new.state text.old.items text.new.items }
    ensures kept { OnErr result (StartsWith text.new.items text.old.items) }
    ensures joins { OnErr result (Joins live.old.state live.new.state) }
    ensures program { live.new.state.program ≡ live.old.state.program }
    ensures past { OnOk result (PastBy m.now live.old live.new) }
{
    match m {
        Move::Death(_) => {
            live.die();
            Ok(())
        }
        Move::Alone(pick, timeout) => alone(live, pick, *timeout, text),
        Move::Pair(sender, receiver, timeout) => pair(live, *sender, *receiver, *timeout),
    }
}
