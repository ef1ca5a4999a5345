//! What a process waits for, by its offers: which messages it may receive, and what is known of its own moves.

ghost use Rattle.std.specs.Prelude.{◌≡◌, ◌<◌, ◌||◌, Some, false, nat_eq, length};
ghost use Rattle.std.specs.Option.{option_copied};
ghost use Rattle.pml_tree.specs.declared.tree.SendOrder.{SendOrder};
ghost use Rattle.pml_program.specs.declared.program.Basic.{Plain};
ghost use Rattle.pml_value.specs.Seen.{seen};
ghost use Rattle.promela_run.specs.Moves.{Message as Sent, is_rendezvous};
ghost use Rattle.run_search.specs.Demands.{asks, may_take, sent, AsksMore, GivesNone, GivesNoneSo, GivesNoneTo, IsOver, ReceivesNoOther, ReceivesNoOtherBy, SaysLess, WantsNoOther};
ghost use Rattle.run_search.specs.declared.demand.OwnMoves.TheVariants.{Unknown, Over};

use crate::executable::{first_fault_of, named};
use crate::interest::Interest;
use crate::message::{Message, is_receive};
use pml_channel::channel::Channel;
use pml_program::expr::{Expr, Target, Want};
use pml_program::program::{Action, Basic};
use pml_value::view::View;
use run_state::live::Live;

/// Which messages may be received, so far as it is said beforehand: none; what one or two receives ask for; or any.
#[derive(Clone, Copy)]
pub enum Interests {
    Nothing,
    One(Interest),
    Two(Interest, Interest),
    Anything,
}

/// What is known of the moves that a process has by itself, or with who receives what it sends: nothing; that it has none; or that it
/// has none where nobody may receive on the channel with this number.
#[derive(Clone, Copy)]
pub enum OwnMoves {
    Unknown,
    Nothing,
    Over(i32),
}

/// What a process may receive, and what is known of its own moves.
#[derive(Clone, Copy)]
pub struct Demand {
    pub interests: Interests,
    pub own: OwnMoves,
}

/// What one receive asks for, or another.
fn either(own: Interest, more: Interest) -> Interests
    ensures one { (m : Sent) → may_take result m ≡ false → asks own m ≡ false }
    ensures other { (m : Sent) → may_take result m ≡ false → asks more m ≡ false }
{
    if own.covers(more) {
        return Interests::One(own);
    }
    Interests::Two(own, more)
}

/// What two receives ask for, or a third: all messages of a channel on which two of them wait.
fn any_of(one: Interest, two: Interest, more: Interest) -> Interests
    ensures one { (m : Sent) → may_take result m ≡ false → asks one m ≡ false }
    ensures two { (m : Sent) → may_take result m ≡ false → asks two m ≡ false }
    ensures other { (m : Sent) → may_take result m ≡ false → asks more m ≡ false }
{
    if one.covers(more) || two.covers(more) {
        return Interests::Two(one, two);
    }
    if one.number == more.number {
        return Interests::Two(one.widened(), two);
    }
    if two.number == more.number {
        return Interests::Two(one, two.widened());
    }
    if one.number == two.number {
        return Interests::Two(one.widened(), more);
    }
    Interests::Anything
}

impl Interests {
    /// What may be received so, or by a receive that asks for this.
    #[inline(always)]
    fn or_asked(self, more: Interest) -> Interests
        ensures one { AsksMore result self }
        ensures other { (m : Sent) → may_take result m ≡ false → asks more m ≡ false }
    {
        match self {
            Interests::Nothing => Interests::One(more),
            Interests::One(own) => either(own, more),
            Interests::Two(one, two) => any_of(one, two, more),
            Interests::Anything => Interests::Anything,
        }
    }

    /// Whether a message may be received so.
    pub(crate) fn takes(self, message: &Message<'_, '_>) -> bool
        ensures { result ≡ may_take self message.now }
    {
        match self {
            Interests::Nothing => false,
            Interests::One(own) => own.is_for(message),
            Interests::Two(one, two) => one.is_for(message) || two.is_for(message),
            Interests::Anything => true,
        }
    }
}

/// What a process may receive that has nothing left to do.
pub(crate) const NO_DEMAND: Demand = Demand {
    interests: Interests::Nothing,
    own: OwnMoves::Unknown,
};

/// What is known of a process before its offers are looked at.
pub(crate) const NO_DEMAND_YET: Demand = Demand {
    interests: Interests::Nothing,
    own: OwnMoves::Nothing,
};

/// Whether nothing can be received from a channel by itself: it keeps no message, or has none.
fn is_bare(channel: &Channel) -> bool
    ensures { result ≡ (is_rendezvous channel.now || nat_eq (length channel.now.messages) 0) }
{
    channel.capacity() == 0 || channel.len() == 0
}

impl OwnMoves {
    /// With those of a send at a rendezvous on the channel with this number.
    fn or_over(self, number: i32) -> OwnMoves
        ensures before { SaysLess result self }
        ensures over { IsOver result number }
    {
        match self {
            OwnMoves::Nothing => OwnMoves::Over(number),
            OwnMoves::Over(own) => {
                if own == number {
                    OwnMoves::Over(number)
                } else {
                    OwnMoves::Unknown
                }
            }
            OwnMoves::Unknown => OwnMoves::Unknown,
        }
    }
}

impl Demand {
    /// The same, where nothing is known of its own moves.
    pub(crate) fn with_unknown(self) -> Demand
        ensures { result ≡ record self { own = Unknown } }
    {
        Demand {
            interests: self.interests,
            own: OwnMoves::Unknown,
        }
    }

    /// What may be received so, or by a receive.
    #[inline(always)]
    fn or_receive(self, view: &View<'_>, target: &Target, arguments: &[Want]) -> Demand
        ensures one { AsksMore result.interests self.interests }
        ensures other { WantsNoOther result.interests view.now.channels.now (seen view.now) target.now arguments.now }
        ensures before { SaysLess result.own self.own }
        ensures idle { GivesNoneSo result.own view.now.channels.now (seen view.now) target.now arguments.now }
    {
        match named(view, target, arguments.len()) {
            Ok((number, channel)) => {
                let more = Interest::of_receive(view, number, arguments);
                let own = if is_bare(channel) {
                    self.own
                } else {
                    OwnMoves::Unknown
                };
                Demand {
                    interests: self.interests.or_asked(more),
                    own,
                }
            }
            Err(_) => self.with_unknown(),
        }
    }

    /// The same, where one may send too.
    #[inline(always)]
    fn or_send(self, view: &View<'_>, target: &Target, fields: &[Expr]) -> Demand
        ensures same { result.interests ≡ self.interests }
        ensures before { SaysLess result.own self.own }
        ensures idle { (order : SendOrder) → GivesNone result.own view.now.channels.now (seen view.now) (sent target.now order fields.now) }
    {
        let Ok((number, channel)) = named(view, target, fields.len()) else {
            return self.with_unknown();
        };
        if channel.capacity() != 0 || first_fault_of(fields, view).is_err() {
            return self.with_unknown();
        }
        Demand {
            interests: self.interests,
            own: self.own.or_over(number),
        }
    }

    /// What may be received so, or by a statement without a structure.
    #[inline(always)]
    fn or_action(self, view: &View<'_>, action: &Action<'_>) -> Demand
        ensures one { AsksMore result.interests self.interests }
        ensures other { ReceivesNoOther result.interests view.now.channels.now (seen view.now) (Some (Plain action.now)) }
        ensures before { SaysLess result.own self.own }
        ensures idle { GivesNone result.own view.now.channels.now (seen view.now) (Some (Plain action.now)) }
    {
        match action {
            Action::Receive(target, _, _, arguments) => {
                self.or_receive(view, target, arguments.as_slice())
            }
            Action::Send(target, _, fields) => self.or_send(view, target, fields.as_slice()),
            _ => self.with_unknown(),
        }
    }

    /// What may be received so, or by a statement.
    #[inline(always)]
    fn or_by(self, view: &View<'_>, basic: Option<&Basic<'_>>) -> Demand
        ensures one { AsksMore result.interests self.interests }
        ensures other { ReceivesNoOther result.interests view.now.channels.now (seen view.now) (option_copied basic.entry) }
        ensures before { SaysLess result.own self.own }
        ensures idle { GivesNone result.own view.now.channels.now (seen view.now) (option_copied basic.entry) }
    {
        match basic {
            Some(Basic::Plain(action)) => self.or_action(view, action),
            _ => self.with_unknown(),
        }
    }

    /// What may be received so, or by a statement of process j.
    #[inline(always)]
    fn or_asked_of(
        self,
        live: &Live<'_, '_>,
        j: usize,
        timeout: bool,
        basic: Option<&Basic<'_>>,
    ) -> Demand
        requires { j < length live.now.state.stands }
        ensures one { AsksMore result.interests self.interests }
        ensures other { ReceivesNoOtherBy result.interests live.now.state j timeout (option_copied basic.entry) }
        ensures before { SaysLess result.own self.own }
        ensures idle { GivesNoneTo result.own live.now.state j timeout (option_copied basic.entry) }
    {
        self.or_by(&live.view(j, timeout), basic)
    }

    /// What may be received so, or by a statement of process j. Only a receive and a send are asked.
    #[inline(always)]
    pub(crate) fn or_offer(
        self,
        live: &Live<'_, '_>,
        j: usize,
        timeout: bool,
        basic: Option<&Basic<'_>>,
    ) -> Demand
        requires { j < length live.now.state.stands }
        ensures one { AsksMore result.interests self.interests }
        ensures other { ReceivesNoOtherBy result.interests live.now.state j timeout (option_copied basic.entry) }
        ensures before { SaysLess result.own self.own }
        ensures idle { GivesNoneTo result.own live.now.state j timeout (option_copied basic.entry) }
    {
        if is_receive(basic) || self.may_be_known(basic) {
            return self.or_asked_of(live, j, timeout, basic);
        }
        self.with_unknown()
    }

    /// Whether more may become known of its own moves by a send.
    #[inline(always)]
    fn may_be_known(self, basic: Option<&Basic<'_>>) -> bool
        ensures { self.own ≡ Unknown → result ≡ false }
    {
        match (self.own, basic) {
            (OwnMoves::Unknown, _) => false,
            (_, Some(Basic::Plain(Action::Send(_, _, _)))) => true,
            _ => false,
        }
    }
}
