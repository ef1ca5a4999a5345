//! What a receive asks for, so far as it is said before a message is sent.

ghost use Rattle.std.specs.Prelude.{◌≡◌, ◌&&◌, true, false, None};
ghost use Rattle.std.specs.Ordering.{int_eq};
ghost use Rattle.std.specs.Result.{result_ok};
ghost use Rattle.promela_process.specs.Expressions.{asked_by, val};
ghost use Rattle.pml_value.specs.Seen.{seen};
ghost use Rattle.promela_run.specs.Moves.{Message as Sent, does_match};
ghost use Rattle.run_search.specs.Demands.{begins_with, asks};

use crate::message::Message;
use pml_eval::eval::eval;
use pml_program::expr::{Expr, Want};
use pml_value::view::View;

/// A message on the channel with this number; where `first` is there, of those only what begins with it.
#[derive(Clone, Copy)]
pub struct Interest {
    pub number: i32,
    pub first: Option<i32>,
}

/// The value of an expression, if it has one.
fn worth(e: &Expr, view: &View<'_>) -> Option<i32>
    ensures { result ≡ result_ok (val e.now (seen view.now)) }
{
    eval(e, view).ok()
}

impl Interest {
    /// What a receive from the channel with this number asks for. A pattern that has no value may match any message.
    #[tactic(auto, using(crate::proofs::Interests::exactly, crate::proofs::Interests::equal_to, crate::proofs::Interests::whatever))]
    pub(crate) fn of_receive(view: &View<'_>, number: i32, arguments: &[Want]) -> Interest
        ensures { (m : Sent) → asks result m ≡ false →
            (int_eq number m.number && does_match (asked_by arguments.now (seen view.now)) m.fields) ≡ false }
    {
        let first = match arguments {
            [Want::Exactly(one)] => Some(*one),
            [Want::Equal(e)] => worth(e.get(), view),
            _ => None,
        };
        Interest { number, first }
    }

    /// All messages on its channel.
    pub(crate) fn widened(self) -> Interest
        ensures { result ≡ record { number = self.number; first = None } }
    {
        Interest {
            number: self.number,
            first: None,
        }
    }

    /// Whether it asks for all that the other does.
    #[tactic(auto, using(crate::proofs::Interests::covers_all, crate::proofs::Interests::covers_same))]
    pub(crate) fn covers(self, other: Interest) -> bool
        ensures { result ≡ true → (m : Sent) → asks self m ≡ false → asks other m ≡ false }
    {
        if self.number != other.number {
            return false;
        }
        match (self.first, other.first) {
            (None, _) => true,
            (Some(own), Some(first)) => own == first,
            (Some(_), None) => false,
        }
    }

    /// Whether it asks for a message.
    pub(crate) fn is_for(self, message: &Message<'_, '_>) -> bool
        ensures { result ≡ asks self message.now }
    {
        if self.number != message.number() {
            return false;
        }
        match self.first {
            Some(first) => begins(message, first),
            None => true,
        }
    }
}

/// Whether a message begins with this number.
fn begins(message: &Message<'_, '_>, number: i32) -> bool
    ensures { result ≡ begins_with number message.now.fields }
{
    if message.len() == 0 {
        return false;
    }
    number == message.field(0)
}
