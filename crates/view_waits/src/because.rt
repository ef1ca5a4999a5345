//! Why what a process could do is no move.

ghost use Rattle.std.specs.Prelude.{◌≡◌};
ghost use Rattle.std.specs.Option.{option_copied};
ghost use Rattle.promela_run.specs.Moves.{named as names};
ghost use Rattle.pml_value.specs.Seen.{seen};
ghost use Rattle.view_waits.specs.Because.{at_send, at_receive, of_send, of_receive, of_action, because, code};

use pml_channel::channel::Channel;
use pml_program::expr::Target;
use pml_program::program::{Action, Basic};
use pml_value::view::View;
use run_search::executable::named;

/// Why what a process could do is no move.
#[derive(Clone, Copy, Debug, PartialEq, Eq)]
pub enum Because {
    /// This process has exclusive control.
    Held(usize),
    /// This younger process lives.
    Younger(usize),
    False,
    Full,
    Empty,
    NoMatch,
    NoReceiver,
    NoSender,
    /// As many processes live as may.
    Processes,
    /// Nothing can be taken first in the d_step.
    DStep,
    /// Another statement beside the `else` can be taken.
    Else,
    /// A statement of a higher level can be taken.
    Escape,
}

impl Because {
    /// Its name.
    pub fn code(self) -> &'static str
        ensures { result.now ≡ code self }
    {
        match self {
            Because::Held(_) => "held",
            Because::Younger(_) => "younger",
            Because::False => "false",
            Because::Full => "full",
            Because::Empty => "empty",
            Because::NoMatch => "no match",
            Because::NoReceiver => "no receiver",
            Because::NoSender => "no sender",
            Because::Processes => "processes",
            Because::DStep => "d_step",
            Because::Else => "else",
            Because::Escape => "escape",
        }
    }
}

fn because_send(channel: &Channel) -> Because
    ensures { result ≡ at_send channel.now }
{
    if channel.capacity() == 0 {
        Because::NoReceiver
    } else {
        Because::Full
    }
}

fn because_receive(channel: &Channel) -> Because
    ensures { result ≡ at_receive channel.now }
{
    if channel.capacity() == 0 {
        Because::NoSender
    } else if channel.len() == 0 {
        Because::Empty
    } else {
        Because::NoMatch
    }
}

fn because_send_to(view: &View<'_>, target: &Target, count: usize) -> Because
    ensures { result ≡ of_send (names view.now.channels.now (seen view.now) target.now count) }
{
    match named(view, target, count) {
        Ok((_, channel)) => because_send(channel),
        Err(_) => Because::Escape,
    }
}

fn because_receive_from(view: &View<'_>, target: &Target, count: usize) -> Because
    ensures { result ≡ of_receive (names view.now.channels.now (seen view.now) target.now count) }
{
    match named(view, target, count) {
        Ok((_, channel)) => because_receive(channel),
        Err(_) => Because::Escape,
    }
}

fn because_action(view: &View<'_>, action: &Action<'_>) -> Because
    ensures { result ≡ of_action view.now.channels.now (seen view.now) action.now }
{
    match action {
        Action::Else => Because::Else,
        Action::Holds(_) => Because::False,
        Action::Run(_) => Because::Processes,
        Action::Send(target, _, fields) => because_send_to(view, target, fields.len()),
        Action::Receive(target, _, _, arguments) => {
            because_receive_from(view, target, arguments.len())
        }
        _ => Because::Escape,
    }
}

/// Why an offer of a process without a move is none.
pub fn because_of(view: &View<'_>, basic: Option<&Basic<'_>>) -> Because
    ensures { result ≡ because view.now.channels.now (seen view.now) (option_copied basic.entry) }
{
    match basic {
        Some(Basic::Plain(action)) => because_action(view, action),
        Some(Basic::DStep(_)) => Because::DStep,
        _ => Because::Escape,
    }
}
