//! When an offer is a move by itself.

ghost use Rattle.std.specs.Prelude.{◌≡◌, true, false};
ghost use Rattle.std.specs.Option.{option_copied};
ghost use Rattle.pml_value.specs.Seen.{seen};
ghost use Rattle.run_state.specs.Standing.{IsBody, shows, seq_of};
ghost use Rattle.promela_run.specs.Moves.{is_else as else_of, can_alone};
ghost use Rattle.run_search.specs.Viewed.{NeedsNothing};

use crate::d_step::can_begin;
use crate::executable::can_be_taken;
use pml_flow::edge::Edge;
use pml_program::expr::Expr;
use pml_program::program::{Action, Basic};
use pml_value::view::View;
use run_state::body::Body;

/// Whether an offer is a move by itself.
pub(crate) fn can_be_alone(
    body: &Body<'_, '_, '_>,
    view: &View<'_>,
    lossy: bool,
    edge: Edge,
    basic: Option<&Basic<'_>>,
) -> bool
    requires body { IsBody body.now }
    requires basic { option_copied basic ≡ (shows body.now edge).basic }
    ensures { result ≡ can_alone lossy view.now.channels.now (seen view.now) (seq_of body.now) (shows body.now edge) (shows body.now edge).basic }
{
    match basic {
        Some(Basic::Plain(action)) => can_be_taken(view, lossy, false, action),
        Some(Basic::DStep(_)) => can_begin(body, view, lossy, edge.entry),
        _ => true,
    }
}

/// Whether a statement can be taken whatever the state, by itself: it is no `else`, and asks for nothing, as `skip` does.
#[inline(always)]
pub(crate) fn needs_nothing(basic: Option<&Basic<'_>>) -> bool
    ensures plain { result ≡ true → else_of (option_copied basic.entry) ≡ false }
    ensures alone { result ≡ true → NeedsNothing (option_copied basic.entry) }
{
    match basic {
        Some(Basic::Plain(action)) => match action {
            Action::Holds(Expr::Number(number)) => *number != 0,
            Action::Else
            | Action::Run(_)
            | Action::Send(_, _, _)
            | Action::Receive(_, _, _, _)
            | Action::Holds(_) => false,
            _ => true,
        },
        Some(Basic::DStep(_)) => false,
        _ => true,
    }
}
