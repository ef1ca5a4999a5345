//! The channel that a process waits at.

use pml_program::program::{Action, Basic};
use pml_value::view::View;
use promela_run::moves::Pick;
use run_search::executable::named;
use run_search::picked::picked;
use run_state::live::Live;
use view_waits::waits::Wait;

fn number_of(number: i32) -> usize {
    number.max(0) as usize
}

fn of_action(view: &View<'_>, action: &Action<'_>) -> Option<usize> {
    match action {
        Action::Send(target, _, fields) => match named(view, target, fields.len()) {
            Ok((number, _)) => Some(number_of(number)),
            Err(_) => None,
        },
        Action::Receive(target, _, _, wants) => match named(view, target, wants.len()) {
            Ok((number, _)) => Some(number_of(number)),
            Err(_) => None,
        },
        _ => None,
    }
}

fn of_basic(view: &View<'_>, basic: Option<&Basic<'_>>) -> Option<usize> {
    match basic {
        Some(Basic::Plain(action)) => of_action(view, action),
        _ => None,
    }
}

fn of_pick(live: &Live<'_, '_>, pick: Pick, timeout: bool) -> Option<usize> {
    if pick.process >= live.process_count() {
        return None;
    }
    let view = live.view(pick.process, timeout);
    match picked(live, pick) {
        Some(offer) => of_basic(&view, offer.body.basic(*offer.edge)),
        None => None,
    }
}

/// The number of the channel that a process waits at to send or to receive.
pub fn channel_of(live: &Live<'_, '_>, wait: &Wait) -> Option<usize> {
    match wait.pick {
        Some(pick) => of_pick(live, pick, wait.timeout),
        None => None,
    }
}
