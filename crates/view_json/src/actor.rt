//! A process, its offer, and where it stands behind it.

ghost use Rattle.std.specs.Prelude.{◌≡◌, Some, slice_get};
ghost use Rattle.pml_flow.specs.Points.{point_at};
ghost use Rattle.promela_process.specs.Offers.{line_at};
ghost use Rattle.run_state.specs.Standing.{IsBody, stand_of};
ghost use Rattle.view_cells.specs.Processes.{line_by};
ghost use Rattle.view_tokens.specs.Printed.{Writes};
ghost use Rattle.view_json.specs.Choices.{next_line, actor};

use crate::objects::number;
use crate::process::picked;
use promela_run::moves::Pick;
use run_search::picked::picked as offer_of;
use run_state::body::Body;
use run_state::live::Live;
use run_state::seat::{Seat, seat_at};
use view_tokens::tokens::Json;

// The line of what stands first at a node of a body, or of its closing brace.
fn line_in(body: &Body<'_, '_, '_>, node: usize) -> u32
    requires { IsBody body.now }
    ensures { let q = body.now.proctype.now in result ≡ line_at q.body q.end.line (point_at q.body node) }
{
    if body.has_node(node) {
        body.graph.line(node)
    } else {
        body.proctype.end.line()
    }
}

/// The line of what stands first at a seat.
pub(crate) fn line_at_seat(live: &Live<'_, '_>, seat: Seat) -> u32
    ensures { result ≡ line_by live.now.state.program (Some (stand_of live.now.state.program seat)) }
{
    match live.body(seat.sort) {
        Some(body) => line_in(&body, seat.node),
        None => 0,
    }
}

// The line at which the process of a pick stands behind it, whose seat is this.
fn next_from(live: &Live<'_, '_>, seat: Seat, pick: Pick) -> u32
    requires { slice_get live.now.state.stands pick.process ≡ Some (stand_of live.now.state.program seat) }
    ensures { result ≡ next_line live.now.state pick }
{
    match offer_of(live, pick) {
        Some(offer) => {
            let node = offer.edge.target;
            line_at_seat(live, Seat { node, ..seat })
        }
        None => 0,
    }
}

// The line at which the process of a pick stands behind it.
fn next_of(live: &Live<'_, '_>, pick: Pick) -> u32
    ensures { result ≡ next_line live.now.state pick }
{
    match seat_at(live.seats(), pick.process) {
        Some(seat) => next_from(live, *seat, pick),
        None => 0,
    }
}

/// Writes a process, its offer, and where it stands behind it.
pub(crate) fn actor(live: &Live<'_, '_>, json: &mut Json, pick: Pick)
    ensures { Writes json.old json.new (actor live.now.state pick) }
{
    picked(live, json, pick);
    number(json, "next", next_of(live, pick) as usize);
}
