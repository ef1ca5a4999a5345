//! The offer that a pick names.

ghost use Rattle.std.specs.Prelude.{◌≡◌, ◌<◌, IfSome, length, map, option_map, slice_get};
ghost use Rattle.std.specs.Option.{option_copied};
ghost use Rattle.run_state.specs.Standing.{IsBody, shows, offers_at};
ghost use Rattle.run_search.specs.Picked.{IsPicked};
ghost use Rattle.promela_run.specs.State.{picked as picks};
ghost use Rattle.run_search.specs.Lifted.{offer_on};

use pml_flow::edge::Edge;
use promela_run::moves::Pick;
use run_state::body::Body;
use run_state::live::Live;
use run_state::seat::seat_at;

/// An offer: the body in which its process stands, and its edge.
#[derive(Drop)]
pub struct Offered<'w, 'p, 'a> {
    pub body: Body<'w, 'p, 'a>,
    pub edge: &'p Edge,
}

fn edge_at(edges: &[Edge], place: usize) -> Option<&Edge>
    ensures { option_copied result ≡ slice_get edges.now place }
{
    edges.get(place)
}

/// The edge of a node with this level and place.
#[inline(never)]
fn edge_on<'p>(body: &Body<'_, 'p, '_>, node: usize, pick: Pick) -> Option<&'p Edge>
    requires { node < length body.now.graph.now.nodes }
    ensures { option_map (shows body.now) (option_copied result) ≡ offer_on (slice_get (offers_at body.now node) pick.level) pick.place }
{
    if pick.level >= body.graph.level_count(node) {
        return None;
    }
    edge_at(body.graph.level(node, pick.level), pick.place)
}

/// The edge of a node with this level and place: at once where the node has just one level, as most have.
#[inline(always)]
fn edge_of<'p>(body: &Body<'_, 'p, '_>, node: usize, pick: Pick) -> Option<&'p Edge>
    requires { node < length body.now.graph.now.nodes }
    ensures { option_map (shows body.now) (option_copied result) ≡ offer_on (slice_get (offers_at body.now node) pick.level) pick.place }
{
    if pick.level == 0 {
        if let Some(edges) = body.graph.only_level(node) {
            return edge_at(edges, pick.place);
        }
    }
    edge_on(body, node, pick)
}

/// The offer that a pick names, if its process stands where it has such an offer.
#[inline(always)]
pub fn picked<'w, 'p, 'a>(live: &'w Live<'p, 'a>, pick: Pick) -> Option<Offered<'w, 'p, 'a>>
    ensures offer { option_map (λ k. shows k.body k.edge.now) result ≡ picks live.now.state pick }
    ensures is { IfSome result (λ k. IsPicked live.now.state pick k.body) }
{
    let seat = *seat_at(live.seats(), pick.process)?;
    let body = live.standing(seat)?;
    let edge = edge_of(&body, seat.node, pick)?;
    Some(Offered { body, edge })
}
