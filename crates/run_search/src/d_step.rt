//! What is taken inside a d_step, and whether one can begin.

ghost use Rattle.std.specs.Prelude.{◌≡◌, ◌<◌, [], length, map, option_map, slice_index_or};
ghost use Rattle.std.specs.List.{filter};
ghost use Rattle.std.specs.Option.{option_copied};
ghost use Rattle.pml_flow.specs.Graph.{maybe};
ghost use Rattle.pml_flow.specs.Points.{point_at};
ghost use Rattle.pml_value.specs.Seen.{seen};
ghost use Rattle.run_state.specs.Standing.{IsBody, shows, edges_at, offers_at, seq_of};
ghost use Rattle.promela_run.specs.Moves.{is_else as else_of, can_inside, is_choice, choices, is_some};
ghost use Rattle.run_search.specs.Lifted.{levels_from, is_other};
ghost use Rattle.run_search.specs.Viewed.{first};

use crate::executable::can_be_taken;
use pml_flow::edge::Edge;
use pml_program::program::{Action, Basic};
use pml_value::view::View;
use run_state::body::Body;

/// Whether a statement is an `else`.
pub(crate) fn is_else(basic: Option<&Basic<'_>>) -> bool
    ensures { result ≡ else_of (option_copied basic.entry) }
{
    match basic {
        Some(Basic::Plain(Action::Else)) => true,
        _ => false,
    }
}

/// Whether a statement inside a d_step can be taken.
fn is_taken(view: &View<'_>, lossy: bool, basic: Option<&Basic<'_>>) -> bool
    ensures { result ≡ can_inside lossy view.now.channels.now (seen view.now) (option_copied basic.entry) }
{
    match basic {
        Some(Basic::Plain(action)) => can_be_taken(view, lossy, true, action),
        _ => true,
    }
}

/// The first offer of a level inside a d_step that is no `else` and can be taken.
fn first_plain(
    body: &Body<'_, '_, '_>,
    view: &View<'_>,
    lossy: bool,
    edges: &[Edge],
) -> Option<Edge>
    requires { IsBody body.now }
    ensures { option_map (shows body.now) result ≡ first (filter (is_choice lossy view.now.channels.now (seen view.now)) (map (shows body.now) edges.now)) }
{
    for edge in edges {
        let basic = body.basic(*edge);
        if !is_else(basic) && is_taken(view, lossy, basic) {
            return Some(*edge);
        }
    }
    None
}

/// The first `else` of a level.
fn first_else(body: &Body<'_, '_, '_>, edges: &[Edge]) -> Option<Edge>
    requires { IsBody body.now }
    ensures { option_map (shows body.now) result ≡ first (filter is_other (map (shows body.now) edges.now)) }
{
    for edge in edges {
        if is_else(body.basic(*edge)) {
            return Some(*edge);
        }
    }
    None
}

/// The edges of a node's first level.
#[inline(always)]
fn first_level<'p>(body: &Body<'_, 'p, '_>, node: usize) -> &'p [Edge]
    requires { node < length body.now.graph.now.nodes }
    ensures { result.now ≡ slice_index_or (edges_at body.now node) 0 [] }
{
    match body.graph.only_level(node) {
        Some(edges) => edges,
        None => body.graph.level(node, 0),
    }
}

/// The offer that is taken at a node inside a d_step, if one can be.
pub fn choice(body: &Body<'_, '_, '_>, view: &View<'_>, lossy: bool, node: usize) -> Option<Edge>
    requires { IsBody body.now }
    ensures { option_map (shows body.now) result ≡ first (choices lossy view.now.channels.now (seen view.now) (offers_at body.now node)) }
{
    if !body.has_node(node) {
        return None;
    }
    let edges = first_level(body, node);
    match first_plain(body, view, lossy, edges) {
        Some(edge) => Some(edge),
        None => first_else(body, edges),
    }
}

/// Whether something can be taken at a node inside a d_step.
fn has_choice(body: &Body<'_, '_, '_>, view: &View<'_>, lossy: bool, node: usize) -> bool
    requires { IsBody body.now }
    ensures { result ≡ is_some (choices lossy view.now.channels.now (seen view.now) (offers_at body.now node)) }
{
    choice(body, view, lossy, node).is_some()
}

/// Whether something can be taken at the first node inside a d_step.
pub(crate) fn can_begin(
    body: &Body<'_, '_, '_>,
    view: &View<'_>,
    lossy: bool,
    entry: Option<usize>,
) -> bool
    requires { IsBody body.now }
    ensures { let b = seq_of body.now in
        result ≡ is_some (choices lossy view.now.channels.now (seen view.now) (levels_from b (maybe (point_at b) entry))) }
{
    match entry {
        Some(node) => has_choice(body, view, lossy, node),
        None => false,
    }
}
