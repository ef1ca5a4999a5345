//! What a process without a move waits for.

ghost use Rattle.std.specs.Prelude.{◌≡◌, ◌++◌, ◌<◌, OnOk, Some, count_by, length, slice_get};
ghost use Rattle.run_search.specs.Laws.{taker};
ghost use Rattle.run_state.specs.Standing.{IsBody};
ghost use Rattle.promela_run.specs.Moves.{moves as all_moves};
ghost use Rattle.promela_run.specs.State.{State};
ghost use Rattle.view_waits.specs.Added.{level_waits, node_waits, one_wait, seat_waits};
ghost use Rattle.view_waits.specs.Searched.{is_late, timeout_by, control_by, only};
ghost use Rattle.view_waits.specs.Waits.{takes_part, is_in, last_timeout, waits_here, waits as all_waits};

use crate::because::{Because, because_of};
use crate::offers::offer_line;
use pml_flow::edge::Edge;
use pml_value::view::View;
use promela_run::moves::{Move, Pick};
use run_state::body::Body;
use run_state::live::Live;
use run_state::seat::Seat;
use std::alloc::AllocError;
use view_cells::processes::line_of;

/// What a process waits for: an offer, or, without one, its death or its turn.
#[derive(Clone, Copy, Debug, PartialEq, Eq)]
pub struct Wait {
    pub pick: Option<Pick>,
    pub because: Because,
    /// Under which `timeout` it was asked.
    pub timeout: bool,
}

/// Whether a process takes part in a move.
pub fn takes_part(process: usize, m: &Move) -> bool
    ensures { result ≡ takes_part process m.now }
{
    match m {
        Move::Death(p) => *p == process,
        Move::Alone(pick, _) => pick.process == process,
        Move::Pair(sender, receiver, _) => {
            sender.process == process || receiver.process == process
        }
    }
}

/// In how many moves a process takes part.
pub fn moves_of(process: usize, moves: &[Move]) -> usize
    ensures { result ≡ count_by (takes_part process) moves.now }
{
    moves.iter().filter(|m| takes_part(process, m)).count()
}

// Whether a process takes part in one of these.
fn is_in(process: usize, moves: &[Move]) -> bool
    ensures { result ≡ is_in process moves.now }
{
    moves.iter().any(|m| takes_part(process, m))
}

/// The process that begins a move.
pub fn starter_of(m: &Move) -> usize
    ensures { result ≡ taker m.now }
{
    match m {
        Move::Death(process) => *process,
        Move::Alone(pick, _) => pick.process,
        Move::Pair(sender, _, _) => sender.process,
    }
}

fn is_under_timeout(m: &Move) -> bool
    ensures { result ≡ is_late m.now }
{
    match m {
        Move::Death(_) => false,
        Move::Alone(_, timeout) => *timeout,
        Move::Pair(_, _, timeout) => *timeout,
    }
}

fn first_of(moves: &[Move]) -> Option<Move>
    ensures { result ≡ slice_get moves.now 0 }
{
    match moves.get(0) {
        Some(m) => Some(*m),
        None => None,
    }
}

// The `timeout` under which the first of these was found.
fn first_timeout(moves: &[Move]) -> bool
    ensures { result ≡ timeout_by (slice_get moves.now 0) }
{
    match first_of(moves) {
        Some(m) => is_under_timeout(&m),
        None => true,
    }
}

/// The `timeout` under which moves were searched last, where these are those of a state.
pub fn timeout_of(moves: &[Move]) -> bool
    ensures value { result ≡ timeout_by (slice_get moves.now 0) }
    ensures last { (s : State) → moves.now ≡ all_moves s → result ≡ last_timeout s }
{
    first_timeout(moves)
}

// Whether the first of the moves is of this process, and was found without `timeout`.
fn is_first(process: usize, moves: &[Move]) -> bool
    ensures { control_by (Some process) (slice_get moves.now 0) ≡ only result process }
{
    match first_of(moves) {
        Some(m) => starter_of(&m) == process && !is_under_timeout(&m),
        None => false,
    }
}

// The process that alone may move, where it can and these are the present moves.
fn in_control(holder: Option<usize>, moves: &[Move]) -> Option<usize>
    ensures { result ≡ control_by holder (slice_get moves.now 0) }
{
    match holder {
        Some(process) => {
            if is_first(process, moves) {
                Some(process)
            } else {
                None
            }
        }
        None => None,
    }
}

// Adds the offers of a level.
fn add_level(
    body: &Body<'_, '_, '_>,
    view: &View<'_>,
    first: Pick,
    edges: &[Edge],
    waits: &mut Vec<Wait>,
) -> Result<(), AllocError>
    requires { IsBody body.now }
    ensures { OnOk result (waits.new.items ≡ waits.old.items ++ level_waits view.now body.now first edges.now) }
{
    for place in 0..edges.len() {
        let because = because_of(view, body.basic(edges[place]));
        waits.push(Wait {
            pick: Some(Pick { place, ..first }),
            because,
            timeout: view.timeout,
        })?;
    }
    Ok(())
}

// Adds the offers of a node, level by level.
fn add_offers(
    body: &Body<'_, '_, '_>,
    view: &View<'_>,
    process: usize,
    node: usize,
    waits: &mut Vec<Wait>,
) -> Result<(), AllocError>
    requires body { IsBody body.now }
    requires node { node < length body.now.graph.now.nodes }
    ensures { OnOk result (waits.new.items ≡ waits.old.items ++ node_waits view.now body.now process node) }
{
    for level in 0..body.graph.level_count(node) {
        let first = Pick {
            process,
            level,
            place: 0,
        };
        add_level(body, view, first, body.graph.level(node, level), waits)?;
    }
    Ok(())
}

// Adds what has no offer.
fn put(because: Because, waits: &mut Vec<Wait>) -> Result<(), AllocError>
    ensures { OnOk result (waits.new.items ≡ waits.old.items ++ one_wait because) }
{
    waits.push(Wait {
        pick: None,
        because,
        timeout: false,
    })?;
    Ok(())
}

// Adds what a process waits for that stands here, under this `timeout`.
fn add_standing(
    live: &Live<'_, '_>,
    process: usize,
    seat: Seat,
    timeout: bool,
    waits: &mut Vec<Wait>,
) -> Result<(), AllocError>
    requires { process < length live.now.state.stands }
    ensures { OnOk result (waits.new.items ≡ waits.old.items ++ seat_waits live.now.state timeout process seat) }
{
    let view = live.view(process, timeout);
    match live.standing(seat) {
        None => put(
            Because::Younger(live.process_count().saturating_sub(1)),
            waits,
        ),
        Some(body) => add_offers(&body, &view, process, seat.node, waits),
    }
}

// Adds what a process waits for where it stands, under this `timeout`.
fn add_here(
    live: &Live<'_, '_>,
    process: usize,
    timeout: bool,
    waits: &mut Vec<Wait>,
) -> Result<(), AllocError>
    ensures { OnOk result (waits.new.items ≡ waits.old.items ++ waits_here live.now.state timeout process) }
{
    let seats = live.seats();
    if process < seats.len() {
        return add_standing(live, process, seats[process], timeout, waits);
    }
    Ok(())
}

/// Adds what a process waits for, where these are the present moves: nothing, where it takes part in one.
pub fn add_waits(
    live: &Live<'_, '_>,
    moves: &[Move],
    process: usize,
    waits: &mut Vec<Wait>,
) -> Result<(), AllocError>
    ensures { moves.now ≡ all_moves live.now.state → OnOk result (waits.new.items ≡ waits.old.items ++ all_waits live.now.state process) }
{
    if is_in(process, moves) {
        return Ok(());
    }
    match in_control(live.holder(), moves) {
        Some(holder) => put(Because::Held(holder), waits),
        None => add_here(live, process, timeout_of(moves), waits),
    }
}

/// The line in the text of a move; of a death that of the closing brace.
pub fn origin_line(live: &Live<'_, '_>, m: &Move) -> u32 {
    match m {
        Move::Death(process) => line_of(live, *process),
        Move::Alone(pick, _) => offer_line(live, *pick),
        Move::Pair(sender, _, _) => offer_line(live, *sender),
    }
}
