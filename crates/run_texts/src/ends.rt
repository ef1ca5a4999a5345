//! The ends of runs.

ghost use Rattle.std.specs.Prelude.{◌≡◌, ◌++◌, ◌∷◌, [], codes, false, Some, OnOk, OnErr, IfSome, option_map, slice_get};
ghost use Rattle.std.specs.Io.{StartsWith};
ghost use Rattle.profile.specs.Characters.{line_feed};
ghost use Rattle.pml_flow.specs.Points.{point_at};
ghost use Rattle.promela_process.specs.Offers.{line_at};
ghost use Rattle.run_state.specs.Standing.{stand_of};
ghost use Rattle.promela_run.specs.World.{may_end as may_end_at, is_done as done_at, is_valid as ends_well, heading, line as line_text, stuck_at, stuck};
ghost use Rattle.run_texts.specs.Staying.{stuck_by, stuck_in, stuck_place, stuck_of};
ghost use Rattle.run_texts.specs.Charts.{HasGraph, told};

use crate::place::{add_heading, add_line, name_of};
use pml_flow::graph::Graph;
use pml_program::program::Proctype;
use run_state::live::Live;
use run_state::seat::{Seat, seat_at};
use std::alloc::AllocError;

/// A proctype and its graph.
#[derive(Drop)]
struct Chart<'p, 'a> {
    proctype: &'p Proctype<'a>,
    graph: &'p Graph,
}

/// The proctype with this number, and its graph.
fn chart_at<'p, 'a>(live: &Live<'p, 'a>, sort: usize) -> Option<Chart<'p, 'a>>
    ensures proctype { option_map (λ k. k.proctype.now) result ≡ slice_get live.now.state.program.proctypes sort }
    ensures graph { IfSome result HasGraph }
{
    let body = live.body(sort)?;
    Some(Chart {
        proctype: body.proctype,
        graph: body.graph,
    })
}

/// Appends `at: proc P (NAME) line L`.
fn add_stuck_line(
    process: usize,
    proctype: &Proctype<'_>,
    line: u32,
    text: &mut Vec<u8>,
) -> Result<(), AllocError>
    ensures added { OnOk result (text.new.items ≡ text.old.items ++ (codes "at: " ++ (heading process proctype.now ++ (line_text line ++ line_feed ∷ [])))) }
    ensures kept { OnErr result (StartsWith text.new.items text.old.items) }
{
    text.extend_from_slice(b"at: ")?;
    add_heading(process, proctype, text)?;
    add_line(line, text)?;
    text.extend_from_slice(b"\n")
}

impl<'p, 'a> Chart<'p, 'a> {
    /// Whether a process may end at a node; nothing is left where there is none.
    #[tactic(auto, using(crate::proofs::Ending::end_is))]
    fn may_end(&self, node: usize) -> bool
        requires { HasGraph self.now }
        ensures { result ≡ may_end_at self.now.proctype.now.body (point_at self.now.proctype.now.body node) }
    {
        node >= self.graph.node_count() || self.graph.is_valid_end(node)
    }

    /// The line of what stands first at a node where a process may not end.
    fn line(&self, node: usize) -> u32
        requires graph { HasGraph self.now }
        requires left { may_end_at self.now.proctype.now.body (point_at self.now.proctype.now.body node) ≡ false }
        ensures { result ≡ line_at self.now.proctype.now.body self.now.proctype.now.end.line (point_at self.now.proctype.now.body node) }
    {
        self.graph.line(node)
    }

    /// Appends where a process stands, if it may not end there.
    fn add_stuck(&self, process: usize, node: usize, text: &mut Vec<u8>) -> Result<(), AllocError>
        requires { HasGraph self.now }
        ensures added { let q = self.now.proctype.now in
            OnOk result (text.new.items ≡ text.old.items ++ stuck_at process (Some q) (point_at q.body node)) }
        ensures kept { OnErr result (StartsWith text.new.items text.old.items) }
    {
        if self.may_end(node) {
            return Ok(());
        }
        add_stuck_line(process, self.proctype, self.line(node), text)
    }

    /// The name of the proctype, and the line of what stands first at a node where a process may not end.
    fn stuck(&self, node: usize) -> Option<(&'p [u8], u32)>
        requires { HasGraph self.now }
        ensures { option_map told result ≡ stuck_in (Some self.now.proctype.now) (point_at self.now.proctype.now.body node) }
    {
        if !self.may_end(node) {
            return Some((name_of(&self.proctype.name), self.line(node)));
        }
        None
    }
}

/// Whether a process may end where it stands.
fn is_done(live: &Live<'_, '_>, seat: Seat) -> bool
    ensures { result ≡ done_at live.now.state.program (stand_of live.now.state.program seat) }
{
    match chart_at(live, seat.sort) {
        Some(chart) => chart.may_end(seat.node),
        None => true,
    }
}

/// Whether a run that ends here ends well.
pub fn is_valid(live: &Live<'_, '_>) -> bool
    ensures { result ≡ ends_well live.now.state }
{
    let seats = live.seats();
    for seat in seats {
        if !is_done(live, *seat) {
            return false;
        }
    }
    true
}

/// Appends where a process stands, if it may not end there.
fn add_stuck_at(
    live: &Live<'_, '_>,
    process: usize,
    seat: Seat,
    text: &mut Vec<u8>,
) -> Result<(), AllocError>
    ensures added { OnOk result (text.new.items ≡ text.old.items ++ stuck_by live.now.state.program process (stand_of live.now.state.program seat)) }
    ensures kept { OnErr result (StartsWith text.new.items text.old.items) }
{
    match chart_at(live, seat.sort) {
        Some(chart) => chart.add_stuck(process, seat.node, text),
        None => Ok(()),
    }
}

/// Appends, for each process that may not end where it stands, a line that says where: `at: proc P (NAME) line L`.
pub fn add_stuck(live: &Live<'_, '_>, text: &mut Vec<u8>) -> Result<(), AllocError>
    ensures added { OnOk result (text.new.items ≡ text.old.items ++ stuck live.now.state) }
    ensures kept { OnErr result (StartsWith text.new.items text.old.items) }
{
    let seats = live.seats();
    for process in 0..seats.len() {
        add_stuck_at(live, process, seats[process], text)?;
    }
    Ok(())
}

/// The name and the line of a process that may not end where it stands.
fn stuck_at_seat<'p>(live: &Live<'p, '_>, seat: Seat) -> Option<(&'p [u8], u32)>
    ensures { option_map told result ≡ stuck_place live.now.state.program (Some (stand_of live.now.state.program seat)) }
{
    match chart_at(live, seat.sort) {
        Some(chart) => chart.stuck(seat.node),
        None => None,
    }
}

/// The name and the line of the process with this number, where it lives and may not end where it stands. It takes no memory.
pub fn stuck<'p>(live: &Live<'p, '_>, process: usize) -> Option<(&'p [u8], u32)>
    ensures { option_map told result ≡ stuck_of live.now.state process }
{
    match seat_at(live.seats(), process) {
        Some(seat) => stuck_at_seat(live, *seat),
        None => None,
    }
}
