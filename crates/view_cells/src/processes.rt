//! Processes, and where they stand.

ghost use Rattle.std.specs.Prelude.{◌≡◌, ◌++◌, codes, slice_get};
ghost use Rattle.std.specs.Option.{option_copied};
ghost use Rattle.std.specs.Fmt.{decimal};
ghost use Rattle.pml_flow.specs.Points.{point_at};
ghost use Rattle.promela_process.specs.Offers.{line_at};
ghost use Rattle.run_state.specs.Standing.{IsBody, stand_of};
ghost use Rattle.promela_run.specs.World.{sort_of_process as proctype_in};
ghost use Rattle.view_text.specs.Written.{Adds};
ghost use Rattle.view_cells.specs.Processes.{name_of, line_by, line_of};

use pml_program::program::{Proctype, Program};
use run_state::body::Body;
use run_state::live::Live;
use run_state::seat::{Seat, seat_at};
use run_values::change::proctype_name;
use view_text::writer::Writer;

fn proctype_at<'p, 'a>(program: &'p Program<'a>, kind: usize) -> Option<&'p Proctype<'a>>
    ensures { option_copied result ≡ slice_get program.now.proctypes kind }
{
    program.proctypes.as_slice().get(kind)
}

/// The proctype of a process.
pub fn proctype_of<'p, 'a>(live: &Live<'p, 'a>, process: usize) -> Option<&'p Proctype<'a>>
    ensures { option_copied result ≡ proctype_in live.now.state process }
{
    proctype_at(live.program(), seat_at(live.seats(), process)?.sort)
}

/// Writes the name of a process's proctype, or `:init:`.
pub fn add_name(live: &Live<'_, '_>, process: usize, out: &mut Writer)
    ensures { Adds out.old out.new (name_of live.now.state process) }
{
    if let Some(proctype) = proctype_of(live, process) {
        let mut text = out.take();
        let answer = proctype_name(&proctype.name, &mut text);
        out.put(text, answer);
    }
}

/// Writes `proc P (NAME)`.
pub fn add_process(live: &Live<'_, '_>, process: usize, out: &mut Writer)
    ensures { Adds out.old out.new (codes "proc " ++ (decimal process ++ (codes " (" ++ (name_of live.now.state process ++ codes ")")))) }
{
    out.add(b"proc ");
    out.number(process);
    out.add(b" (");
    add_name(live, process, out);
    out.add(b")");
}

// The line of what stands first at a node of a body, or of its closing brace.
fn line_in(body: &Body<'_, '_, '_>, node: usize) -> u32
    requires { IsBody body.now }
    ensures { let q = body.now.proctype.now in result ≡ line_at q.body q.end.line (point_at q.body node) }
{
    if body.has_node(node) {
        body.graph.line(node)
    } else {
        body.proctype.end.line()
    }
}

// The line of what stands first at a seat.
fn line_at_seat(live: &Live<'_, '_>, seat: Seat) -> u32
    ensures { result ≡ line_by live.now.state.program (Some (stand_of live.now.state.program seat)) }
{
    match live.body(seat.sort) {
        Some(body) => line_in(&body, seat.node),
        None => 0,
    }
}

/// The line of what stands first in a process, or that of its closing brace.
pub fn line_of(live: &Live<'_, '_>, process: usize) -> u32
    ensures { result ≡ line_of live.now.state process }
{
    match seat_at(live.seats(), process) {
        Some(seat) => line_at_seat(live, *seat),
        None => 0,
    }
}

fn is_closed(live: &Live<'_, '_>, seat: Seat) -> bool {
    live.standing(seat).is_none()
}

fn has_line(live: &Live<'_, '_>, kind: usize, line: u32) -> bool {
    let Some(body) = live.body(kind) else {
        return false;
    };
    for node in 0..body.graph.node_count() {
        if body.graph.line(node) == line {
            return true;
        }
    }
    body.proctype.end.line() == line
}

/// Whether some process can stand at a line: before a statement that begins there, or at its closing brace.
pub fn is_standing_line(live: &Live<'_, '_>, line: u32) -> bool {
    for kind in 0..live.program().proctypes.len() {
        if has_line(live, kind, line) {
            return true;
        }
    }
    false
}

/// Whether nothing is left to do in a process.
pub fn is_at_brace(live: &Live<'_, '_>, process: usize) -> bool {
    match seat_at(live.seats(), process) {
        Some(seat) => is_closed(live, *seat),
        None => true,
    }
}
