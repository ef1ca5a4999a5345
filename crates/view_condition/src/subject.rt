//! What the variables of a condition are in a state.

ghost use Rattle.std.specs.Prelude.{◌≡◌, Some, slice_get};
ghost use Rattle.run_state.specs.Standing.{stand_of};
ghost use Rattle.view_condition.specs.Seen.{any_at, any_of, at_spot, is_of, is_there, stands_at, size_by, number_by, number_by_frame};
ghost use Rattle.view_condition.specs.Standing.{is_on, same_first};

use pml_eval::operators::number_of;
use promela_process::place::Place;
use run_state::live::Live;
use run_state::seat::{Seat, seat_at};
use view_cells::cells::{cell_count, number_at};
use view_cells::processes::line_of;

/// A process, and which proctype it is to be of.
#[derive(Clone, Copy, Debug, PartialEq, Eq)]
pub struct TypedProcess {
    pub process: u8,
    pub sort: usize,
}

/// Where a process may stand.
#[derive(Clone, Copy, Debug, PartialEq, Eq)]
pub enum Spot {
    /// At a line.
    Line(u32),
    /// At a node of its graph.
    Node(usize),
}

/// What a variable of a condition is in a state.
#[derive(Clone, Copy, Debug, PartialEq, Eq)]
pub enum StateSubject {
    /// A variable of the globals.
    Global(usize),
    /// A variable of a process, while it is of this proctype.
    Local(TypedProcess, usize),
    /// 1 where a process, which is of this proctype, stands there, and else 0.
    At(TypedProcess, Spot),
    /// 1 where any process of this proctype stands there, and else 0.
    Any(usize, Spot),
    /// 1 where any process stands at this line, and else 0.
    Line(u32),
}

impl StateSubject {
    /// The process that it is of.
    pub fn whose(self) -> Option<TypedProcess> {
        match self {
            StateSubject::Local(whose, _) | StateSubject::At(whose, _) => Some(whose),
            StateSubject::Global(_) | StateSubject::Any(_, _) | StateSubject::Line(_) => None,
        }
    }
}

/// What the variable with this number is.
pub fn subject_at(subjects: &[StateSubject], variable: usize) -> Option<StateSubject>
    ensures { result ≡ slice_get subjects.now variable }
{
    match subjects.get(variable) {
        Some(subject) => Some(*subject),
        None => None,
    }
}

// Whether the process with this number is of a proctype.
fn is_of(live: &Live<'_, '_>, sort: usize, process: usize) -> bool
    ensures { result ≡ is_of live.now.state sort process }
{
    match live.sorts().get(process) {
        Some(other) => *other == sort,
        None => false,
    }
}

/// Whether a process lives, and is of this proctype.
pub fn is_there(live: &Live<'_, '_>, whose: TypedProcess) -> bool
    ensures { result ≡ is_there live.now.state whose }
{
    is_of(live, whose.sort, usize::from(whose.process))
}

// Whether a process stands at the node of another seat of its proctype.
fn is_same_seat(live: &Live<'_, '_>, seat: Seat, other: Seat) -> bool
    requires { seat.sort ≡ other.sort }
    ensures { let pr = live.now.state.program in result ≡ same_first (stand_of pr other).control (stand_of pr seat).control }
{
    match (live.standing(seat), live.standing(other)) {
        (Some(_), Some(_)) => seat.node == other.node,
        (None, None) => true,
        _ => false,
    }
}

// Whether a process stands at a node of its graph.
fn is_on(live: &Live<'_, '_>, process: usize, node: usize) -> bool
    ensures { result ≡ is_on live.now.state process node }
{
    match seat_at(live.seats(), process) {
        Some(seat) => {
            let other = Seat {
                sort: seat.sort,
                node,
            };
            is_same_seat(live, *seat, other)
        }
        None => false,
    }
}

// Whether a process stands there.
fn at_spot(live: &Live<'_, '_>, process: usize, spot: Spot) -> bool
    ensures { result ≡ at_spot live.now.state process spot }
{
    match spot {
        Spot::Line(line) => line_of(live, process) == line,
        Spot::Node(node) => is_on(live, process, node),
    }
}

// Whether a process is there, and stands at this spot.
fn stands_at(live: &Live<'_, '_>, whose: TypedProcess, spot: Spot) -> bool
    ensures { result ≡ stands_at live.now.state whose spot }
{
    is_there(live, whose) && at_spot(live, usize::from(whose.process), spot)
}

// Whether one of so many processes is of a proctype, and stands at this spot.
fn any_of(live: &Live<'_, '_>, sort: usize, spot: Spot, count: usize) -> bool
    ensures { result ≡ any_of live.now.state sort spot count }
{
    let mut found = false;
    for process in 0..count {
        found = found || (is_of(live, sort, process) && at_spot(live, process, spot));
    }
    found
}

/// Whether one of so many processes stands at this line.
pub fn any_at(live: &Live<'_, '_>, line: u32, count: usize) -> bool
    ensures { result ≡ any_at live.now.state line count }
{
    let mut found = false;
    for process in 0..count {
        found = found || line_of(live, process) == line;
    }
    found
}

// How many cells a variable of a process has, while it is there.
fn local_size(live: &Live<'_, '_>, whose: TypedProcess, variable: usize) -> usize
    ensures { result ≡ size_by live.now.state (Some (StateSubject.Local whose variable)) }
{
    if is_there(live, whose) {
        cell_count(live, usize::from(whose.process) + 1, variable)
    } else {
        0
    }
}

/// How many cells a variable has.
pub fn size_by(live: &Live<'_, '_>, subject: Option<StateSubject>) -> usize
    ensures { result ≡ size_by live.now.state subject }
{
    match subject {
        Some(StateSubject::Global(variable)) => cell_count(live, 0, variable),
        Some(StateSubject::Local(whose, variable)) => local_size(live, whose, variable),
        Some(StateSubject::At(_, _))
        | Some(StateSubject::Any(_, _))
        | Some(StateSubject::Line(_)) => 1,
        None => 0,
    }
}

// The number of a cell of a frame.
fn number_in(live: &Live<'_, '_>, frame: usize, variable: usize, cell: usize) -> i32
    ensures { result ≡ number_by_frame live.now.state frame variable cell }
{
    let place = Place {
        frame,
        variable,
        cell,
    };
    number_at(live, place)
}

/// The number of a cell of a variable.
pub fn number_by(live: &Live<'_, '_>, subject: Option<StateSubject>, cell: usize) -> i32
    ensures { result ≡ number_by live.now.state subject cell }
{
    match subject {
        Some(StateSubject::Global(variable)) => number_in(live, 0, variable, cell),
        Some(StateSubject::Local(whose, variable)) => {
            number_in(live, usize::from(whose.process) + 1, variable, cell)
        }
        Some(StateSubject::At(whose, spot)) => number_of(stands_at(live, whose, spot)),
        Some(StateSubject::Any(sort, spot)) => {
            number_of(any_of(live, sort, spot, live.process_count()))
        }
        Some(StateSubject::Line(line)) => number_of(any_at(live, line, live.process_count())),
        None => 0,
    }
}
