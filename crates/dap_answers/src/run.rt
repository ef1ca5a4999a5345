//! Runs: on until something stops them.

ghost use Rattle.dap_answers.specs.Sessions.{GoesOn};
ghost use Rattle.view_walk.specs.Walks.{SameModel};

use crate::breaks::hit;
use crate::data::is_changed;
use crate::debugging::ClientSession;
use crate::fault::{stop_at_end, stop_at_fault};
use crate::step::stop_at_choice;
use crate::stop::{SessionStop, stop_here, tell_stop};
use dap_messages::processes::lines_of;
use dap_messages::words::text_of;
use diagnostics::Fault;
use promela_run::moves::Move;
use std::alloc::AllocError;
use view_session::steps::move_at;
use view_text::writer::Writer;
use view_waits::waits::starter_of;
use view_walk::walk::{Walk, Went};
use walk_answers::choosing::FollowingMove;
use walk_answers::going::take;
use walk_answers::halt::RunHalt;

/// So many steps are taken at most without a stop.
const MOST_STEPS: usize = 100_000;

/// What a run keeps: the lines at which the processes stand, what was printed, and room for words.
#[derive(Drop)]
struct Run {
    lines: Vec<u32>,
    printed: Vec<u8>,
    scratch: Writer,
}

/// Why a run stops.
#[derive(Clone, Copy)]
enum Ended {
    Break(usize),
    Change(usize),
    Fault(Move, Fault),
    Choice,
    End,
    Limit,
    Steps,
}

// Whether a run stops where a step led it.
fn stops_here(
    walk: &Walk<'_, '_>,
    session: &mut ClientSession,
    run: &mut Run,
    process: usize,
) -> Result<Option<Ended>, AllocError>
    ensures goes_on { GoesOn session.old session.new }
{
    let live = walk.world().live();
    let now = lines_of(session.allocator(), live)?;
    let met = hit(
        live,
        session.breaks.as_mut_slice(),
        run.lines.as_slice(),
        now.as_slice(),
        &mut run.scratch,
    )?;
    run.lines = now;
    if let Some(process) = met {
        return Ok(Some(Ended::Break(process)));
    }
    if is_changed(walk.world(), session.watched.as_slice(), &mut run.scratch)? {
        return Ok(Some(Ended::Change(process)));
    }
    Ok(None)
}

// Takes a move. Why the run stops there, if it does.
fn take_on(
    walk: &mut Walk<'_, '_>,
    session: &mut ClientSession,
    run: &mut Run,
    choice: usize,
    m: Move,
) -> Result<Option<Ended>, AllocError>
    ensures model { SameModel walk.old walk.new }
    ensures goes_on { GoesOn session.old session.new }
{
    match take(walk, choice, &mut run.printed)? {
        Went::On => stops_here(walk, session, run, starter_of(&m)),
        Went::Faults(fault) => Ok(Some(Ended::Fault(m, fault))),
        Went::Nowhere => Ok(Some(Ended::Choice)),
    }
}

// Takes the next step of a run. Why it stops there, if it does.
fn go_on(
    walk: &mut Walk<'_, '_>,
    session: &mut ClientSession,
    run: &mut Run,
) -> Result<Option<Ended>, AllocError>
    ensures model { SameModel walk.old walk.new }
    ensures goes_on { GoesOn session.old session.new }
{
    let found = walk.moves()?;
    let moves = found.as_slice();
    match session.choosing.next(moves) {
        FollowingMove::Stop(RunHalt::End) => Ok(Some(Ended::End)),
        FollowingMove::Stop(_) => Ok(Some(Ended::Choice)),
        FollowingMove::Take(_) if walk.at() >= session.limit => Ok(Some(Ended::Limit)),
        FollowingMove::Take(choice) => match move_at(moves, choice) {
            Some(m) => take_on(walk, session, run, choice, m),
            None => Ok(Some(Ended::Choice)),
        },
    }
}

// Goes on until the run stops, and why it does.
fn go(
    walk: &mut Walk<'_, '_>,
    session: &mut ClientSession,
    run: &mut Run,
) -> Result<Ended, AllocError>
    ensures model { SameModel walk.old walk.new }
    ensures goes_on { GoesOn session.old session.new }
{
    for _turn in 0..MOST_STEPS {
        if let Some(ended) = go_on(walk, session, run)? {
            return Ok(ended);
        }
    }
    Ok(Ended::Steps)
}

fn stop_counted(
    walk: &Walk<'_, '_>,
    session: &mut ClientSession,
    words: &str,
) -> Result<(), AllocError>
    ensures goes_on { GoesOn session.old session.new }
{
    let why = SessionStop {
        reason: "pause",
        process: 0,
        words,
    };
    tell_stop(walk, session, why)
}

// Stops at one of several moves.
fn stop_choosing(walk: &Walk<'_, '_>, session: &mut ClientSession) -> Result<(), AllocError>
    ensures goes_on { GoesOn session.old session.new }
{
    let found = walk.moves()?;
    let moves = found.as_slice();
    let process = match move_at(moves, 1) {
        Some(m) => starter_of(&m),
        None => 0,
    };
    stop_at_choice(walk, session, moves, process)
}

// Tells why a run stopped.
fn tell(
    walk: &mut Walk<'_, '_>,
    session: &mut ClientSession,
    ended: Ended,
) -> Result<(), AllocError>
    ensures model { SameModel walk.old walk.new }
    ensures goes_on { GoesOn session.old session.new }
{
    match ended {
        Ended::Break(process) => stop_here(walk, session, "breakpoint", process),
        Ended::Change(process) => stop_here(walk, session, "data breakpoint", process),
        Ended::Fault(m, fault) => stop_at_fault(walk, session, &m, fault),
        Ended::Choice => stop_choosing(walk, session),
        Ended::End => stop_at_end(walk, session),
        Ended::Limit => stop_counted(walk, session, "step limit"),
        Ended::Steps => stop_counted(walk, session, "100,000 steps"),
    }
}

/// Goes on until something stops it: a break, a change, one of several moves, a fault or the end. What is printed is told once, behind all steps.
pub fn run_on(walk: &mut Walk<'_, '_>, session: &mut ClientSession) -> Result<(), AllocError>
    ensures model { SameModel walk.old walk.new }
    ensures goes_on { GoesOn session.old session.new }
{
    let alloc = session.allocator();
    let mut run = Run {
        lines: lines_of(alloc, walk.world().live())?,
        printed: Vec::new(alloc),
        scratch: Writer::new(alloc),
    };
    session.told.step_from(walk.at());
    let ended = go(walk, session, &mut run)?;
    let printed = text_of(alloc, run.printed.as_slice())?;
    session.out.output("stdout", printed.as_str())?;
    tell(walk, session, ended)
}
