//! A step of a process.

ghost use Rattle.dap_answers.specs.Sessions.{GoesOn};
ghost use Rattle.view_walk.specs.Walks.{SameModel};

use crate::debugging::ClientSession;
use crate::fault::{stop_at_end, stop_at_fault};
use crate::stop::{SessionStop, stop_here, tell_stop};
use dap_messages::moves::add_all_waits;
use dap_messages::words::{text_of, words_of};
use promela_run::moves::Move;
use std::alloc::AllocError;
use view_session::steps::{MoveTexts, add_step_line, move_at, texts_of};
use view_state::choices::add_choices;
use view_text::writer::Writer;
use view_waits::waits::starter_of;
use view_walk::walk::{Walk, Went};
use walk_answers::choosing::{Choosing, FollowingMove};
use walk_answers::going::take;
use walk_answers::halt::RunHalt;

/// What stops a session at one of several moves, in words.
pub const NEXT_CHOICE: &str =
    "choose: step a thread, step into a target, or a number in the console";

// Tells of the last step of a walk, which has these texts, and what it printed.
fn tell_step(
    walk: &Walk<'_, '_>,
    session: &mut ClientSession,
    texts: &MoveTexts,
    printed: &[u8],
) -> Result<(), AllocError>
    ensures goes_on { GoesOn session.old session.new }
{
    add_step_line(walk, texts, &mut session.told)?;
    let line = words_of(&session.told.out)?;
    session.told.out.clear();
    session.out.output("console", line.as_str())?;
    let printed = text_of(session.allocator(), printed)?;
    session.out.output("stdout", printed.as_str())
}

// Stops behind a step of a process; where no move is left, at the end.
fn stop_behind(
    walk: &mut Walk<'_, '_>,
    session: &mut ClientSession,
    process: usize,
) -> Result<(), AllocError>
    ensures model { SameModel walk.old walk.new }
    ensures goes_on { GoesOn session.old session.new }
{
    if walk.moves()?.is_empty() {
        return stop_at_end(walk, session);
    }
    stop_here(walk, session, "step", process)
}

// Takes a move, which has this number, tells of it and stops.
fn take_move(
    walk: &mut Walk<'_, '_>,
    session: &mut ClientSession,
    choice: usize,
    m: &Move,
) -> Result<(), AllocError>
    ensures model { SameModel walk.old walk.new }
    ensures goes_on { GoesOn session.old session.new }
{
    let alloc = session.allocator();
    let texts = texts_of(walk, m, alloc)?;
    let mut printed = Vec::new(alloc);
    session.told.step_from(walk.at());
    match take(walk, choice, &mut printed)? {
        Went::On => {
            tell_step(walk, session, &texts, printed.as_slice())?;
            stop_behind(walk, session, starter_of(m))
        }
        Went::Faults(fault) => stop_at_fault(walk, session, m, fault),
        Went::Nowhere => stop_here(walk, session, "step", starter_of(m)),
    }
}

// Stops where a walk has as many steps as it may have.
fn stop_at_limit(walk: &Walk<'_, '_>, session: &mut ClientSession) -> Result<(), AllocError>
    ensures goes_on { GoesOn session.old session.new }
{
    let why = SessionStop {
        reason: "pause",
        process: 0,
        words: "step limit",
    };
    tell_stop(walk, session, why)
}

/// Takes the move with this number of those that there are, tells of it and stops.
pub fn choose(
    walk: &mut Walk<'_, '_>,
    session: &mut ClientSession,
    moves: &[Move],
    choice: usize,
) -> Result<(), AllocError>
    ensures model { SameModel walk.old walk.new }
    ensures goes_on { GoesOn session.old session.new }
{
    if walk.at() >= session.limit {
        return stop_at_limit(walk, session);
    }
    match move_at(moves, choice) {
        Some(m) => take_move(walk, session, choice, &m),
        None => stop_here(walk, session, "step", 0),
    }
}

/// Stops where one of several moves is to be chosen, which are listed.
pub fn stop_at_choice(
    walk: &Walk<'_, '_>,
    session: &mut ClientSession,
    moves: &[Move],
    process: usize,
) -> Result<(), AllocError>
    ensures goes_on { GoesOn session.old session.new }
{
    let mut out = Writer::new(session.allocator());
    add_choices(walk.world().live(), moves, false, &mut out)?;
    session.out.output("console", words_of(&out)?.as_str())?;
    let why = SessionStop {
        reason: "choice",
        process,
        words: NEXT_CHOICE,
    };
    tell_stop(walk, session, why)
}

// Stops where a process has no move.
fn stop_waiting(
    walk: &Walk<'_, '_>,
    session: &mut ClientSession,
    process: usize,
) -> Result<(), AllocError>
    ensures goes_on { GoesOn session.old session.new }
{
    let mut out = Writer::new(session.allocator());
    add_all_waits(walk.world().live(), process, &mut out)?;
    let words = words_of(&out)?;
    let why = SessionStop {
        reason: "step",
        process,
        words: words.as_str(),
    };
    tell_stop(walk, session, why)
}

/// Takes the only move of a process; where it has several or none, that is told.
pub fn step(
    walk: &mut Walk<'_, '_>,
    session: &mut ClientSession,
    process: usize,
) -> Result<(), AllocError>
    ensures model { SameModel walk.old walk.new }
    ensures goes_on { GoesOn session.old session.new }
{
    let found = walk.moves()?;
    let moves = found.as_slice();
    let mut choosing = Choosing::Process(process);
    match choosing.next(moves) {
        FollowingMove::Take(choice) => choose(walk, session, moves, choice),
        FollowingMove::Stop(RunHalt::End) => stop_at_end(walk, session),
        FollowingMove::Stop(RunHalt::Blocked(_)) => stop_waiting(walk, session, process),
        FollowingMove::Stop(_) => stop_at_choice(walk, session, moves, process),
    }
}
