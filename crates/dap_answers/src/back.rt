//! Back: by a step, or to where a run stops.

ghost use Rattle.dap_answers.specs.Sessions.{GoesOn};
ghost use Rattle.view_walk.specs.Walks.{SameModel};

use crate::breaks::hit;
use crate::data::is_changed;
use crate::debugging::ClientSession;
use crate::stop::{SessionStop, stop_here, tell_stop};
use dap_messages::processes::lines_of;
use std::alloc::AllocError;
use view_text::writer::Writer;
use view_walk::walk::Walk;
use walk_answers::going::{back, go_to};

/// A state before where a walk stood, in which a run stops.
#[derive(Clone, Copy)]
struct Met {
    step: usize,
    process: usize,
    reason: &'static str,
}

/// What a run through states keeps.
#[derive(Drop)]
struct Look {
    lines: Vec<u32>,
    scratch: Writer,
}

// Stops at the first state.
fn stop_at_first(walk: &Walk<'_, '_>, session: &mut ClientSession) -> Result<(), AllocError>
    ensures goes_on { GoesOn session.old session.new }
{
    let why = SessionStop {
        reason: "entry",
        process: 0,
        words: "the first state",
    };
    tell_stop(walk, session, why)
}

/// Goes to the first state again.
pub fn restart(walk: &mut Walk<'_, '_>, session: &mut ClientSession) -> Result<(), AllocError>
    ensures model { SameModel walk.old walk.new }
    ensures goes_on { GoesOn session.old session.new }
{
    go_to(walk, 0)?;
    stop_at_first(walk, session)
}

/// Goes back by a step.
pub fn step_back(
    walk: &mut Walk<'_, '_>,
    session: &mut ClientSession,
    process: usize,
) -> Result<(), AllocError>
    ensures model { SameModel walk.old walk.new }
    ensures goes_on { GoesOn session.old session.new }
{
    if walk.at() == 0 {
        return stop_at_first(walk, session);
    }
    back(walk, 1)?;
    stop_here(walk, session, "step", process)
}

// Whether a run stops in the state where a walk stands.
fn met_at(
    walk: &Walk<'_, '_>,
    session: &mut ClientSession,
    look: &mut Look,
) -> Result<Option<Met>, AllocError>
    ensures goes_on { GoesOn session.old session.new }
{
    let live = walk.world().live();
    let now = lines_of(session.allocator(), live)?;
    let before = look.lines.as_slice();
    let breaks = session.breaks.as_mut_slice();
    let found = hit(live, breaks, before, now.as_slice(), &mut look.scratch)?;
    look.lines = now;
    let step = walk.at();
    if let Some(process) = found {
        return Ok(Some(Met {
            step,
            process,
            reason: "breakpoint",
        }));
    }
    if is_changed(walk.world(), session.watched.as_slice(), &mut look.scratch)? {
        return Ok(Some(Met {
            step,
            process: 0,
            reason: "data breakpoint",
        }));
    }
    Ok(None)
}

// The last state before a step in which a run stops, in one pass from the first on.
fn last_met(
    walk: &mut Walk<'_, '_>,
    session: &mut ClientSession,
    end: usize,
) -> Result<Option<Met>, AllocError>
    ensures model { SameModel walk.old walk.new }
    ensures goes_on { GoesOn session.old session.new }
{
    go_to(walk, 0)?;
    let alloc = session.allocator();
    let mut look = Look {
        lines: lines_of(alloc, walk.world().live())?,
        scratch: Writer::new(alloc),
    };
    let mut found = None;
    for step in 1..end {
        go_to(walk, step)?;
        if let Some(met) = met_at(walk, session, &mut look)? {
            found = Some(met);
        }
    }
    Ok(found)
}

/// Goes back to the last state in which a run stops, or to the first.
pub fn run_back(walk: &mut Walk<'_, '_>, session: &mut ClientSession) -> Result<(), AllocError>
    ensures model { SameModel walk.old walk.new }
    ensures goes_on { GoesOn session.old session.new }
{
    let at = walk.at();
    match last_met(walk, session, at)? {
        Some(met) => {
            go_to(walk, met.step)?;
            stop_here(walk, session, met.reason, met.process)
        }
        None => restart(walk, session),
    }
}
