//! Where a session stops, and what is told of that.

ghost use Rattle.dap_answers.specs.Sessions.{GoesOn};

use crate::debugging::ClientSession;
use dap_messages::processes::thread_of;
use dap_messages::words::words_of;
use serde_json::json;
use std::alloc::AllocError;
use view_text::writer::Writer;
use view_walk::walk::Walk;

// Tells of a thread that has begun or ended.
fn tell_thread(session: &mut ClientSession, process: usize, reason: &str) -> Result<(), AllocError>
    ensures goes_on { GoesOn session.old session.new }
{
    let thread = thread_of(process);
    let body = json!(in session.allocator(); {"reason": reason, "threadId": thread})?;
    session.out.event("thread", body)
}

// Tells of each of these threads that it has begun or ended.
fn tell_each(
    session: &mut ClientSession,
    from: usize,
    to: usize,
    reason: &str,
) -> Result<(), AllocError>
    ensures goes_on { GoesOn session.old session.new }
{
    for process in from..to {
        tell_thread(session, process, reason)?;
    }
    Ok(())
}

// Tells of the threads that have begun or ended since the last stop.
fn tell_threads(session: &mut ClientSession, alive: usize) -> Result<(), AllocError>
    ensures goes_on { GoesOn session.old session.new }
{
    let before = session.alive;
    tell_each(session, alive, before, "exited")?;
    tell_each(session, before, alive, "started")?;
    session.alive = alive;
    Ok(())
}

/// Why a session stops, of which process, and words for it.
#[derive(Clone, Copy)]
pub struct SessionStop<'s> {
    pub reason: &'s str,
    pub process: usize,
    pub words: &'s str,
}

/// Tells that a session has stopped where a walk stands.
pub fn tell_stop(
    walk: &Walk<'_, '_>,
    session: &mut ClientSession,
    stop: SessionStop<'_>,
) -> Result<(), AllocError>
    ensures goes_on { GoesOn session.old session.new }
{
    let alive = walk.world().process_count();
    session.stops = session.stops.saturating_add(1);
    tell_threads(session, alive)?;
    let process = if stop.process < alive {
        stop.process
    } else {
        0
    };
    let thread = thread_of(process);
    let words = stop.words;
    let reason = stop.reason;
    let body =
        json!(in session.allocator(); {"reason": reason, "threadId": thread, "allThreadsStopped": true, "text": words, "description": words})?;
    session.out.event("stopped", body)
}

/// Where a walk stands, in words: `at 3 of 7`.
pub fn place_words(walk: &Walk<'_, '_>, session: &ClientSession) -> Result<String, AllocError> {
    let mut out = Writer::new(session.allocator());
    out.add(b"at ");
    out.number(walk.at());
    out.add(b" of ");
    out.number(walk.legs().len());
    words_of(&out)
}

/// Tells that a session has stopped where a walk stands, with that in words.
pub fn stop_here(
    walk: &Walk<'_, '_>,
    session: &mut ClientSession,
    reason: &str,
    process: usize,
) -> Result<(), AllocError>
    ensures goes_on { GoesOn session.old session.new }
{
    let words = place_words(walk, session)?;
    let why = SessionStop {
        reason,
        process,
        words: words.as_str(),
    };
    tell_stop(walk, session, why)
}
