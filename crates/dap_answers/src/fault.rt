//! Faults and invalid ends, which stop a session as exceptions.

ghost use Rattle.dap_answers.specs.Sessions.{GoesOn};
ghost use Rattle.view_text.specs.Written.{Stays};
ghost use Rattle.view_walk.specs.Walks.{SameModel};

use crate::debugging::{ClientSession, Exception};
use crate::stop::{SessionStop, tell_stop};
use dap_messages::words::words_of;
use diagnostics::Fault;
use promela_run::moves::Move;
use run_state::live::Live;
use run_texts::ends::stuck;
use serde_json::{Value, json};
use std::alloc::{AllocError, Global};
use view_session::question::add_cause;
use view_session::watch::add_fault;
use view_state::choices::{add_ending, add_move, ending_of};
use view_state::why::add_why;
use view_text::writer::Writer;
use view_waits::fault::{add_detail, detail_of};
use view_waits::statement::add_statement_reads;
use view_waits::waits::starter_of;
use view_walk::walk::Walk;

// The number of a fault as a name.
fn id_of(fault: Fault) -> &'static str {
    match fault.number() {
        1 => "F1",
        2 => "F2",
        3 => "F3",
        4 => "F4",
        5 => "F5",
        6 => "F6",
        7 => "F7",
        _ => "F8",
    }
}

// What is told of a fault.
fn fault_words(
    alloc: Global,
    live: &Live<'_, '_>,
    m: &Move,
    fault: Fault,
) -> Result<String, AllocError> {
    let mut out = Writer::new(alloc);
    add_fault(fault, &mut out);
    out.add(b": ");
    add_move(live, m, &mut out);
    out.add(b", not taken");
    words_of(&out)
}

// What the statement read, and what the fault was about.
fn fault_details(
    alloc: Global,
    live: &Live<'_, '_>,
    m: &Move,
    fault: Fault,
) -> Result<String, AllocError> {
    let mut out = Writer::new(alloc);
    add_statement_reads(live, m, &mut out);
    add_detail(detail_of(live, m, fault), &mut out);
    words_of(&out)
}

// Tells of an exception.
fn tell(
    walk: &Walk<'_, '_>,
    session: &mut ClientSession,
    process: usize,
    exception: Exception,
) -> Result<(), AllocError>
    ensures goes_on { GoesOn session.old session.new }
{
    session.out.output("stderr", exception.words.as_str())?;
    session.out.output("stderr", "\n")?;
    session.out.output("stderr", exception.details.as_str())?;
    let why = SessionStop {
        reason: "exception",
        process,
        words: exception.words.as_str(),
    };
    tell_stop(walk, session, why)?;
    session.exception = Some(exception);
    Ok(())
}

/// Stops before a step that comes to a fault.
pub fn stop_at_fault(
    walk: &Walk<'_, '_>,
    session: &mut ClientSession,
    m: &Move,
    fault: Fault,
) -> Result<(), AllocError>
    ensures goes_on { GoesOn session.old session.new }
{
    let alloc = session.allocator();
    let live = walk.world().live();
    let exception = Exception {
        id: id_of(fault),
        words: fault_words(alloc, live, m, fault)?,
        details: fault_details(alloc, live, m, fault)?,
    };
    tell(walk, session, starter_of(m), exception)
}

// What the processes wait for at an end, and what led there.
fn end_details(walk: &mut Walk<'_, '_>, alloc: Global) -> Result<String, AllocError>
    ensures { SameModel walk.old walk.new }
{
    let mut out = Writer::new(alloc);
    let at = walk.at();
    let live = walk.world().live();
    add_ending(live, at, &mut out);
    add_why(live, &[], false, &mut out)?;
    add_cause(walk, &[], &mut out)?;
    words_of(&out)
}

// The first process that may not end where it stands.
fn first_stuck(live: &Live<'_, '_>) -> usize {
    for process in 0..live.process_count() {
        if stuck(live, process).is_some() {
            return process;
        }
    }
    0
}

/// Stops where no move is left.
pub fn stop_at_end(walk: &mut Walk<'_, '_>, session: &mut ClientSession) -> Result<(), AllocError>
    ensures model { SameModel walk.old walk.new }
    ensures goes_on { GoesOn session.old session.new }
{
    if ending_of(walk.world().live()) == "valid" {
        let why = SessionStop {
            reason: "end",
            process: 0,
            words: "end: valid",
        };
        return tell_stop(walk, session, why);
    }
    let details = end_details(walk, session.allocator())?;
    let exception = Exception {
        id: "invalid end",
        words: String::from_str(session.allocator(), "invalid end: no process can move")?,
        details,
    };
    let process = first_stuck(walk.world().live());
    tell(walk, session, process, exception)
}

/// What is told of the last exception.
pub fn info_of(session: &ClientSession) -> Result<Value, AllocError> {
    let alloc = session.allocator();
    match &session.exception {
        Some(exception) => {
            let id = exception.id;
            let words = exception.words.as_str();
            let details = exception.details.as_str();
            json!(in alloc; {"exceptionId": id, "description": words, "breakMode": "always", "details": {"message": words, "stackTrace": details}})
        }
        None => json!(in alloc; {"exceptionId": "none", "breakMode": "never"}),
    }
}
