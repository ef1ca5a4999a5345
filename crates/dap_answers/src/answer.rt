//! What is answered to a request.

ghost use Rattle.std.specs.Prelude.{◌<◌, OnOk};
ghost use Rattle.dap_answers.specs.Sessions.{GoesOn};
ghost use Rattle.view_walk.specs.Walks.{SameModel};

use crate::back::{restart, run_back, step_back};
use crate::commands::{DebugRequest, command_named};
use crate::console::{answer_line, tell_worth};
use crate::data::set_watched;
use crate::debugging::ClientSession;
use crate::fault::info_of;
use crate::run::run_on;
use crate::set_breaks::set_breaks;
use crate::show::shown;
use crate::step::{choose, step};
use crate::stop::stop_here;
use dap_messages::fields::{command_of, number_at, text_at};
use dap_messages::moves::choice_of;
use dap_messages::processes::{ModelSource, process_of};
use serde_json::{Value, json};
use std::alloc::{AllocError, Global};
use view_walk::walk::Walk;

// An empty body.
fn nothing(alloc: Global) -> Result<Value, AllocError> {
    json!(in alloc; {})
}

// Answers a request that shows something.
fn show(
    walk: &Walk<'_, '_>,
    session: &mut ClientSession,
    source: ModelSource<'_>,
    command: DebugRequest,
    request: &Value,
) -> Result<(), AllocError>
    ensures goes_on { GoesOn session.old session.new }
    ensures replied { OnOk result (session.old.out < session.new.out) }
{
    let live = walk.world().live();
    let alloc = session.allocator();
    match shown(alloc, live, source, session.stops, command, request)? {
        Some(body) => session.out.reply(request, body),
        None => session.out.refuse(request, "no such process"),
    }
}

// Answers a request that sets something.
fn set(
    walk: &Walk<'_, '_>,
    session: &mut ClientSession,
    source: ModelSource<'_>,
    command: DebugRequest,
    request: &Value,
) -> Result<(), AllocError>
    ensures goes_on { GoesOn session.old session.new }
    ensures replied { OnOk result (session.old.out < session.new.out) }
{
    let alloc = session.allocator();
    let body = match command {
        DebugRequest::SetBreakpoints => set_breaks(walk, session, source, request),
        DebugRequest::SetDataBreakpoints => {
            let live = walk.world().live();
            set_watched(alloc, live, request, &mut session.watched)
        }
        DebugRequest::ExceptionInfo => info_of(session),
        _ => nothing(alloc),
    };
    session.out.reply(request, body?)
}

// Answers an expression, or a line of the console.
fn evaluate(
    walk: &mut Walk<'_, '_>,
    session: &mut ClientSession,
    source: ModelSource<'_>,
    request: &Value,
) -> Result<(), AllocError>
    ensures model { SameModel walk.old walk.new }
    ensures goes_on { GoesOn session.old session.new }
    ensures replied { OnOk result (session.old.out < session.new.out) }
{
    let text = text_at(request, "/arguments/expression").trim();
    let process = process_of(number_at(request, "/arguments/frameId"));
    if text_at(request, "/arguments/context") == "repl" {
        return answer_line(walk, session, source, request, process, text);
    }
    tell_worth(walk, session, request, process, text)
}

// Takes the move that a target names, unless it is of another stop.
fn step_into(
    walk: &mut Walk<'_, '_>,
    session: &mut ClientSession,
    request: &Value,
    target: usize,
) -> Result<(), AllocError>
    ensures model { SameModel walk.old walk.new }
    ensures goes_on { GoesOn session.old session.new }
    ensures replied { OnOk result (session.old.out < session.new.out) }
{
    let found = walk.moves()?;
    let moves = found.as_slice();
    match choice_of(session.stops, target) {
        Some(choice) if choice > 0 && choice <= moves.len() => {
            let body = nothing(session.allocator())?;
            session.out.reply(request, body)?;
            choose(walk, session, moves, choice)
        }
        _ => session
            .out
            .refuse(request, "this target is of another stop"),
    }
}

// Stops where a session begins; at the end of a trail that comes to a fault before that step.
fn begin(walk: &mut Walk<'_, '_>, session: &mut ClientSession) -> Result<(), AllocError>
    ensures model { SameModel walk.old walk.new }
    ensures goes_on { GoesOn session.old session.new }
{
    if let Some(choice) = session.faulting.take() {
        let found = walk.moves()?;
        return choose(walk, session, found.as_slice(), choice);
    }
    stop_here(walk, session, "entry", 0)
}

// Does what a request says that leads somewhere, for a process.
fn lead(
    walk: &mut Walk<'_, '_>,
    session: &mut ClientSession,
    command: DebugRequest,
    process: usize,
) -> Result<(), AllocError>
    ensures model { SameModel walk.old walk.new }
    ensures goes_on { GoesOn session.old session.new }
{
    match command {
        DebugRequest::ConfigurationDone => begin(walk, session),
        DebugRequest::Continue => run_on(walk, session),
        DebugRequest::StepBack => step_back(walk, session, process),
        DebugRequest::ReverseContinue => run_back(walk, session),
        DebugRequest::Restart => restart(walk, session),
        _ => step(walk, session, process),
    }
}

// Answers a request that leads somewhere.
fn go(
    walk: &mut Walk<'_, '_>,
    session: &mut ClientSession,
    command: DebugRequest,
    request: &Value,
) -> Result<(), AllocError>
    ensures model { SameModel walk.old walk.new }
    ensures goes_on { GoesOn session.old session.new }
    ensures replied { OnOk result (session.old.out < session.new.out) }
{
    if command == DebugRequest::StepIn {
        if let Some(target) = number_at(request, "/arguments/targetId") {
            return step_into(walk, session, request, target);
        }
    }
    let process = process_of(number_at(request, "/arguments/threadId"));
    let wants_process = matches!(
        command,
        DebugRequest::Next | DebugRequest::StepIn | DebugRequest::StepOut
    );
    let is_there = match process {
        Some(process) => process < walk.world().process_count(),
        None => false,
    };
    if wants_process && !is_there {
        return session.out.refuse(request, "no such process");
    }
    let alloc = session.allocator();
    let body = match command {
        DebugRequest::Continue => json!(in alloc; {"allThreadsContinued": true})?,
        _ => nothing(alloc)?,
    };
    session.out.reply(request, body)?;
    lead(walk, session, command, process.unwrap_or(0))
}

// Ends the run, but not the session with the client.
fn terminate(session: &mut ClientSession, request: &Value) -> Result<(), AllocError>
    ensures goes_on { GoesOn session.old session.new }
    ensures replied { OnOk result (session.old.out < session.new.out) }
{
    let alloc = session.allocator();
    session.out.reply(request, nothing(alloc)?)?;
    session.out.event("terminated", nothing(alloc)?)
}

/// Answers a request: what is to be sent begins with its response.
pub fn answer(
    walk: &mut Walk<'_, '_>,
    session: &mut ClientSession,
    source: ModelSource<'_>,
    request: &Value,
) -> Result<(), AllocError>
    ensures model { SameModel walk.old walk.new }
    ensures goes_on { GoesOn session.old session.new }
    ensures replied { OnOk result (session.old.out < session.new.out) }
{
    let Some(command) = command_named(command_of(request)) else {
        return session.out.refuse(request, "no such request");
    };
    match command {
        DebugRequest::Threads
        | DebugRequest::StackTrace
        | DebugRequest::Scopes
        | DebugRequest::Variables
        | DebugRequest::StepInTargets
        | DebugRequest::DataBreakpointInfo => show(walk, session, source, command, request),
        DebugRequest::SetBreakpoints
        | DebugRequest::SetDataBreakpoints
        | DebugRequest::SetExceptionBreakpoints
        | DebugRequest::ExceptionInfo
        | DebugRequest::Pause => set(walk, session, source, command, request),
        DebugRequest::Evaluate => evaluate(walk, session, source, request),
        DebugRequest::Terminate => terminate(session, request),
        _ => go(walk, session, command, request),
    }
}
