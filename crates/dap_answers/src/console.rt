//! Lines of the console: the number of a choice, the words of a session, or an expression.

ghost use Rattle.std.specs.Prelude.{◌<◌, OnOk};
ghost use Rattle.dap_answers.specs.Sessions.{GoesOn};
ghost use Rattle.view_walk.specs.Walks.{SameModel};

use crate::debugging::ClientSession;
use crate::evaluate::{Worth, worth_of};
use crate::step::choose;
use crate::stop::stop_here;
use dap_messages::moves::move_words;
use dap_messages::processes::ModelSource;
use dap_messages::words::words_of;
use serde_json::{Value, json};
use std::alloc::AllocError;
use view_commands::names::name_of;
use view_session::answers::{Reply, Setting, answer, go_further};
use view_session::steps::move_at;
use view_walk::leg::Leg;
use view_walk::walk::Walk;

// Answers a request with words.
fn reply_words(session: &mut ClientSession, request: &Value, words: &str) -> Result<(), AllocError>
    ensures goes_on { GoesOn session.old session.new }
    ensures replied { OnOk result (session.old.out < session.new.out) }
{
    let body = json!(in session.allocator(); {"result": words, "variablesReference": 0})?;
    session.out.reply(request, body)
}

/// Answers a request with what a text is worth where a process reads it.
pub fn tell_worth(
    walk: &Walk<'_, '_>,
    session: &mut ClientSession,
    request: &Value,
    process: Option<usize>,
    text: &str,
) -> Result<(), AllocError>
    ensures goes_on { GoesOn session.old session.new }
    ensures replied { OnOk result (session.old.out < session.new.out) }
{
    let live = walk.world().live();
    match worth_of(session.allocator(), live, process, text)? {
        Worth::Value(body) => session.out.reply(request, body),
        Worth::Wrong(words) => session.out.refuse(request, words.as_str()),
    }
}

// Takes the move with this number, if there is one.
fn take_number(
    walk: &mut Walk<'_, '_>,
    session: &mut ClientSession,
    request: &Value,
    choice: usize,
) -> Result<(), AllocError>
    ensures model { SameModel walk.old walk.new }
    ensures goes_on { GoesOn session.old session.new }
    ensures replied { OnOk result (session.old.out < session.new.out) }
{
    let found = walk.moves()?;
    let moves = found.as_slice();
    let Some(m) = move_at(moves, choice) else {
        return session.out.refuse(request, "bad choice");
    };
    let words = move_words(session.allocator(), walk.world().live(), &m)?;
    reply_words(session, request, words.as_str())?;
    choose(walk, session, moves, choice)
}

// Does what a line of a session says. Whether the session goes on.
fn obey(
    walk: &mut Walk<'_, '_>,
    session: &mut ClientSession,
    source: ModelSource<'_>,
    line: &str,
) -> Result<bool, AllocError>
    ensures model { SameModel walk.old walk.new }
    ensures goes_on { GoesOn session.old session.new }
{
    let setting = Setting {
        text: source.text,
        limit: session.limit,
    };
    let mut reply = answer(walk, setting, line.as_bytes(), &mut session.told)?;
    for _turn in 0..u64::MAX {
        match reply {
            Reply::Further(command) => {
                reply = go_further(walk, setting, command, &mut session.told)?;
            }
            Reply::Save(_) => {
                session
                    .told
                    .out
                    .add(b"nothing is written: record shows the choices\n");
                return Ok(true);
            }
            Reply::On => return Ok(true),
            Reply::End => return Ok(false),
        }
    }
    Ok(true)
}

// The choices of a walk.
fn legs_of(walk: &Walk<'_, '_>, session: &ClientSession) -> Result<Vec<Leg>, AllocError> {
    let mut legs = Vec::new(session.allocator());
    legs.extend_from_slice(walk.legs())?;
    Ok(legs)
}

// Answers a line of a session, and stops where it led somewhere.
fn say(
    walk: &mut Walk<'_, '_>,
    session: &mut ClientSession,
    source: ModelSource<'_>,
    request: &Value,
    line: &str,
) -> Result<(), AllocError>
    ensures model { SameModel walk.old walk.new }
    ensures goes_on { GoesOn session.old session.new }
    ensures replied { OnOk result (session.old.out < session.new.out) }
{
    let at = walk.at();
    let legs = legs_of(walk, session)?;
    let goes_on = obey(walk, session, source, line)?;
    let words = words_of(&session.told.out)?;
    session.told.out.clear();
    reply_words(session, request, words.as_str())?;
    if !goes_on {
        let body = json!(in session.allocator(); {})?;
        return session.out.event("terminated", body);
    }
    if walk.at() != at || walk.legs() != legs.as_slice() {
        return stop_here(walk, session, "step", 0);
    }
    Ok(())
}

// The first word of a line.
fn first_of(line: &str) -> &str {
    match line.split_once(' ') {
        Some((first, _)) => first,
        None => line,
    }
}

/// Answers a line of the console.
pub fn answer_line(
    walk: &mut Walk<'_, '_>,
    session: &mut ClientSession,
    source: ModelSource<'_>,
    request: &Value,
    process: Option<usize>,
    line: &str,
) -> Result<(), AllocError>
    ensures model { SameModel walk.old walk.new }
    ensures goes_on { GoesOn session.old session.new }
    ensures replied { OnOk result (session.old.out < session.new.out) }
{
    if let Ok(choice) = line.parse::<usize>() {
        return take_number(walk, session, request, choice);
    }
    if line.is_empty() || name_of(first_of(line)).is_some() {
        return say(walk, session, source, request, line);
    }
    tell_worth(walk, session, request, process, line)
}
