//! The breaks at lines that a client asks for.

ghost use Rattle.dap_answers.specs.Sessions.{GoesOn};

use crate::breaks::Break;
use crate::debugging::ClientSession;
use dap_messages::fields::{items_at, number_at, text_at};
use dap_messages::processes::ModelSource;
use dap_messages::words::words_of;
use run_state::live::Live;
use serde_json::{Value, json};
use std::alloc::{AllocError, Global};
use view_cells::processes::is_standing_line;
use view_text::writer::Writer;
use view_walk::walk::Walk;
use walk_answers::scope::condition_in_proctype;

// The name of a file without the folders that lead to it.
fn name_of(path: &str) -> &str {
    match path.rsplit_once('/') {
        Some((_, last)) => last,
        None => path,
    }
}

// How many lines a text has.
fn line_count(text: &[u8]) -> u32 {
    let mut count = 1u32;
    for byte in text {
        if *byte == b'\n' {
            count = count.saturating_add(1);
        }
    }
    count
}

// The first line from one on at which a process can stand.
fn standing_line(live: &Live<'_, '_>, from: usize, last: u32) -> Option<u32> {
    let Ok(first) = u32::try_from(from) else {
        return None;
    };
    if first > last {
        return None;
    }
    for line in first..=last {
        if is_standing_line(live, line) {
            return Some(line);
        }
    }
    None
}

// What is said of a break that is not kept.
fn unverified(alloc: Global, line: usize, why: &str) -> Result<Value, AllocError> {
    json!(in alloc; {"verified": false, "line": line, "message": why})
}

// From how many hits on a break stops.
fn from_of(words: &str) -> usize {
    match words.trim().parse::<usize>() {
        Ok(number) => number,
        Err(_) => 1,
    }
}

// The condition that a client wrote.
fn condition_of(alloc: Global, one: &Value) -> Result<Option<String>, AllocError> {
    let text = text_at(one, "/condition").trim();
    if text.is_empty() {
        return Ok(None);
    }
    Ok(Some(String::from_str(alloc, text)?))
}

// Why no process can read a condition at a line, if so.
fn flaw_of(
    live: &Live<'_, '_>,
    line: u32,
    condition: &Option<String>,
    alloc: Global,
) -> Result<Option<String>, AllocError> {
    let Some(text) = condition else {
        return Ok(None);
    };
    let mut words = Writer::new(alloc);
    if condition_in_proctype(live, line, text.as_bytes(), &mut words)? {
        return Ok(None);
    }
    Ok(Some(words_of(&words)?))
}

// Keeps a break, and answers what is said of it.
fn keep(
    live: &Live<'_, '_>,
    one: &Value,
    last: u32,
    breaks: &mut Vec<Break>,
    alloc: Global,
) -> Result<Value, AllocError> {
    let asked = number_at(one, "/line").unwrap_or(0);
    let Some(line) = standing_line(live, asked, last) else {
        return unverified(alloc, asked, "no statement begins here");
    };
    let condition = condition_of(alloc, one)?;
    if let Some(flaw) = flaw_of(live, line, &condition, alloc)? {
        return unverified(alloc, asked, flaw.as_str());
    }
    breaks.push(Break {
        line,
        condition,
        from: from_of(text_at(one, "/hitCondition")),
        hits: 0,
    })?;
    let id = breaks.len();
    json!(in alloc; {"id": id, "verified": true, "line": line})
}

// Keeps the breaks of the model's file.
fn keep_all(
    live: &Live<'_, '_>,
    request: &Value,
    last: u32,
    breaks: &mut Vec<Break>,
    alloc: Global,
) -> Result<Value, AllocError> {
    let mut list = Vec::new(alloc);
    breaks.clear();
    for one in items_at(request, "/arguments/breakpoints") {
        list.push(keep(live, one, last, breaks, alloc)?)?;
    }
    json!(in alloc; {"breakpoints": list})
}

// Answers of each break that its file is another.
fn keep_none(alloc: Global, request: &Value) -> Result<Value, AllocError> {
    let mut list = Vec::new(alloc);
    for one in items_at(request, "/arguments/breakpoints") {
        let line = number_at(one, "/line").unwrap_or(0);
        list.push(unverified(alloc, line, "this file is not the model")?)?;
    }
    json!(in alloc; {"breakpoints": list})
}

/// Keeps the breaks that a client asks for in place of those that it asked for before.
pub fn set_breaks(
    walk: &Walk<'_, '_>,
    session: &mut ClientSession,
    source: ModelSource<'_>,
    request: &Value,
) -> Result<Value, AllocError>
    ensures goes_on { GoesOn session.old session.new }
{
    let alloc = session.allocator();
    let path = text_at(request, "/arguments/source/path");
    if name_of(path) != name_of(source.path) {
        return keep_none(alloc, request);
    }
    let last = line_count(source.text);
    let live = walk.world().live();
    keep_all(live, request, last, &mut session.breaks, alloc)
}
