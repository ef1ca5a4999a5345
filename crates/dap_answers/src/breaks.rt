//! Breaks at lines, and whether a step leads to one.

use run_state::live::Live;
use std::alloc::AllocError;
use view_text::writer::Writer;
use walk_answers::scope::condition_of;

/// A break at a line.
#[derive(Drop)]
pub struct Break {
    pub line: u32,
    /// What holds where it stops, as the process reads it that comes there.
    pub condition: Option<String>,
    /// It stops from so many hits on.
    pub from: usize,
    pub hits: usize,
}

// Whether a condition holds where a process stands; one with a fault does not.
fn holds(
    live: &Live<'_, '_>,
    process: usize,
    condition: &Option<String>,
    scratch: &mut Writer,
) -> Result<bool, AllocError> {
    let Some(text) = condition else {
        return Ok(true);
    };
    match condition_of(live, process, text.as_bytes(), scratch)? {
        Some(read) => match read.worth(live) {
            Ok(worth) => Ok(worth != 0),
            Err(_) => Ok(false),
        },
        None => Ok(true),
    }
}

// Whether a process that has come to a line stops there.
fn stops_at(
    live: &Live<'_, '_>,
    process: usize,
    line: u32,
    breaks: &mut [Break],
    scratch: &mut Writer,
) -> Result<bool, AllocError> {
    for one in breaks {
        if one.line == line && holds(live, process, &one.condition, scratch)? {
            one.hits = one.hits.saturating_add(1);
            if one.hits >= one.from {
                return Ok(true);
            }
        }
    }
    Ok(false)
}

// The line at which a process stood.
fn line_at(lines: &[u32], process: usize) -> u32 {
    match lines.get(process) {
        Some(line) => *line,
        None => 0,
    }
}

/// The process that a step led to a break, from these lines to those.
pub fn hit(
    live: &Live<'_, '_>,
    breaks: &mut [Break],
    before: &[u32],
    now: &[u32],
    scratch: &mut Writer,
) -> Result<Option<usize>, AllocError> {
    if breaks.is_empty() {
        return Ok(None);
    }
    for process in 0..now.len() {
        let line = now[process];
        if line != line_at(before, process) && stops_at(live, process, line, breaks, scratch)? {
            return Ok(Some(process));
        }
    }
    Ok(None)
}
