//! Processes as threads, and where they stand.

ghost use Rattle.std.specs.Prelude.{◌≡◌, ◌+◌, Some, IfSome};

use crate::words::words_of;
use run_state::live::Live;
use serde_json::{Value, json};
use std::alloc::{AllocError, Global};
use view_cells::processes::{add_name, line_of};
use view_state::counted::{count_at, counts_of};
use view_text::writer::Writer;
use walk_answers::seen::moves_in;

/// The number of the thread that a process is.
pub fn thread_of(process: usize) -> usize {
    process.saturating_add(1)
}

/// The process that a thread or its frame is.
pub fn process_of(thread: Option<usize>) -> Option<usize>
    ensures { IfSome result (λ p. thread ≡ Some (p + 1)) }
{
    match thread {
        Some(number) if number > 0 => Some(number - 1),
        _ => None,
    }
}

// The name of a thread: its proctype and its number, and whether it waits.
fn thread_name(
    alloc: Global,
    live: &Live<'_, '_>,
    process: usize,
    waits: bool,
) -> Result<String, AllocError> {
    let mut out = Writer::new(alloc);
    add_name(live, process, &mut out);
    out.add(b" (");
    out.number(process);
    out.add(b")");
    if waits {
        out.add(b" waits");
    }
    words_of(&out)
}

/// The processes as threads.
pub fn threads_of(alloc: Global, live: &Live<'_, '_>) -> Result<Value, AllocError> {
    let moves = moves_in(alloc, live)?;
    let counts = counts_of(alloc, live.process_count(), moves.as_slice())?;
    let mut list = Vec::new(alloc);
    for process in 0..live.process_count() {
        let waits = count_at(counts.as_slice(), process) == 0;
        let name = thread_name(alloc, live, process, waits)?;
        let id = thread_of(process);
        list.push(json!(in alloc; {"id": id, "name": name})?)?;
    }
    json!(in alloc; {"threads": list})
}

/// The file of the model, and its text, whose lines are shown.
#[derive(Clone, Copy)]
pub struct ModelSource<'s> {
    pub path: &'s str,
    pub text: &'s [u8],
}

// The name of a file without the folders that lead to it.
fn name_of(path: &str) -> &str {
    match path.rsplit_once('/') {
        Some((_, last)) => last,
        None => path,
    }
}

// In which column of a line the first sign stands that is no blank, from 1.
fn column_of(text: &[u8], line: u32) -> usize {
    let mut number = 1u32;
    let mut column = 1usize;
    for byte in text {
        if number == line && *byte != b' ' && *byte != b'\t' {
            return column;
        }
        column = column.saturating_add(1);
        if *byte == b'\n' {
            number = number.saturating_add(1);
            column = 1;
        }
    }
    1
}

/// The frame of a process: its proctype, and where it stands.
pub fn stack_of(
    alloc: Global,
    live: &Live<'_, '_>,
    process: usize,
    source: ModelSource<'_>,
) -> Result<Value, AllocError> {
    let mut out = Writer::new(alloc);
    add_name(live, process, &mut out);
    let name = words_of(&out)?;
    let id = thread_of(process);
    let line = line_of(live, process);
    let column = column_of(source.text, line);
    let path = source.path;
    let file = name_of(path);
    let frame =
        json!(in alloc; {"id": id, "name": name, "line": line, "column": column, "source": {"name": file, "path": path}})?;
    json!(in alloc; {"stackFrames": [frame], "totalFrames": 1})
}

/// The lines at which the processes stand.
pub fn lines_of(alloc: Global, live: &Live<'_, '_>) -> Result<Vec<u32>, AllocError> {
    let mut list = Vec::new(alloc);
    for process in 0..live.process_count() {
        list.push(line_of(live, process))?;
    }
    Ok(list)
}
