//! What is shown of a state: each answer is of what lives in it, and of which stop it is.

use crate::commands::DebugRequest;
use crate::data::info_of as data_info_of;
use dap_messages::cells::ItemRange;
use dap_messages::fields::{number_at, text_at};
use dap_messages::moves::targets_of;
use dap_messages::processes::{ModelSource, process_of, stack_of, threads_of};
use dap_messages::references::{Listed, shown_by};
use dap_messages::variables::{MOST_SHOWN, scopes_of, variables_by};
use run_state::live::Live;
use serde_json::{Value, json};
use std::alloc::{AllocError, Global};

// A process that a request names, if it lives.
fn process_at(live: &Live<'_, '_>, request: &Value, path: &str) -> Option<usize> {
    let process = process_of(number_at(request, path))?;
    if process < live.process_count() {
        Some(process)
    } else {
        None
    }
}

// Which variables a request asks for.
fn page_of(request: &Value) -> ItemRange {
    let start = number_at(request, "/arguments/start").unwrap_or(0);
    match number_at(request, "/arguments/count") {
        Some(count) if count > 0 => ItemRange {
            start,
            count: count.min(MOST_SHOWN),
        },
        _ => ItemRange {
            start,
            count: MOST_SHOWN,
        },
    }
}

// The cells of a variable have no names of their own.
fn is_none_named(request: &Value, reference: usize) -> bool {
    let is_named = text_at(request, "/arguments/filter") == "named";
    is_named && matches!(shown_by(reference), Listed::Cells(_, _))
}

fn variables(alloc: Global, live: &Live<'_, '_>, request: &Value) -> Result<Value, AllocError> {
    let reference = number_at(request, "/arguments/variablesReference").unwrap_or(0);
    if is_none_named(request, reference) {
        return json!(in alloc; {"variables": []});
    }
    variables_by(alloc, live, reference, page_of(request))
}

// What is shown of a process.
fn of_process(
    alloc: Global,
    live: &Live<'_, '_>,
    process: usize,
    source: ModelSource<'_>,
    command: DebugRequest,
    stop: usize,
) -> Result<Value, AllocError> {
    match command {
        DebugRequest::StackTrace => stack_of(alloc, live, process, source),
        DebugRequest::Scopes => scopes_of(alloc, process),
        _ => targets_of(alloc, live, process, stop),
    }
}

// What a request shows of the process that it names there, if that lives.
fn of_named(
    alloc: Global,
    live: &Live<'_, '_>,
    source: ModelSource<'_>,
    stop: usize,
    command: DebugRequest,
    request: &Value,
) -> Result<Option<Value>, AllocError> {
    let path = match command {
        DebugRequest::StackTrace => "/arguments/threadId",
        _ => "/arguments/frameId",
    };
    match process_at(live, request, path) {
        Some(process) => Ok(Some(of_process(alloc, live, process, source, command, stop)?)),
        None => Ok(None),
    }
}

/// What a request shows of a state; none where the process is not there that it names.
pub fn shown(
    alloc: Global,
    live: &Live<'_, '_>,
    source: ModelSource<'_>,
    stop: usize,
    command: DebugRequest,
    request: &Value,
) -> Result<Option<Value>, AllocError> {
    let body = match command {
        DebugRequest::Threads => threads_of(alloc, live),
        DebugRequest::Variables => variables(alloc, live, request),
        DebugRequest::DataBreakpointInfo => data_info_of(alloc, live, request),
        _ => return of_named(alloc, live, source, stop, command, request),
    };
    Ok(Some(body?))
}
