//! Scopes and variables.

use crate::cells::{ItemRange, cells_of, variables_of};
use crate::channels::{channels_of, messages_of};
use crate::moves::{moves_of, waits_of};
use crate::references::{Listed, reference_of, shown_by};
use run_state::live::Live;
use serde_json::{Value, json};
use std::alloc::{AllocError, Global};

/// So many variables are shown at once, where no other count is asked for.
pub const MOST_SHOWN: usize = 4_096;

/// The scopes of a process.
pub fn scopes_of(alloc: Global, process: usize) -> Result<Value, AllocError> {
    let locals = reference_of(Listed::Locals(process));
    let globals = reference_of(Listed::Globals);
    let channels = reference_of(Listed::Channels);
    let moves = reference_of(Listed::Moves);
    let waits = reference_of(Listed::Waits(process));
    json!(in alloc; {"scopes": [
        {"name": "Locals", "presentationHint": "locals", "variablesReference": locals, "expensive": false},
        {"name": "Globals", "variablesReference": globals, "expensive": false},
        {"name": "Channels", "variablesReference": channels, "expensive": false},
        {"name": "Moves", "variablesReference": moves, "expensive": false},
        {"name": "Waits", "variablesReference": waits, "expensive": false}
    ]})
}

// The variables that a number stands for.
fn list_of(
    alloc: Global,
    live: &Live<'_, '_>,
    shown: Listed,
    page: ItemRange,
) -> Result<Value, AllocError> {
    match shown {
        Listed::Globals => variables_of(alloc, live, 0, page),
        Listed::Channels => channels_of(alloc, live, page),
        Listed::Moves => moves_of(alloc, live, page),
        Listed::Locals(process) => variables_of(alloc, live, process.saturating_add(1), page),
        Listed::Waits(process) => waits_of(alloc, live, process),
        Listed::Cells(frame, variable) => cells_of(alloc, live, frame, variable, page),
        Listed::Messages(number) => messages_of(alloc, live, number, page),
        Listed::Nothing => json!(in alloc; []),
    }
}

/// The variables that a number stands for, as far as they are asked for.
pub fn variables_by(
    alloc: Global,
    live: &Live<'_, '_>,
    reference: usize,
    page: ItemRange,
) -> Result<Value, AllocError> {
    let list = list_of(alloc, live, shown_by(reference), page)?;
    json!(in alloc; {"variables": list})
}
