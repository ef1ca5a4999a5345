//! Variables at whose changes runs stop.

ghost use Rattle.view_text.specs.Written.{Stays};

use dap_messages::fields::{items_at, number_at, text_at};
use dap_messages::processes::process_of;
use dap_messages::references::{Listed, shown_by};
use dap_messages::words::words_of;
use pml_sim::world::World;
use run_state::live::Live;
use serde_json::{Value, json};
use std::alloc::{AllocError, Global};
use view_cells::cells::place_of;
use view_cells::processes::add_name;
use view_session::written::{cell_named, is_written};
use view_text::writer::Writer;

// Writes whose a variable is: `P[2].` of a process.
fn add_owner(live: &Live<'_, '_>, frame: usize, out: &mut Writer)
    ensures { Stays out.old out.new }
{
    if frame > 0 {
        add_name(live, frame - 1, out);
        out.add(b"[");
        out.number(frame - 1);
        out.add(b"].");
    }
}

// Whether a frame has a cell with this path.
fn is_in(live: &Live<'_, '_>, frame: usize, name: &str, alloc: Global) -> Result<bool, AllocError> {
    let mut text = Writer::new(alloc);
    let found = place_of(live, frame, name.as_bytes(), &mut text).is_some();
    if text.is_refused() {
        return Err(AllocError);
    }
    Ok(found)
}

// The frame in which a name is looked for first: that of the number of its variables, or of a process.
fn frame_of(request: &Value) -> usize {
    match number_at(request, "/arguments/variablesReference") {
        Some(reference) => match shown_by(reference) {
            Listed::Locals(process) => process.saturating_add(1),
            Listed::Cells(frame, _) => frame,
            _ => 0,
        },
        None => match process_of(number_at(request, "/arguments/frameId")) {
            Some(process) => process.saturating_add(1),
            None => 0,
        },
    }
}

// The path of a variable for all of a state, if there is one.
fn whole_path(
    live: &Live<'_, '_>,
    frame: usize,
    name: &str,
    alloc: Global,
) -> Result<Option<String>, AllocError> {
    let mut out = Writer::new(alloc);
    if frame > 0 && is_in(live, frame, name, alloc)? {
        add_owner(live, frame, &mut out);
    } else {
        let mut text = Writer::new(alloc);
        if cell_named(live, name.as_bytes(), &mut text)?.is_none() {
            return Ok(None);
        }
    }
    out.add(name.as_bytes());
    Ok(Some(words_of(&out)?))
}

/// Whether runs can stop at the changes of a variable, and the name that it has then.
pub fn info_of(alloc: Global, live: &Live<'_, '_>, request: &Value) -> Result<Value, AllocError> {
    let name = text_at(request, "/arguments/name");
    match whole_path(live, frame_of(request), name, alloc)? {
        Some(path) => {
            let path = path.as_str();
            json!(in alloc; {"dataId": path, "description": path, "accessTypes": ["write"], "canPersist": true})
        }
        None => json!(in alloc; {"dataId": null, "description": "no variable with one number"}),
    }
}

/// Keeps the variables at whose changes runs stop, and answers which of them there are.
pub fn set_watched(
    alloc: Global,
    live: &Live<'_, '_>,
    request: &Value,
    watched: &mut Vec<String>,
) -> Result<Value, AllocError> {
    let mut list = Vec::new(alloc);
    watched.clear();
    for one in items_at(request, "/arguments/breakpoints") {
        let name = text_at(one, "/dataId");
        let mut text = Writer::new(alloc);
        let is_there = cell_named(live, name.as_bytes(), &mut text)?.is_some();
        if is_there {
            watched.push(String::from_str(alloc, name)?)?;
        }
        list.push(json!(in alloc; {"verified": is_there})?)?;
    }
    json!(in alloc; {"breakpoints": list})
}

/// Whether the last step changed one of these variables.
pub fn is_changed(
    world: &World<'_, '_>,
    watched: &[String],
    scratch: &mut Writer,
) -> Result<bool, AllocError> {
    for name in watched {
        let found = cell_named(world.live(), name.as_bytes(), scratch)?;
        if let Some(cell) = found {
            if is_written(world, cell)? {
                return Ok(true);
            }
        }
    }
    Ok(false)
}
