//! Expressions, as a process reads them where it stands: what they are worth has no effect.

use dap_messages::cells::{count_words, messages_of, value_of};
use dap_messages::channels::add_contents;
use dap_messages::references::{Listed, reference_of};
use dap_messages::words::words_of;
use promela_process::place::Place;
use run_state::live::Live;
use serde_json::{Value, json};
use std::alloc::{AllocError, Global};
use view_cells::cells::{
    add_value, cell_count, form_at, is_chan, number_at, place_of, slot_at, variable_count,
};
use view_condition::condition::StateCondition;
use view_session::watch::add_fault;
use view_session::written::cell_named;
use view_text::writer::Writer;
use walk_answers::scope::condition_of;

/// What an expression is worth, or why nothing.
#[derive(Drop)]
pub enum Worth {
    Value(Value),
    Wrong(String),
}

fn body_of(alloc: Global, words: &str, reference: usize) -> Result<Worth, AllocError> {
    let body = json!(in alloc; {"result": words, "variablesReference": reference})?;
    Ok(Worth::Value(body))
}

// The number of a frame of a process.
fn frame_of(process: Option<usize>) -> usize {
    match process {
        Some(process) => process.saturating_add(1),
        None => 0,
    }
}

// The cell that a text names: of the process, else of the globals or of a process that is named.
fn cell_of(
    alloc: Global,
    live: &Live<'_, '_>,
    frame: usize,
    text: &str,
) -> Result<Option<Place>, AllocError> {
    let mut scratch = Writer::new(alloc);
    if let Some(place) = place_of(live, frame, text.as_bytes(), &mut scratch) {
        return Ok(Some(place));
    }
    match cell_named(live, text.as_bytes(), &mut scratch)? {
        Some(cell) => Ok(Some(cell.place)),
        None => Ok(None),
    }
}

// The value of a cell: of a channel its contents.
fn of_cell(alloc: Global, live: &Live<'_, '_>, place: Place) -> Result<Worth, AllocError> {
    let reference = messages_of(live, place);
    if reference == 0 {
        let value = value_of(alloc, live, place)?;
        return body_of(alloc, value.as_str(), 0);
    }
    let mut out = Writer::new(alloc);
    if is_chan(form_at(live, place)) {
        let number = number_at(live, place).max(0);
        add_contents(live, number as usize, &mut out);
    }
    let words = words_of(&out)?;
    body_of(alloc, words.as_str(), reference)
}

// The number of the variable of a frame with this name.
fn variable_in(live: &Live<'_, '_>, frame: usize, text: &str) -> Option<usize> {
    for number in 0..variable_count(live, frame) {
        if let Some(slot) = slot_at(live, frame, number) {
            if slot.name.text() == text.as_bytes() {
                return Some(number);
            }
        }
    }
    None
}

// A variable of several cells.
fn of_variable(
    alloc: Global,
    live: &Live<'_, '_>,
    frame: usize,
    number: usize,
) -> Result<Worth, AllocError> {
    let words = count_words(alloc, cell_count(live, frame, number))?;
    let reference = reference_of(Listed::Cells(frame, number));
    body_of(alloc, words.as_str(), reference)
}

// The variable of several cells that a text names, with the number of its frame.
fn several_named(live: &Live<'_, '_>, frame: usize, text: &str) -> Option<(usize, usize)> {
    if let Some(number) = variable_in(live, frame, text) {
        return Some((frame, number));
    }
    match variable_in(live, 0, text) {
        Some(number) => Some((0, number)),
        None => None,
    }
}

// What a condition is worth.
fn of_condition(
    alloc: Global,
    live: &Live<'_, '_>,
    condition: &StateCondition,
) -> Result<Worth, AllocError> {
    let mut out = Writer::new(alloc);
    match (condition.worth(live), condition.form()) {
        (Ok(worth), Some(form)) => add_value(live, form, worth, &mut out),
        (Ok(worth), None) => out.signed(worth),
        (Err(_), _) if condition.absent(live).is_some() => {
            let words = String::from_str(alloc, "its process is not there")?;
            return Ok(Worth::Wrong(words));
        }
        (Err(fault), _) => {
            add_fault(fault, &mut out);
            return Ok(Worth::Wrong(words_of(&out)?));
        }
    }
    let words = words_of(&out)?;
    body_of(alloc, words.as_str(), 0)
}

// What an expression is worth that names no variable.
fn of_expression(
    alloc: Global,
    live: &Live<'_, '_>,
    process: Option<usize>,
    text: &str,
) -> Result<Worth, AllocError> {
    let process = process.unwrap_or(usize::MAX);
    let mut words = Writer::new(alloc);
    match condition_of(live, process, text.as_bytes(), &mut words)? {
        Some(condition) => of_condition(alloc, live, &condition),
        None => {
            let words = words_of(&words)?;
            let words = String::from_str(alloc, words.as_str().trim())?;
            Ok(Worth::Wrong(words))
        }
    }
}

/// What a text is worth where a process reads it: a variable, a channel's contents, or an expression.
pub fn worth_of(
    alloc: Global,
    live: &Live<'_, '_>,
    process: Option<usize>,
    text: &str,
) -> Result<Worth, AllocError> {
    let frame = frame_of(process);
    if let Some(place) = cell_of(alloc, live, frame, text)? {
        return of_cell(alloc, live, place);
    }
    if let Some((frame, number)) = several_named(live, frame, text) {
        return of_variable(alloc, live, frame, number);
    }
    of_expression(alloc, live, process, text)
}
