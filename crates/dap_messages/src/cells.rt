//! Variables and their cells.

use crate::references::{Listed, reference_of};
use crate::words::words_of;
use promela_process::place::Place;
use run_state::live::Live;
use serde_json::{Value, json};
use std::alloc::{AllocError, Global};
use view_cells::cells::{
    add_cell, add_path, cell_count, form_at, is_chan, number_at, slot_at, variable_count,
};
use view_text::writer::Writer;

/// Which items of a list are asked for.
#[derive(Clone, Copy, Debug, PartialEq, Eq)]
pub struct ItemRange {
    pub start: usize,
    pub count: usize,
}

impl ItemRange {
    // Where the items end that are asked for, of so many.
    fn end(self, length: usize) -> usize {
        self.start.saturating_add(self.count).min(length)
    }
}

/// A variable without parts.
pub fn variable(alloc: Global, name: &str, value: &str) -> Result<Value, AllocError> {
    json!(in alloc; {"name": name, "value": value, "variablesReference": 0})
}

/// The path of a cell within its owner.
pub fn path_of(alloc: Global, live: &Live<'_, '_>, place: Place) -> Result<String, AllocError> {
    let mut out = Writer::new(alloc);
    add_path(live, place, &mut out);
    words_of(&out)
}

/// The value of a cell in words.
pub fn value_of(alloc: Global, live: &Live<'_, '_>, place: Place) -> Result<String, AllocError> {
    let mut path = Writer::new(alloc);
    add_path(live, place, &mut path);
    path.add(b" = ");
    let mut cell = Writer::new(alloc);
    add_cell(live, place, &mut cell);
    let mut value = Writer::new(alloc);
    value.add(
        cell.bytes()
            .strip_prefix(path.bytes())
            .unwrap_or(cell.bytes()),
    );
    value.keep_refusal(&path);
    value.keep_refusal(&cell);
    words_of(&value)
}

/// The number that stands for the messages of the channel that a cell names; 0 where it names none.
pub fn messages_of(live: &Live<'_, '_>, place: Place) -> usize {
    let number = number_at(live, place);
    if number > 0 && is_chan(form_at(live, place)) {
        return reference_of(Listed::Messages(number as usize));
    }
    0
}

// A cell as a variable.
fn cell(alloc: Global, live: &Live<'_, '_>, place: Place) -> Result<Value, AllocError> {
    let name = path_of(alloc, live, place)?;
    let value = value_of(alloc, live, place)?;
    let reference = messages_of(live, place);
    let name = name.as_str();
    json!(in alloc; {"name": name, "value": value, "evaluateName": name, "variablesReference": reference})
}

/// How many cells a variable has, in words.
pub fn count_words(alloc: Global, count: usize) -> Result<String, AllocError> {
    let mut out = Writer::new(alloc);
    out.number(count);
    out.add(b" cells");
    words_of(&out)
}

// A variable of several cells, which are asked for by its number.
fn several(
    alloc: Global,
    live: &Live<'_, '_>,
    frame: usize,
    number: usize,
    count: usize,
) -> Result<Value, AllocError> {
    let mut out = Writer::new(alloc);
    if let Some(slot) = slot_at(live, frame, number) {
        out.add(slot.name.text());
    }
    let name = words_of(&out)?;
    let value = count_words(alloc, count)?;
    let reference = reference_of(Listed::Cells(frame, number));
    json!(in alloc; {"name": name, "value": value, "variablesReference": reference, "indexedVariables": count})
}

/// The variables of a frame that are asked for.
pub fn variables_of(
    alloc: Global,
    live: &Live<'_, '_>,
    frame: usize,
    page: ItemRange,
) -> Result<Value, AllocError> {
    let mut list = Vec::new(alloc);
    for number in page.start..page.end(variable_count(live, frame)) {
        let count = cell_count(live, frame, number);
        let place = Place {
            frame,
            variable: number,
            cell: 0,
        };
        let one = if count == 1 {
            cell(alloc, live, place)?
        } else {
            several(alloc, live, frame, number, count)?
        };
        list.push(one)?;
    }
    Ok(Value::Array(list))
}

/// The cells of a variable that are asked for.
pub fn cells_of(
    alloc: Global,
    live: &Live<'_, '_>,
    frame: usize,
    number: usize,
    page: ItemRange,
) -> Result<Value, AllocError> {
    let mut list = Vec::new(alloc);
    for at in page.start..page.end(cell_count(live, frame, number)) {
        let place = Place {
            frame,
            variable: number,
            cell: at,
        };
        list.push(cell(alloc, live, place)?)?;
    }
    Ok(Value::Array(list))
}
