//! Values and cells.

ghost use Rattle.std.specs.Prelude.{◌≡◌, [], ◌∷◌, true, codes};
ghost use Rattle.json.specs.Token.{key};
ghost use Rattle.view_cells.specs.Cells.{path_of};
ghost use Rattle.view_tokens.specs.Printed.{Writes, string_of};
ghost use Rattle.view_json.specs.Objects.{count, text, member, detail, object, value, held, cell, variable_cells, frame_cells, cells};

use pml_program::form::Form;
use promela_process::place::Place;
use run_state::live::Live;
use view_cells::cells::{
    add_path, cell_count, form_at, is_chan, mtype_name, number_at, variable_count,
};
use view_text::writer::Writer;
use view_tokens::tokens::Json;

/// Writes a member that is a number.
pub fn number(json: &mut Json, name: &str, number: usize)
    ensures { Writes json.old json.new (member name.now (count number)) }
{
    json.key(name);
    json.number(number);
}

/// Writes a member that is a text.
pub fn text(json: &mut Json, name: &str, bytes: &[u8])
    ensures { Writes json.old json.new (member name.now (text bytes.now)) }
{
    json.key(name);
    json.text(bytes);
}

/// Writes a text that a call wrote.
pub fn whole(json: &mut Json, from: &Writer)
    ensures written { Writes json.old json.new (text from.now.text) }
    ensures refused { from.now.refused ≡ true → json.new.refused ≡ true }
{
    json.text(from.bytes());
    if from.is_refused() {
        json.refuse();
    }
}

/// Writes a member whose text a call wrote.
pub fn written(json: &mut Json, name: &str, from: &Writer)
    ensures written { Writes json.old json.new (member name.now (text from.now.text)) }
    ensures refused { from.now.refused ≡ true → json.new.refused ≡ true }
{
    json.key(name);
    whole(json, from);
}

/// Writes a member whose text is of these bytes of what a call wrote, if there are any.
pub fn detail(json: &mut Json, name: &str, bytes: &[u8], from: &Writer)
    ensures { Writes json.old json.new (detail name.now bytes.now) }
{
    if !bytes.is_empty() {
        text(json, name, bytes);
    }
    if from.is_refused() {
        json.refuse();
    }
}

// Writes the number of a channel, as an object.
fn chan(json: &mut Json, n: usize)
    ensures { Writes json.old json.new (object (member (codes "chan") (count n))) }
{
    json.begin_object();
    number(json, "chan", n);
    json.end_object();
}

/// Writes a number as its type has it: an mtype by its name, a channel as an object.
pub fn value(live: &Live<'_, '_>, json: &mut Json, form: Form, n: i32)
    ensures { Writes json.old json.new (value live.now.state.program form n) }
{
    if n > 0 && is_chan(form) {
        return chan(json, n as usize);
    }
    match mtype_name(live, form, n) {
        Some(name) => json.text(name),
        None => json.signed(n),
    }
}

// Writes the path of a cell as a key, in memory for it.
fn path(live: &Live<'_, '_>, json: &mut Json, place: Place, memory: &mut Writer)
    ensures { Writes json.old json.new (key (string_of (path_of live.now.state place)) ∷ []) }
{
    memory.clear();
    add_path(live, place, memory);
    json.text_key(memory.bytes());
    if memory.is_refused() {
        json.refuse();
    }
}

// Writes the number of a cell.
fn held(live: &Live<'_, '_>, json: &mut Json, place: Place)
    ensures { Writes json.old json.new (held live.now.state place) }
{
    let form = form_at(live, place);
    let number = number_at(live, place);
    value(live, json, form, number);
}

// Writes a cell as a member of an object, its path in memory for it.
fn cell_in(live: &Live<'_, '_>, json: &mut Json, place: Place, memory: &mut Writer)
    ensures { Writes json.old json.new (cell live.now.state place) }
{
    path(live, json, place, memory);
    held(live, json, place);
}

/// Writes a cell as a member of an object.
pub fn cell(live: &Live<'_, '_>, json: &mut Json, place: Place)
    ensures { Writes json.old json.new (cell live.now.state place) }
{
    let mut memory = Writer::new(json.allocator());
    cell_in(live, json, place, &mut memory);
}

fn cells_of(live: &Live<'_, '_>, json: &mut Json, frame: usize, variable: usize)
    ensures { Writes json.old json.new (variable_cells live.now.state frame variable) }
{
    let mut memory = Writer::new(json.allocator());
    for at in 0..cell_count(live, frame, variable) {
        let place = Place {
            frame,
            variable,
            cell: at,
        };
        cell_in(live, json, place, &mut memory);
    }
}

// Writes the cells of each variable of a frame.
fn members(live: &Live<'_, '_>, json: &mut Json, frame: usize)
    ensures { Writes json.old json.new (frame_cells live.now.state frame) }
{
    for variable in 0..variable_count(live, frame) {
        cells_of(live, json, frame, variable);
    }
}

/// Writes all cells of a frame, as an object.
pub fn all_cells(live: &Live<'_, '_>, json: &mut Json, frame: usize)
    ensures { Writes json.old json.new (cells live.now.state frame) }
{
    json.begin_object();
    members(live, json, frame);
    json.end_object();
}
