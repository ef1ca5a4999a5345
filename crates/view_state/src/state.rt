//! Globals, channels, and processes with their variables.

ghost use Rattle.view_text.specs.Written.{Stays};

use crate::cut::{Room, add_more};
use pml_channel::channel::Channel;
use promela_process::place::Place;
use run_state::live::Live;
use view_cells::cells::{add_cell, cell_count, variable_count};
use view_cells::channels::{add_channel, add_message, channel_at};
use view_cells::processes::{add_process, line_of};
use view_labels::labels::add_labels;
use view_text::filled::FilledLines;
use view_text::writer::Writer;

/// Where items begin that stand behind a heading.
pub const BEHIND_HEADING: usize = 22;

// How far lines are set in that go on.
const INDENT: usize = 30;

// `PATH = VALUE` of the first cells of a variable, so many.
fn add_variable(
    live: &Live<'_, '_>,
    frame: usize,
    variable: usize,
    shown: usize,
    filled: &mut FilledLines,
    out: &mut Writer,
)
    ensures { Stays out.old out.new }
{
    let mut item = Writer::new(out.allocator());
    for cell in 0..shown {
        item.clear();
        let place = Place {
            frame,
            variable,
            cell,
        };
        add_cell(live, place, &mut item);
        filled.add(&item, out);
    }
}

// An item for those that are left out, if there are any.
fn add_rest(count: usize, filled: &mut FilledLines, out: &mut Writer)
    ensures { Stays out.old out.new }
{
    if count > 0 {
        let mut item = Writer::new(out.allocator());
        add_more(count, "state", &mut item);
        filled.add(&item, out);
    }
}

// Those of each variable of a frame, as far as there is room.
fn add_frame(
    live: &Live<'_, '_>,
    frame: usize,
    room: &mut Room,
    filled: &mut FilledLines,
    out: &mut Writer,
)
    ensures { Stays out.old out.new }
{
    let mut rest = 0usize;
    for variable in 0..variable_count(live, frame) {
        let count = cell_count(live, frame, variable);
        let shown = room.take(count);
        add_variable(live, frame, variable, shown, filled, out);
        rest = rest.saturating_add(count.saturating_sub(shown));
    }
    add_rest(rest, filled, out);
}

fn add_globals(live: &Live<'_, '_>, room: &mut Room, out: &mut Writer)
    ensures { Stays out.old out.new }
{
    let mut filled = FilledLines::new(out.len(), 8);
    out.add(b"global");
    add_frame(live, 0, room, &mut filled, out);
    out.add(b"\n");
}

fn add_messages(
    live: &Live<'_, '_>,
    channel: &Channel,
    room: &mut Room,
    filled: &mut FilledLines,
    out: &mut Writer,
)
    ensures { Stays out.old out.new }
{
    let mut item = Writer::new(out.allocator());
    let count = channel.len();
    let shown = room.take(count).min(count);
    for place in 0..shown {
        item.clear();
        add_message(live, channel.types(), channel.message(place), &mut item);
        filled.add(&item, out);
    }
    add_rest(count - shown, filled, out);
}

fn add_contents(
    live: &Live<'_, '_>,
    channel: &Channel,
    start: usize,
    room: &mut Room,
    out: &mut Writer,
)
    ensures { Stays out.old out.new }
{
    if channel.capacity() == 0 {
        out.add(b"rendezvous");
        return;
    }
    let mut filled = FilledLines::new(start, INDENT);
    out.number(channel.len());
    out.add(b" of ");
    out.number(usize::from(channel.capacity()));
    add_messages(live, channel, room, &mut filled, out);
}

fn add_one_channel(live: &Live<'_, '_>, number: usize, room: &mut Room, out: &mut Writer)
    ensures { Stays out.old out.new }
{
    let start = out.len();
    add_channel(live, number, out);
    out.pad(start, BEHIND_HEADING);
    if let Some(channel) = channel_at(live, number) {
        add_contents(live, channel, start, room, out);
    }
    out.add(b"\n");
}

/// Writes `proc P (NAME)` and blanks, up to where more stands.
pub fn add_heading(live: &Live<'_, '_>, process: usize, out: &mut Writer)
    ensures { Stays out.old out.new }
{
    let start = out.len();
    add_process(live, process, out);
    out.pad(start, BEHIND_HEADING);
}

/// Writes `line L` of where a process stands, and the labels that lead there: `line 12, critical`.
pub fn add_line(live: &Live<'_, '_>, process: usize, out: &mut Writer)
    ensures { Stays out.old out.new }
{
    out.add(b"line ");
    out.number(line_of(live, process) as usize);
    add_labels(live, process, out);
}

fn add_one_process(live: &Live<'_, '_>, process: usize, room: &mut Room, out: &mut Writer)
    ensures { Stays out.old out.new }
{
    let mut filled = FilledLines::new(out.len(), INDENT);
    add_heading(live, process, out);
    add_line(live, process, out);
    if live.holder() == Some(process) {
        out.add(b", exclusive");
    }
    add_frame(live, process.saturating_add(1), room, &mut filled, out);
    out.add(b"\n");
}

/// Writes the state: all, or the first 1000 cells and messages.
pub fn add_state(live: &Live<'_, '_>, is_all: bool, out: &mut Writer)
    ensures { Stays out.old out.new }
{
    let mut room = Room::new(is_all);
    if variable_count(live, 0) > 0 {
        add_globals(live, &mut room, out);
    }
    for before in 0..live.channels().len() {
        add_one_channel(live, before + 1, &mut room, out);
    }
    for process in 0..live.process_count() {
        add_one_process(live, process, &mut room, out);
    }
}
