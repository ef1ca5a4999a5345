//! What led to an end that is not valid: who used and who set last what processes wait at, and the round of those that wait for one another.

ghost use Rattle.view_tokens.specs.Printed.{Stays};
ghost use Rattle.view_json.specs.Added.{AddsPast};

use crate::channel::channel_heading;
use crate::objects::{number, value, written};
use promela_process::place::Place;
use run_state::live::Live;
use std::alloc::{AllocError, Global};
use view_cells::cells::form_at;
use view_past::channels::add_channels;
use view_past::round::{awaited, is_in_round, next_of};
use view_past::target::channel_of;
use view_past::uses::{ChannelUse, Uses};
use view_past::writers::{Writing, Writings, add_cell_name, add_writing, awaited_writer, reads_of};
use view_text::writer::Writer;
use view_tokens::tokens::Json;
use view_waits::reads::ReadValue;
use view_waits::waits::{Wait, add_waits};

/// Who used each channel last on a walk, and who set each variable last.
#[derive(Clone, Copy)]
pub struct Past<'s> {
    pub uses: &'s Uses,
    pub writings: &'s Writings,
}

// Writes words, without the end of their line.
fn words(json: &mut Json, line: &Writer)
    ensures { Stays json.old json.new }
{
    let bytes = line.bytes();
    json.key("words");
    json.text(bytes.strip_suffix(b"\n").unwrap_or(bytes));
    if line.is_refused() {
        json.refuse();
    }
}

// Writes whether a process has lived since.
fn lives(json: &mut Json, is_so: bool)
    ensures { Stays json.old json.new }
{
    json.key("lives");
    json.boolean(is_so);
}

// Writes the last use of a channel, where there was one.
fn last_use(json: &mut Json, name: &str, used: Option<ChannelUse>)
    ensures { Stays json.old json.new }
{
    if let Some(used) = used {
        json.key(name);
        json.begin_object();
        number(json, "proc", used.process);
        number(json, "step", used.step);
        lives(json, used.lives);
        json.end_object();
    }
}

// Writes who used a channel last, at which a process waits.
fn used(live: &Live<'_, '_>, json: &mut Json, wait: Wait, n: usize, uses: &Uses)
    ensures { Stays json.old json.new }
{
    let mut line = Writer::new(json.allocator());
    let mut known = Vec::new(json.allocator());
    let answer = add_channels(live, &[wait], uses, &mut known, &mut line);
    line.keep(answer);
    json.begin_object();
    channel_heading(live, json, n);
    let last = uses.of(n);
    last_use(json, "sent", last.sent);
    last_use(json, "took", last.took);
    words(json, &line);
    json.end_object();
}

// Writes the channels that these waits are at, unless they are known.
fn channels(
    live: &Live<'_, '_>,
    json: &mut Json,
    waits: &[Wait],
    uses: &Uses,
    known: &mut Vec<usize>,
) -> Result<(), AllocError>
    ensures { Stays json.old json.new }
{
    for wait in waits {
        if let Some(n) = channel_of(live, wait) {
            if !known.iter().any(|one| *one == n) {
                known.push(n)?;
                used(live, json, *wait, n, uses);
            }
        }
    }
    Ok(())
}

// What a process waits for in a state without moves.
fn waits_of(live: &Live<'_, '_>, alloc: Global, process: usize) -> Result<Vec<Wait>, AllocError> {
    let mut waits = Vec::new(alloc);
    add_waits(live, &[], process, &mut waits)?;
    Ok(waits)
}

fn all_channels(live: &Live<'_, '_>, json: &mut Json, uses: &Uses) -> Result<(), AllocError>
    ensures { Stays json.old json.new }
{
    let mut known = Vec::new(json.allocator());
    for process in 0..live.process_count() {
        let waits = waits_of(live, json.allocator(), process)?;
        channels(live, json, waits.as_slice(), uses, &mut known)?;
    }
    Ok(())
}

// Writes a step that set a variable.
fn setter(live: &Live<'_, '_>, json: &mut Json, place: Place, writing: Writing)
    ensures { Stays json.old json.new }
{
    number(json, "proc", writing.process);
    json.key("value");
    value(live, json, form_at(live, place), writing.number);
    number(json, "step", writing.step);
    lives(json, writing.lives);
}

// Writes who set a variable last.
fn set(live: &Live<'_, '_>, json: &mut Json, place: Place, writings: &Writings)
    ensures { Stays json.old json.new }
{
    let mut name = Writer::new(json.allocator());
    add_cell_name(live, place, &mut name);
    let mut line = Writer::new(json.allocator());
    let last = writings.of(place);
    add_writing(live, place, last, &mut line);
    json.begin_object();
    written(json, "name", &name);
    if let Some(writing) = last {
        setter(live, json, place, writing);
    }
    words(json, &line);
    json.end_object();
}

// Writes the variables that the condition of a wait reads, unless they are known.
fn cells(
    live: &Live<'_, '_>,
    json: &mut Json,
    wait: &Wait,
    writings: &Writings,
    known: &mut Vec<Place>,
) -> Result<(), AllocError>
    ensures { Stays json.old json.new }
{
    let reads = reads_of(json.allocator(), live, wait)?;
    for read in reads.items() {
        if let ReadValue::Cell(place) = *read {
            if !known.iter().any(|one| *one == place) {
                known.push(place)?;
                set(live, json, place, writings);
            }
        }
    }
    Ok(())
}

fn all_cells(
    live: &Live<'_, '_>,
    json: &mut Json,
    waits: &[Wait],
    writings: &Writings,
    known: &mut Vec<Place>,
) -> Result<(), AllocError>
    ensures { Stays json.old json.new }
{
    for wait in waits {
        cells(live, json, wait, writings, known)?;
    }
    Ok(())
}

fn each_cell(live: &Live<'_, '_>, json: &mut Json, writings: &Writings) -> Result<(), AllocError>
    ensures { Stays json.old json.new }
{
    let mut known = Vec::new(json.allocator());
    for process in 0..live.process_count() {
        let waits = waits_of(live, json.allocator(), process)?;
        all_cells(live, json, waits.as_slice(), writings, &mut known)?;
    }
    Ok(())
}

// Whom a process waits for, where it waits for one thing alone.
fn awaited_by(
    live: &Live<'_, '_>,
    alloc: Global,
    process: usize,
    past: Past<'_>,
) -> Result<Option<usize>, AllocError> {
    let waits = waits_of(live, alloc, process)?;
    let [wait] = waits.as_slice() else {
        return Ok(None);
    };
    match awaited(live, process, wait, past.uses) {
        Some(other) => Ok(Some(other)),
        None => awaited_writer(alloc, live, process, wait, past.writings),
    }
}

// Writes the round of a process.
fn round_from(json: &mut Json, awaits: &[Option<usize>], first: usize)
    ensures { Stays json.old json.new }
{
    json.key("round");
    json.begin_array();
    let mut process = first;
    for _ in 0..awaits.len() {
        json.number(process);
        let Some(next) = next_of(awaits, process) else {
            break;
        };
        if next == first {
            break;
        }
        process = next;
    }
    json.end_array();
}

// Writes the round of the first process that is led to itself, if there is such a one.
fn round(json: &mut Json, awaits: &[Option<usize>])
    ensures { Stays json.old json.new }
{
    for first in 0..awaits.len() {
        if is_in_round(awaits, first) {
            round_from(json, awaits, first);
            return;
        }
    }
}

// Writes the round of processes that wait for one another.
fn add_round(live: &Live<'_, '_>, json: &mut Json, past: Past<'_>) -> Result<(), AllocError>
    ensures { Stays json.old json.new }
{
    let mut awaits = Vec::new(json.allocator());
    for process in 0..live.process_count() {
        awaits.push(awaited_by(live, json.allocator(), process, past)?)?;
    }
    round(json, awaits.as_slice());
    Ok(())
}

// Writes what led here, as an object.
fn members(live: &Live<'_, '_>, json: &mut Json, past: Past<'_>) -> Result<(), AllocError>
    ensures { Stays json.old json.new }
{
    json.begin_object();
    json.key("used");
    json.begin_array();
    all_channels(live, json, past.uses)?;
    json.end_array();
    json.key("set");
    json.begin_array();
    each_cell(live, json, past.writings)?;
    json.end_array();
    add_round(live, json, past)?;
    json.end_object();
    Ok(())
}

fn json_of(live: &Live<'_, '_>, alloc: Global, past: Past<'_>) -> Json {
    let mut json = Json::new(alloc);
    if members(live, &mut json, past).is_err() {
        json.refuse();
    }
    json
}

/// Writes what led to the state that is seen, as a member behind others, where it is known.
pub fn add_past(live: &Live<'_, '_>, past: Option<Past<'_>>, out: &mut Writer)
    ensures { AddsPast out.old out.new }
{
    if let Some(past) = past {
        out.add(b",\"past\":");
        json_of(live, out.allocator(), past).finish(out);
    }
}
