//! Processes, their offers, and what they wait for.

ghost use Rattle.std.specs.Prelude.{◌≡◌, ◌++◌, ℕ, List, codes};
ghost use Rattle.promela_run.specs.Moves.{moves as all_moves};
ghost use Rattle.view_cells.specs.Processes.{name_of};
ghost use Rattle.view_waits.specs.Offers.{offered_text};
ghost use Rattle.view_waits.specs.Waits.{waits as all_waits};
ghost use Rattle.view_tokens.specs.Printed.{Writes};
ghost use Rattle.view_json.specs.Objects.{text, member, named, offer, waits_at, because, wait, heading, AddsWaits, AddsStanding};

use crate::counted::Counted;
use crate::objects::{number, written};
use promela_run::moves::Pick;
use run_state::live::Live;
use view_cells::processes::{add_name, line_of};
use view_text::writer::Writer;
use view_tokens::tokens::Json;
use view_waits::offers::{add_offer, offer_line};
use view_waits::waits::Wait;
use view_waits::words::add_words;

// Writes the name of a process's proctype.
fn name(live: &Live<'_, '_>, json: &mut Json, process: usize)
    ensures { Writes json.old json.new (member (codes "name") (text (name_of live.now.state process))) }
{
    let mut name = Writer::new(json.allocator());
    add_name(live, process, &mut name);
    written(json, "name", &name);
}

/// Writes the members of a process that name it.
pub fn named(live: &Live<'_, '_>, json: &mut Json, process: usize)
    ensures { Writes json.old json.new (named live.now.state process) }
{
    number(json, "proc", process);
    name(live, json, process);
}

// Writes the text of an offer.
fn offer_text(live: &Live<'_, '_>, json: &mut Json, pick: Pick)
    ensures { Writes json.old json.new (member (codes "text") (text (offered_text live.now.state pick))) }
{
    let mut text = Writer::new(json.allocator());
    add_offer(live, pick, &mut text);
    written(json, "text", &text);
}

// Writes the members of an offer.
fn offer(live: &Live<'_, '_>, json: &mut Json, pick: Pick)
    ensures { Writes json.old json.new (offer live.now.state pick) }
{
    number(json, "line", offer_line(live, pick) as usize);
    offer_text(live, json, pick);
}

/// Writes the members of a process and of its offer.
pub fn picked(live: &Live<'_, '_>, json: &mut Json, pick: Pick)
    ensures { Writes json.old json.new (named live.now.state pick.process ++ offer live.now.state pick) }
{
    named(live, json, pick.process);
    offer(live, json, pick);
}

// Writes where a process waits: at an offer, or where it stands.
fn waits_at(live: &Live<'_, '_>, json: &mut Json, process: usize, pick: Option<Pick>)
    ensures { Writes json.old json.new (waits_at live.now.state process pick) }
{
    match pick {
        Some(pick) => offer(live, json, pick),
        None => {
            number(json, "line", line_of(live, process) as usize);
            json.key("text");
            json.null();
        }
    }
}

// Writes why, and words for it.
fn because(json: &mut Json, one: &Wait, words: &Writer)
    ensures { Writes json.old json.new (because one.now words.now.text) }
{
    json.key("because");
    json.string(one.because.code());
    written(json, "words", words);
}

fn wait(live: &Live<'_, '_>, json: &mut Json, process: usize, one: &Wait)
    ensures { (words : List ℕ) × Writes json.old json.new (wait live.now.state process one.now words) }
{
    let mut words = Writer::new(json.allocator());
    add_words(live, one, &mut words);
    json.begin_object();
    waits_at(live, json, process, one.pick);
    because(json, one, &words);
    json.end_object();
}

// Writes each of these, one behind another.
fn waits(live: &Live<'_, '_>, json: &mut Json, process: usize, waits: &[Wait])
    ensures { AddsWaits live.now.state process waits.now json.old json.new }
{
    for one in waits {
        wait(live, json, process, one);
    }
}

// Writes what a process waits for.
fn all_of(live: &Live<'_, '_>, json: &mut Json, moves: &Counted<'_>, process: usize)
    ensures { moves.now ≡ all_moves live.now.state → AddsWaits live.now.state process (all_waits live.now.state process) json.old json.new }
{
    let mut found = Vec::new(json.allocator());
    match moves.add_waits(live, process, &mut found) {
        Ok(()) => waits(live, json, process, found.as_slice()),
        Err(_) => json.refuse(),
    }
}

// Writes where a process stands, and in how many moves it takes part.
fn place_of(live: &Live<'_, '_>, json: &mut Json, moves: &Counted<'_>, process: usize)
    ensures { Writes json.old json.new (heading live.now.state moves.now process) }
{
    named(live, json, process);
    number(json, "line", line_of(live, process) as usize);
    number(json, "moves", moves.of(process));
}

/// Writes the members of a process but for its variables.
pub fn standing(live: &Live<'_, '_>, json: &mut Json, moves: &Counted<'_>, process: usize)
    ensures { moves.now ≡ all_moves live.now.state → AddsStanding live.now.state moves.now process json.old json.new }
{
    json.begin_object();
    place_of(live, json, moves, process);
    json.key("waits");
    json.begin_array();
    all_of(live, json, moves, process);
    json.end_array();
}
