//! The lines.

ghost use Rattle.std.specs.Prelude.{◌≡◌, ◌++◌, ℕ, List, true, false, Some, ltb, length, pos, codes};
ghost use Rattle.std.specs.List.{flat_map, range_with_len};
ghost use Rattle.promela_run.specs.declared.moves.Move.TheVariants.{Death};
ghost use Rattle.promela_run.specs.State.{channel_at};
ghost use Rattle.view_text.specs.Written.{Adds};
ghost use Rattle.view_tokens.specs.Printed.{Writes};
ghost use Rattle.view_json.specs.Objects.{text, detail};
ghost use Rattle.view_json.specs.Lines.{begun, texts, does_word, mover, addressee, receiver, passed, transfer, stuck_by, stuck, all_stuck, open_moves, stuck_where, is_own, ended, choices, chosen, front, line, ReadsBack};
ghost use Rattle.view_json.specs.Choices.{TellsChoices};
ghost use Rattle.view_json.specs.Added.{AddsFault, AddsEnd};

pub use crate::changed::Shown;
use crate::channel::message;
use crate::choice::add_choices;
pub use crate::choice::choices_of;
pub use crate::list::Listing;
use crate::objects::{detail, number, text};
pub use crate::past::Past;
use crate::past::add_past;
use crate::process::{named, picked};
pub use crate::start::add_start;
pub use crate::steps::{Done, Note, add_step};
use crate::texts::move_texts;
use diagnostics::Fault;
use promela_run::moves::{Move, Pick};
use run_state::live::Live;
use run_texts::ends::stuck as pml_stuck;
use std::alloc::Global;
use view_cells::channels::channel_at;
use view_cells::processes::line_of;
use view_text::writer::Writer;
use view_tokens::tokens::Json;
use view_waits::fault::{add_detail, detail_of};
use view_waits::statement::add_statement_reads;
use view_waits::transfer::{Does, Transfer};

/// A step that is about to be taken: its number, which of the present moves it is, and what it does.
#[derive(Clone, Copy)]
pub struct Ahead<'s> {
    pub step: usize,
    pub choice: usize,
    pub moves: &'s [Move],
    pub transfer: &'s Transfer,
}

/// Begins a line that tells of this.
pub fn begin(alloc: Global, event: &str) -> Json
    ensures { result.refused ≡ false → result.tokens ≡ begun event.now }
{
    let mut json = Json::new(alloc);
    json.begin_object();
    json.key("event");
    json.string(event);
    json
}

// Writes the texts of the present moves.
fn texts(live: &Live<'_, '_>, json: &mut Json, moves: &[Move])
    ensures { Writes json.old json.new (texts live.now.state moves.now) }
{
    json.key("moves");
    json.begin_array();
    move_texts(live, json, moves);
    json.end_array();
}

fn does(does: Does) -> &'static str
    ensures { result.now ≡ does_word does }
{
    match does {
        Does::Statement => "statement",
        Does::Send => "send",
        Does::Receive => "receive",
        Does::Read => "read",
        Does::Pass => "pass",
        Does::Lose => "lose",
        Does::End => "end",
    }
}

// Writes a process that ends, and the line of its closing brace.
pub(crate) fn ending(live: &Live<'_, '_>, json: &mut Json, process: usize)
    ensures { Writes json.old json.new (mover live.now.state (Death process)) }
{
    named(live, json, process);
    number(json, "line", line_of(live, process) as usize);
    text(json, "text", b"-end-");
}

// Writes whose move it is, and its text.
fn mover(live: &Live<'_, '_>, json: &mut Json, m: &Move)
    ensures { Writes json.old json.new (mover live.now.state m.now) }
{
    match m {
        Move::Death(process) => ending(live, json, *process),
        Move::Alone(pick, _) => picked(live, json, *pick),
        Move::Pair(sender, _, _) => picked(live, json, *sender),
    }
}

// Writes with which channel something is done, and with which message.
fn passed(live: &Live<'_, '_>, json: &mut Json, transfer: &Transfer)
    ensures { Writes json.old json.new (passed live.now.state.program transfer.now (channel_at live.now.state.channels (pos transfer.now.channel))) }
{
    if let Some(channel) = channel_at(live, transfer.channel) {
        number(json, "chan", transfer.channel);
        json.key("message");
        message(live, json, channel.types(), transfer.message.as_slice());
    }
}

// Writes what it does with a message.
pub(crate) fn transfer(live: &Live<'_, '_>, json: &mut Json, done: &Transfer)
    ensures { Writes json.old json.new (transfer live.now.state done.now) }
{
    json.key("does");
    json.string(does(done.does));
    passed(live, json, done);
}

// Writes to whom a message goes.
fn addressee(live: &Live<'_, '_>, json: &mut Json, pick: Pick)
    ensures { Writes json.old json.new (addressee live.now.state pick) }
{
    json.key("to");
    json.begin_object();
    picked(live, json, pick);
    json.end_object();
}

fn receiver(live: &Live<'_, '_>, json: &mut Json, m: &Move)
    ensures { Writes json.old json.new (receiver live.now.state m.now) }
{
    if let Move::Pair(_, receiver, _) = m {
        addressee(live, json, *receiver);
    }
}

fn choices(live: &Live<'_, '_>, json: &mut Json, moves: &[Move])
    ensures { Writes json.old json.new (choices live.now.state moves.now) }
{
    if moves.len() > 1 {
        texts(live, json, moves);
    }
}

// Writes the number of a step, and which of how many moves it is.
fn chosen(live: &Live<'_, '_>, json: &mut Json, ahead: Ahead<'_>)
    ensures { Writes json.old json.new (chosen live.now.state ahead.entry.step ahead.entry.choice ahead.entry.moves.now) }
{
    number(json, "step", ahead.step);
    number(json, "choice", ahead.choice);
    number(json, "of", ahead.moves.len());
    choices(live, json, ahead.moves);
}

/// What is told of a step before it is taken: `event` is `step`, or `fault` where it comes to one.
pub fn front(live: &Live<'_, '_>, alloc: Global, event: &str, ahead: Ahead<'_>, m: &Move) -> Json
    ensures { result.refused ≡ false → result.tokens ≡ front live.now.state event.now ahead.entry m.now }
{
    let mut json = begin(alloc, event);
    chosen(live, &mut json, ahead);
    mover(live, &mut json, m);
    transfer(live, &mut json, ahead.transfer);
    receiver(live, &mut json, m);
    json
}

// Writes a line, and that it ends.
fn end_line(json: Json, out: &mut Writer)
    ensures line { Adds out.old out.new (line json.tokens) }
    ensures refused { json.refused ≡ true → out.new.refused ≡ true }
    ensures reads_back { ReadsBack json.tokens }
{
    json.finish(out);
    out.add(b"\n");
}

// A line without its heading and its end.
fn bare<'l>(line: &'l [u8], heading: &[u8]) -> &'l [u8] {
    let line = line.strip_prefix(heading).unwrap_or(line);
    line.strip_suffix(b"\n").unwrap_or(line)
}

// Writes what the statement of a move read, and what its fault was about.
fn details(live: &Live<'_, '_>, json: &mut Json, m: &Move, fault: Fault)
    ensures { (reads about : List ℕ) × Writes json.old json.new (detail (codes "reads") reads ++ detail (codes "about") about) }
{
    let mut reads = Writer::new(json.allocator());
    add_statement_reads(live, m, &mut reads);
    let mut about = Writer::new(json.allocator());
    add_detail(detail_of(live, m, fault), &mut about);
    detail(json, "reads", bare(reads.bytes(), b"  reads: "), &reads);
    detail(json, "about", bare(about.bytes(), b"  "), &about);
}

// Writes moves, each as an object.
fn each_choice(live: &Live<'_, '_>, json: &mut Json, moves: &[Move])
    ensures { TellsChoices true live.now.state moves.now json.old json.new }
{
    json.key("choices");
    json.begin_array();
    add_choices(live, json, moves);
    json.end_array();
}

// Writes moves, each as an object, if there are more than so many.
fn told_choices(live: &Live<'_, '_>, json: &mut Json, most: usize, moves: &[Move])
    ensures { TellsChoices (ltb most (length moves.now)) live.now.state moves.now json.old json.new }
{
    if moves.len() > most {
        each_choice(live, json, moves);
    }
}

/// Writes the line of a step by this move, one of these, that came to a fault.
pub fn add_fault(
    live: &Live<'_, '_>,
    front: Json,
    m: &Move,
    fault: Fault,
    moves: &[Move],
    out: &mut Writer,
)
    ensures { AddsFault live.now.state moves.now front.tokens fault out.old out.new }
{
    let mut json = front;
    number(&mut json, "fault", fault.number() as usize);
    text(&mut json, "words", diagnostic_words::of_fault(fault));
    details(live, &mut json, m, fault);
    told_choices(live, &mut json, 1, moves);
    json.end_object();
    end_line(json, out);
}

// Writes where a process may not end.
fn stuck_place(json: &mut Json, process: usize, name: &[u8], line: u32)
    ensures { Writes json.old json.new (stuck_by process (Some (name.now, line))) }
{
    json.begin_object();
    number(json, "proc", process);
    text(json, "name", name);
    number(json, "line", line as usize);
    json.end_object();
}

fn stuck(live: &Live<'_, '_>, json: &mut Json, process: usize)
    ensures { Writes json.old json.new (stuck live.now.state process) }
{
    if let Some((name, line)) = pml_stuck(live, process) {
        stuck_place(json, process, name, line);
    }
}

fn each_stuck(live: &Live<'_, '_>, json: &mut Json)
    ensures { Writes json.old json.new (flat_map (stuck live.now.state) (range_with_len 0 (length live.now.state.stands))) }
{
    for process in 0..live.process_count() {
        stuck(live, json, process);
    }
}

fn all_stuck(live: &Live<'_, '_>, json: &mut Json)
    ensures { Writes json.old json.new (all_stuck live.now.state) }
{
    json.key("at");
    json.begin_array();
    each_stuck(live, json);
    json.end_array();
}

fn stuck_where(live: &Live<'_, '_>, json: &mut Json, is_own: bool)
    ensures { Writes json.old json.new (stuck_where live.now.state is_own) }
{
    if is_own {
        all_stuck(live, json);
    }
}

fn open_moves(live: &Live<'_, '_>, json: &mut Json, moves: &[Move])
    ensures { Writes json.old json.new (open_moves live.now.state moves.now) }
{
    if !moves.is_empty() {
        texts(live, json, moves);
    }
}

// How the last line begins.
fn ended(alloc: Global, steps: usize, end: &str) -> Json
    ensures { result.refused ≡ false → result.tokens ≡ ended steps end.now }
{
    let mut json = begin(alloc, "end");
    number(&mut json, "steps", steps);
    json.key("end");
    json.string(end);
    json
}

// Whether a run ends so by itself.
fn is_own(end: &str) -> bool
    ensures { result ≡ is_own end.now }
{
    end == "invalid" || end == "valid"
}

/// Writes the last line. At an end of a run that is not valid it tells what led there, where that is known.
pub fn add_end(
    live: &Live<'_, '_>,
    steps: usize,
    end: &str,
    moves: &[Move],
    past: Option<Past<'_>>,
    out: &mut Writer,
)
    ensures { AddsEnd live.now.state steps end.now moves.now out.old out.new }
{
    let mut json = ended(out.allocator(), steps, end);
    stuck_where(live, &mut json, is_own(end));
    open_moves(live, &mut json, moves);
    told_choices(live, &mut json, 0, moves);
    json.finish(out);
    add_past(live, past, out);
    out.add(b"}\n");
}
