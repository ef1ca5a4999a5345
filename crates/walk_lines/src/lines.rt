//! Lines of JSON about where a walk stands, beside those of a run.

ghost use Rattle.std.specs.Prelude.{◌≡◌};
ghost use Rattle.promela_run.specs.Moves.{moves as all_moves};
ghost use Rattle.view_tokens.specs.Printed.{Stays};
ghost use Rattle.view_text.specs.Written.{Stays as KeepsRefusal};

use promela_run::moves::Move;
use run_state::live::Live;
use std::alloc::AllocError;
use view_json::choice::add_choices;
use view_json::counted::Counted;
use view_json::lines::begin;
use view_json::objects::{number, text};
use view_json::process::standing;
use view_text::writer::Writer;
use view_tokens::tokens::Json;
use view_walk::leg::Leg;
use walk_answers::halt::RunHalt;
use walk_answers::seen::moves_in;

// Ends a line.
fn end(json: Json, out: &mut Writer)
    ensures { KeepsRefusal out.old out.new }
{
    let mut json = json;
    json.end_object();
    json.finish(out);
    out.add(b"\n");
}

// Writes why a run stopped where a walk stands.
fn add_stopped(json: &mut Json, stopped: Option<RunHalt>)
    ensures { Stays json.old json.new }
{
    if let Some(halt) = stopped {
        json.key("stopped");
        json.string(halt.words());
    }
}

/// Where a walk stands: behind so many steps, of so many.
#[derive(Clone, Copy, Debug, PartialEq, Eq)]
pub struct WalkStanding {
    pub at: usize,
    pub of: usize,
}

/// Writes the question: where a walk stands, and the present moves, each as an object.
pub fn add_question(
    live: &Live<'_, '_>,
    moves: &[Move],
    place: WalkStanding,
    stopped: Option<RunHalt>,
    out: &mut Writer,
)
    ensures { KeepsRefusal out.old out.new }
{
    let mut json = begin(out.allocator(), "question");
    number(&mut json, "at", place.at);
    number(&mut json, "of", place.of);
    add_stopped(&mut json, stopped);
    json.key("choices");
    json.begin_array();
    add_choices(live, &mut json, moves);
    json.end_array();
    end(json, out);
}

// Writes where a process stands, in how many moves it takes part, and what it waits for.
fn add_standing(live: &Live<'_, '_>, moves: &Counted<'_>, process: usize, json: &mut Json)
    ensures { moves.now ≡ all_moves live.now.state → Stays json.old json.new }
{
    standing(live, json, moves, process);
    json.end_object();
}

// Writes this of each process from one on to before another.
fn add_each(live: &Live<'_, '_>, moves: &Counted<'_>, from: usize, to: usize, json: &mut Json)
    ensures { moves.now ≡ all_moves live.now.state → Stays json.old json.new }
{
    for process in from..to {
        add_standing(live, moves, process, json);
    }
}

/// Writes why a process has no move, or each.
pub fn add_why(
    live: &Live<'_, '_>,
    process: Option<usize>,
    out: &mut Writer,
) -> Result<(), AllocError>
    ensures { KeepsRefusal out.old out.new }
{
    let present = moves_in(out.allocator(), live)?;
    let moves = Counted::new(out.allocator(), live.process_count(), present.as_slice())?;
    let (from, to) = match process {
        Some(process) => (process, process.saturating_add(1)),
        None => (0, live.process_count()),
    };
    let mut json = begin(out.allocator(), "why");
    json.key("processes");
    json.begin_array();
    add_each(live, &moves, from, to, &mut json);
    json.end_array();
    end(json, out);
    Ok(())
}

// Writes the number of a choice that is one of several.
fn add_number(leg: Leg, json: &mut Json)
    ensures { Stays json.old json.new }
{
    if leg.of > 1 {
        json.number(leg.choice);
    }
}

// Writes the number of each choice that is one of several.
fn add_numbers(legs: &[Leg], json: &mut Json)
    ensures { Stays json.old json.new }
{
    for leg in legs {
        add_number(*leg, json);
    }
}

/// Writes the record of choices: the number of each that is one of several.
pub fn add_record(legs: &[Leg], out: &mut Writer)
    ensures { KeepsRefusal out.old out.new }
{
    let mut json = begin(out.allocator(), "record");
    json.key("choices");
    json.begin_array();
    add_numbers(legs, &mut json);
    json.end_array();
    end(json, out);
}

/// Writes that something is wrong, and what.
pub fn add_error(words: &[u8], out: &mut Writer)
    ensures { KeepsRefusal out.old out.new }
{
    let mut json = begin(out.allocator(), "error");
    text(
        &mut json,
        "message",
        words.strip_suffix(b"\n").unwrap_or(words),
    );
    end(json, out);
}
