//! Moves as objects: what a choice takes, and what it does with a message.

ghost use Rattle.std.specs.Prelude.{◌≡◌, ◌<◌, true, length};
ghost use Rattle.promela_run.specs.declared.moves.Move.TheVariants.{Death};
ghost use Rattle.promela_run.specs.State.{State};
ghost use Rattle.view_json.specs.Choices.{AddsChoice, AddsChoices, ListsChoices};
ghost use Rattle.view_json.specs.Before.{Goes};

use crate::couples::{Couples, add_pair};
use crate::deal::effect_of;
use crate::lines::{ending, transfer};
use crate::list::Listing;
use crate::singles::{Singles, add_alone};
use promela_run::moves::Move;
use run_state::live::Live;
use std::alloc::Global;
use view_tokens::tokens::Json;
use view_waits::transfer::{Transfer, transfer_of};

// What was written of the moves before: of those of one process, and of rendezvous.
#[derive(Drop)]
struct Before {
    alone: Singles,
    pair: Couples,
}

impl Before {
    // Nothing, of so many moves that are to be written.
    fn new(alloc: Global, count: usize) -> Before
        ensures { (s : State) → Goes s result }
    {
        Before {
            alone: Singles::new(alloc, count),
            pair: Couples::new(alloc, count),
        }
    }
}

// Writes the death of a process, which does this.
fn dying(live: &Live<'_, '_>, json: &mut Json, process: usize, done: &Transfer)
    ensures { AddsChoice live.now.state (Death process) json.old json.new }
{
    json.begin_object();
    ending(live, json, process);
    transfer(live, json, done);
    effect_of(live, json, done);
    json.end_object();
}

// Writes the death of a process.
fn add_death(live: &Live<'_, '_>, json: &mut Json, process: usize)
    ensures { AddsChoice live.now.state (Death process) json.old json.new }
{
    match transfer_of(json.allocator(), live, &Move::Death(process)) {
        Ok(done) => dying(live, json, process, &done),
        Err(_) => json.refuse(),
    }
}

// Writes a move of the state that is seen, as an object: whose it is, what it does, and with whom, where this was written before.
fn add_choice(live: &Live<'_, '_>, json: &mut Json, m: Move, before: &mut Before)
    requires { Goes live.now.state before.old }
    ensures choice { AddsChoice live.now.state m json.old json.new }
    ensures goes { Goes live.now.state before.new }
{
    match m {
        Move::Death(process) => add_death(live, json, process),
        Move::Alone(pick, is_late) => add_alone(live, json, pick, is_late, &mut before.alone),
        Move::Pair(sender, receiver, is_late) => {
            add_pair(live, json, sender, receiver, is_late, &mut before.pair)
        }
    }
}

/// Writes moves of the state that is seen, each as an object.
pub fn add_choices(live: &Live<'_, '_>, json: &mut Json, moves: &[Move])
    ensures { AddsChoices live.now.state moves.now json.old json.new }
{
    let mut before = Before::new(json.allocator(), moves.len());
    for m in moves {
        add_choice(live, json, *m, &mut before);
    }
}

// Several moves, each as an object.
fn all_of(live: &Live<'_, '_>, alloc: Global, moves: &[Move]) -> Listing
    requires { 1 < length moves.now }
    ensures { ListsChoices live.now.state moves.now result }
{
    let mut list = Listing::new(alloc);
    let mut json = Json::new(alloc);
    add_choices(live, &mut json, moves);
    list.next();
    json.finish(&mut list.text);
    list
}

/// The moves of the state that is seen, each as an object, where there are several.
pub fn choices_of(live: &Live<'_, '_>, alloc: Global, moves: &[Move]) -> Listing
    ensures { ListsChoices live.now.state moves.now result }
{
    if moves.len() > 1 {
        all_of(live, alloc, moves)
    } else {
        Listing::new(alloc)
    }
}
