// Another front end of the machine: walks a model by the first of its moves each time, and shows the moves, what each step prints and
// changes, how the walk ends and which processes are stuck.
#![tactic(auto)]

mod shown;

use crate::shown::{add_changes, add_ending, add_moves, add_number};
use spinplay::{Checked, Rejection, Stop, Token, World, checked_of, expanded_of};
use std::alloc::{AllocError, Global};
use std::io::Write;
use std::process::ExitCode;

const MODEL: &str = "byte x; chan q = [1] of { byte };
proctype P(byte n) { byte seen; seen = n; printf(\"%d\\n\", n); q ! n }
init { x = 5; x = 5; run P(3); q ? x; (x == 9) }
";

// No more steps are taken.
const MOST_STEPS: u32 = 100;

// Why there is no walk.
#[derive(Clone, Copy)]
enum NoWalk {
    // The text is no model.
    Refused,
    Stopped(Stop),
    Memory,
}

impl From<AllocError> for NoWalk {
    fn from(_: AllocError) -> NoWalk {
        NoWalk::Memory
    }
}

impl From<Stop> for NoWalk {
    fn from(stop: Stop) -> NoWalk {
        NoWalk::Stopped(stop)
    }
}

// Takes the first move, and appends what the step is, prints and changes. Whether there was one.
fn add_step(world: &mut World<'_, '_>, number: u32, text: &mut Vec<u8>) -> Result<bool, NoWalk> {
    let moves = world.moves()?;
    if moves.is_empty() {
        return Ok(false);
    }
    add_number(number, text)?;
    add_moves(world, &moves, text)?;
    world.take(&moves[0], text)?;
    add_changes(world, text)?;
    Ok(true)
}

fn walk_on(alloc: Global, world: &mut World<'_, '_>) -> Result<Vec<u8>, NoWalk> {
    let mut text = Vec::new(alloc);
    for number in 1..=MOST_STEPS {
        if !add_step(world, number, &mut text)? {
            break;
        }
    }
    add_ending(world, &mut text)?;
    Ok(text)
}

// From the first state, which is let go.
fn walk_world(alloc: Global, world: World<'_, '_>) -> Result<Vec<u8>, NoWalk> {
    let mut world = world;
    walk_on(alloc, &mut world)
}

fn walk_model(alloc: Global, checked: &Checked<'_>) -> Result<Vec<u8>, NoWalk> {
    match World::start(alloc, checked, false) {
        Ok(world) => walk_world(alloc, world),
        Err(AllocError) => Err(NoWalk::Memory),
    }
}

fn of_rejection(rejection: Rejection) -> NoWalk {
    match rejection {
        Rejection::Memory => NoWalk::Memory,
        Rejection::Refused(_, _) => NoWalk::Refused,
    }
}

fn walk_tokens<'a>(alloc: Global, tokens: &'a [Token<'a>]) -> Result<Vec<u8>, NoWalk> {
    match checked_of(alloc, tokens) {
        Ok(checked) => walk_model(alloc, &checked),
        Err(rejection) => Err(of_rejection(rejection)),
    }
}

// What is shown of a walk through the model of this text.
fn walk(alloc: Global, text: &[u8]) -> Result<Vec<u8>, NoWalk> {
    match expanded_of(alloc, text) {
        Ok(tokens) => walk_tokens(alloc, tokens.as_slice()),
        Err(rejection) => Err(of_rejection(rejection)),
    }
}

fn why(no_walk: NoWalk) -> &'static str {
    match no_walk {
        NoWalk::Refused => "the text is no model",
        NoWalk::Stopped(Stop::Fault(_)) => "the walk came to a fault",
        NoWalk::Stopped(Stop::Memory) | NoWalk::Memory => "out of memory",
    }
}

fn main(rt: HostRuntime) -> ExitCode {
    match walk(rt.alloc(), MODEL.as_bytes()) {
        Ok(text) => match rt.stdout().write_all(text.as_slice()) {
            Ok(()) => ExitCode::from(0),
            Err(_) => ExitCode::from(6),
        },
        Err(no_walk) => {
            let _ = eprintln!(rt; "walk_example: {}", why(no_walk));
            ExitCode::from(1)
        }
    }
}
