//! What leads somewhere: steps on and back.

ghost use Rattle.view_text.specs.Written.{Stays};
ghost use Rattle.view_walk.specs.Walks.{SameModel};

use crate::listed::add_no_process;
use crate::question::add_question;
use crate::seeking::{go_back_by, go_back_seeking, go_seeking};
use crate::stopped::add_stop;
use crate::taking::{take_by_chance, take_legs, take_next, take_of, take_run};
use crate::told::Told;
use crate::watch::{add_unknown, watch_of};
use crate::written::{Cell, cell_before, cell_named, last_written};
use std::alloc::AllocError;
use view_commands::command::{Command, RunMode, USUAL_RUN};
use view_text::writer::Writer;
use view_walk::walk::Walk;

// Goes to a place of a walk, and asks.
fn go_to(walk: &mut Walk<'_, '_>, step: usize, told: &mut Told) -> Result<(), AllocError>
    ensures model { SameModel walk.old walk.new }
    ensures stays { Stays told.old.out told.new.out }
{
    let step = step.min(walk.legs().len());
    walk.go_to(step)?;
    add_question(walk, told)
}

// Goes back so many steps, or to where a break stops it, and asks.
fn go_back_to(walk: &mut Walk<'_, '_>, by: usize, told: &mut Told) -> Result<(), AllocError>
    ensures model { SameModel walk.old walk.new }
    ensures stays { Stays told.old.out told.new.out }
{
    if let Some(stopped) = go_back_by(walk, by, told)? {
        add_stop(stopped, b"", &told.breaks, &mut told.out);
    }
    add_question(walk, told)
}

// Takes steps until one leads where a run is to stop, and asks; or says why it cannot stop so.
fn go_until(
    walk: &mut Walk<'_, '_>,
    limit: usize,
    mode: RunMode,
    text: &str,
    told: &mut Told,
) -> Result<(), AllocError>
    ensures model { SameModel walk.old walk.new }
    ensures stays { Stays told.old.out told.new.out }
{
    if let Some(mut watch) = watch_of(walk.world(), text, &mut told.out)? {
        let stopped = go_seeking(walk, limit, mode, &mut watch, told)?;
        add_stop(stopped, watch.words(), &told.breaks, &mut told.out);
    }
    add_question(walk, told)
}

// The same by the process with this number, where it lives.
fn go_until_by(
    walk: &mut Walk<'_, '_>,
    limit: usize,
    mode: RunMode,
    text: &str,
    told: &mut Told,
) -> Result<(), AllocError>
    ensures model { SameModel walk.old walk.new }
    ensures stays { Stays told.old.out told.new.out }
{
    let living = walk.world().process_count();
    match mode {
        RunMode::Process(process) if process >= living => {
            add_no_process(process, living, &mut told.out);
            Ok(())
        }
        _ => go_until(walk, limit, mode, text, told),
    }
}

// Goes back until a state is one where a run is to stop, and asks; or says why it cannot stop so.
fn go_back_until(walk: &mut Walk<'_, '_>, text: &str, told: &mut Told) -> Result<(), AllocError>
    ensures model { SameModel walk.old walk.new }
    ensures stays { Stays told.old.out told.new.out }
{
    if let Some(mut watch) = watch_of(walk.world(), text, &mut told.out)? {
        let stopped = go_back_seeking(walk, &mut watch, told)?;
        add_stop(stopped, watch.words(), &told.breaks, &mut told.out);
    }
    add_question(walk, told)
}

// The cell with this path where a walk stands, or of a process that lived before.
fn cell_of(walk: &mut Walk<'_, '_>, path: &str, told: &mut Told) -> Result<Option<Cell>, AllocError>
    ensures model { SameModel walk.old walk.new }
    ensures stays { Stays told.old.out told.new.out }
{
    let mut text = Writer::new(told.out.allocator());
    match cell_named(walk.world().live(), path.as_bytes(), &mut text)? {
        Some(cell) => Ok(Some(cell)),
        None => cell_before(walk, path.as_bytes(), &mut text),
    }
}

// Goes back to the last step that changed a variable, shows it, and asks.
fn go_to_last(
    walk: &mut Walk<'_, '_>,
    limit: usize,
    path: &str,
    told: &mut Told,
) -> Result<(), AllocError>
    ensures model { SameModel walk.old walk.new }
    ensures stays { Stays told.old.out told.new.out }
{
    let Some(cell) = cell_of(walk, path, told)? else {
        add_unknown(path, &mut told.out);
        return Ok(());
    };
    match last_written(walk, cell)? {
        Some(step) => {
            let before = step.saturating_sub(1).min(walk.legs().len());
            walk.go_to(before)?;
            let _ = take_next(walk, limit, 1, told)?;
            add_question(walk, told)
        }
        None => {
            told.out.add(b"no step up to here changed ");
            told.out.add(path.as_bytes());
            told.out.add(b"\n");
            Ok(())
        }
    }
}

// Goes to the end of the branch with this number, and asks.
fn go_to_branch(
    walk: &mut Walk<'_, '_>,
    limit: usize,
    number: usize,
    told: &mut Told,
) -> Result<(), AllocError>
    ensures model { SameModel walk.old walk.new }
    ensures stays { Stays told.old.out told.new.out }
{
    match told.branches.of(number)? {
        Some(legs) => {
            walk.go_to(0)?;
            take_legs(walk, limit, legs.as_slice(), told)?;
            add_question(walk, told)
        }
        None => {
            told.out.add(b"no such branch: branches lists them\n");
            Ok(())
        }
    }
}

// Does what leads back.
fn go_back<'l>(
    walk: &mut Walk<'_, '_>,
    limit: usize,
    command: Command<'l>,
    told: &mut Told,
) -> Result<(), AllocError>
    ensures model { SameModel walk.old walk.new }
    ensures stays { Stays told.old.out told.new.out }
{
    match command {
        Command::Back(by) => go_back_to(walk, by, told),
        Command::BackUntil(text) => go_back_until(walk, text, told),
        Command::Goto(step) => go_to(walk, step, told),
        Command::Last(path) => go_to_last(walk, limit, path, told),
        Command::Branch(number) => go_to_branch(walk, limit, number, told),
        _ => go_to(walk, 0, told),
    }
}

// Takes steps of a process alone, and asks; or says that no such process lives.
fn go_with(
    walk: &mut Walk<'_, '_>,
    limit: usize,
    process: usize,
    told: &mut Told,
) -> Result<(), AllocError>
    ensures model { SameModel walk.old walk.new }
    ensures stays { Stays told.old.out told.new.out }
{
    let living = walk.world().process_count();
    if process >= living {
        add_no_process(process, living, &mut told.out);
        return Ok(());
    }
    take_of(walk, limit, USUAL_RUN, process, told)?;
    add_question(walk, told)
}

// Takes steps by chance, and asks.
fn go_by_chance(
    walk: &mut Walk<'_, '_>,
    limit: usize,
    most: usize,
    seed: u64,
    told: &mut Told,
) -> Result<(), AllocError>
    ensures model { SameModel walk.old walk.new }
    ensures stays { Stays told.old.out told.new.out }
{
    take_by_chance(walk, limit, most, seed, told)?;
    add_question(walk, told)
}

// Says that a run takes no choice, where a walk stands at one.
fn add_no_choice(walk: &Walk<'_, '_>, told: &mut Told) -> Result<(), AllocError>
    ensures { Stays told.old.out told.new.out }
{
    if walk.moves()?.len() > 1 {
        told.out.add(b"run takes no choice: a number does, and random N takes N by chance\n");
    }
    Ok(())
}

// Takes steps with one move, and asks. What is still to be done, where there is enough to be shown first.
fn go_on_by<'l>(
    walk: &mut Walk<'_, '_>,
    limit: usize,
    most: usize,
    told: &mut Told,
) -> Result<Option<Command<'l>>, AllocError>
    ensures model { SameModel walk.old walk.new }
    ensures stays { Stays told.old.out told.new.out }
{
    add_no_choice(walk, told)?;
    let left = take_run(walk, limit, most, told)?;
    if left > 0 {
        return Ok(Some(Command::Run(left)));
    }
    add_question(walk, told)?;
    Ok(None)
}

// Takes steps along the walk, and asks. What is still to be done, where there is enough to be shown first.
fn go_forward<'l>(
    walk: &mut Walk<'_, '_>,
    limit: usize,
    by: usize,
    told: &mut Told,
) -> Result<Option<Command<'l>>, AllocError>
    ensures model { SameModel walk.old walk.new }
    ensures stays { Stays told.old.out told.new.out }
{
    let left = take_next(walk, limit, by, told)?;
    if left > 0 {
        return Ok(Some(Command::Forward(left)));
    }
    add_question(walk, told)?;
    Ok(None)
}

/// Does what leads somewhere. What is still to be done, behind what is shown first.
pub fn go<'l>(
    walk: &mut Walk<'_, '_>,
    limit: usize,
    command: Command<'l>,
    told: &mut Told,
) -> Result<Option<Command<'l>>, AllocError>
    ensures model { SameModel walk.old walk.new }
    ensures stays { Stays told.old.out told.new.out }
{
    let done = match command {
        Command::Forward(by) => return go_forward(walk, limit, by, told),
        Command::Run(most) => return go_on_by(walk, limit, most, told),
        Command::Process(process) => go_with(walk, limit, process, told),
        Command::Until(mode, text) => go_until_by(walk, limit, mode, text, told),
        Command::Random(most, seed) => go_by_chance(walk, limit, most, seed, told),
        Command::Moves(_) => add_question(walk, told),
        _ => go_back(walk, limit, command, told),
    };
    done?;
    Ok(None)
}
