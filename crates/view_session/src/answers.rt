//! A session.

ghost use Rattle.view_text.specs.Written.{Stays};
ghost use Rattle.view_walk.specs.Walks.{SameModel};

use crate::charted::{add_chart, most_alive};
use crate::going::go;
use crate::listed::{add_moves_of, add_steps};
use crate::past::add_past;
use crate::question::{add_question, add_whole_question};
use crate::record::add_record;
use crate::replay::Along;
use crate::showing::show;
use crate::steps::{Taken, take};
use crate::taking::take_single;
use crate::told::Told;
use std::alloc::AllocError;
use view_commands::command::{Command, MOST_UNASKED, RunMode, read};
use view_commands::help::{HELP, add_help};
use view_state::source::add_source;
use view_state::state::add_state;
use view_state::why::add_why;
use view_text::writer::Writer;
use view_walk::walk::Walk;

/// A line of a session has fewer bytes than this.
const MOST_LINE: usize = 1001;

/// What follows a line.
#[derive(Clone, Copy, Debug, PartialEq, Eq)]
pub enum Reply<'l> {
    /// What was written is shown, and the next line is read.
    On,
    /// What was written is shown, and this is done then, by `go_further`.
    Further(Command<'l>),
    /// The choices are to be saved in this file.
    Save(&'l str),
    End,
}

/// A model, and how many steps are taken at most.
#[derive(Clone, Copy)]
pub struct Setting<'t> {
    pub text: &'t [u8],
    pub limit: usize,
}

// Takes the steps that need no choice, and asks.
fn go_on(walk: &mut Walk<'_, '_>, limit: usize, told: &mut Told) -> Result<(), AllocError>
    ensures model { SameModel walk.old walk.new }
    ensures stays { Stays told.old.out told.new.out }
{
    take_single(walk, limit, MOST_UNASKED, told)?;
    add_question(walk, told)
}

/// Shows where a session begins.
pub fn begin(walk: &mut Walk<'_, '_>, limit: usize, told: &mut Told) -> Result<(), AllocError>
    ensures model { SameModel walk.old walk.new }
    ensures stays { Stays told.old.out told.new.out }
{
    go_on(walk, limit, told)
}

/// Shows where a session begins at the end of a trail, and the fault that the trail comes to there.
pub fn resume(
    walk: &mut Walk<'_, '_>,
    limit: usize,
    along: Along,
    told: &mut Told,
) -> Result<(), AllocError>
    ensures model { SameModel walk.old walk.new }
    ensures stays { Stays told.old.out told.new.out }
{
    if let Along::Fault(choice) = along {
        take(walk, limit, choice, told)?;
    }
    add_question(walk, told)
}

fn number(word: &str) -> usize {
    match word.parse::<usize>() {
        Ok(number) => number,
        Err(_) => 0,
    }
}

// Takes one choice, and the steps behind it that need none.
fn choose_one(
    walk: &mut Walk<'_, '_>,
    limit: usize,
    choice: usize,
    told: &mut Told,
) -> Result<Taken, AllocError>
    ensures model { SameModel walk.old walk.new }
    ensures stays { Stays told.old.out told.new.out }
{
    let taken = take(walk, limit, choice, told)?;
    match taken {
        Taken::Yes => take_single(walk, limit, MOST_UNASKED, told)?,
        Taken::Faulted => {}
        Taken::Bad => told.out.add(b"bad choice\n"),
        Taken::Limit => told.out.add(b"step limit\n"),
    }
    Ok(taken)
}

// Takes the choices with these numbers, one behind another, and asks, unless the first is none.
fn choose(
    walk: &mut Walk<'_, '_>,
    limit: usize,
    words: &[&str],
    told: &mut Told,
) -> Result<(), AllocError>
    ensures model { SameModel walk.old walk.new }
    ensures stays { Stays told.old.out told.new.out }
{
    let mut asks = false;
    for word in words {
        let taken = choose_one(walk, limit, number(word), told)?;
        asks = asks || taken == Taken::Yes || taken == Taken::Faulted;
        if taken != Taken::Yes {
            break;
        }
    }
    if asks {
        return add_question(walk, told);
    }
    Ok(())
}

fn show_why(walk: &mut Walk<'_, '_>, is_all: bool, out: &mut Writer) -> Result<(), AllocError>
    ensures model { SameModel walk.old walk.new }
    ensures stays { Stays out.old out.new }
{
    let moves = walk.moves()?;
    add_why(walk.world().live(), moves.as_slice(), is_all, out)?;
    add_past(walk, moves.as_slice(), out)
}

// Writes the chart of a walk up to where it stands.
fn show_chart(walk: &mut Walk<'_, '_>, told: &mut Told) -> Result<(), AllocError>
    ensures model { SameModel walk.old walk.new }
    ensures stays { Stays told.old.out told.new.out }
{
    let steps = walk.at();
    let most = most_alive(walk, steps)?;
    add_chart(walk, steps, most, &mut told.notes, &mut told.out)
}

// Says how the values are shown that a step changes.
fn show_values(shows: bool, told: &mut Told)
    ensures { Stays told.old.out told.new.out }
{
    told.shows_values = shows;
    told.out.add(if shows {
        b"steps show their values in their lines\n"
    } else {
        b"steps show their values below their lines\n"
    });
}

// Writes what a command shows of the state, or of the walk.
fn show_state<'l>(walk: &Walk<'_, '_>, setting: Setting<'_>, command: Command<'l>, told: &mut Told)
    ensures { Stays told.old.out told.new.out }
{
    let live = walk.world().live();
    match command {
        Command::State(is_all) => add_state(live, is_all, &mut told.out),
        Command::Source => add_source(live, setting.text, &mut told.out),
        Command::Record => add_record(walk.legs(), &mut told.out),
        _ => told.branches.add(walk.legs(), &mut told.out),
    }
}

// Writes what a command asks of the session itself.
fn show_words<'l>(command: Command<'l>, told: &mut Told)
    ensures { Stays told.old.out told.new.out }
{
    match command {
        Command::Help => told.out.add(HELP.as_bytes()),
        Command::HelpOf(name) => add_help(name, &mut told.out),
        Command::Wrong(form) => told.out.add(form.as_bytes()),
        Command::Show(shows) => show_values(shows, told),
        _ => told.out.add(b"no such command: help lists them\n"),
    }
}

// Does what a command says that neither ends nor saves. What is still to be done, behind what is shown first.
fn obey<'l>(
    walk: &mut Walk<'_, '_>,
    setting: Setting<'_>,
    words: &[&'l str],
    command: Command<'l>,
    told: &mut Told,
) -> Result<Option<Command<'l>>, AllocError>
    ensures model { SameModel walk.old walk.new }
    ensures stays { Stays told.old.out told.new.out }
{
    let done = match command {
        Command::Choose => choose(walk, setting.limit, words, told),
        Command::Why(is_all) => show_why(walk, is_all, &mut told.out),
        Command::Moves(true) => add_whole_question(walk, told),
        Command::Chart => show_chart(walk, told),
        Command::Steps(from) => add_steps(walk, from, told),
        Command::MovesOf(process) => add_moves_of(walk, process, &mut told.out),
        Command::Break(_) | Command::Breaks | Command::Delete(_) => show(
            walk.world(),
            command,
            told,
        ),
        Command::Print(_) | Command::Display(_) | Command::Undisplay(_) => {
            show(walk.world(), command, told)
        }
        Command::State(_) | Command::Source | Command::Record | Command::Branches => {
            show_state(walk, setting, command, told);
            Ok(())
        }
        Command::Help
        | Command::HelpOf(_)
        | Command::Wrong(_)
        | Command::Show(_)
        | Command::Unknown => {
            show_words(command, told);
            Ok(())
        }
        _ => return go(walk, setting.limit, command, told),
    };
    done?;
    Ok(None)
}

// Leads out of where memory was refused.
fn recover(walk: &mut Walk<'_, '_>) -> Result<(), AllocError>
    ensures { SameModel walk.old walk.new }
{
    if walk.is_lost() {
        let at = walk.at();
        walk.go_to(at)?;
    }
    Ok(())
}

// Whether a command may cut off steps to come, or other steps behind these. Steps that need no choice are those that were taken before.
fn may_cut<'l>(walk: &Walk<'_, '_>, command: Command<'l>) -> bool {
    match command {
        Command::Branch(_) => true,
        Command::Forward(_) | Command::Run(_) | Command::Until(RunMode::Forced, _) => false,
        _ => walk.at() < walk.legs().len(),
    }
}

// Does what a command says, and keeps the walk that it leaves for another.
fn obey_and_keep<'l>(
    walk: &mut Walk<'_, '_>,
    setting: Setting<'_>,
    words: &[&'l str],
    command: Command<'l>,
    told: &mut Told,
) -> Result<Option<Command<'l>>, AllocError>
    ensures model { SameModel walk.old walk.new }
    ensures stays { Stays told.old.out told.new.out }
{
    if !may_cut(walk, command) {
        return obey(walk, setting, words, command, told);
    }
    let mut before = Vec::new(told.out.allocator());
    before.extend_from_slice(walk.legs())?;
    let more = obey(walk, setting, words, command, told)?;
    told.branches.keep(before.as_slice(), walk.legs())?;
    told.branches.let_go(walk.legs());
    Ok(more)
}

// What follows a command.
fn reply_of<'l>(more: Option<Command<'l>>) -> Reply<'l> {
    match more {
        Some(command) => Reply::Further(command),
        None => Reply::On,
    }
}

/// Does what is still to be done of a line.
pub fn go_further<'l>(
    walk: &mut Walk<'_, '_>,
    setting: Setting<'_>,
    command: Command<'l>,
    told: &mut Told,
) -> Result<Reply<'l>, AllocError>
    ensures model { SameModel walk.old walk.new }
    ensures stays { Stays told.old.out told.new.out }
{
    recover(walk)?;
    Ok(reply_of(obey_and_keep(walk, setting, &[], command, told)?))
}

// Answers a line of text.
fn answer_text<'l>(
    walk: &mut Walk<'_, '_>,
    setting: Setting<'_>,
    line: &'l str,
    told: &mut Told,
) -> Result<Reply<'l>, AllocError>
    ensures model { SameModel walk.old walk.new }
    ensures stays { Stays told.old.out told.new.out }
{
    let words: Vec<&'l str> = line.split_whitespace().collect(told.out.allocator())?;
    match read(line, words.as_slice()) {
        Command::Quit => Ok(Reply::End),
        Command::Save(file) => Ok(Reply::Save(file)),
        other => Ok(reply_of(obey_and_keep(walk, setting, words.as_slice(), other, told)?)),
    }
}

/// Answers a line: one that is no text is no command.
pub fn answer<'l>(
    walk: &mut Walk<'_, '_>,
    setting: Setting<'_>,
    line: &'l [u8],
    told: &mut Told,
) -> Result<Reply<'l>, AllocError>
    ensures model { SameModel walk.old walk.new }
    ensures stays { Stays told.old.out told.new.out }
{
    if line.len() >= MOST_LINE {
        told.out.add(b"line too long\n");
        return Ok(Reply::On);
    }
    recover(walk)?;
    match str::from_utf8(line) {
        Ok(text) => answer_text(walk, setting, text, told),
        Err(_) => {
            told.out.add(b"no such command: help lists them\n");
            Ok(Reply::On)
        }
    }
}
