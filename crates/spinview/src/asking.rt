// A run that goes on by lines of standard input: each is answered by lines of JSON, the last of them an `end`, before the next is read.
ghost use Rattle.std.specs.Prelude.{◌≡◌};
ghost use Rattle.view_walk.specs.Walks.{SameModel};

use crate::lines::{Outlet, begin, go_on, run_lines};
use crate::opened::Files;
use crate::output::show_lines;
use crate::runs::{sheet_of, tell_choices, why_unread};
use crate::shown::without_end;
use crate::stop::{NoView, RunDevice, failed};
use devices::SliceSource;
use program_files::reading::ReadChoices;
use std::alloc::AllocError;
use std::io::{BufRead, BufReader};
use view_json::lines::add_end;
use view_run::lines::Sheet;
use view_session::replay::{Replay, ReplayReading};
use view_walk::walk::Walk;
use view_words::Wishes;

// What a line asks for.
#[derive(Clone, Copy)]
enum Wish<'l> {
    // the state behind so many steps
    At(usize),
    // so many steps at most, of which the first question is answered so
    On(usize, &'l str),
}

// What a line asks for, if it is one of those that ask.
fn wish_of<'l>(line: &'l [u8]) -> Option<Wish<'l>> {
    let Ok(line) = str::from_utf8(line) else {
        return None;
    };
    let (word, rest) = match line.split_once(' ') {
        Some(two) => two,
        None => (line, ""),
    };
    if let Ok(most) = word.parse::<usize>() {
        return Some(Wish::On(most, rest));
    }
    match rest.parse::<usize>() {
        Ok(step) if word == "at" => Some(Wish::At(step)),
        _ => None,
    }
}

// Goes to the state behind so many steps, or to the last one.
fn go_to(walk: &mut Walk<'_, '_>, step: usize) -> Result<(), AllocError>
    ensures model { SameModel walk.old walk.new }
    ensures legs { walk.new.legs ≡ walk.old.legs }
{
    let step = step.min(walk.legs().len());
    walk.go_to(step)
}

// Writes that a line asks for nothing.
fn add_bad_line(walk: &Walk<'_, '_>, sheet: &mut Sheet) -> Result<(), AllocError> {
    let moves = walk.moves()?;
    let live = walk.world().live();
    let moves = moves.as_slice();
    add_end(live, walk.at(), "bad line", moves, None, &mut sheet.lines);
    Ok(())
}

// Writes the lines that answer a line.
fn obey(
    walk: &mut Walk<'_, '_>,
    rt: &HostRuntime,
    asked: &Wishes,
    line: &[u8],
    sheet: &mut Sheet,
) -> Result<(), NoView>
    ensures { SameModel walk.old walk.new }
{
    let (most, choice) = match wish_of(line) {
        Some(Wish::On(most, choice)) => (most, choice),
        Some(Wish::At(step)) => {
            go_to(walk, step)?;
            sheet.show_anew();
            begin(walk, asked, sheet)?;
            (0, "")
        }
        None => return Ok(add_bad_line(walk, sheet)?),
    };
    let limit = walk.at().saturating_add(most);
    let answers = SliceSource::new(choice.as_bytes());
    let mut replay = Replay::Read(ReplayReading::new(answers));
    go_on(walk, rt, &mut replay, limit, &mut Outlet::shown(), sheet)?;
    Ok(())
}

// Shows what there is of the lines, behind the record of the walk.
fn show_all(
    walk: &Walk<'_, '_>,
    rt: &HostRuntime,
    files: &mut Files,
    sheet: &mut Sheet,
) -> Result<(), NoView> {
    if let Some(record) = &mut files.rec {
        record.keep(rt, walk.legs())?;
    }
    show_lines(rt, &sheet.lines)?;
    sheet.lines.clear();
    sheet.items.clear();
    Ok(())
}

// Reads lines and answers them.
fn answer_lines(
    walk: &mut Walk<'_, '_>,
    rt: &HostRuntime,
    asked: &Wishes,
    files: &mut Files,
    sheet: &mut Sheet,
) -> Result<(), NoView>
    ensures { SameModel walk.old walk.new }
{
    let mut input = match BufReader::new(rt.alloc(), rt.stdin()) {
        Ok(input) => input,
        Err(_) => return Err(NoView::Memory),
    };
    let mut line = Vec::new(rt.alloc());
    for _turn in 0..u64::MAX {
        line.clear();
        match input.read_until(b'\n', &mut line) {
            Ok(0) => break,
            Ok(_) => {}
            Err(error) => return Err(failed(RunDevice::Input, error)),
        }
        obey(walk, rt, asked, without_end(line.as_slice()), sheet)?;
        show_all(walk, rt, files, sheet)?;
    }
    Ok(())
}

// A run that begins with the choices that it is given, and goes on by lines.
pub fn run_asking(
    walk: &mut Walk<'_, '_>,
    rt: &HostRuntime,
    replay: &mut Replay<ReadChoices>,
    asked: &Wishes,
    files: &mut Files,
) -> Result<(), NoView>
    ensures { SameModel walk.old walk.new }
{
    let mut sheet = sheet_of(rt, replay);
    match run_lines(walk, rt, replay, asked, &mut Outlet::shown(), &mut sheet) {
        Ok(end) => tell_choices(rt, asked, replay, end),
        Err(stop) => return Err(why_unread(stop, replay)),
    }
    show_all(walk, rt, files, &mut sheet)?;
    answer_lines(walk, rt, asked, files, &mut sheet)
}
