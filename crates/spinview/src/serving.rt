// A run that a program drives: a line of JSON asks, and lines of JSON answer, of which the last is a question or an error.
ghost use Rattle.std.specs.Prelude.{◌≤◌, length};
ghost use Rattle.view_walk.specs.Walks.{SameModel};

use crate::lines::{Outlet, go_on};
use crate::opened::Files;
use crate::output::show_lines;
use crate::runs::{name_of, sheet_of, tell_choices, why_unread};
use crate::shown::without_end;
use crate::stop::{NoView, RunDevice, failed};
use crate::telling::shown_name;
use program_files::reading::ReadChoices;
use std::io::{BufRead, BufReader, ErrorKind};
use view_run::lines::Sheet;
use view_session::replay::Replay;
use view_walk::walk::Walk;
use view_words::Wishes;
use walk_answers::request::Request;
use walk_lines::answers::{Answered, LinesSetting, PendingSteps, add_state, answer, ask};
use walk_lines::lines::add_error;
use walk_lines::requests::{MOST_LINE, UnreadRequest, request_of};

// So many bytes are written at once.
const AT_ONCE: usize = 60_000;

// Shows what there is of the lines, behind the record of the walk.
fn show_all(
    walk: &Walk<'_, '_>,
    rt: &HostRuntime,
    files: &mut Files,
    sheet: &mut Sheet,
) -> Result<(), NoView> {
    if let Some(record) = &mut files.rec {
        record.keep(rt, walk.legs())?;
    }
    show_lines(rt, &sheet.lines)?;
    sheet.lines.clear();
    sheet.items.clear();
    Ok(())
}

// Takes steps that a request asks for, and then asks.
fn take_steps(
    walk: &mut Walk<'_, '_>,
    rt: &HostRuntime,
    limit: usize,
    run: PendingSteps,
    sheet: &mut Sheet,
) -> Result<(), NoView>
    ensures { SameModel walk.old walk.new }
{
    let mut run = run;
    for _turn in 0..u64::MAX {
        if let Some(halt) = walk_lines::answers::go_on(walk, limit, &mut run, sheet)? {
            ask(walk, Some(halt), sheet)?;
            return Ok(());
        }
        if sheet.lines.len() > AT_ONCE {
            show_lines(rt, &sheet.lines)?;
            sheet.lines.clear();
            sheet.items.clear();
        }
    }
    Ok(())
}

// Writes the lines that answer a request.
fn obey(
    walk: &mut Walk<'_, '_>,
    rt: &HostRuntime,
    setting: LinesSetting<'_>,
    request: &Request,
    sheet: &mut Sheet,
) -> Result<(), NoView>
    ensures { SameModel walk.old walk.new }
{
    match answer(walk, setting, request, sheet)? {
        Answered::Question => Ok(ask(walk, None, sheet)?),
        Answered::Steps(run) => take_steps(walk, rt, setting.limit, run, sheet),
        Answered::Wrong => Ok(()),
    }
}

// Writes the lines that answer a line.
fn answer_line(
    walk: &mut Walk<'_, '_>,
    rt: &HostRuntime,
    setting: LinesSetting<'_>,
    line: &[u8],
    sheet: &mut Sheet,
) -> Result<(), NoView>
    ensures { SameModel walk.old walk.new }
{
    match request_of(rt.alloc(), without_end(line)) {
        Ok(request) => obey(walk, rt, setting, &request, sheet),
        Err(UnreadRequest::Memory) => Err(NoView::Memory),
        Err(unread) => {
            add_error(unread.words().as_bytes(), &mut sheet.lines);
            Ok(())
        }
    }
}

// How many of these bytes stand before a line feed or at it.
fn through_feed(bytes: &[u8]) -> (usize, bool)
    ensures { result.0 ≤ length bytes.now }
{
    for at in 0..bytes.len() {
        if bytes[at] == b'\n' {
            return (at + 1, true);
        }
    }
    (bytes.len(), false)
}

// Reads the next line, of which so many bytes are kept that it is seen to be too long. Whether there is one.
fn read_line<R: BufRead>(input: &mut R, line: &mut Vec<u8>) -> Result<bool, NoView> {
    line.clear();
    for _turn in 0..u64::MAX {
        let held = match input.fill_buf() {
            Ok(held) => held,
            Err(error) if error.kind() == ErrorKind::Interrupted => continue,
            Err(error) => return Err(failed(RunDevice::Input, error)),
        };
        if held.is_empty() {
            break;
        }
        let (count, is_whole) = through_feed(held);
        if line.len() <= MOST_LINE + 1 {
            line.extend_from_slice(&held[..count])?;
        }
        input.consume(count);
        if is_whole {
            return Ok(true);
        }
    }
    Ok(!line.is_empty())
}

// Reads lines and answers them.
fn answer_lines(
    walk: &mut Walk<'_, '_>,
    rt: &HostRuntime,
    setting: LinesSetting<'_>,
    files: &mut Files,
    sheet: &mut Sheet,
) -> Result<(), NoView>
    ensures { SameModel walk.old walk.new }
{
    let mut input = match BufReader::new(rt.alloc(), rt.stdin()) {
        Ok(input) => input,
        Err(_) => return Err(NoView::Memory),
    };
    let mut line = Vec::new(rt.alloc());
    for _turn in 0..u64::MAX {
        if !read_line(&mut input, &mut line)? {
            break;
        }
        answer_line(walk, rt, setting, line.as_slice(), sheet)?;
        show_all(walk, rt, files, sheet)?;
    }
    Ok(())
}

// Takes the choices that are given first.
fn take_first(
    walk: &mut Walk<'_, '_>,
    rt: &HostRuntime,
    replay: &mut Replay<ReadChoices>,
    asked: &Wishes,
    sheet: &mut Sheet,
) -> Result<(), NoView>
    ensures { SameModel walk.old walk.new }
{
    if asked.choices.is_none() && asked.trail.is_none() && asked.seed.is_none() {
        return Ok(());
    }
    match go_on(
        walk,
        rt,
        replay,
        asked.limit as usize,
        &mut Outlet::shown(),
        sheet,
    ) {
        Ok(end) => {
            tell_choices(rt, asked, replay, end);
            Ok(())
        }
        Err(stop) => Err(why_unread(stop, replay)),
    }
}

// A run that begins with the choices that it is given, and that a program drives.
pub fn run_driven(
    walk: &mut Walk<'_, '_>,
    rt: &HostRuntime,
    replay: &mut Replay<ReadChoices>,
    asked: &Wishes,
    files: &mut Files,
) -> Result<(), NoView>
    ensures { SameModel walk.old walk.new }
{
    let setting = LinesSetting {
        name: name_of(shown_name(asked)),
        is_lossy: asked.is_lossy,
        limit: asked.limit as usize,
    };
    let mut sheet = sheet_of(rt, replay);
    add_state(walk, setting, &mut sheet)?;
    take_first(walk, rt, replay, asked, &mut sheet)?;
    ask(walk, None, &mut sheet)?;
    show_all(walk, rt, files, &mut sheet)?;
    answer_lines(walk, rt, setting, files, &mut sheet)
}
