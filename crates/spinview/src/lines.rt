// The lines of a run.
ghost use Rattle.std.specs.Prelude.{◌≡◌, ◌≤◌, IfOk, OnOk, None, true, length, ltb, if◌then◌else◌};
ghost use Rattle.promela_run.specs.World.{world_moves};
ghost use Rattle.view_walk.specs.Walks.{SameModel};

use crate::output::show_lines;
use crate::runs::{AT_ONCE, name_of};
use crate::stop::NoView;
use crate::telling::shown_name;
use devices::Source;
use promela_run::moves::Move;
use view_foreign::escaped::add_escaped;
use view_json::lines::add_start;
use view_run::lines::{Sheet, add_next, add_next_of};
use view_session::replay::Replay;
use view_text::writer::Writer;
use view_walk::walk::Walk;
use view_words::Wishes;

// Writes the line of a state with which lines begin. The moves of that state.
pub fn begin(walk: &Walk<'_, '_>, asked: &Wishes, sheet: &mut Sheet) -> Result<Vec<Move>, NoView>
    ensures { IfOk result (λ v. v.items ≡ world_moves walk.now.state) }
{
    let moves = walk.moves()?;
    let live = walk.world().live();
    add_start(
        live,
        name_of(shown_name(asked)),
        asked.is_lossy,
        moves.as_slice(),
        &mut sheet.shown,
        &mut sheet.lines,
    )?;
    Ok(moves)
}

// Takes the steps before those whose lines are wanted. Why the run ends on the way, where it does: then its last lines are there.
fn skip<S: Source>(
    walk: &mut Walk<'_, '_>,
    replay: &mut Replay<S>,
    asked: &Wishes,
    sheet: &mut Sheet,
) -> Result<Option<&'static str>, NoView>
    ensures { SameModel walk.old walk.new }
{
    for _turn in 0..asked.from {
        let end = add_next(walk, replay, asked.limit as usize, sheet)?;
        if end.is_some() {
            return Ok(end);
        }
        sheet.lines.clear();
        sheet.items.clear();
    }
    Ok(None)
}

// Goes behind the steps whose lines are not wanted, and writes the line of the state there, and the last lines of a run that ends on the way. Why it does;
// the moves of that state are given back.
fn begin_behind<S: Source>(
    walk: &mut Walk<'_, '_>,
    rt: &HostRuntime,
    replay: &mut Replay<S>,
    asked: &Wishes,
    moves: &mut Vec<Move>,
    sheet: &mut Sheet,
) -> Result<Option<&'static str>, NoView>
    ensures model { SameModel walk.old walk.new }
    ensures moves { OnOk result (moves.new.items ≡ world_moves walk.new.state) }
{
    let end = skip(walk, replay, asked, sheet)?;
    let mut last = Writer::new(rt.alloc());
    last.join(&sheet.lines);
    sheet.lines.clear();
    sheet.show_anew();
    *moves = begin(walk, asked, sheet)?;
    sheet.lines.join(&last);
    Ok(end)
}

// A line that lists more moves than so many is long.
const MANY: usize = 1000;

// How many bytes of lines may wait before one that lists so many moves: none before a long one, so that it stays in the memory in which it grew.
fn most_before(moves: usize) -> usize
    ensures { result ≡ (if ltb 1000 moves then 0 else 60000) }
{
    if moves > MANY { 0 } else { AT_ONCE }
}

// Where the lines of a run go: to standard output, to a page, or to both.
#[derive(Drop)]
pub struct Outlet {
    // whether they go to standard output
    pub are_shown: bool,
    // what is kept of them for a page, with their escapes
    pub kept: Option<Writer>,
}

impl Outlet {
    // To standard output.
    pub fn shown() -> Outlet
        ensures { result ≡ record { are_shown = true; kept = None } }
    {
        Outlet {
            are_shown: true,
            kept: None,
        }
    }
}

// Hands on what there is of the lines, where they are more than so many bytes. A page wants all items.
pub fn flush(
    rt: &HostRuntime,
    outlet: &mut Outlet,
    most: usize,
    sheet: &mut Sheet,
) -> Result<(), NoView>
    ensures { OnOk result (length sheet.new.lines.text ≤ most) }
{
    if sheet.lines.is_refused() || sheet.items.is_refused() {
        return Err(NoView::Memory);
    }
    if sheet.lines.len() <= most {
        return Ok(());
    }
    if outlet.are_shown {
        show_lines(rt, &sheet.lines)?;
    }
    match &mut outlet.kept {
        Some(kept) => add_escaped(sheet.lines.bytes(), kept),
        None => sheet.items.clear(),
    }
    sheet.lines.clear();
    Ok(())
}

// Takes steps until a walk has so many, or goes no further, and writes each. Why it goes no further.
pub fn go_on<S: Source>(
    walk: &mut Walk<'_, '_>,
    rt: &HostRuntime,
    replay: &mut Replay<S>,
    limit: usize,
    outlet: &mut Outlet,
    sheet: &mut Sheet,
) -> Result<&'static str, NoView>
    ensures { SameModel walk.old walk.new }
{
    for _turn in 0..u64::MAX {
        let end = add_next(walk, replay, limit, sheet)?;
        flush(rt, outlet, AT_ONCE, sheet)?;
        if let Some(end) = end {
            return Ok(end);
        }
    }
    Ok("step limit")
}

// Takes the first step from a state with these moves and writes it, where the run has not ended before. Why it ends, where it does.
fn go_first<S: Source>(
    walk: &mut Walk<'_, '_>,
    moves: Vec<Move>,
    replay: &mut Replay<S>,
    limit: usize,
    end: Option<&'static str>,
    sheet: &mut Sheet,
) -> Result<Option<&'static str>, NoView>
    requires { moves.items ≡ world_moves walk.old.state }
    ensures { SameModel walk.old walk.new }
{
    if end.is_some() {
        return Ok(end);
    }
    Ok(add_next_of(walk, moves.as_slice(), replay, limit, sheet)?)
}

// Writes the lines of a run: that of the state with which they begin, and those of its steps. Why it ends.
pub fn run_lines<S: Source>(
    walk: &mut Walk<'_, '_>,
    rt: &HostRuntime,
    replay: &mut Replay<S>,
    asked: &Wishes,
    outlet: &mut Outlet,
    sheet: &mut Sheet,
) -> Result<&'static str, NoView>
    ensures { SameModel walk.old walk.new }
{
    let limit = asked.limit as usize;
    let mut moves = Vec::new(rt.alloc());
    let end = begin_behind(walk, rt, replay, asked, &mut moves, sheet)?;
    flush(rt, outlet, most_before(moves.len()), sheet)?;
    let end = go_first(walk, moves, replay, limit, end, sheet)?;
    flush(rt, outlet, AT_ONCE, sheet)?;
    match end {
        Some(end) => Ok(end),
        None => go_on(walk, rt, replay, limit, outlet, sheet),
    }
}
