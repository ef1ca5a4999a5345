//! Answers to what a program asks of a walk.

ghost use Rattle.view_walk.specs.Walks.{SameModel};

use crate::lines::{WalkStanding, add_error, add_question, add_record, add_why};
use devices::SliceSource;
use rand_pcg::Pcg32;
use session::Broken;
use std::alloc::AllocError;
use view_condition::condition::StateCondition;
use view_json::lines::add_start;
use view_run::lines::{Sheet, add_next};
use view_session::replay::{Replay, ReplayReading};
use view_session::watch::condition_of;
use view_text::writer::Writer;
use view_walk::walk::Walk;
use walk_answers::choosing::{Choosing, FollowingMove};
use walk_answers::going::{back, go_to};
use walk_answers::halt::RunHalt;
use walk_answers::request::{By, Request};

/// So many steps are taken at most until a condition holds.
pub const MOST_UNTIL: usize = 10_000;

/// What the lines call the model, whether it loses messages, and how many steps a walk may have.
#[derive(Clone, Copy)]
pub struct LinesSetting<'s> {
    pub name: &'s str,
    pub is_lossy: bool,
    pub limit: usize,
}

/// Steps that are still to be taken, each by `go_on`.
#[derive(Drop)]
pub struct PendingSteps {
    choosing: Choosing,
    until: Option<StateCondition>,
    left: usize,
}

/// What follows a request.
#[derive(Drop)]
pub enum Answered {
    /// The question.
    Question,
    /// Steps, and then the question.
    Steps(PendingSteps),
    /// Nothing: it was wrong, which is said.
    Wrong,
}

// Says what is wrong.
fn wrong(words: &[u8], sheet: &mut Sheet) -> Answered {
    add_error(words, &mut sheet.lines);
    Answered::Wrong
}

/// Writes the state where a walk stands, from which on steps are told.
pub fn add_state(
    walk: &Walk<'_, '_>,
    setting: LinesSetting<'_>,
    sheet: &mut Sheet,
) -> Result<(), AllocError> {
    let moves = walk.moves()?;
    let live = walk.world().live();
    sheet.show_anew();
    add_start(
        live,
        setting.name,
        setting.is_lossy,
        moves.as_slice(),
        &mut sheet.shown,
        &mut sheet.lines,
    )
}

// Only memory can be refused to choices that are held.
fn without_device(broken: Broken) -> AllocError {
    let _ = broken;
    AllocError
}

// Writes how the run ends where a walk stands that has no move.
fn add_ending(walk: &mut Walk<'_, '_>, sheet: &mut Sheet) -> Result<(), AllocError>
    ensures { SameModel walk.old walk.new }
{
    if !walk.moves()?.is_empty() {
        return Ok(());
    }
    let mut replay: Replay<SliceSource<'_>> = Replay::Chance(Pcg32::new(0, 0));
    match add_next(walk, &mut replay, usize::MAX, sheet) {
        Ok(_) => Ok(()),
        Err(broken) => Err(without_device(broken)),
    }
}

/// Writes the question where a walk stands; where no move is left, behind how the run ends.
pub fn ask(
    walk: &mut Walk<'_, '_>,
    stopped: Option<RunHalt>,
    sheet: &mut Sheet,
) -> Result<(), AllocError>
    ensures { SameModel walk.old walk.new }
{
    add_ending(walk, sheet)?;
    let moves = walk.moves()?;
    let place = WalkStanding {
        at: walk.at(),
        of: walk.legs().len(),
    };
    let live = walk.world().live();
    add_question(live, moves.as_slice(), place, stopped, &mut sheet.lines);
    Ok(())
}

// Takes the move with this number, and writes the step. Whether it came to a fault.
fn take(walk: &mut Walk<'_, '_>, choice: usize, sheet: &mut Sheet) -> Result<bool, AllocError>
    ensures { SameModel walk.old walk.new }
{
    let mut line = Writer::new(sheet.lines.allocator());
    line.number(choice);
    line.add(b"\n");
    let line = line.finish()?;
    let mut replay = Replay::Read(ReplayReading::new(SliceSource::new(line.as_slice())));
    match add_next(walk, &mut replay, usize::MAX, sheet) {
        Ok(end) => Ok(end.is_some()),
        Err(broken) => Err(without_device(broken)),
    }
}

// Takes the move with this number, if there is one.
fn take_one(
    walk: &mut Walk<'_, '_>,
    limit: usize,
    choice: usize,
    sheet: &mut Sheet,
) -> Result<Answered, AllocError>
    ensures { SameModel walk.old walk.new }
{
    let count = walk.moves()?.len();
    if choice == 0 || choice > count {
        let mut words = Writer::new(sheet.lines.allocator());
        words.add(b"no such choice: there are ");
        words.number(count);
        let words = words.finish()?;
        return Ok(wrong(words.as_slice(), sheet));
    }
    if walk.at() >= limit {
        return Ok(wrong(b"step limit", sheet));
    }
    take(walk, choice, sheet)?;
    Ok(Answered::Question)
}

// Why a process has no move, if it lives.
fn why(
    walk: &Walk<'_, '_>,
    process: Option<usize>,
    sheet: &mut Sheet,
) -> Result<Answered, AllocError> {
    let live = walk.world().live();
    if let Some(process) = process {
        if process >= live.process_count() {
            return Ok(wrong(b"no such process", sheet));
        }
    }
    add_why(live, process, &mut sheet.lines)?;
    Ok(Answered::Question)
}

fn choosing_by(by: By) -> Choosing {
    match by {
        By::Forced => Choosing::Ask,
        By::Process(process) => Choosing::Process(process),
        By::Chance(seed) => Choosing::by_chance(seed),
    }
}

// Steps until a condition holds, if it is one.
fn until(
    walk: &Walk<'_, '_>,
    text: &str,
    by: By,
    sheet: &mut Sheet,
) -> Result<Answered, AllocError> {
    let mut words = Writer::new(sheet.lines.allocator());
    match condition_of(walk.world(), text, &mut words)? {
        Some(condition) => Ok(Answered::Steps(PendingSteps {
            choosing: choosing_by(by),
            until: Some(condition),
            left: MOST_UNTIL,
        })),
        None => {
            let words = words.finish()?;
            Ok(wrong(words.as_slice(), sheet))
        }
    }
}

// Answers what only shows.
fn show(
    walk: &Walk<'_, '_>,
    setting: LinesSetting<'_>,
    request: &Request,
    sheet: &mut Sheet,
) -> Result<Answered, AllocError> {
    match request {
        Request::Why(process) => return why(walk, *process, sheet),
        Request::Until(text, by) => return until(walk, text.as_str(), *by, sheet),
        Request::On(most) => {
            return Ok(Answered::Steps(PendingSteps {
                choosing: Choosing::Ask,
                until: None,
                left: *most,
            }));
        }
        Request::State => add_state(walk, setting, sheet)?,
        Request::Record => add_record(walk.legs(), &mut sheet.lines),
        _ => {}
    }
    Ok(Answered::Question)
}

/// Answers a request, up to the question or to steps that are still to be taken.
pub fn answer(
    walk: &mut Walk<'_, '_>,
    setting: LinesSetting<'_>,
    request: &Request,
    sheet: &mut Sheet,
) -> Result<Answered, AllocError>
    ensures { SameModel walk.old walk.new }
{
    match request {
        Request::Take(choice) => return take_one(walk, setting.limit, *choice, sheet),
        Request::Back(by) => back(walk, *by)?,
        Request::Goto(step) => go_to(walk, *step)?,
        other => return show(walk, setting, other, sheet),
    }
    add_state(walk, setting, sheet)?;
    Ok(Answered::Question)
}

// Whether a condition holds where a walk stands; one with a fault does not.
fn holds(walk: &Walk<'_, '_>, condition: &Option<StateCondition>) -> bool {
    match condition {
        Some(condition) => match condition.worth(walk.world().live()) {
            Ok(worth) => worth != 0,
            Err(_) => false,
        },
        None => false,
    }
}

// Takes the move with this number, writes the step, and says why the steps end there, if they do.
fn step(
    walk: &mut Walk<'_, '_>,
    choice: usize,
    run: &mut PendingSteps,
    sheet: &mut Sheet,
) -> Result<Option<RunHalt>, AllocError>
    ensures { SameModel walk.old walk.new }
{
    if take(walk, choice, sheet)? {
        return Ok(Some(RunHalt::Faulted));
    }
    run.left = run.left.saturating_sub(1);
    if holds(walk, &run.until) {
        return Ok(Some(RunHalt::Met));
    }
    Ok(None)
}

/// Takes the next step of those that are still to be taken, and writes it. Why they end, where they do.
pub fn go_on(
    walk: &mut Walk<'_, '_>,
    limit: usize,
    run: &mut PendingSteps,
    sheet: &mut Sheet,
) -> Result<Option<RunHalt>, AllocError>
    ensures { SameModel walk.old walk.new }
{
    if run.left == 0 {
        return Ok(Some(RunHalt::Steps));
    }
    let moves = walk.moves()?;
    match run.choosing.next(moves.as_slice()) {
        FollowingMove::Stop(halt) => Ok(Some(halt)),
        FollowingMove::Take(_) if walk.at() >= limit => Ok(Some(RunHalt::Limit)),
        FollowingMove::Take(choice) => step(walk, choice, run, sheet),
    }
}
