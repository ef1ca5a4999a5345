// A run without a session: its lines, its chart, its page.
ghost use Rattle.std.specs.Prelude.{◌≡◌, [], false};
ghost use Rattle.view_walk.specs.Walks.{SameModel};

use crate::asking::run_asking;
use crate::lines::{Outlet, flush, run_lines};
use crate::opened::Files;
use crate::output::show;
use crate::serving::run_driven;
use crate::stop::{NoView, RunDevice};
use crate::telling::shown_name;
use crate::trails::Led;
use crate::writing::PageFile;
use program_files::reading::ReadChoices;
use program_files::telling::tell_misfit;
use rand_pcg::Pcg32;
use session::Answer;
use std::io;
use view_page::page::Contents;
use view_run::lines::Sheet;
use view_run::next::is_misfit;
use view_run::plain::run;
use view_run::steps::add_step;
use view_session::charted::{add_chart, most_alive};
use view_session::notes::Notes;
use view_session::replay::{Along, Replay, ReplayReading};
use view_session::told::Told;
use view_text::writer::Writer;
use view_walk::walk::Walk;
use view_words::{RunForm, Wishes};

// So many bytes are written at once.
pub const AT_ONCE: usize = 60_000;

// The choices of a run: along a trail, of a file or of standard input, or of a generator.
fn replay_of(
    rt: &HostRuntime,
    asked: &Wishes,
    files: &mut Files,
    led: Option<Led>,
) -> Replay<ReadChoices> {
    if let Some(led) = led {
        return Replay::Along(led.along, led.notes);
    }
    match (files.choices.take(), asked.seed) {
        (Some(choices), _) => Replay::Read(ReplayReading::new(ReadChoices::new(choices))),
        (None, Some(seed)) => Replay::Chance(Pcg32::new(u64::from(seed), 54)),
        (None, None) => Replay::Along(Along::Stop(Answer::Ended), Notes::new(rt.alloc())),
    }
}

// Gives what a trail says beside its steps to the lines of a run, or takes it back.
fn trade_notes(replay: &mut Replay<ReadChoices>, sheet: &mut Sheet)
    ensures { sheet.new.lines ≡ sheet.old.lines }
{
    if let Some(notes) = replay.notes() {
        std::mem::swap(notes, &mut sheet.notes);
    }
}

// Nothing is written yet of a run of these choices, which gives what a trail says beside its steps.
pub fn sheet_of(rt: &HostRuntime, replay: &mut Replay<ReadChoices>) -> Sheet
    ensures { result.lines ≡ record { text = []; refused = false } }
{
    let mut sheet = Sheet::new(rt.alloc());
    trade_notes(replay, &mut sheet);
    sheet
}

// What the choices are called.
fn choices_name(asked: &Wishes) -> &str {
    match &asked.choices {
        Some(name) => name.as_str(),
        None => "standard input",
    }
}

// Says how many lines of the choices were bad.
fn tell_bad_lines(rt: &HostRuntime, name: &str, count: u32) {
    let _ = match count {
        0 => Ok(()),
        1 => eprintln!(rt; "spinview: {name}: 1 line is no choice, and was passed over"),
        _ => eprintln!(rt; "spinview: {name}: {count} lines are no choices, and were passed over"),
    };
}

// Says which line of the choices does not fit, and whether some were bad.
pub fn tell_choices(rt: &HostRuntime, asked: &Wishes, replay: &Replay<ReadChoices>, end: &str) {
    let Replay::Read(reading) = replay else {
        return;
    };
    let name = choices_name(asked);
    tell_bad_lines(rt, name, replay.bad_lines());
    let choices = &reading.devices.source.reader;
    if end == "choice misfit" {
        let _ = tell_misfit(rt, "spinview", name, choices);
    } else if is_misfit(end) {
        let number = choices.number();
        let _ = eprintln!(rt; "spinview: {name}:{number}: {end}");
    }
}

// The same error once more.
fn same(error: &io::Error) -> io::Error {
    match error.raw_os_error() {
        Some(code) => io::Error::from_raw_os_error(code),
        None => io::Error::from(error.kind()),
    }
}

// Why a run stopped; of choices that cannot be read with what the system said of them.
pub fn why_unread(stop: NoView, replay: &Replay<ReadChoices>) -> NoView {
    match (stop, replay) {
        (NoView::Failed(RunDevice::Choices, None), Replay::Read(reading)) => {
            let why = match &reading.devices.source.error {
                Some(error) => Some(same(error)),
                None => None,
            };
            NoView::Failed(RunDevice::Choices, why)
        }
        (stop, _) => stop,
    }
}

// The name of a file without the folders that lead to it.
pub fn name_of(name: &str) -> &str {
    match name.rsplit_once('/') {
        Some((_, last)) => last,
        None => name,
    }
}

// Whether choices did not fit.
fn told(end: &'static str) -> Result<(), NoView> {
    if is_misfit(end) {
        return Err(NoView::Misfit);
    }
    Ok(())
}

// Writes the chart of a walk that ended so, in which so many processes lived at once.
fn write_chart(
    walk: &mut Walk<'_, '_>,
    rt: &HostRuntime,
    replay: &mut Replay<ReadChoices>,
    most: usize,
    end: &'static str,
) -> Result<&'static str, NoView>
    ensures { SameModel walk.old walk.new }
{
    let steps = walk.legs().len();
    let mut out = Writer::new(rt.alloc());
    let mut none = Notes::new(rt.alloc());
    let notes = match replay.notes() {
        Some(notes) => notes,
        None => &mut none,
    };
    add_chart(walk, steps, most, notes, &mut out)?;
    view_chart::chart::add_end(steps, end.as_bytes(), &mut out);
    show(rt, &out)?;
    Ok(end)
}

// Runs, and writes the chart.
fn run_chart(
    walk: &mut Walk<'_, '_>,
    rt: &HostRuntime,
    replay: &mut Replay<ReadChoices>,
    limit: usize,
) -> Result<&'static str, NoView>
    ensures { SameModel walk.old walk.new }
{
    let mut printed = Vec::new(rt.alloc());
    let ran = run(walk, replay, limit, &mut printed)?;
    write_chart(walk, rt, replay, ran.most, ran.end)
}

// Writes the page of a run whose lines were kept.
fn write_page(
    rt: &HostRuntime,
    file: &mut PageFile,
    asked: &Wishes,
    model: &[u8],
    steps: &Writer,
    lines: &Writer,
) -> Result<(), NoView> {
    if steps.is_refused() || lines.is_refused() {
        return Err(NoView::Memory);
    }
    let contents = Contents {
        name: name_of(shown_name(asked)).as_bytes(),
        model,
        steps: steps.bytes(),
        lines: lines.bytes(),
    };
    Ok(file.write(rt, contents)?)
}

// Writes the lines of a run, where they are asked for, and its page.
fn run_sheet(
    walk: &mut Walk<'_, '_>,
    rt: &HostRuntime,
    replay: &mut Replay<ReadChoices>,
    asked: &Wishes,
    model: &[u8],
    page: &mut Option<PageFile>,
) -> Result<&'static str, NoView>
    ensures { SameModel walk.old walk.new }
{
    let mut sheet = sheet_of(rt, replay);
    sheet.has_items = page.is_some();
    let mut outlet = Outlet {
        are_shown: asked.form == RunForm::Json,
        kept: match page {
            Some(_) => Some(Writer::new(rt.alloc())),
            None => None,
        },
    };
    let end = run_lines(walk, rt, replay, asked, &mut outlet, &mut sheet)?;
    flush(rt, &mut outlet, 0, &mut sheet)?;
    if let (Some(file), Some(lines)) = (page, &outlet.kept) {
        write_page(rt, file, asked, model, &sheet.items, lines)?;
    }
    trade_notes(replay, &mut sheet);
    Ok(end)
}

// Writes the steps of a run.
fn run_steps(
    walk: &mut Walk<'_, '_>,
    rt: &HostRuntime,
    replay: &mut Replay<ReadChoices>,
    limit: usize,
) -> Result<&'static str, NoView>
    ensures { SameModel walk.old walk.new }
{
    let mut told = Told::new(rt.alloc());
    for _turn in 0..u64::MAX {
        let end = add_step(walk, replay, limit, &mut told)?;
        if told.out.len() > AT_ONCE || end.is_some() {
            show(rt, &told.out)?;
            told.out.clear();
        }
        if let Some(end) = end {
            return Ok(end);
        }
    }
    Ok("step limit")
}

// Shows a run in each form that is asked for. Why it ended.
fn run_forms(
    walk: &mut Walk<'_, '_>,
    rt: &HostRuntime,
    replay: &mut Replay<ReadChoices>,
    asked: &Wishes,
    model: &[u8],
    page: &mut Option<PageFile>,
) -> Result<&'static str, NoView>
    ensures { SameModel walk.old walk.new }
{
    let limit = asked.limit as usize;
    if asked.form == RunForm::Json || page.is_some() {
        let end = run_sheet(walk, rt, replay, asked, model, page)?;
        if asked.form != RunForm::Chart {
            return Ok(end);
        }
        let steps = walk.legs().len();
        let most = most_alive(walk, steps)?;
        return write_chart(walk, rt, replay, most, end);
    }
    match asked.form {
        RunForm::Chart => run_chart(walk, rt, replay, limit),
        _ => run_steps(walk, rt, replay, limit),
    }
}

// A run without a session, of its choices, or along the walk.
pub fn run_all(
    walk: &mut Walk<'_, '_>,
    rt: &HostRuntime,
    asked: &Wishes,
    model: &[u8],
    files: &mut Files,
    led: Option<Led>,
) -> Result<(), NoView>
    ensures { SameModel walk.old walk.new }
{
    walk.go_to(0)?;
    let mut replay = replay_of(rt, asked, files, led);
    if asked.asks {
        return run_asking(walk, rt, &mut replay, asked, files);
    }
    if asked.serves {
        return run_driven(walk, rt, &mut replay, asked, files);
    }
    match run_forms(walk, rt, &mut replay, asked, model, &mut files.page) {
        Ok(end) => {
            tell_choices(rt, asked, &replay, end);
            told(end)
        }
        Err(stop) => Err(why_unread(stop, &replay)),
    }
}
