// A session: its first choices, and its lines.
ghost use Rattle.view_text.specs.Written.{Stays};
ghost use Rattle.view_walk.specs.Walks.{SameModel};

use crate::opened::Files;
use crate::output::{end_prompt, is_typed, prompt, show};
use crate::runs::{tell_choices, why_unread};
use crate::stop::{NoView, RunDevice, failed};
use crate::trails::Led;
use crate::writing::{Unsaved, save};
use program_files::reading::ReadChoices;
use session::Answer;
use std::alloc::AllocError;
use std::io::{BufRead, BufReader};
use view_session::answers::{Reply, Setting, answer, begin, go_further, resume};
use view_session::record::choice_count;
use view_session::replay::{Along, Replay, ReplayReading, end_of};
use view_session::steps::choose;
use view_session::told::Told;
use view_text::writer::Writer;
use view_walk::walk::{Walk, Went};
use view_words::Wishes;

// What a session tells, and the file that was named to save in, where it was asked about.
#[derive(Drop)]
struct Session {
    told: Told,
    sure: Option<String>,
}

impl Session {
    // Whether a file was named before to save in.
    fn is_sure(&self, name: &str) -> bool {
        match &self.sure {
            Some(sure) => sure.as_str() == name,
            None => false,
        }
    }
}

// Says that choices were saved.
fn add_saved(walk: &Walk<'_, '_>, out: &mut Writer)
    ensures { Stays out.old out.new }
{
    let count = choice_count(walk.legs());
    out.add(b"saved: ");
    out.number(count);
    out.add(if count == 1 {
        b" choice; -u"
    } else {
        b" choices; -u"
    });
    out.number(walk.at());
    out.add(b" stops at this step\n");
}

// Saves the choices of a walk, and says whether that was done.
fn save_as(
    walk: &Walk<'_, '_>,
    rt: &HostRuntime,
    files: &Files,
    name: &str,
    session: &mut Session,
) -> Result<(), AllocError>
    ensures { Stays session.old.told.out session.new.told.out }
{
    let is_sure = session.is_sure(name);
    session.sure = None;
    match save(rt, name, is_sure, &files.held, walk.legs()) {
        Ok(()) => add_saved(walk, &mut session.told.out),
        Err(Unsaved::Asked) => {
            session.sure = Some(String::from_str(rt.alloc(), name)?);
            session.told.out.add(name.as_bytes());
            session
                .told
                .out
                .add(b" is there: save it again to write over it\n");
        }
        Err(Unsaved::Failed) => {
            session.told.out.add(b"cannot save ");
            session.told.out.add(name.as_bytes());
            session.told.out.add(b"\n");
        }
    }
    Ok(())
}

// Keeps the record of the walk, and then shows what there is to be shown of it.
fn show_all(
    walk: &Walk<'_, '_>,
    rt: &HostRuntime,
    files: &mut Files,
    session: &mut Session,
) -> Result<(), NoView> {
    if let Some(record) = &mut files.rec {
        record.keep(rt, walk.legs())?;
    }
    show(rt, &session.told.out)?;
    session.told.out.clear();
    Ok(())
}

// Says that memory was refused, and leads out of that.
fn recover(walk: &mut Walk<'_, '_>, out: &mut Writer) -> Result<(), NoView>
    ensures model { SameModel walk.old walk.new }
    ensures stays { Stays out.old out.new }
{
    let at = walk.at();
    walk.go_to(at)?;
    out.add(b"out of memory\n");
    Ok(())
}

// Does what follows a line, which is shown piece by piece: no choice is made between two pieces. Whether the session goes on.
fn follow<'l>(
    walk: &mut Walk<'_, '_>,
    rt: &HostRuntime,
    setting: Setting<'_>,
    files: &mut Files,
    first: Result<Reply<'l>, AllocError>,
    session: &mut Session,
) -> Result<bool, NoView>
    ensures { SameModel walk.old walk.new }
{
    let mut reply = first;
    for _turn in 0..u64::MAX {
        match reply {
            Ok(Reply::Further(command)) => {
                show(rt, &session.told.out)?;
                session.told.out.clear();
                reply = go_further(walk, setting, command, &mut session.told);
            }
            Ok(Reply::Save(name)) => {
                save_as(walk, rt, files, name, session)?;
                return Ok(true);
            }
            Ok(Reply::On) => return Ok(true),
            Ok(Reply::End) => return Ok(false),
            Err(_) => {
                recover(walk, &mut session.told.out)?;
                return Ok(true);
            }
        }
    }
    Ok(true)
}

// Whether a line is to save once more.
fn is_save<'l>(first: &Result<Reply<'l>, AllocError>) -> bool {
    matches!(first, Ok(Reply::Save(_)))
}

// Answers a line. Whether the session goes on.
fn answer_line(
    walk: &mut Walk<'_, '_>,
    rt: &HostRuntime,
    setting: Setting<'_>,
    files: &mut Files,
    line: &[u8],
    session: &mut Session,
) -> Result<bool, NoView>
    ensures { SameModel walk.old walk.new }
{
    let first = answer(walk, setting, line, &mut session.told);
    if !is_save(&first) {
        session.sure = None;
    }
    let goes_on = follow(walk, rt, setting, files, first, session)?;
    show_all(walk, rt, files, session)?;
    Ok(goes_on)
}

// Takes the next of the choices that are to be taken first, without its lines. What they say, where it is no step.
fn take_next(
    walk: &mut Walk<'_, '_>,
    rt: &HostRuntime,
    replay: &mut Replay<ReadChoices>,
    printed: &mut Vec<u8>,
) -> Result<Option<Answer>, NoView>
    ensures { SameModel walk.old walk.new }
{
    let moves = walk.moves()?;
    if moves.is_empty() {
        return Ok(Some(Answer::Ended));
    }
    let said = replay.next(rt.alloc(), walk, moves.as_slice())?;
    let Answer::Pick(choice) = said else {
        return Ok(Some(said));
    };
    printed.clear();
    match choose(walk, choice, printed)? {
        Went::On => Ok(None),
        _ => Ok(Some(Answer::Ended)),
    }
}

// Takes the choices that are to be taken first, up to the limit. What they say, where they end.
fn take_all(
    walk: &mut Walk<'_, '_>,
    rt: &HostRuntime,
    replay: &mut Replay<ReadChoices>,
    limit: usize,
) -> Result<Answer, NoView>
    ensures { SameModel walk.old walk.new }
{
    let mut printed = Vec::new(rt.alloc());
    for _turn in walk.at()..limit {
        if let Some(said) = take_next(walk, rt, replay, &mut printed)? {
            return Ok(said);
        }
    }
    Ok(Answer::Ended)
}

// Takes the choices of a file first, and says where they do not fit.
fn take_first(
    walk: &mut Walk<'_, '_>,
    rt: &HostRuntime,
    asked: &Wishes,
    files: &mut Files,
) -> Result<(), NoView>
    ensures { SameModel walk.old walk.new }
{
    let Some(choices) = files.choices.take() else {
        return Ok(());
    };
    let mut replay = Replay::Read(ReplayReading::new(ReadChoices::new(choices)));
    match take_all(walk, rt, &mut replay, asked.limit as usize) {
        Ok(said) => {
            tell_choices(rt, asked, &replay, end_of(said));
            Ok(())
        }
        Err(stop) => Err(why_unread(stop, &replay)),
    }
}

// Shows where a session begins: behind its first choices, or at the end of a trail.
fn begin_behind(
    walk: &mut Walk<'_, '_>,
    rt: &HostRuntime,
    asked: &Wishes,
    files: &mut Files,
    along: Option<Along>,
    told: &mut Told,
) -> Result<(), NoView>
    ensures model { SameModel walk.old walk.new }
    ensures stays { Stays told.old.out told.new.out }
{
    let limit = asked.limit as usize;
    if let Some(along) = along {
        resume(walk, limit, along, told)?;
        return Ok(());
    }
    take_first(walk, rt, asked, files)?;
    begin(walk, limit, told)?;
    Ok(())
}

// A line without what ends it.
pub fn without_end(line: &[u8]) -> &[u8] {
    match line {
        [front @ .., b'\n'] => front,
        _ => line,
    }
}

// Reads lines and answers them.
fn answer_lines(
    walk: &mut Walk<'_, '_>,
    rt: &HostRuntime,
    setting: Setting<'_>,
    files: &mut Files,
    session: &mut Session,
) -> Result<(), NoView>
    ensures { SameModel walk.old walk.new }
{
    let mut input = match BufReader::new(rt.alloc(), rt.stdin()) {
        Ok(input) => input,
        Err(_) => return Err(NoView::Memory),
    };
    let prompts = is_typed(rt);
    let mut line = Vec::new(rt.alloc());
    for _turn in 0..u64::MAX {
        line.clear();
        prompt(rt, prompts)?;
        match input.read_until(b'\n', &mut line) {
            Ok(0) => {
                end_prompt(rt, prompts)?;
                break;
            }
            Ok(_) => {}
            Err(error) => return Err(failed(RunDevice::Input, error)),
        }
        if !answer_line(
            walk,
            rt,
            setting,
            files,
            without_end(line.as_slice()),
            session,
        )? {
            break;
        }
    }
    Ok(())
}

// A session.
pub fn run_session(
    walk: &mut Walk<'_, '_>,
    rt: &HostRuntime,
    asked: &Wishes,
    setting: Setting<'_>,
    files: &mut Files,
    led: Option<Led>,
) -> Result<(), NoView>
    ensures { SameModel walk.old walk.new }
{
    let mut session = Session {
        told: Told::new(rt.alloc()),
        sure: None,
    };
    let mut along = None;
    if let Some(led) = led {
        along = Some(led.along);
        session.told.notes = led.notes;
    }
    begin_behind(walk, rt, asked, files, along, &mut session.told)?;
    show_all(walk, rt, files, &mut session)?;
    answer_lines(walk, rt, setting, files, &mut session)
}
