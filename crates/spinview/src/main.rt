// Shows a run of a model: a session that walks through its states, or all of a run.
#![tactic(auto)]

mod asking;
mod lines;
mod opened;
mod output;
mod runs;
mod serving;
mod shown;
mod stop;
mod telling;
mod trails;
mod writing;

ghost use Rattle.view_walk.specs.Walks.{SameModel};

use opened::{Files, RunTexts, has_session, open_all};
use output::show;
use pml_check::Checked;
use pml_play::{Rejection, checked_of, expanded_of};
use pml_token::token::Token;
use runs::run_all;
use shown::run_session;
use std::alloc::AllocError;
use std::fs::{File, OpenFile};
use std::process::ExitCode;
use std::{env, fs, io};
use stop::NoView;
use telling::{tell_refusal, tell_stop};
use trail_text::marks::Marks;
use trails::{Led, follow};
use view_session::answers::Setting;
use view_walk::walk::Walk;
use view_words::{Wishes, read};

fn words_of(rt: &HostRuntime) -> Result<Vec<String>, NoView> {
    match env::args(rt) {
        Ok(words) => Ok(words.collect(rt.alloc())?),
        Err(error) if error.kind() == io::ErrorKind::OutOfMemory => Err(NoView::Memory),
        Err(_) => Err(NoView::NotText),
    }
}

// What the words of the command line ask for.
fn asked_of(rt: &HostRuntime) -> Result<Wishes, NoView> {
    let words = words_of(rt)?;
    let texts: Vec<&str> = words.iter().map(|word| word.as_str()).collect(rt.alloc())?;
    match read(rt.alloc(), texts.as_slice()) {
        Ok(asked) if asked.fits_together() => Ok(asked),
        Ok(_) => Err(NoView::NotTogether),
        Err(error) => Err(NoView::Words(error)),
    }
}

// There is no model: memory ran out, or the text is refused, which is said.
fn rejected(rt: &HostRuntime, asked: &Wishes, texts: &RunTexts, rejection: Rejection) -> NoView {
    match rejection {
        Rejection::Memory => NoView::Memory,
        Rejection::Refused(refusal, line) => {
            tell_refusal(rt, asked, &texts.model, refusal, line);
            NoView::Refused
        }
    }
}

// Follows the trail that is asked for, and says where it does not fit, and in a session what Spin said.
fn along_trail(
    walk: &mut Walk<'_, '_>,
    rt: &HostRuntime,
    asked: &Wishes,
    texts: &RunTexts,
    marks: &Marks,
) -> Result<Option<Led>, NoView>
    ensures { SameModel walk.old walk.new }
{
    let (Some(name), Some(text)) = (&asked.trail, &texts.trail) else {
        return Ok(None);
    };
    let (led, first) = follow(walk, rt, asked, name.as_str(), text.as_slice(), marks)?;
    if has_session(asked) {
        show(rt, &first)?;
    }
    Ok(Some(led))
}

// Shows a walk: all of a run, or a session that goes through it.
fn show_walk(
    walk: &mut Walk<'_, '_>,
    rt: &HostRuntime,
    asked: &Wishes,
    texts: &RunTexts,
    files: &mut Files,
    led: Option<Led>,
) -> Result<(), NoView>
    ensures { SameModel walk.old walk.new }
{
    if !has_session(asked) {
        return run_all(walk, rt, asked, texts.shown(), files, led);
    }
    let setting = Setting {
        text: texts.shown(),
        limit: asked.limit as usize,
    };
    run_session(walk, rt, asked, setting, files, led)
}

// Closes the record of a walk that is over.
fn close_record(
    walk: &Walk<'_, '_>,
    rt: &HostRuntime,
    asked: &Wishes,
    files: &mut Files,
) -> Result<(), NoView> {
    match &mut files.rec {
        Some(record) => record.close(rt, walk.legs(), !has_session(asked)),
        None => Ok(()),
    }
}

fn view_walk(
    walk: &mut Walk<'_, '_>,
    rt: &HostRuntime,
    asked: &Wishes,
    texts: &RunTexts,
    files: &mut Files,
    marks: &Marks,
) -> Result<(), NoView>
    ensures { SameModel walk.old walk.new }
{
    let led = along_trail(walk, rt, asked, texts, marks)?;
    let seen = show_walk(walk, rt, asked, texts, files, led);
    close_record(walk, rt, asked, files)?;
    seen
}

fn view_model(
    checked: &Checked<'_>,
    rt: &HostRuntime,
    asked: &Wishes,
    texts: &RunTexts,
    files: &mut Files,
    marks: &Marks,
) -> Result<(), NoView> {
    match Walk::new(rt.alloc(), checked, asked.is_lossy) {
        Ok(mut walk) => view_walk(&mut walk, rt, asked, texts, files, marks),
        Err(_) => Err(NoView::Memory),
    }
}

// What a trail knows of the places of a model, where one is followed.
fn marks_of(tokens: &[Token<'_>], rt: &HostRuntime, asked: &Wishes) -> Result<Marks, AllocError> {
    let mut marks = Marks::new(rt.alloc());
    if asked.trail.is_some() {
        marks.mark_all(tokens)?;
    }
    Ok(marks)
}

fn view_tokens<'a>(
    tokens: &'a [Token<'a>],
    rt: &HostRuntime,
    asked: &Wishes,
    texts: &RunTexts,
    files: &mut Files,
) -> Result<(), NoView> {
    let marks = marks_of(tokens, rt, asked)?;
    match checked_of(rt.alloc(), tokens) {
        Ok(checked) => view_model(&checked, rt, asked, texts, files, &marks),
        Err(rejection) => Err(rejected(rt, asked, texts, rejection)),
    }
}

fn view_text(
    rt: &HostRuntime,
    asked: &Wishes,
    texts: &RunTexts,
    files: &mut Files,
) -> Result<(), NoView> {
    match expanded_of(rt.alloc(), texts.model.bytes.as_slice()) {
        Ok(tokens) => view_tokens(tokens.as_slice(), rt, asked, texts, files),
        Err(rejection) => Err(rejected(rt, asked, texts, rejection)),
    }
}

fn view(rt: &HostRuntime, asked: &Wishes) -> Result<(), NoView> {
    let mut opened = open_all(rt, asked)?;
    view_text(rt, asked, &opened.texts, &mut opened.files)
}

// Holds the descriptors 0 to 2 where the caller has closed them, so that no file of a run takes the place of one.
fn held_descriptors(rt: &HostRuntime) -> [io::Result<File>; 3] {
    [fs::open(rt, "/"), fs::open(rt, "/"), fs::open(rt, "/")]
}

fn status_of(rt: &HostRuntime) -> u8 {
    match asked_of(rt) {
        Ok(asked) => match view(rt, &asked) {
            Ok(()) => 0,
            Err(stop) => tell_stop(rt, &stop, asked.explains),
        },
        Err(stop) => tell_stop(rt, &stop, false),
    }
}

fn main(rt: HostRuntime) -> ExitCode {
    let _held = held_descriptors(&rt);
    ExitCode::from(status_of(&rt))
}
