// Reads the words, opens the files, plays and ends with a status.
#![tactic(auto)]

ghost use Rattle.std.specs.Prelude.{◌≡◌, IfOk, IfErr, map};
ghost use Rattle.std.specs.Process.{exit_status};
ghost use Rattle.std.specs.String.{string_bytes};
ghost use Rattle.streams.specs.Streams.{EndsOver, known};
ghost use Rattle.spinplay_program.specs.Ended.{HasPlayed, HasRun, HasRunSome, fit, IsAskedFor, IsNoCommand, IsOfFiles, IsOutcome, IsStatus, IsStatusOf, IsStatusOfRun};

mod checked;
mod files;
mod stop;
mod telling;

use checked::{ModelOutcome, check_model};
use files::{choices_of, created, held_of};
use program_files::fault::NoFile;
use program_files::input::Input;
use program_files::models;
use program_files::models::{Model, model_in};
use spinplay::{
    Arguments, End, FollowedReader, Heard, PlayedSession, Rejection, Streams, arguments,
    session_over,
};
use std::alloc::{AllocError, Global};
use std::fs::{File, OpenFile};
use std::io::{Read, Write};
use std::process::ExitCode;
use std::rt::Stdout;
use std::{env, fs, io};
use stop::{NoRun, Unplayed};
use telling::{
    Errors, PROGRAM, explain_choices, explain_end, name_of, tell_end, tell_refusal, tell_stop,
};

fn words_of(rt: &HostRuntime) -> Result<Vec<String>, NoRun> {
    match env::args(rt) {
        Ok(words) => Ok(words.collect(rt.alloc())?),
        Err(error) if error.kind() == io::ErrorKind::OutOfMemory => Err(NoRun::Memory),
        Err(_) => Err(NoRun::NotText),
    }
}

// The words of a command line, as texts.
fn texts_of<'w>(alloc: Global, words: &'w [String]) -> Result<Vec<&'w str>, AllocError>
    ensures { IfOk result (λ texts. map (λ w. w.now) texts.items ≡ map string_bytes words.now) }
{
    let mut texts = Vec::new(alloc);
    let mut rest = words;
    while let [word, behind @ ..] = rest {
        texts.push(word.as_str())?;
        rest = behind;
    }
    Ok(texts)
}

// Whether the options of preparing fit together: the files of another that prepared the model are of no use beside it.
fn fit_together(asked: &Arguments) -> bool
    ensures { result ≡ fit asked.now }
{
    if asked.prepare {
        asked.source.is_none() && asked.lines.is_none()
    } else {
        !asked.no_cpp && (asked.defines.is_empty() && asked.folders.is_empty())
    }
}

// What these words of a command line ask for.
fn asked_of(alloc: Global, words: &[String]) -> Result<Arguments, NoRun>
    ensures ok { IfOk result (IsAskedFor (map string_bytes words.now)) }
    ensures err { IfErr result (IsNoCommand (map string_bytes words.now)) }
{
    let texts = match texts_of(alloc, words) {
        Ok(texts) => texts,
        Err(_) => return Err(NoRun::Memory),
    };
    let asked = match arguments(alloc, texts.as_slice()) {
        Ok(asked) => asked,
        Err(error) => return Err(NoRun::Words(error)),
    };
    if asked.convert && asked.rec.is_some() {
        return Err(NoRun::ConvertWithRecord);
    }
    if !fit_together(&asked) {
        return Err(NoRun::NotTogether);
    }
    Ok(asked)
}

// Where a run reads its choices, and where its output and its record go.
type Opened = Streams<Heard<FollowedReader<Input>>, Heard<Stdout>, Heard<File>>;

// Opens the choices and then the record.
fn open_all(rt: &HostRuntime, asked: &Arguments, model: &Model) -> Result<Opened, NoFile> {
    let choices = choices_of(rt, asked)?;
    let rec = match &asked.rec {
        Some(name) => {
            let held = held_of(rt, asked, model.file, choices.file)?;
            Some(Heard::new(created(rt, name.as_str(), &held)?))
        }
        None => None,
    };
    Ok(Streams {
        source: Heard::new(FollowedReader::new(rt.alloc(), choices.input)),
        out: Heard::new(rt.stdout()),
        rec,
    })
}

// A run that was played over what was opened.
type PlayedOver = PlayedSession<Heard<FollowedReader<Input>>, Heard<Stdout>, Heard<File>>;

// Explains what came of a run that was no run, or that a device ended.
fn explained(rt: &HostRuntime, asked: &Arguments, model: &Model, ran: &PlayedOver) {
    let rec = match &ran.streams.rec {
        Some(file) => file.error(),
        None => None,
    };
    let errors = Errors {
        source: ran.streams.source.error(),
        out: ran.streams.out.error(),
        rec,
    };
    explain_end(rt, asked, model, &ran.end, errors);
    explain_choices(rt, &asked.choices, ran.streams.source.device(), &ran.end);
}

// Plays the text over streams as it is asked for, or converts the choices.
fn played_over<R: Read, O: Write, K: Write>(
    alloc: Global,
    text: &[u8],
    asked: &Arguments,
    streams: Streams<R, O, K>,
) -> PlayedSession<R, O, K>
    ensures { let k = known R.remaining O.contents K.contents in
        EndsOver asked.now.convert text.now asked.now.options (k streams) (k result.streams) result.end }
{
    session_over(alloc, text, &asked.options, asked.convert, streams)
}

// Plays this text over streams, and says what is to be said of the end.
fn run_text<R: Read, O: Write, K: Write>(
    rt: &HostRuntime,
    asked: &Arguments,
    text: &[u8],
    streams: Streams<R, O, K>,
) -> PlayedSession<R, O, K>
    ensures { let k = known R.remaining O.contents K.contents in
        EndsOver asked.now.convert text.now asked.now.options (k streams) (k result.streams) result.end }
{
    let played = played_over(rt.alloc(), text, asked, streams);
    if asked.convert {
        tell_refusal(rt, &played.end);
    }
    tell_end(rt, &played.end);
    played
}

// Plays a model as it is asked for, and answers the end, whose status is that of the program.
fn run(rt: &HostRuntime, asked: &Arguments, model: &Model) -> Result<End, NoRun>
    ensures ok { IfOk result (HasPlayed asked.now model.now.bytes.items) }
    ensures err { IfErr result IsOfFiles }
{
    let opened = match open_all(rt, asked, model) {
        Ok(opened) => opened,
        Err(fault) => return Err(NoRun::File(fault)),
    };
    let played = run_text(rt, asked, model.bytes.as_slice(), opened);
    if asked.explain {
        explained(rt, asked, model, &played);
    }
    Ok(played.end)
}

// Holds the descriptors 0 to 2 where the caller has closed them, so that no file of a run takes the place of one. A folder gives no byte
// and takes none, so a closed output is a failed device.
fn held_descriptors(rt: &HostRuntime) -> [io::Result<File>; 3] {
    [fs::open(rt, "/"), fs::open(rt, "/"), fs::open(rt, "/")]
}

// Checks or plays a model, as it is asked for.
fn run_model(rt: &HostRuntime, asked: &Arguments, model: &Model) -> Result<ModelOutcome, NoRun>
    ensures ok { IfOk result (HasRun asked.now model.now.bytes.items) }
    ensures err { IfErr result IsOfFiles }
{
    if asked.check {
        return Ok(ModelOutcome::Checked(check_model(rt, asked, model)));
    }
    match run(rt, asked, model) {
        Ok(end) => Ok(ModelOutcome::Ended(end)),
        Err(stop) => Err(stop),
    }
}

// The same of the model that is asked for.
fn run_asked(rt: &HostRuntime, asked: &Arguments) -> Result<ModelOutcome, NoRun>
    ensures ok { IfOk result (HasRunSome asked.now) }
    ensures err { IfErr result IsOfFiles }
{
    let wanted = models::ModelOptions {
        file: asked.model.as_str(),
        name: name_of(asked),
        prepare: asked.prepare,
        no_cpp: asked.no_cpp,
        defines: asked.defines.as_slice(),
        folders: asked.folders.as_slice(),
    };
    match model_in(rt, PROGRAM, wanted) {
        Ok(model) => run_model(rt, asked, &model),
        Err(fault) => Err(NoRun::File(fault)),
    }
}

// Does what these words ask for. What came of it, or why nothing did.
fn outcome_of(rt: &HostRuntime, words: &[String]) -> Result<ModelOutcome, Unplayed>
    ensures { IsOutcome (map string_bytes words.now) result }
{
    let asked = match asked_of(rt.alloc(), words) {
        Ok(asked) => asked,
        Err(stop) => return Err(Unplayed::new(stop, false)),
    };
    match run_asked(rt, &asked) {
        Ok(ran) => Ok(ran),
        Err(stop) => Err(Unplayed::new(stop, asked.explain)),
    }
}

// The status of what came of a model.
fn status_of_run(ran: ModelOutcome) -> u8
    ensures { IsStatusOfRun ran result }
{
    match ran {
        ModelOutcome::Ended(end) => end.status,
        ModelOutcome::Checked(None) => 0,
        ModelOutcome::Checked(Some(Rejection::Refused(_, _))) => 3,
        ModelOutcome::Checked(Some(Rejection::Memory)) => 6,
    }
}

// The status of an outcome. Where nothing came of the words it is told why.
fn status_of(rt: &HostRuntime, outcome: &Result<ModelOutcome, Unplayed>) -> u8
    ensures { IsStatusOf outcome.now result }
{
    match outcome {
        Ok(ran) => status_of_run(*ran),
        Err(unplayed) => tell_stop(rt, &unplayed.stop, unplayed.explains),
    }
}

// Does what these words ask for, and answers the status of the program.
fn ended(rt: &HostRuntime, words: &[String]) -> ExitCode
    ensures { IsStatus (map string_bytes words.now) (exit_status result) }
{
    let outcome = outcome_of(rt, words);
    ExitCode::from(status_of(rt, &outcome))
}

fn main(rt: HostRuntime) -> ExitCode {
    let _held = held_descriptors(&rt);
    match words_of(&rt) {
        Ok(words) => ended(&rt, words.as_slice()),
        Err(stop) => ExitCode::from(tell_stop(&rt, &stop, false)),
    }
}
