// What standard error says. A message that cannot be shown is left out.
ghost use Rattle.spinplay_program.specs.Ended.{IsStatusOfStop};

use crate::stop::NoRun;
use program_files::fault::NoFile;
use program_files::input::Input;
use program_files::models::Model;
use program_files::refusal::{ExplainedText, explained, explained_beside};
use program_files::telling::{explain_device, tell_cut, tell_file, tell_misfit};
use program_files::words::{FrontEnd, tell_words};
use spinplay::{Arguments, Cause, End, FollowedReader, Refusal, shown_file};
use std::alloc::{AllocError, Global};
use std::io;

// What the program is called in what it says.
pub const PROGRAM: &str = "spinplay";

// Says why a model is refused: the line that a run would have in its output.
pub fn tell_refused(rt: &HostRuntime, refusal: Refusal) {
    if let Ok(words) = str::from_utf8(diagnostic_words::of_refusal(refusal)) {
        let _ = eprintln!(rt; "refused M{} ({words})", refusal.number());
    }
}

// Says the line of a refusal, where it has one.
pub fn tell_line(rt: &HostRuntime, refusal: Refusal, line: u32) {
    if line > 0 {
        let _ = eprintln!(rt; "spinplay: line {line}: M{}", refusal.number());
    }
}

// Says why a model is refused whose choices are converted.
pub fn tell_refusal(rt: &HostRuntime, end: &End) {
    if let Cause::Refused(refusal, _) = end.cause {
        tell_refused(rt, refusal);
    }
}

// What is said of an end, beside the output.
pub fn tell_end(rt: &HostRuntime, end: &End) {
    match end.cause {
        Cause::Refused(refusal, line) => tell_line(rt, refusal, line),
        Cause::SourceFailed | Cause::OutFailed | Cause::RecordFailed => {
            let _ = eprintln!(rt; "spinplay: device failed");
        }
        Cause::Memory => {
            let _ = eprintln!(rt; "spinplay: out of memory");
        }
        _ => {}
    }
}

// What explanations call a model.
pub fn name_of(asked: &Arguments) -> &str {
    match &asked.name {
        Some(name) => name.as_str(),
        None => asked.model.as_str(),
    }
}

// Why a model is refused, and where, with the lines of what it was prepared of.
fn words_of_refusal(
    rt: &HostRuntime,
    asked: &Arguments,
    model: &Model,
    refusal: Refusal,
) -> Result<String, NoFile> {
    let text = model.bytes.as_slice();
    if let Some(own) = &model.own {
        return explained_beside(rt, name_of(asked), text, own, refusal);
    }
    let shown = ExplainedText {
        name: name_of(asked),
        text,
        source: &asked.source,
        lines: &asked.lines,
    };
    explained(rt, shown, refusal)
}

// Says why a model is refused, and where, unless memory is refused for it: without its files it would show another line.
pub fn explain_refusal(rt: &HostRuntime, asked: &Arguments, model: &Model, refusal: Refusal) {
    if let Ok(words) = words_of_refusal(rt, asked, model, refusal) {
        let _ = eprint!(rt; "{words}");
    }
}

// The file in which the choices of a run stand, or what stands for it.
fn choices_of(alloc: Global, asked: &Arguments) -> Result<String, AllocError> {
    match (&asked.choices, &asked.rec) {
        (Some(name), _) | (None, Some(name)) => shown_file(alloc, name.as_str()),
        (None, None) => String::from_str(alloc, "FILE"),
    }
}

// Adds the values of an option, as a shell takes them.
fn add_values(out: &mut String, option: &str, values: &[String]) -> Result<(), AllocError> {
    let alloc = *out.allocator();
    for value in values {
        let value = shown_file(alloc, value.as_str())?;
        let word = format!(in alloc; " {option}'{value}'")?;
        out.push_str(word.as_str())?;
    }
    Ok(())
}

// The options that say how a model is prepared.
fn preparing(alloc: Global, asked: &Arguments) -> Result<String, AllocError> {
    let mut words = String::new(alloc);
    if asked.prepare {
        words.push_str(" --prepare")?;
        add_values(&mut words, "-D", asked.defines.as_slice())?;
        add_values(&mut words, "-I", asked.folders.as_slice())?;
    }
    if asked.no_cpp {
        words.push_str(" --no-cpp")?;
    }
    Ok(words)
}

// Says by which command the values are shown that the statement of a fault read: a run keeps no state behind it, and spinview goes over it again.
fn explain_fault(rt: &HostRuntime, asked: &Arguments) -> Result<(), AllocError> {
    let own = shown_file(rt.alloc(), name_of(asked))?;
    let choices = choices_of(rt.alloc(), asked)?;
    let lossy = if asked.options.lossy { " -m" } else { "" };
    let prepare = preparing(rt.alloc(), asked)?;
    let prepare = prepare.as_str();
    let recorded = if asked.choices.is_none() && asked.rec.is_none() {
        "record the choices by --record FILE, and then: "
    } else {
        ""
    };
    let _ = if asked.source.is_some() {
        eprintln!(rt;
            "spinplay: to see the values that it read: {recorded}spinprep {own} > prepared.pml; spinview{lossy} --choices {choices} prepared.pml"
        )
    } else {
        eprintln!(rt;
            "spinplay: to see the values that it read: {recorded}spinview{prepare}{lossy} --choices {choices} {own}"
        )
    };
    Ok(())
}

// Why the devices of a run failed last, where an error said so.
#[derive(Clone, Copy)]
pub struct Errors<'e> {
    pub source: Option<&'e io::Error>,
    pub out: Option<&'e io::Error>,
    pub rec: Option<&'e io::Error>,
}

// Explains an end that is no run's own, as a refusal or a device that failed, or that is a fault.
pub fn explain_end(rt: &HostRuntime, asked: &Arguments, model: &Model, end: &End, errors: Errors) {
    match end.cause {
        Cause::Refused(refusal, _) => explain_refusal(rt, asked, model, refusal),
        Cause::Fault(_) => {
            let _ = explain_fault(rt, asked);
        }
        Cause::SourceFailed => explain_device(rt, PROGRAM, "choices", errors.source),
        Cause::OutFailed => explain_device(rt, PROGRAM, "output", errors.out),
        Cause::RecordFailed => explain_device(rt, PROGRAM, "record", errors.rec),
        _ => {}
    }
}

// Explains what came of the choices of a file, or of standard input where there is no name of one.
pub fn explain_choices(
    rt: &HostRuntime,
    name: &Option<String>,
    choices: &FollowedReader<Input>,
    end: &End,
) {
    if let Cause::Misfit = end.cause {
        let shown = match name {
            Some(name) => name.as_str(),
            None => "standard input",
        };
        let _ = tell_misfit(rt, PROGRAM, shown, choices);
    }
    if let Some(name) = name {
        if choices.ends_within() {
            let _ = tell_cut(rt, PROGRAM, name.as_str(), choices);
        }
    }
}

// Says why there was no run, and more of it where that is asked for, and answers the status.
pub fn tell_stop(rt: &HostRuntime, stop: &NoRun, explains: bool) -> u8
    ensures { IsStatusOfStop stop.now result }
{
    match stop {
        NoRun::Words(error) => tell_words(rt, FrontEnd::Play, error),
        NoRun::NotText => {
            let _ = eprintln!(rt; "error: invalid UTF-8 was detected in one or more arguments");
            4
        }
        NoRun::ConvertWithRecord => {
            let _ = eprintln!(rt; "spinplay: --convert with --record");
            4
        }
        NoRun::NotTogether => {
            let _ = eprintln!(rt;
                "spinplay: -D, -I and --no-cpp want --prepare, which goes without --source and --lines"
            );
            4
        }
        NoRun::File(fault) => tell_file(rt, PROGRAM, fault, explains),
        NoRun::Memory => {
            let _ = eprintln!(rt; "spinplay: out of memory");
            6
        }
    }
}
