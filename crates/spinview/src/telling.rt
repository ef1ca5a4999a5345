// What standard error says. A message that cannot be shown is left out.
use crate::stop::{NoView, RunDevice};
use diagnostics::Refusal;
use program_files::fault::NoFile;
use program_files::models::Model;
use program_files::refusal::{ExplainedText, explained, explained_beside};
use program_files::telling::{explain_device, tell_file};
use program_files::words::{FrontEnd, tell_words};
use std::alloc::{AllocError, Global};
use std::io;
use view_words::Wishes;

// What the program is called in what it says.
pub const PROGRAM: &str = "spinview";

// Says that a device failed, and which, where that is asked for.
fn tell_device(rt: &HostRuntime, device: RunDevice, why: Option<&io::Error>, explains: bool) {
    let _ = eprintln!(rt; "spinview: device failed");
    if explains {
        explain_device(rt, PROGRAM, device.words(), why);
    }
}

// Says why there was nothing to see, and answers the status.
pub fn tell_stop(rt: &HostRuntime, stop: &NoView, explains: bool) -> u8 {
    match stop {
        NoView::Words(error) => tell_words(rt, FrontEnd::View, error),
        NoView::NotText => {
            let _ = eprintln!(rt; "error: invalid UTF-8 was detected in one or more arguments");
            4
        }
        NoView::NotTogether => {
            let _ = eprintln!(rt;
                "spinview: -D, -I and --no-cpp want --prepare, which goes without --source and --lines"
            );
            4
        }
        NoView::File(fault) => tell_file(rt, PROGRAM, fault, explains),
        NoView::Refused => 3,
        NoView::Misfit => 5,
        NoView::Memory => {
            let _ = eprintln!(rt; "spinview: out of memory");
            6
        }
        NoView::Failed(device, why) => {
            tell_device(rt, *device, why.as_ref(), explains);
            6
        }
    }
}

// What a model is called.
pub fn shown_name(asked: &Wishes) -> &str {
    match &asked.name {
        Some(name) => name.as_str(),
        None => asked.model.as_str(),
    }
}

// The words of an explanation, which names the program that prepares and shows a model in place of the one that plays it.
fn for_view(alloc: Global, words: String) -> Result<String, AllocError> {
    words.replace(alloc, "spinprep --play MODEL", "spinprep --view MODEL")
}

// Why a model is refused, and where, with the lines of what it was prepared of.
fn words_of_refusal(
    rt: &HostRuntime,
    asked: &Wishes,
    model: &Model,
    refusal: Refusal,
) -> Result<String, NoFile> {
    let text = model.bytes.as_slice();
    if let Some(own) = &model.own {
        return explained_beside(rt, shown_name(asked), text, own, refusal);
    }
    let shown = ExplainedText {
        name: shown_name(asked),
        text,
        source: &asked.source,
        lines: &asked.lines,
    };
    explained(rt, shown, refusal)
}

// Says why a model is refused, and where, unless memory is refused for it.
fn explain_refusal(rt: &HostRuntime, asked: &Wishes, model: &Model, refusal: Refusal) {
    if let Ok(words) = words_of_refusal(rt, asked, model, refusal) {
        if let Ok(words) = for_view(rt.alloc(), words) {
            let _ = eprint!(rt; "{words}");
        }
    }
}

// Says that the model is refused, and why.
pub fn tell_refusal(rt: &HostRuntime, asked: &Wishes, model: &Model, refusal: Refusal, line: u32) {
    if let Ok(words) = str::from_utf8(diagnostic_words::of_refusal(refusal)) {
        let _ = eprintln!(rt; "refused M{} ({words})", refusal.number());
    }
    if line > 0 {
        let _ = eprintln!(rt; "spinview: line {line}: M{}", refusal.number());
    }
    explain_refusal(rt, asked, model, refusal);
}
