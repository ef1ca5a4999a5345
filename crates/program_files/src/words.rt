//! What is said of a mistake in the words of a command line.

ghost use Rattle.program_files.specs.Words.{IsStatusOfWords};

use clap::error::ErrorKind;
use std::alloc::{AllocError, Global};
use std::io;

/// A program whose command line is read.
#[derive(Clone, Copy, Debug, PartialEq, Eq)]
pub enum FrontEnd {
    Play,
    View,
}

impl FrontEnd {
    /// What it is called.
    pub fn name(self) -> &'static str {
        match self {
            FrontEnd::Play => "spinplay",
            FrontEnd::View => "spinview",
        }
    }

    // How every command line of it is.
    fn usage(self) -> &'static str {
        match self {
            FrontEnd::Play => "Usage: spinplay [OPTIONS] <MODEL>",
            FrontEnd::View => "Usage: spinview [OPTIONS] <MODEL>",
        }
    }
}

// The letters of Spin's options that have no meaning in either program.
const OPTIONS_OF_SPIN: &str = "aAbBcCdeEfFjJkLMnNoOPqrsStvwWxXyYzZ";

// One that spinprep has.
const OPTIONS_OF_CPP: &str = "U";

// Those that spinplay has, and spinview has not.
const OPTIONS_OF_PLAY: &str = "pgliT";

// Whole words that another program has.
const WHOLE_WORDS: [(FrontEnd, &str, &str); 20] = [
    (FrontEnd::Play, "view", PREPARE_AND_VIEW),
    (FrontEnd::Play, "play", PREPARE_AND_PLAY),
    (FrontEnd::Play, "trail", TRAIL),
    (FrontEnd::Play, "json", JSON),
    (FrontEnd::Play, "chart", CHART),
    (FrontEnd::Play, "page", PAGE),
    (FrontEnd::Play, "random", RANDOM),
    (FrontEnd::View, "view", PREPARE_AND_VIEW),
    (FrontEnd::View, "play", PREPARE_AND_PLAY),
    (FrontEnd::View, "convert", CONVERT),
    (FrontEnd::View, "check", CHECK),
    (FrontEnd::Play, "seed", RANDOM),
    (FrontEnd::Play, "steps", LIMIT),
    (FrontEnd::Play, "limit", LIMIT),
    (FrontEnd::View, "seed", RANDOM),
    (FrontEnd::View, "until", IN_SESSION),
    (FrontEnd::View, "why", IN_SESSION),
    (FrontEnd::View, "state", IN_SESSION),
    (FrontEnd::View, "run", IN_SESSION),
    (FrontEnd::View, "last", IN_SESSION),
];

const PREPARE_AND_VIEW: &str = "spinview prepares a model and shows it: spinview --prepare MODEL";

const PREPARE_AND_PLAY: &str = "spinplay prepares a model and plays it: spinplay --prepare MODEL";

const TRAIL: &str = "spinview has it: spinview --trail FILE MODEL, behind spin -t -p MODEL > FILE";

const TRAIL_ALONE: &str =
    ".trail' found\n\n  tip: spinview --trail FILE MODEL follows what spin -t -p MODEL > FILE prints of it\n";

const JSON: &str = "spinview has it: spinview --json MODEL";

const CHART: &str = "spinview has it: spinview --chart MODEL";

const PAGE: &str = "spinview has it: spinview --page FILE MODEL";

const RANDOM: &str = "spinview has it: spinview --random SEED MODEL";

const IN_SESSION: &str = "it is a word of a session: spinview MODEL, and the word at a question";

const LIMIT: &str = "how many steps are taken at most is -uN: spinplay -u100 MODEL";

const CONVERT: &str = "spinplay has it: spinplay --convert MODEL";

const CHECK: &str = "spinplay has it: spinplay --check MODEL";

// What is told of a letter in place of the tip to hand it on as a value.
fn tip_of(alloc: Global, program: FrontEnd, letter: char) -> Result<String, AllocError> {
    let name = program.name();
    if OPTIONS_OF_CPP.contains(letter) {
        format!(in alloc;
            "leave '-{letter}' out: no macro is known before the text but those that -D gives"
        )
    } else if letter == 't' {
        format!(in alloc;
            "a trail is followed by spinview: spinview --trail FILE MODEL, behind spin -t -p MODEL > FILE"
        )
    } else if letter == 'n' {
        format!(in alloc; "spinview chooses at random: spinview --random SEED MODEL")
    } else if OPTIONS_OF_PLAY.contains(letter) {
        format!(in alloc;
            "spinplay has it: spinplay -{letter} MODEL; {name} shows each step, and what it changed"
        )
    } else {
        format!(in alloc;
            "leave '-{letter}' out: it is an option of Spin, and {name} has none like it"
        )
    }
}

// What is shown of an unexpected word: an option of Spin that has no meaning here is to be left out, not to be handed on as a value.
fn without_letters(alloc: Global, program: FrontEnd, text: String) -> Result<String, AllocError> {
    let letters = OPTIONS_OF_SPIN.chars().chain(OPTIONS_OF_CPP.chars());
    for letter in letters.chain(OPTIONS_OF_PLAY.chars()) {
        let tip = format!(in alloc; "to pass '-{letter}' as a value, use '-- -{letter}'")?;
        if text.contains(tip.as_str()) {
            return text.replace(
                alloc,
                tip.as_str(),
                tip_of(alloc, program, letter)?.as_str(),
            );
        }
    }
    Ok(text)
}

// The same of a whole word that another program has.
fn without_words(alloc: Global, program: FrontEnd, text: String) -> Result<String, AllocError> {
    for (other, word, told) in WHOLE_WORDS {
        let tip = format!(in alloc; "to pass '--{word}' as a value, use '-- --{word}'")?;
        if other == program && text.contains(tip.as_str()) {
            return text.replace(alloc, tip.as_str(), told);
        }
    }
    Ok(text)
}

// The same of the file of a trail that stands without its option.
fn with_trail(alloc: Global, program: FrontEnd, text: String) -> Result<String, AllocError> {
    match program {
        FrontEnd::View => text.replace(alloc, ".trail' found\n", TRAIL_ALONE),
        FrontEnd::Play => Ok(text),
    }
}

// A mistake in the words, with the usage of every command line in place of one with the words that were read.
fn with_usage(alloc: Global, program: FrontEnd, error: &clap::Error) -> Result<String, AllocError> {
    let told = format!(in alloc; "{error}")?;
    let head = format!(in alloc; "Usage: {} ", program.name())?;
    let mut text = String::new(alloc);
    for line in told.lines() {
        text.push_str(if line.starts_with(head.as_str()) {
            program.usage()
        } else {
            line
        })?;
        text.push('\n')?;
    }
    Ok(text)
}

// What is shown of a mistake in the words.
fn mistake(alloc: Global, program: FrontEnd, error: &clap::Error) -> Result<String, AllocError> {
    let told = with_usage(alloc, program, error)?;
    let told = without_words(alloc, program, without_letters(alloc, program, told)?)?;
    with_trail(alloc, program, told)
}

// Shows a mistake in the words, or help.
fn shown_words(rt: &HostRuntime, program: FrontEnd, error: &clap::Error) -> io::Result<()> {
    if !error.use_stderr() {
        return error.print(rt);
    }
    match mistake(rt.alloc(), program, error) {
        Ok(text) => eprint!(rt; "{text}"),
        Err(_) => error.print(rt),
    }
}

/// Says what is wrong with the words, or helps, and answers the status. Help goes to standard output, and a mistake in the words to standard
/// error.
pub fn tell_words(rt: &HostRuntime, program: FrontEnd, error: &clap::Error) -> u8
    ensures { IsStatusOfWords error.now result }
{
    let name = program.name();
    if error.kind() == ErrorKind::OutOfMemory {
        let _ = eprintln!(rt; "{name}: out of memory");
        return 6;
    }
    let shown = shown_words(rt, program, error).is_ok();
    if error.use_stderr() {
        4
    } else if shown {
        0
    } else {
        let _ = eprintln!(rt; "{name}: device failed");
        6
    }
}
