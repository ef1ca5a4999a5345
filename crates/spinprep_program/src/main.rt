// Reads the words and the text, writes what is prepared, says what was blanked and what is left, and ends with a status.
#![tactic(auto)]

mod over;
mod stop;
mod words;

use over::{prepare_over, text_over};
use prepared::model::model_text;
use prepared::report::Called;
use std::fs::File;
use std::io::Write;
use std::process::ExitCode;
use std::{env, fs, io};
use stop::{Hindrance, PROGRAM, status_of, tell_stop};
use words::{PreparingCommand, asked_by};

fn asked_of(rt: &HostRuntime) -> Result<PreparingCommand, Hindrance> {
    match env::args(rt) {
        Ok(words) => {
            let words: Vec<String> = words.skip(1).collect(rt.alloc())?;
            asked_by(rt.alloc(), words.as_slice())
        }
        Err(error) if error.kind() == io::ErrorKind::OutOfMemory => Err(Hindrance::Memory),
        Err(_) => Err(Hindrance::Words),
    }
}

fn opened(rt: &HostRuntime, name: &str) -> Result<File, Hindrance> {
    match fs::open(rt, name) {
        Ok(file) => Ok(file),
        Err(error) if error.kind() == io::ErrorKind::OutOfMemory => Err(Hindrance::Memory),
        Err(_) => Err(Hindrance::CannotOpen(String::from_str(rt.alloc(), name)?)),
    }
}

// Writes where the lines of included files stand in what is prepared of the text.
fn write_lines(rt: &HostRuntime, table: &[u8], name: &str) -> Result<(), Hindrance> {
    match fs::create(rt, name) {
        Ok(mut file) => {
            if file.write_all(table).is_err() {
                return Err(Hindrance::Device);
            }
            Ok(())
        }
        Err(error) if error.kind() == io::ErrorKind::OutOfMemory => Err(Hindrance::Memory),
        Err(_) => Err(Hindrance::CannotOpen(String::from_str(rt.alloc(), name)?)),
    }
}

// What the file is called in what is said.
fn own_name(asked: &PreparingCommand) -> &str {
    match &asked.name {
        Some(name) => name.as_str(),
        None => asked.file.as_str(),
    }
}

// Writes what the preprocessor leaves of the text, and prepares nothing.
fn expand(rt: &HostRuntime, text: &[u8]) -> Result<u8, Hindrance> {
    let mut out = rt.stdout();
    if out.write_all(text).is_err() || out.flush().is_err() {
        return Err(Hindrance::Device);
    }
    Ok(0)
}

fn run(rt: &HostRuntime) -> Result<u8, Hindrance> {
    let asked = asked_of(rt)?;
    let file = asked.file.as_str();
    let called = Called {
        program: PROGRAM,
        file,
        name: own_name(&asked),
    };
    let own = text_over(rt, file, opened(rt, file)?)?;
    if asked.is_expanded {
        let text = model_text(rt, &asked.how, called, &own)?;
        return expand(rt, &text.text);
    }
    let done = prepare_over(rt, &asked.how, called, &own, &mut rt.stdout())?;
    let said = done.said.as_str();
    let _ = eprint!(rt; "{said}");
    if let Some(table) = &asked.lines {
        write_lines(rt, done.lines.as_slice(), table.as_str())?;
    }
    Ok(status_of(asked.is_strict, done.is_left))
}

fn main(rt: HostRuntime) -> ExitCode {
    let status = match run(&rt) {
        Ok(status) => status,
        Err(stop) => tell_stop(&rt, stop),
    };
    ExitCode::from(status)
}
