//! What is said of files. A message that cannot be shown is left out.

ghost use Rattle.program_files.specs.Held.{IsStatusOfFile};

use crate::fault::NoFile;
use crate::input::Input;
use explain::shown_file;
use prepared::unprepared::tell_unprepared;
use std::alloc::{AllocError, Global};
use std::io;
use streams::followed::FollowedReader;

// Says why a file failed, where that is asked for.
fn explain_file(rt: &HostRuntime, program: &str, is_asked: bool, name: &str, error: &io::Error) {
    if is_asked {
        if let Ok(name) = shown_file(rt.alloc(), name) {
            let _ = eprintln!(rt; "{program}: {name}: {error}");
        }
    }
}

/// Says why a file cannot be used, and more of it where that is asked for, and answers the status.
pub fn tell_file(rt: &HostRuntime, program: &str, fault: &NoFile, explains: bool) -> u8
    ensures { IsStatusOfFile fault.now result }
{
    match fault {
        NoFile::CannotOpen(name, error) => {
            let _ = eprintln!(rt; "{program}: cannot open {name}");
            explain_file(rt, program, explains, name.as_str(), error);
            4
        }
        NoFile::CannotRead(name, error) => {
            let _ = eprintln!(rt; "{program}: cannot read {name}");
            explain_file(rt, program, explains, name.as_str(), error);
            4
        }
        NoFile::CannotWrite(name, error) => {
            let _ = eprintln!(rt; "{program}: cannot write {name}");
            explain_file(rt, program, explains, name.as_str(), error);
            4
        }
        NoFile::WouldEmpty(name, role) => {
            let what = role.words();
            let _ = eprintln!(rt; "{program}: cannot open {name}");
            let _ = eprintln!(rt;
                "{program}: it is the file of the {what}, which would be emptied"
            );
            4
        }
        NoFile::Unprepared(why) => tell_unprepared(rt, program, why),
        NoFile::Memory => {
            let _ = eprintln!(rt; "{program}: out of memory");
            6
        }
    }
}

/// Says which device failed, and why, where an error said so.
pub fn explain_device(rt: &HostRuntime, program: &str, device: &str, why: Option<&io::Error>) {
    let _ = match why {
        Some(error) => eprintln!(rt; "{program}: device failed: {device}: {error}"),
        None => eprintln!(rt; "{program}: device failed: {device}"),
    };
}

// Bytes of a line as they are shown.
fn shown(alloc: Global, line: &[u8]) -> Result<String, AllocError> {
    let mut text = String::new(alloc);
    for byte in line {
        text.push(if b' ' <= *byte && *byte <= b'~' {
            char::from(*byte)
        } else {
            '?'
        })?;
    }
    Ok(text)
}

// What a line of choices with process and line wants, where it has three words.
fn wanted(alloc: Global, line: &str) -> Result<String, AllocError> {
    let words: Vec<&str> = line.split_whitespace().collect(alloc)?;
    match words.as_slice() {
        [number, process, line] => format!(in alloc;
            "it wants choice {number} to be of process {process} on line {line}, and the list before it has no such choice"
        ),
        _ => String::from_str(
            alloc,
            "it wants the number of a choice, its process and its line, or q",
        ),
    }
}

/// Says which line of the choices does not fit, and what it wants.
pub fn tell_misfit(
    rt: &HostRuntime,
    program: &str,
    name: &str,
    choices: &FollowedReader<Input>,
) -> Result<(), AllocError> {
    let name = shown_file(rt.alloc(), name)?;
    let line = shown(rt.alloc(), choices.text())?;
    let wanted = wanted(rt.alloc(), line.as_str())?;
    let number = choices.number();
    let _ = eprintln!(rt; "{program}: {name}:{number}: `{line}` does not fit: {wanted}");
    Ok(())
}

/// Says that the last line of a file of choices has no line feed.
pub fn tell_cut(
    rt: &HostRuntime,
    program: &str,
    name: &str,
    choices: &FollowedReader<Input>,
) -> Result<(), AllocError> {
    let name = shown_file(rt.alloc(), name)?;
    let line = shown(rt.alloc(), choices.text())?;
    let number = choices.number();
    let _ = eprintln!(rt;
        "{program}: {name}:{number}: the last line, `{line}`, has no line feed: it may be cut off"
    );
    Ok(())
}
