// Why nothing is prepared, and the status that is answered for it.

ghost use Rattle.std.specs.Prelude.{◌≡◌};
ghost use Rattle.spinprep_program.specs.Statuses.{IsStatus, status};

use prepared::unprepared::{Unprepared, say, tell_unprepared};
use std::alloc::{AllocError, AllocFailed};

// What the program is called in what it says.
pub const PROGRAM: &str = "spinprep";

const HELP: &str =
    "Prepares the text of a Promela model for spinplay, as Spin would read it: its macros, conditions and included files too.

usage: spinprep-text [OPTIONS] FILE

Writes a text with the same lines as the model's own file: what comes of its macros, blanks in place of ltl, never, trace, notrace and
subtypes of mtype, the range of a for over an array, and the separators that the ends of lines stand for. What is blanked and what is
left as it is stands on standard error, with its lines.
bin/spinprep runs this, and with --play bin/spinplay on what comes out.

  -DNAME, -DNAME=VALUE, -UNAME   as if '#define NAME 1', '#define NAME VALUE', '#undef NAME' stood before the text
  -IFOLDER      looks for included files in FOLDER too
  --no-cpp      reads FILE as it is: its '#' lines are not read
  --expand      writes the text with its macros replaced, with marks of lines, and prepares nothing
  --strict      ends with status 1 where something is left that spinplay does not play
  --name=NAME   calls the file NAME in what is said
  --lines=TABLE writes to the file TABLE where the lines of included files stand, for spinplay --lines
  --            ends the options
  --help        says this

Exit statuses: 0 prepared; 1 something is left (--strict); 3 a '#' line or a call is not right, or the text is too long: 1048576 bytes of
a file, 8388608 of all; 4 wrong words, or a file that cannot be opened or read; 6 a device or memory failed.
";

// Why nothing is prepared.
#[derive(Drop)]
pub enum Hindrance {
    Help,
    Words,
    Unprepared(Unprepared),
    CannotOpen(String),
    CannotRead(String),
    Device,
    Memory,
}

impl From<AllocError> for Hindrance {
    fn from(_error: AllocError) -> Hindrance {
        Hindrance::Memory
    }
}

impl<T: Drop> From<AllocFailed<T>> for Hindrance {
    fn from(_failed: AllocFailed<T>) -> Hindrance {
        Hindrance::Memory
    }
}

impl From<Unprepared> for Hindrance {
    fn from(why: Unprepared) -> Hindrance {
        match why {
            Unprepared::Memory => Hindrance::Memory,
            other => Hindrance::Unprepared(other),
        }
    }
}

// The status where something was prepared.
pub fn status_of(is_strict: bool, is_left: bool) -> u8
    ensures { result ≡ status is_strict is_left }
{
    u8::from(is_strict && is_left)
}

// Says something of a file. What memory is refused for is left out.
fn say_of_file(rt: &HostRuntime, front: &str, name: &str) {
    let alloc = rt.alloc();
    if let Ok(words) = format!(in alloc; "{front}{name}") {
        say(rt, PROGRAM, words.as_str());
    }
}

// Shows why nothing is prepared, and answers the status. A message that cannot be shown is left out.
pub fn tell_stop(rt: &HostRuntime, stop: Hindrance) -> u8
    ensures { IsStatus stop result }
{
    match stop {
        Hindrance::Help => { if print!(rt; "{HELP}").is_ok() { 0 } else { 6 } }
        Hindrance::Words => {
            let _ = eprintln!(rt;
                "usage: spinprep [--play | --view] [--strict] [--no-cpp] [-DNAME=VALUE] [-IFOLDER] MODEL"
            );
            4
        }
        Hindrance::Unprepared(why) => tell_unprepared(rt, PROGRAM, &why),
        Hindrance::CannotOpen(name) => {
            say_of_file(rt, "cannot open ", name.as_str());
            4
        }
        Hindrance::CannotRead(name) => {
            say_of_file(rt, "cannot read ", name.as_str());
            4
        }
        Hindrance::Device => {
            let _ = eprintln!(rt; "spinprep: device failed");
            6
        }
        Hindrance::Memory => {
            let _ = eprintln!(rt; "spinprep: out of memory");
            6
        }
    }
}
