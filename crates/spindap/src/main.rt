// A debug adapter for Promela, over standard input and output: a walk through a model, stepped on and back in an editor.
#![tactic(auto)]

mod first;
mod launch;
mod link;
mod serve;
mod stop;

use serve::serve;
use std::env;
use std::io::Write;
use std::process::ExitCode;

const HELP: &str = "\
A debug adapter for Promela (DAP 1.6), which an editor starts: it reads messages
from standard input and answers on standard output. It walks through a model,
process by process, on and back.

Usage: spindap [OPTIONS]

Options:
  -h, --help     Print help
  -V, --version  Print version

It reads the model, the choices and the trail that `launch` names, writes no
file, and starts nothing. docs/EDITORS.md says how editors start it.

Exit status:
  0  the client has ended it
  1  the input ended before that
  2  a message without a head that says how long it is
  4  wrong words
  6  a device or memory failed
";

// What the words of the command line ask for: to serve, or to say something.
enum Asked {
    Serve,
    Help,
    Version,
}

fn asked_of(rt: &HostRuntime) -> Option<Asked> {
    let Ok(words) = env::args(rt) else {
        return None;
    };
    let Ok(words) = words.skip(1).collect::<Vec<String>>(rt.alloc()) else {
        return None;
    };
    match words.as_slice() {
        [] => Some(Asked::Serve),
        [word] if word.as_str() == "--help" || word.as_str() == "-h" => Some(Asked::Help),
        [word] if word.as_str() == "--version" || word.as_str() == "-V" => Some(Asked::Version),
        _ => None,
    }
}

// Writes a text.
fn say(rt: &HostRuntime, words: &str) -> u8 {
    let mut out = rt.stdout();
    if out.write_all(words.as_bytes()).is_err() || out.flush().is_err() {
        return 6;
    }
    0
}

fn status_of(rt: &HostRuntime) -> u8 {
    match asked_of(rt) {
        Some(Asked::Help) => say(rt, HELP),
        Some(Asked::Version) => say(rt, "spindap 0.9.0\n"),
        Some(Asked::Serve) => match serve(rt) {
            Ok(()) => 0,
            Err(stop) => {
                let words = stop.words();
                let _ = eprintln!(rt; "spindap: {words}");
                stop.status()
            }
        },
        None => {
            let _ = eprintln!(rt; "spindap: it takes no words but --help and --version");
            4
        }
    }
}

fn main(rt: HostRuntime) -> ExitCode {
    ExitCode::from(status_of(&rt))
}
