// A language server for Promela, over standard input and output: what is wrong with a model, while one types it.
#![tactic(auto)]

use lsp_answers::Server;
use message_frames::{Frames, NoMessage, framed};
use serde_json::Value;
use std::alloc::AllocError;
use std::io::Write;
use std::process::ExitCode;
use std::{env, io};

const HELP: &str = "\
A language server for Promela (LSP 3.17), which an editor starts: it reads
messages from standard input and answers on standard output. It tells of each
text that is open whether spinplay plays it, and if not, why and where; where
its names are declared and used, and what may be typed; and it renames them.

Usage: spinlsp [OPTIONS]

Options:
  -h, --help     Print help
  -V, --version  Print version

It reads no file, writes none, and starts nothing. docs/EDITORS.md says how
editors start it.

Exit status:
  0  the editor has ended it
  1  the input ended before that
  2  a message without a head that says how long it is
  4  wrong words
  6  a device or memory failed
";

const NO_JSON: &[u8] =
    b"{\"error\":{\"code\":-32700,\"message\":\"no JSON\"},\"id\":null,\"jsonrpc\":\"2.0\"}";

// Why the server ends, but for the end of the editor.
#[derive(Clone, Copy)]
enum Stop {
    Ended,
    Head,
    Device,
    Memory,
}

impl Stop {
    // What is said of it.
    fn words(self) -> &'static str {
        match self {
            Stop::Ended => "the input ended before exit",
            Stop::Head => "a message has no head with its length",
            Stop::Device => "device failed",
            Stop::Memory => "out of memory",
        }
    }

    fn status(self) -> u8 {
        match self {
            Stop::Ended => 1,
            Stop::Head => 2,
            Stop::Device | Stop::Memory => 6,
        }
    }
}

impl From<AllocError> for Stop {
    fn from(_error: AllocError) -> Stop {
        Stop::Memory
    }
}

impl From<NoMessage> for Stop {
    fn from(fault: NoMessage) -> Stop {
        match fault {
            NoMessage::Ended => Stop::Ended,
            NoMessage::Head => Stop::Head,
            NoMessage::Device => Stop::Device,
            NoMessage::Memory => Stop::Memory,
        }
    }
}

fn write(rt: &HostRuntime, body: &[u8]) -> Result<(), Stop> {
    let message = framed(rt.alloc(), body)?;
    let mut out = rt.stdout();
    if out.write_all(message.as_slice()).is_err() || out.flush().is_err() {
        return Err(Stop::Device);
    }
    Ok(())
}

fn write_value(rt: &HostRuntime, value: &Value) -> Result<(), Stop> {
    let text = value.to_string(rt.alloc())?;
    write(rt, text.as_bytes())
}

// Reads a message as JSON.
fn value_of(rt: &HostRuntime, bytes: &[u8]) -> Result<Option<Value>, Stop> {
    match Value::from_slice(rt.alloc(), bytes) {
        Ok(value) => Ok(Some(value)),
        Err(error) if error.is_memory() => Err(Stop::Memory),
        Err(_) => Ok(None),
    }
}

fn is_exit(message: &Value) -> bool {
    match message.get("method").and_then(Value::as_str) {
        Some(method) => method == "exit",
        None => false,
    }
}

// Tells of all texts that have changed.
fn tell(rt: &HostRuntime, server: &mut Server) -> Result<(), Stop> {
    for _turn in 0..u64::MAX {
        match server.told(rt.alloc())? {
            Some(told) => write_value(rt, &told)?,
            None => return Ok(()),
        }
    }
    Ok(())
}

// Answers a message. What is wrong with the texts before a request is told before its answer.
fn take(rt: &HostRuntime, server: &mut Server, message: &Value) -> Result<(), Stop> {
    if message.get("id").is_some() {
        tell(rt, server)?;
    }
    if let Some(reply) = server.answer(rt.alloc(), message)? {
        write_value(rt, &reply)?;
    }
    Ok(())
}

// Answers messages until the editor ends it. A burst of changes is judged once.
fn serve(rt: &HostRuntime) -> Result<u8, Stop> {
    let mut frames = Frames::new(rt.alloc());
    let mut server = Server::new(rt.alloc());
    for _turn in 0..u64::MAX {
        let bytes = frames.next(&mut rt.stdin())?;
        match value_of(rt, bytes.as_slice())? {
            Some(message) if is_exit(&message) => {
                return Ok(if server.is_shut() { 0 } else { 1 });
            }
            Some(message) => take(rt, &mut server, &message)?,
            None => write(rt, NO_JSON)?,
        }
        if !frames.has_next() {
            tell(rt, &mut server)?;
        }
    }
    Ok(0)
}

// What the words of the command line ask for: to serve, or to say something.
enum Asked {
    Serve,
    Help,
    Version,
}

fn asked_of(rt: &HostRuntime) -> Option<Asked> {
    let Ok(words) = env::args(rt) else {
        return None;
    };
    let Ok(words) = words.skip(1).collect::<Vec<String>>(rt.alloc()) else {
        return None;
    };
    match words.as_slice() {
        [] => Some(Asked::Serve),
        [word] if word.as_str() == "--help" || word.as_str() == "-h" => Some(Asked::Help),
        [word] if word.as_str() == "--version" || word.as_str() == "-V" => Some(Asked::Version),
        [word] if word.as_str() == "--stdio" => Some(Asked::Serve),
        _ => None,
    }
}

// Writes a text.
fn say(rt: &HostRuntime, words: &str) -> u8 {
    let mut out = rt.stdout();
    if out.write_all(words.as_bytes()).is_err() || out.flush().is_err() {
        return 6;
    }
    0
}

fn status_of(rt: &HostRuntime) -> u8 {
    match asked_of(rt) {
        Some(Asked::Help) => say(rt, HELP),
        Some(Asked::Version) => say(rt, "spinlsp 0.9.0\n"),
        Some(Asked::Serve) => match serve(rt) {
            Ok(status) => status,
            Err(stop) => {
                let words = stop.words();
                let _ = eprintln!(rt; "spinlsp: {words}");
                stop.status()
            }
        },
        None => {
            let _ = eprintln!(rt; "spinlsp: it takes no words but --help and --version");
            4
        }
    }
}

fn main(rt: HostRuntime) -> ExitCode {
    ExitCode::from(status_of(&rt))
}
