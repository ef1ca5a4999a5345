// What goes to standard output: bytes that others wrote are shown as a terminal can show them, and lines of JSON have their escapes.
use crate::stop::{NoView, RunDevice, failed};
use std::fs;
use std::io::Write;
use view_foreign::escaped::add_escaped;
use view_foreign::shown::{add_shown, are_plain};
use view_text::writer::Writer;

// Writes what is to be shown to a person.
pub fn show(rt: &HostRuntime, out: &Writer) -> Result<(), NoView> {
    let mut shown = Writer::new(rt.alloc());
    add_shown(out.bytes(), &mut shown);
    shown.keep_refusal(out);
    send(rt, &shown)
}

// Writes bytes to standard output.
fn send(rt: &HostRuntime, out: &Writer) -> Result<(), NoView> {
    if out.is_refused() {
        return Err(NoView::Memory);
    }
    match rt.stdout().write_all(out.bytes()) {
        Ok(()) => Ok(()),
        Err(error) => Err(failed(RunDevice::Output, error)),
    }
}

// Whether lines are typed at a terminal. A pipe or a file gets no prompt, so that what is written there is in whole lines.
pub fn is_typed(rt: &HostRuntime) -> bool {
    match fs::canonicalize(rt, "/dev/stdin") {
        Ok(path) => {
            let name = path.as_str();
            name.starts_with("/dev/pts/") || name.starts_with("/dev/tty") || name == "/dev/console"
        }
        Err(_) => false,
    }
}

fn send_if(rt: &HostRuntime, prompts: bool, text: &[u8]) -> Result<(), NoView> {
    if !prompts {
        return Ok(());
    }
    match rt.stdout().write_all(text) {
        Ok(()) => Ok(()),
        Err(error) => Err(failed(RunDevice::Output, error)),
    }
}

// Writes the prompt behind which a line is typed.
pub fn prompt(rt: &HostRuntime, prompts: bool) -> Result<(), NoView> {
    send_if(rt, prompts, b"> ")
}

// Ends the line of a prompt behind which none is typed.
pub fn end_prompt(rt: &HostRuntime, prompts: bool) -> Result<(), NoView> {
    send_if(rt, prompts, b"\n")
}

// So many bytes of a line are escaped at once.
const AT_ONCE: usize = 60_000;

// Where the first piece of a text ends: before a character.
fn piece_end(text: &[u8]) -> usize {
    for end in AT_ONCE..text.len() {
        if text[end] < 128 || text[end] >= 192 {
            return end;
        }
    }
    text.len()
}

// Writes lines of JSON, piece by piece: as they are, where no sign of a piece is to be escaped.
pub fn show_lines(rt: &HostRuntime, lines: &Writer) -> Result<(), NoView> {
    if lines.is_refused() {
        return Err(NoView::Memory);
    }
    let mut rest = lines.bytes();
    let mut piece = Writer::new(rt.alloc());
    for _ in 0..rest.len() {
        if rest.is_empty() {
            break;
        }
        let end = piece_end(rest).min(rest.len());
        if are_plain(&rest[..end]) {
            send_if(rt, true, &rest[..end])?;
        } else {
            piece.clear();
            add_escaped(&rest[..end], &mut piece);
            send(rt, &piece)?;
        }
        rest = &rest[end..];
    }
    Ok(())
}
