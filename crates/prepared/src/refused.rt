//! What is said of a text that the preprocessor refuses, and of what it passes.

ghost use Rattle.std.specs.Prelude.{◌≡◌, ◌++◌, ◌-◌, OnOk, string_bytes};
ghost use Rattle.prepared.specs.Refused as as_refused;

use crate::disk::bytes_of;
use crate::shown::{shown, shown_name};
use crate::unprepared::Unprepared;
use pml_directives::refusal::{DirectiveRefusal, Why};
use pml_directives::state::{PlacedRemark, Remark, State};
use pml_macros::atom::{Atom, FilePlace};
use pml_macros::trouble::Trouble;
use source_lines::position::line_of;
use source_lines::shown::show_line;
use std::alloc::{AllocError, Global};

/// The texts that were read: the model's own, and the lines that stand for options.
#[derive(Clone, Copy)]
pub struct ReadTexts<'t> {
    pub text: &'t [u8],
    pub given: &'t [u8],
}

// Where something stands, as it is told: the file, its line and its column.
fn told_place(alloc: Global, state: &State, place: FilePlace) -> Result<String, AllocError> {
    let name = String::from_utf8_lossy(alloc, state.name(place.file))?;
    let name = shown_name(alloc, name.as_str())?;
    let name = name.as_str();
    let (line, column) = (place.line, place.column);
    format!(in alloc; "{name}:{line}:{column}")
}

// What is wrong, but for calls.
fn words_of(why: Why) -> &'static str {
    match why {
        Why::Comment => "a comment is not closed",
        Why::Long => "a file has more than 1048576 bytes, or all of them more than 8388608",
        Why::Includes => "more than 64 files within one another, or more than 2048 in all",
        Why::File => "there is no such file beside this one, or in a folder of -I",
        Why::Word => "no `#` line begins with this word",
        Why::Error => "the text asks for an error",
        Why::Form => "what stands behind the word is not what it wants",
        Why::Closer => "no `#if` is open here",
        Why::Opener => "this condition is open at the end of its file: `#endif` is wanted",
        Why::Condition => "this condition has no value",
        Why::Memory => "out of memory",
        Why::Call(_) => "a call is not right",
    }
}

// What is wrong with a call.
fn words_of_call(alloc: Global, state: &State, trouble: Trouble) -> Result<String, AllocError> {
    let (atom, words) = match trouble {
        Trouble::Memory => return String::from_str(alloc, "out of memory"),
        Trouble::Open(atom) => (atom, "is called, and no `)` closes its arguments"),
        Trouble::Arguments(atom, count) => {
            let name = shown(alloc, state.text(&atom))?;
            let name = name.as_str();
            return format!(in alloc; "`{name}` has another number of parameters than {count}");
        }
        Trouble::Joined(atom) => (atom, "and what `##` joins to it are no token together"),
        Trouble::Much(atom) => (atom, "would put more than 200000 tokens in place of calls"),
        Trouble::Deep(atom) => (atom, "stands in more than 200 macros within one another"),
    };
    let name = shown(alloc, state.text(&atom))?;
    let name = name.as_str();
    format!(in alloc; "`{name}` {words}")
}

// The token that is wrong, where that is a call.
fn atom_of(why: Why) -> Option<Atom>
    ensures { result ≡ as_refused.atom_of why }
{
    match why {
        Why::Call(Trouble::Open(atom)) => Some(atom),
        Why::Call(Trouble::Arguments(atom, _)) => Some(atom),
        Why::Call(Trouble::Joined(atom)) => Some(atom),
        Why::Call(Trouble::Much(atom)) => Some(atom),
        Why::Call(Trouble::Deep(atom)) => Some(atom),
        _ => None,
    }
}

// Where the token stands in a `#define`, if it does.
fn add_own_place(
    alloc: Global,
    state: &State,
    why: Why,
    out: &mut String,
) -> Result<(), AllocError> {
    if let Some(atom) = atom_of(why) {
        if atom.place != atom.call {
            let place = told_place(alloc, state, atom.place)?;
            out.push_str(" (it stands at ")?;
            out.push_str(place.as_str())?;
            out.push_str(")")?;
        }
    }
    Ok(())
}

// The line of a place, with a mark below it.
fn add_line(text: &[u8], place: FilePlace, out: &mut String) -> Result<(), AllocError>
    ensures { OnOk result (string_bytes out.new ≡ string_bytes out.old ++ as_refused.line_told text.now place) }
{
    let offset = place.offset as usize;
    let line = line_of(text, offset);
    let onset = offset.saturating_sub(line.start);
    show_line(out, place.line as usize, line.bytes, onset, 1)
}

// The line of a place in the file that it names.
fn add_its_line(
    rt: &HostRuntime,
    state: &State,
    read: ReadTexts<'_>,
    place: FilePlace,
    out: &mut String,
) -> Result<(), AllocError> {
    match place.file {
        0 => add_line(read.text, place, out),
        1 => add_line(read.given, place, out),
        _ => match bytes_of(rt, state.name(place.file)) {
            Some(text) => add_line(&text, place, out),
            None => Ok(()),
        },
    }
}

// What is said of a refusal: where it is, what is wrong, and the line.
fn told(
    rt: &HostRuntime,
    state: &State,
    read: ReadTexts<'_>,
    refusal: DirectiveRefusal,
) -> Result<String, AllocError> {
    let alloc = rt.alloc();
    let mut out = told_place(alloc, state, refusal.place)?;
    out.push_str(": ")?;
    match refusal.why {
        Why::Call(trouble) => {
            let words = words_of_call(alloc, state, trouble)?;
            out.push_str(words.as_str())?;
        }
        why => out.push_str(words_of(why))?,
    }
    add_own_place(alloc, state, refusal.why, &mut out)?;
    out.push_str("\n")?;
    add_its_line(rt, state, read, refusal.place, &mut out)?;
    Ok(out)
}

/// Why nothing is prepared of a text that the preprocessor refuses.
pub fn unprepared_of(
    rt: &HostRuntime,
    state: &State,
    read: ReadTexts<'_>,
    refusal: DirectiveRefusal,
) -> Unprepared {
    if matches!(refusal.why, Why::Memory) || matches!(refusal.why, Why::Call(Trouble::Memory)) {
        return Unprepared::Memory;
    }
    match told(rt, state, read, refusal) {
        Ok(words) => match refusal.why {
            Why::File => Unprepared::Missing(words),
            _ => Unprepared::Refused(words),
        },
        Err(_) => Unprepared::Memory,
    }
}

// What is said of one remark.
fn told_note(
    rt: &HostRuntime,
    state: &State,
    read: ReadTexts<'_>,
    note: &PlacedRemark,
) -> Result<String, AllocError> {
    let alloc = rt.alloc();
    let mut out = told_place(alloc, state, note.place)?;
    match note.remark {
        Remark::Again(name) => {
            let name = shown(alloc, state.work.book.text(name))?;
            out.push_str(": `")?;
            out.push_str(name.as_str())?;
            out.push_str("` is defined here, and what -D gave it is lost\n")?;
        }
        Remark::Warning => out.push_str(": the text warns\n")?,
    }
    add_its_line(rt, state, read, note.place, &mut out)?;
    Ok(out)
}

/// Says what a text that is not refused wants to be said. What memory is refused for is left out.
pub fn tell_notes(rt: &HostRuntime, state: &State, read: ReadTexts<'_>) {
    for note in &state.notes {
        if let Ok(words) = told_note(rt, state, read, note) {
            let words = words.as_str();
            let _ = eprint!(rt; "{words}");
        }
    }
}
