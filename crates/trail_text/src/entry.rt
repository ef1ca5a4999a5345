//! The lines of a trail.

ghost use Rattle.std.specs.Prelude.{◌≡◌, true, false, Some, codes, IfSome};
ghost use Rattle.trail_text.specs.Parts.{has};
ghost use Rattle.trail_text.specs.Shown.{is_else, gives_value, begins};

use crate::scan::{
    Lines, before_blanks, before_last, behind_blanks, number_first, number_last, parted,
};

/// What a line of a trail tells.
#[derive(Clone, Copy, Debug, PartialEq, Eq)]
pub enum Event<'t> {
    /// A statement with this line and this text.
    Statement(usize, &'t [u8]),
    Death,
}

impl<'t> Event<'t> {
    /// Whether it is an `else`.
    pub fn is_else(&self) -> bool
        ensures { result ≡ is_else self.now }
    {
        match self {
            Event::Statement(_, text) => *text == b"else".as_slice(),
            Event::Death => false,
        }
    }

    /// Whether it gives a variable another number than 0.
    pub fn gives_value(&self) -> bool
        ensures { result ≡ gives_value self.now }
    {
        match self {
            Event::Statement(_, text) => {
                parted(text, b" = ").is_some() && !text.ends_with(b" = 0")
            }
            Event::Death => false,
        }
    }
}

/// A line of a trail that tells of a process.
#[derive(Clone, Copy, Debug, PartialEq, Eq)]
pub struct Entry<'t> {
    /// The number of the line in the file.
    pub row: usize,
    /// The number that Spin gives the step; statements of one d_step have the same.
    pub step: usize,
    pub process: usize,
    pub event: Event<'t>,
}

// The line of a statement: `model.pml:5`, or of older versions `line 5 "model.pml"`.
fn line_in(place: &[u8]) -> Option<usize> {
    let place = before_blanks(behind_blanks(place));
    if let Some(rest) = place.strip_prefix(b"line ") {
        let (line, _) = number_first(behind_blanks(rest))?;
        return Some(line);
    }
    number_last(place)
}

// What stands behind the number of a process: `(P:1) model.pml:5 (state 2) [x = 1]`, `terminates`, or, in a run by chance,
// `(P:1) terminates`.
fn event_of(text: &[u8]) -> Option<Event<'_>>
    ensures { has text.now (codes ") ") ≡ false → begins text.now (codes "terminates") ≡ true → result ≡ Some Event.Death }
{
    let behind_name = match parted(text, b") ") {
        Some((_, behind)) => behind,
        None => text,
    };
    if behind_name.starts_with(b"terminates") {
        return Some(Event::Death);
    }
    let (place, behind_place) = parted(behind_name, b" (state ")?;
    let line = line_in(place)?;
    let (_, statement) = parted(behind_place, b"[")?;
    let statement = before_last(statement, b']')?;
    Some(Event::Statement(line, statement))
}

// The step whose number and colon stand last.
fn step_in(before: &[u8]) -> Option<usize> {
    let before = before_blanks(before);
    match before {
        [number @ .., b':'] => number_last(number),
        _ => None,
    }
}

// What a line of the file tells, where it tells of a process.
fn entry_of(row: usize, text: &[u8]) -> Option<Entry<'_>>
    ensures { IfSome result (λ e. e.row ≡ row) }
{
    let (before, behind) = parted(text, b"proc ")?;
    let step = step_in(before)?;
    let (process, rest) = number_first(behind_blanks(behind))?;
    let event = event_of(behind_blanks(rest))?;
    Some(Entry {
        row,
        step,
        process,
        event,
    })
}

// How the line behind the last one begins.
const LAST: &[u8] = b"spin: trail ends";

/// Whether a file has the line behind the last one of a trail.
pub fn is_ended(text: &[u8]) -> bool
    ensures { result ≡ has text.now (codes "spin: trail ends") }
{
    parted(text, LAST).is_some()
}

/// The next of these lines that tells of a process.
pub fn next_entry<'t>(lines: &mut Lines<'t>) -> Option<Entry<'t>>
    ensures { IfSome result (λ e. e.row ≡ lines.new.row) }
{
    for _ in 0..lines.rest.len() {
        let line = lines.next()?;
        if line.starts_with(LAST) {
            lines.rest = &line[..0];
            return None;
        }
        if let Some(entry) = entry_of(lines.row, line) {
            return Some(entry);
        }
    }
    None
}
