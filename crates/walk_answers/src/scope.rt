//! Conditions as they are read in the scope of a process: a name of its own variable stands for that one.

ghost use Rattle.view_text.specs.Written.{Stays};

use explain_tokens::placed;
use pml_lex::fault::LexError;
use pml_program::program::Proctype;
use pml_token::token::{Kind, Token};
use run_state::live::Live;
use run_values::change::proctype_name;
use source_lines::position::between;
use std::alloc::{AllocError, Global};
use view_cells::processes::proctype_of;
use view_condition::condition::{StateCondition, condition_in};
use view_condition::unread::Unread;
use view_text::writer::Writer;

fn is_variable(proctype: &Proctype<'_>, name: &[u8]) -> bool {
    for slot in proctype.variables.as_slice() {
        if slot.name.text() == name {
            return true;
        }
    }
    false
}

// Whether a token names a variable of a process: a name behind a dot is that of a field.
fn is_own<'w>(tokens: &'w [Token<'w>], at: usize, proctype: Option<&'w Proctype<'_>>) -> bool {
    let Some(proctype) = proctype else {
        return false;
    };
    if at >= tokens.len() || tokens[at].kind() != Kind::Name {
        return false;
    }
    let is_field = at > 0 && tokens[at - 1].kind() == Kind::Dot;
    !is_field && is_variable(proctype, tokens[at].text())
}

/// A process that reads, by its number and its proctype.
#[derive(Clone, Copy)]
struct Reader<'p, 'a> {
    process: usize,
    proctype: Option<&'p Proctype<'a>>,
}

// Writes the name of a proctype.
fn add_proctype(reader: Reader<'_, '_>, out: &mut Writer)
    ensures { Stays out.old out.new }
{
    if let Some(proctype) = reader.proctype {
        let mut text = out.take();
        let answer = proctype_name(&proctype.name, &mut text);
        out.put(text, answer);
    }
}

// Writes what stands for a token.
fn add_token(reader: Reader<'_, '_>, tokens: &[Token<'_>], at: usize, out: &mut Writer)
    ensures { Stays out.old out.new }
{
    if at >= tokens.len() {
        return;
    }
    let text = tokens[at].text();
    if is_own(tokens, at, reader.proctype) {
        add_proctype(reader, out);
        out.add(b"[");
        out.number(reader.process);
        out.add(b"].");
        out.add(text);
    } else if text == b"_pid".as_slice() {
        out.number(reader.process);
    } else {
        out.add(text);
    }
}

// Writes a text of which these are the tokens, with their places.
fn add_all(reader: Reader<'_, '_>, text: &[u8], tokens: &[Token<'_>], out: &mut Writer)
    ensures { Stays out.old out.new }
{
    let mut behind = 0usize;
    for at in 0..tokens.len() {
        let place = tokens[at].line() as usize;
        out.add(between(text, behind, place));
        add_token(reader, tokens, at, out);
        behind = place.saturating_add(tokens[at].text().len());
    }
    out.add(between(text, behind, text.len()));
}

// A text of an expression as it stands for all of a state, where a process reads it. One that has no tokens stays.
fn text_read_by(alloc: Global, reader: Reader<'_, '_>, text: &[u8]) -> Result<Vec<u8>, AllocError> {
    let mut out = Writer::new(alloc);
    match placed(alloc, text) {
        Ok(tokens) => add_all(reader, text, tokens.as_slice(), &mut out),
        Err(LexError::Memory) => return Err(AllocError),
        Err(_) => out.add(text),
    }
    out.finish()
}

// The condition that a text is where a process reads it; or why it is none, which is written.
fn read_by(
    live: &Live<'_, '_>,
    reader: Reader<'_, '_>,
    text: &[u8],
    out: &mut Writer,
) -> Result<Option<StateCondition>, AllocError>
    ensures { Stays out.old out.new }
{
    let whole = text_read_by(out.allocator(), reader, text)?;
    match condition_in(out.allocator(), whole.as_slice(), live) {
        Ok(condition) => Ok(Some(condition)),
        Err(Unread::Memory) => Err(AllocError),
        Err(Unread::Refused(refused)) => {
            refused.add(whole.as_slice(), out);
            Ok(None)
        }
    }
}

/// The condition that a text is in the scope of a process; or why it is none, which is written.
pub fn condition_of(
    live: &Live<'_, '_>,
    process: usize,
    text: &[u8],
    out: &mut Writer,
) -> Result<Option<StateCondition>, AllocError>
    ensures { Stays out.old out.new }
{
    let reader = Reader {
        process,
        proctype: proctype_of(live, process),
    };
    read_by(live, reader, text, out)
}

// Whether a process of a proctype can stand at a line.
fn has_line(live: &Live<'_, '_>, sort: usize, line: u32) -> bool {
    let Some(body) = live.body(sort) else {
        return false;
    };
    for node in 0..body.graph.node_count() {
        if body.graph.line(node) == line {
            return true;
        }
    }
    body.proctype.end.line() == line
}

/// Whether a text is a condition for each process that can stand at a line; or why it is none, which is written.
pub fn condition_in_proctype(
    live: &Live<'_, '_>,
    line: u32,
    text: &[u8],
    out: &mut Writer,
) -> Result<bool, AllocError>
    ensures { Stays out.old out.new }
{
    for sort in 0..live.program().proctypes.len() {
        if has_line(live, sort, line) {
            let reader = Reader {
                process: 0,
                proctype: live.program().proctypes.as_slice().get(sort),
            };
            if read_by(live, reader, text, out)?.is_none() {
                return Ok(false);
            }
        }
    }
    Ok(true)
}
