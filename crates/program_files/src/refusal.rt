//! Why a model is refused, and where, with the lines of its source or of the file that it includes.

ghost use Rattle.std.specs.Prelude.{IfOk, OnOk, IfSome, string_bytes};
ghost use Rattle.program_files.specs.Explained.{IsCalledIn, AddsLine, AddsCalled, ExplainsOwn};

use crate::fault::NoFile;
use crate::models::Own;
use crate::texts::{source_if_named, source_of};
use called_macros::origin::{Origin, called_at};
use called_macros::told::{name_of, push_called, push_its_line};
use diagnostics::Refusal;
use explain::{AuthorSource, Explanation, explain_beside, explanation_of, included_file};
use pml_macros::atom::Atom;
use std::alloc::{AllocError, Global};
use std::str;

/// What an explanation shows: what the model is called, its text, and the names of the files that it was prepared of.
#[derive(Clone, Copy)]
pub struct ExplainedText<'s> {
    pub name: &'s str,
    pub text: &'s [u8],
    pub source: &'s Option<String>,
    pub lines: &'s Option<String>,
}

// The text of the included file in which a refusal lies.
fn included_text(
    rt: &HostRuntime,
    text: &[u8],
    lines: &[u8],
    refusal: Refusal,
) -> Result<Option<Vec<u8>>, NoFile> {
    match included_file(rt.alloc(), text, lines, refusal)? {
        Some(name) => source_of(rt, name),
        None => Ok(None),
    }
}

// The token of a macro in which a refusal lies, if it does.
fn called_in(
    alloc: Global,
    origin: &Origin,
    text: &[u8],
    refusal: Refusal,
) -> Result<Option<Atom>, AllocError>
    ensures { IfOk result (λ a. IfSome a (IsCalledIn origin.now text.now refusal)) }
{
    let Explanation { place, words: _ } = explanation_of(alloc, text, refusal)?;
    match place {
        Some(place) => called_at(alloc, origin, text, place.offset),
        None => Ok(None),
    }
}

// Adds the line of a token, where the text of its file is at hand: that of the lines that stand for options is not.
fn add_its_line(
    rt: &HostRuntime,
    out: &mut String,
    own: &Own,
    origin: &Origin,
    atom: Atom,
) -> Result<(), NoFile>
    ensures { OnOk result (AddsLine origin.now atom (string_bytes out.old) (string_bytes out.new)) }
{
    let file = atom.place.file;
    if file == 0 {
        push_its_line(out, origin, own.text.as_slice(), atom)?;
        return Ok(());
    }
    if file == 1 {
        return Ok(());
    }
    let name = str::from_utf8(name_of(origin, file)).unwrap_or("");
    match source_of(rt, name)? {
        Some(text) => {
            push_its_line(out, origin, &text, atom)?;
            Ok(())
        }
        None => Ok(()),
    }
}

// Adds where the token of a macro stands in which a refusal lies, if it lies in one.
fn add_called(
    rt: &HostRuntime,
    out: &mut String,
    text: &[u8],
    own: &Own,
    refusal: Refusal,
) -> Result<(), NoFile>
    ensures { OnOk result (AddsCalled own.now.origin text.now refusal (string_bytes out.old) (string_bytes out.new)) }
{
    let Some(origin) = &own.origin else {
        return Ok(());
    };
    let Some(atom) = called_in(rt.alloc(), origin, text, refusal)? else {
        return Ok(());
    };
    push_called(out, origin, atom)?;
    add_its_line(rt, out, own, origin, atom)
}

/// Why the model of a text is refused, and where: with the lines of the text that it was prepared of, and of the files that this includes, and with
/// the line of the macro in which it lies.
pub fn explained_beside(
    rt: &HostRuntime,
    name: &str,
    text: &[u8],
    own: &Own,
    refusal: Refusal,
) -> Result<String, NoFile>
    ensures { IfOk result (λ out. ExplainsOwn name.now text.now own.now refusal (string_bytes out)) }
{
    let included = included_text(rt, text, own.lines.as_slice(), refusal)?;
    let included = included.unwrap_or(Vec::new(rt.alloc()));
    let source = AuthorSource {
        text: own.text.as_slice(),
        lines: own.lines.as_slice(),
        included: included.as_slice(),
    };
    let mut out = explain_beside(rt.alloc(), name, text, source, refusal)?;
    add_called(rt, &mut out, text, own, refusal)?;
    Ok(out)
}

/// Why the model of a text is refused, and where, with the lines of the files that are named for it.
pub fn explained(
    rt: &HostRuntime,
    shown: ExplainedText<'_>,
    refusal: Refusal,
) -> Result<String, NoFile> {
    let own = source_if_named(rt, shown.source)?;
    let lines = source_if_named(rt, shown.lines)?.unwrap_or(Vec::new(rt.alloc()));
    let included = included_text(rt, shown.text, lines.as_slice(), refusal)?;
    let included = included.unwrap_or(Vec::new(rt.alloc()));
    let source = AuthorSource {
        text: match &own {
            Some(own) => own.as_slice(),
            None => shown.text,
        },
        lines: lines.as_slice(),
        included: included.as_slice(),
    };
    Ok(explain_beside(rt.alloc(), shown.name, shown.text, source, refusal)?)
}
