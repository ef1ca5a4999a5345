//! What is written of a place that is told, and of the refusal.

ghost use Rattle.std.specs.Prelude.{◌≡◌, ◌++◌, IfOk, OnOk, string_bytes};
ghost use Rattle.diagnostic_words.specs.Words.{refusal_words};
ghost use Rattle.source_lines.specs.Seen.{sight_of};
ghost use Rattle.explain.specs.Explained.{shown_name, said, column_said, lines_shown, told_of, TellsPlace};
ghost use Rattle.explain.specs.Request.{request_of};

use crate::included::included_at;
use diagnostics::Refusal;
use explain_cause::cause::Segment;
use source_lines::beside::{LineSight, seen_in};
use source_lines::position::{column, line_of, shown_offset};
use source_lines::shown::{push_number, show_alone, show_chars, show_line};
use std::alloc::{AllocError, Global};
use std::str;

/// The text that was refused, the name of its file, the author's text, the lines that are of included files, and the file in which the place lies.
#[derive(Clone, Copy)]
pub struct RefusedText<'t> {
    pub name: &'t str,
    pub text: &'t [u8],
    pub own: &'t [u8],
    pub lines: &'t [u8],
    pub included: &'t [u8],
}

/// Adds the words of a refusal.
fn push_words(out: &mut String, refusal: Refusal) -> Result<(), AllocError>
    ensures { OnOk result (string_bytes out.new ≡ string_bytes out.old ++ refusal_words refusal) }
{
    match str::from_utf8(diagnostic_words::of_refusal(refusal)) {
        Ok(words) => out.push_str(words),
        Err(_) => Ok(()),
    }
}

/// Adds the number and the words of a refusal, and the words behind them.
pub fn push_refusal(out: &mut String, refusal: Refusal, words: &str) -> Result<(), AllocError>
    ensures { OnOk result (string_bytes out.new ≡ string_bytes out.old ++ said refusal words.now) }
{
    out.push_str(": M")?;
    push_number(out, usize::from(refusal.number()))?;
    out.push_str(" ")?;
    push_words(out, refusal)?;
    out.push_str(words)?;
    out.push_str("\n")
}

/// Adds the column of what is marked, where it is found.
fn push_column(out: &mut String, seen: LineSight<'_>) -> Result<(), AllocError>
    ensures { OnOk result (string_bytes out.new ≡ string_bytes out.old ++ column_said (sight_of seen.entry)) }
{
    match seen.onset {
        Some(onset) => {
            out.push_str(":")?;
            push_number(out, column(seen.bytes, onset))
        }
        None => Ok(()),
    }
}

/// Adds the line, with carets where what is marked is found.
fn push_lines(out: &mut String, number: usize, seen: LineSight<'_>) -> Result<(), AllocError>
    ensures { OnOk result (string_bytes out.new ≡ string_bytes out.old ++ lines_shown number (sight_of seen.entry)) }
{
    match seen.onset {
        Some(onset) => show_line(out, number, seen.bytes, onset, seen.length),
        None => show_alone(out, number, seen.bytes),
    }
}

/// All that is told of a line.
fn told_of(
    alloc: Global,
    file: &str,
    number: usize,
    seen: LineSight<'_>,
    refusal: Refusal,
    words: &str,
) -> Result<String, AllocError>
    ensures { IfOk result (λ out. string_bytes out ≡ told_of file.now number (sight_of seen.entry) refusal words.now) }
{
    let mut out = String::new(alloc);
    show_chars(&mut out, file)?;
    out.push_str(":")?;
    push_number(&mut out, number)?;
    push_column(&mut out, seen)?;
    push_refusal(&mut out, refusal, words)?;
    push_lines(&mut out, number, seen)?;
    Ok(out)
}

/// All that is told where no place is found.
pub fn told_alone(
    alloc: Global,
    name: &str,
    refusal: Refusal,
    words: &str,
) -> Result<String, AllocError>
    ensures { IfOk result (λ out. string_bytes out ≡ shown_name name.now ++ said refusal words.now) }
{
    let mut out = String::new(alloc);
    show_chars(&mut out, name)?;
    push_refusal(&mut out, refusal, words)?;
    Ok(out)
}

/// All that is told of a place, whose line is shown as it stands in the source.
pub fn told_at(
    alloc: Global,
    asked: RefusedText<'_>,
    place: Segment,
    refusal: Refusal,
    words: &str,
) -> Result<String, AllocError>
    ensures { IfOk result (λ out. TellsPlace (request_of asked.entry) place refusal words.now (string_bytes out)) }
{
    let offset = shown_offset(asked.text, place.offset);
    match included_at(asked.text, asked.lines, offset) {
        Some(included) => {
            let line = included.line;
            let onset = offset.saturating_sub(line.start);
            let seen = seen_in(asked.included, line.number, line.bytes, onset, place.length);
            told_of(alloc, included.file, line.number, seen, refusal, words)
        }
        None => {
            let line = line_of(asked.text, offset);
            let onset = offset.saturating_sub(line.start);
            let seen = seen_in(asked.own, line.number, line.bytes, onset, place.length);
            told_of(alloc, asked.name, line.number, seen, refusal, words)
        }
    }
}
