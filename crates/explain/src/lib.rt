//! What a user is told of a refused model: where the refusal lies, why, and what to write.
#![tactic(auto)]

mod ascii;
mod counts;
mod foreign;
mod included;
mod message;
mod names;
mod syntax;
mod texts;
mod told;

ghost use Rattle.explain.specs.Said.{Keeps};
ghost use Rattle.std.specs.Prelude.{◌≡◌, [], IfOk, IfSome, string_bytes, OnOk};
ghost use Rattle.explain_find.specs.Told.{IsTold};
ghost use Rattle.explain.specs.Explained.{Explains, ExplainsBeside};
ghost use Rattle.explain.specs.Request.{asked_for};

use counts::{of_control, of_count, of_inline, of_label, of_range, of_start};
use diagnostics::Refusal;
use explain_cause::cause::{Finding, Reason, Segment};
use explain_find::cause_of;
use included::included_at;
use message::Notice;
use names::{of_declared, of_twice, of_unknown};
use source_lines::position::shown_offset;
use source_lines::shown::show_chars;
use std::alloc::{AllocError, Global};
use syntax::of_syntax;
use texts::of_text;
use told::{RefusedText, told_alone, told_at};

/// Adds the words of a cause.
fn tell(message: &mut Notice<'_>, cause: Reason<'_>) -> Result<(), AllocError>
    ensures { OnOk result (Keeps message.old message.new) }
{
    match cause {
        Reason::Text(cause) => of_text(message, cause),
        Reason::Syntax(cause) => of_syntax(message, cause),
        Reason::Twice(cause) => of_twice(message, cause),
        Reason::Unknown(cause) => of_unknown(message, cause),
        Reason::Wrong(cause, first) => of_declared(message, cause, first),
        Reason::Count(cause) => of_count(message, cause),
        Reason::Label(cause) => of_label(message, cause),
        Reason::Control(cause) => of_control(message, cause),
        Reason::Range(cause) => of_range(message, cause),
        Reason::Start(cause) => of_start(message, cause),
        Reason::Inline(cause) => of_inline(message, cause),
        Reason::Untold => Ok(()),
    }
}

/// What is told behind the number and the words of a refusal.
fn words_of(
    alloc: Global,
    text: &[u8],
    lines: &[u8],
    cause: Reason<'_>,
) -> Result<String, AllocError> {
    let mut message = Notice::new(alloc, text, lines);
    if let Reason::Untold = cause {
        return Ok(message.into_text());
    }
    message.push(": ")?;
    tell(&mut message, cause)?;
    Ok(message.into_text())
}

/// What is told of a refused text, apart from its lines.
#[derive(Drop)]
pub struct Explanation {
    /// The part of the text that is told, if one is.
    pub place: Option<Segment>,
    /// What is said behind the refusal's own words: empty, or from a colon on.
    pub words: String,
}

/// What a user is told of a refused text, in parts. `refusal` is what `play` refused it with.
pub fn explanation_of(
    alloc: Global,
    text: &[u8],
    refusal: Refusal,
) -> Result<Explanation, AllocError>
    ensures { IfOk result (λ e. IfSome e.place (IsTold text.now refusal)) }
{
    let Finding { place, cause } = cause_of(alloc, text, refusal)?;
    let words = words_of(alloc, text, b"", cause)?;
    Ok(Explanation { place, words })
}

/// What a text was prepared of.
#[derive(Clone, Copy)]
pub struct AuthorSource<'t> {
    /// The model as its author has it.
    pub text: &'t [u8],
    /// Which lines are of included files, as `spinprep` writes it.
    pub lines: &'t [u8],
    /// The included file in which the refusal lies, if it does.
    pub included: &'t [u8],
}

/// What a user is told of a refused model: its lines, each with its line feed, for standard error.
///
/// `name` is that of the model's file, as it was given, and `refusal` what `play` refused the text with. Where no place is found, it is
/// the first line alone, without line and column.
pub fn explain(
    alloc: Global,
    name: &str,
    text: &[u8],
    refusal: Refusal,
) -> Result<String, AllocError>
    ensures { IfOk result (λ out. Explains name.now text.now refusal (string_bytes out)) }
{
    let source = AuthorSource {
        text,
        lines: b"",
        included: b"",
    };
    explain_beside(alloc, name, text, source, refusal)
}

/// The same of a text that was prepared of another one with the same lines: where the two differ, the line of that source is shown, and the
/// place on it where its token is found there. A place in an included file is told by that file's name and lines.
pub fn explain_beside(
    alloc: Global,
    name: &str,
    text: &[u8],
    source: AuthorSource<'_>,
    refusal: Refusal,
) -> Result<String, AllocError>
    ensures { IfOk result (λ out. ExplainsBeside (asked_for name.now text.now source.entry) refusal (string_bytes out)) }
{
    let Finding { place, cause } = cause_of(alloc, text, refusal)?;
    let words = words_of(alloc, text, source.lines, cause)?;
    let asked = RefusedText {
        name,
        text,
        own: source.text,
        lines: source.lines,
        included: source.included,
    };
    match place {
        Some(place) => told_at(alloc, asked, place, refusal, words.as_str()),
        None => told_alone(alloc, name, refusal, words.as_str()),
    }
}

/// The included file in which a refusal lies, if it does, by a table of the lines of such files.
pub fn included_file<'t>(
    alloc: Global,
    text: &'t [u8],
    lines: &'t [u8],
    refusal: Refusal,
) -> Result<Option<&'t str>, AllocError> {
    if lines.is_empty() {
        return Ok(None);
    }
    let Finding { place, cause: _ } = cause_of(alloc, text, refusal)?;
    match place {
        Some(place) => match included_at(text, lines, shown_offset(text, place.offset)) {
            Some(included) => Ok(Some(included.file)),
            None => Ok(None),
        },
        None => Ok(None),
    }
}

/// The name of a file as it is shown.
pub fn shown_file(alloc: Global, name: &str) -> Result<String, AllocError> {
    let mut out = String::new(alloc);
    show_chars(&mut out, name)?;
    Ok(out)
}
