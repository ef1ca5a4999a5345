//! What is told of tokens that no rule reads.

ghost use Rattle.std.specs.Prelude.{OnOk};
ghost use Rattle.explain.specs.Said.{Keeps};

use crate::foreign::{advice, tell_classes, tell_word};
use crate::message::Notice;
use crate::names::TYPES;
use explain_cause::cause::{Expected, Named, SyntaxCause};
use source_lines::position::{column, line_of};
use std::alloc::AllocError;

/// What closes this, in words.
fn closer(opener: &[u8]) -> &'static str {
    match opener {
        b"(" => "`)`",
        b"[" => "`]`",
        b"{" => "`}`",
        b"if" => "`fi`",
        _ => "`od`",
    }
}

/// What closes is missing in front of the token, or of the text's end.
fn misses_closer(message: &mut Notice<'_>, opener: Named<'_>) -> Result<(), AllocError>
    ensures { OnOk result (Keeps message.old message.new) }
{
    message.push(closer(opener.name))?;
    message.push(" is missing before it: by the indentation that")?;
    message.placed(" of the ", opener, " of ", "")
}

/// What closes is wanted in front of a `->`.
fn wants_closer_at_arrow(message: &mut Notice<'_>, opener: Named<'_>) -> Result<(), AllocError>
    ensures { OnOk result (Keeps message.old message.new) }
{
    wants_closer_before(message, opener)?;
    let line = line_of(message.text(), opener.offset);
    let column = column(line.bytes, opener.offset.saturating_sub(line.start));
    message.figure(", column ", column, "")
}

fn wants_closer(message: &mut Notice<'_>, opener: Named<'_>) -> Result<(), AllocError>
    ensures { OnOk result (Keeps message.old message.new) }
{
    message.push(closer(opener.name))?;
    message.placed(" is wanted, for the ", opener, " of ", "")
}

/// Of a call of an inline that is not defined before it.
fn wants_inline(
    message: &mut Notice<'_>,
    name: &[u8],
    later: Option<Named<'_>>,
) -> Result<(), AllocError>
    ensures { OnOk result (Keeps message.old message.new) }
{
    match later {
        Some(inline) => {
            message.around("the inline ", name, "")?;
            message.line(" is defined only on ", inline.offset, ", behind its call")
        }
        None => {
            message.around("no inline ", name, " is defined before its call: ")?;
            message.push("write `inline f(a, b) { .. }` for it; a process is begun by `run`")
        }
    }
}

/// `::` and a condition are wanted.
fn wants_options(message: &mut Notice<'_>, word: &[u8]) -> Result<(), AllocError>
    ensures { OnOk result (Keeps message.old message.new) }
{
    message.around("`::` is wanted behind ", word, "")?;
    message.push(match word {
        b"if" => ", as in `if :: x == 1 -> .. :: else -> .. fi`",
        _ => ", as in `do :: x < 3 -> .. :: else -> break od`",
    })
}

/// What closes is wanted in front of the token.
fn wants_closer_before(message: &mut Notice<'_>, opener: Named<'_>) -> Result<(), AllocError>
    ensures { OnOk result (Keeps message.old message.new) }
{
    message.push(closer(opener.name))?;
    message.placed(" is wanted before it, for the ", opener, " of ", "")
}

/// Of a name in a declaration that has no type.
fn untyped(message: &mut Notice<'_>, name: &[u8]) -> Result<(), AllocError>
    ensures { OnOk result (Keeps message.old message.new) }
{
    message.around(
        "",
        name,
        " has no type: a declaration begins with one, as in `byte x`, ",
    )?;
    message.push("and a `,` parts names of one type")
}

/// Of a name that an inline has, and something else too.
fn name_of_inline(
    message: &mut Notice<'_>,
    name: &[u8],
    inline: Named<'_>,
) -> Result<(), AllocError>
    ensures { OnOk result (Keeps message.old message.new) }
{
    message.around("", name, " is an inline")?;
    message.line(" (", inline.offset, "), ")?;
    message.push("and stands for what comes of its call: choose another name for one of the two")
}

/// Of a call of an inline that has `run` in front of it.
fn inline_run(message: &mut Notice<'_>, name: &[u8], inline: Named<'_>) -> Result<(), AllocError>
    ensures { OnOk result (Keeps message.old message.new) }
{
    message.around("", name, " is an inline")?;
    message.line(" (", inline.offset, "), ")?;
    message.push("and its call stands by itself: leave `run` out")
}

/// What is told of names, where something of theirs is wanted.
fn wants_of_name(message: &mut Notice<'_>, wanted: Expected<'_>) -> Result<(), AllocError>
    ensures { OnOk result (Keeps message.old message.new) }
{
    match wanted {
        Expected::Parameters(name) => {
            message.around(
                "`()` or parameters in parentheses are wanted behind ",
                name,
                "",
            )
        }
        Expected::CloserBefore(opener) => wants_closer_before(message, opener),
        Expected::CloserBeforeArrow(opener, _) => wants_closer_at_arrow(message, opener),
        Expected::CloserByLayout(opener) => misses_closer(message, opener),
        Expected::CloserAndSemicolon(opener) => {
            message.push(closer(opener.name))?;
            message.placed(
                " and `;` are wanted before it, for the ",
                opener,
                " of ",
                "",
            )
        }
        wanted => wants_sign(message, wanted),
    }
}

/// A value, or what takes a message, is wanted behind a sign.
fn wants_operand(message: &mut Notice<'_>, operator: &[u8]) -> Result<(), AllocError>
    ensures { OnOk result (Keeps message.old message.new) }
{
    match operator {
        b"?" | b"??" => message.around(
            "what takes the message is wanted behind ",
            operator,
            ", as in `c ? x`",
        ),
        _ => message.around("a value is wanted behind ", operator, ""),
    }
}

/// What is wanted for a separator.
fn wants_sign(message: &mut Notice<'_>, wanted: Expected<'_>) -> Result<(), AllocError>
    ensures { OnOk result (Keeps message.old message.new) }
{
    match wanted {
        Expected::SemicolonAtLineEnd(last) => message.line(
            "a `;` is wanted at the end of ",
            last.offset,
            " (models for Spin 6.3 and later leave it out: `spinprep --play MODEL` writes it)",
        ),
        Expected::SemicolonOrOption(last) => message.line(
            "a `;` is wanted at the end of ",
            last.offset,
            ", or `::` before it where another option begins",
        ),
        Expected::SemicolonFor => message.push("write `;` for it, or `->` behind a condition"),
        Expected::OptionFor => message.push("write `::` for it"),
        Expected::ArrowFor(_) => message.push("write `->` for it, as in `x == 1 -> x = 2`"),
        Expected::Semicolon => message.push("a `;` is wanted before it"),
        Expected::OptionSign => message.push("`::` is wanted before it"),
        Expected::Operand(operator) => wants_operand(message, operator),
        Expected::Arguments(name) => {
            message.around(
                "`()` or arguments in parentheses are wanted behind ",
                name,
                "",
            )
        }
        Expected::Options(word) => wants_options(message, word),
        Expected::Nothing => message.push("it is one too many"),
        Expected::Comma | Expected::CommaBefore(_) => message.push("a `,` is wanted before it"),
        _ => message.push("it cannot stand here"),
    }
}

fn wants(message: &mut Notice<'_>, wanted: Expected<'_>) -> Result<(), AllocError>
    ensures { OnOk result (Keeps message.old message.new) }
{
    match wanted {
        Expected::Statement(label) => message.around(
            "a statement is wanted behind the label ",
            label,
            ", for example `skip`",
        ),
        Expected::NoList => message.push(
            "a list is no initialiser here: give each element its value by an assignment, as in `a[0] = 1`",
        ),
        Expected::NoSubtype => message.push("sub-typed mtypes are left out: write `mtype` alone"),
        Expected::NoRun => message.push(
            "`run` stands by itself or behind `x =`, and in no other expression",
        ),
        Expected::Closer(opener) => wants_closer(message, opener),
        Expected::NothingOpen => message.push("nothing is open that it closes"),
        Expected::Name => message.push(
            "a name is wanted, and it is a word of the language: choose another one",
        ),
        Expected::PlainAssignment => message.push(
            "there is no assignment with an operator: write `x = x + 1` for `x += 1`",
        ),
        Expected::OneOf(classes) => tell_classes(message, classes),
        wanted => wants_of_name(message, wanted),
    }
}

/// Of a name that is no type.
fn no_type(message: &mut Notice<'_>, name: &[u8]) -> Result<(), AllocError>
    ensures { OnOk result (Keeps message.old message.new) }
{
    message.around("", name, " is no type here: there are ")?;
    message.push(TYPES)
}

/// Of an inline that stands where a value is wanted.
fn inline_value(message: &mut Notice<'_>, name: &[u8]) -> Result<(), AllocError>
    ensures { OnOk result (Keeps message.old message.new) }
{
    message.around("", name, " is an inline, and has no value: ")?;
    message.push("let it store that in a parameter, as in `inline f(a, b) { b = a + 1 }`")
}

/// Of a variable that is called as a function.
fn called(message: &mut Notice<'_>, name: &[u8]) -> Result<(), AllocError>
    ensures { OnOk result (Keeps message.old message.new) }
{
    message.around("", name, " is a variable, and is not called")?;
    message.push("; an element of an array is written `a[1]`")
}

/// Of a proctype that has no `run` in front of it.
fn run_of(message: &mut Notice<'_>, proctype: Named<'_>) -> Result<(), AllocError>
    ensures { OnOk result (Keeps message.old message.new) }
{
    message.placed("", proctype, " is a proctype (", "): ")?;
    message.around("write `run` in front of ", proctype.name, "")
}

/// Of a name that is nearly a word.
fn nearly_word(message: &mut Notice<'_>, name: &[u8], word: &[u8]) -> Result<(), AllocError>
    ensures { OnOk result (Keeps message.old message.new) }
{
    message.around("", name, " is no word here")?;
    message.around("; did you mean ", word, "?")
}

/// Of a name that is no word.
fn no_word(message: &mut Notice<'_>, name: &[u8]) -> Result<(), AllocError>
    ensures { OnOk result (Keeps message.old message.new) }
{
    message.around("", name, " is no word here, and no type that is declared: ")?;
    message.push("leave it out, or write a word of the language for it")
}

/// Of a word that is told of itself, without what is found behind it; or else nothing is added, and that is answered.
fn of_word(message: &mut Notice<'_>, wanted: Expected<'_>) -> Result<bool, AllocError>
    ensures { OnOk result (Keeps message.old message.new) }
{
    let told = match wanted {
        Expected::ForeignWord(foreign, word) => tell_word(message, foreign, word.name),
        Expected::RunOf(proctype, _) => run_of(message, proctype),
        Expected::Word(name, word) => nearly_word(message, name.name, word),
        Expected::NoWord(name) => no_word(message, name.name),
        Expected::NoType(name) => no_type(message, name.name),
        Expected::Index(name) => called(message, name.name),
        Expected::InlineValue(name) => inline_value(message, name.name),
        Expected::Inline(name, later) => wants_inline(message, name.name, later),
        Expected::NameOfInline(name, inline) => name_of_inline(message, name.name, inline),
        Expected::InlineRun(name, inline) => inline_run(message, name.name, inline),
        Expected::Untyped(name) => untyped(message, name.name),
        _ => return Ok(false),
    };
    told?;
    Ok(true)
}

/// Of tokens that no tree spells.
pub fn of_syntax(message: &mut Notice<'_>, cause: SyntaxCause<'_>) -> Result<(), AllocError>
    ensures { OnOk result (Keeps message.old message.new) }
{
    if let Expected::EndOf(opener) = cause.wanted {
        message.push("the text ends: ")?;
        return wants_closer(message, opener);
    }
    if let Expected::EndByLayout(opener) = cause.wanted {
        message.push("the text ends: ")?;
        return misses_closer(message, opener);
    }
    if cause.found.is_empty() {
        return message.push("nothing is declared");
    }
    if of_word(message, cause.wanted)? {
        return Ok(());
    }
    message.around("", cause.found, " found: ")?;
    match cause.wanted {
        Expected::Form(form) => message.push(advice(form)),
        wanted => wants(message, wanted),
    }
}
