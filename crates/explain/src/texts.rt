//! What is told of texts and words that are left out.

ghost use Rattle.std.specs.Prelude.{OnOk};
ghost use Rattle.explain.specs.Said.{Keeps};

use crate::ascii::{ANY, outside_of_ascii};
use crate::message::Notice;
use explain_cause::cause::{Named, TextCause};
use profile::{MOST_IN_A_ROW, MOST_OPEN, MOST_TEXT_BYTES};
use std::alloc::AllocError;

/// What is told of words and signs that are left out, behind them.
const LEFT_OUT: [(&[u8], &str); 9] = [
    (
        b"ltl never trace notrace",
        " is for a verification, and a simulation does not need it: take it out, or play the model by `spinprep --play MODEL`",
    ),
    (
        b"@",
        " asks at which label another process stands, as claims of a verification do, and is left out: let that process set a variable there",
    ),
    (
        b"np_ _last enabled pc_value",
        " is for claims of a verification, and is left out",
    ),
    (
        b"c_code c_decl c_expr c_state c_track",
        ": embedded C is left out; say it in Promela",
    ),
    (
        b"priority get_priority set_priority",
        " is left out, as all priorities are: take it out with its number, and any process may go first",
    ),
    (
        b"provided",
        " is left out: ask the condition in front of the statements",
    ),
    (b"D_proctype", " is left out: write `proctype`"),
    (
        b"return",
        " is left out: an inline gives a value by a parameter that it stores in, and a process ends at its closing brace, as by `goto done` and `done: skip` there",
    ),
    (
        b"'",
        ": a character in quotes is left out: write its number, or play the model by `spinprep --play MODEL`",
    ),
];

/// The words of lines for a preprocessor.
const DIRECTIVES: &[u8] =
    b"define include if ifdef ifndef elif else endif undef pragma error warning";

/// Whether a word is among words with blanks between them.
fn is_among(word: &[u8], words: &[u8]) -> bool {
    words.split(|byte| *byte == b' ').any(|one| one == word)
}

/// What a word or a sign is that is left out, and what to do.
fn about(word: &[u8]) -> &'static str {
    for (words, advice) in &LEFT_OUT {
        if is_among(word, *words) {
            return *advice;
        }
    }
    " is left out"
}

/// The `#` and the word behind it.
fn directive(line: &[u8]) -> &[u8] {
    let mut named = false;
    for (i, byte) in line.iter().enumerate() {
        let is_letter = b'a' <= *byte && *byte <= b'z';
        if named && !is_letter {
            return &line[..i];
        }
        named = named || is_letter;
    }
    line
}

/// What stands behind `#` and blanks.
fn word_behind(directive: &[u8]) -> &[u8] {
    for (i, byte) in directive.iter().enumerate() {
        if b'a' <= *byte && *byte <= b'z' {
            return &directive[i..];
        }
    }
    &directive[..0]
}

fn left_out(message: &mut Notice<'_>, word: &[u8]) -> Result<(), AllocError>
    ensures { OnOk result (Keeps message.old message.new) }
{
    if matches!(word, [b'#', ..]) {
        if !is_among(word_behind(directive(word)), DIRECTIVES) {
            return message.around("", word, ": a comment is written `/* .. */` or `// ..`");
        }
        let words =
            " is for a preprocessor: play the model by `spinprep --play MODEL`, which reads its `#` lines first";
        return message.around("", directive(word), words);
    }
    message.around("", word, about(word))
}

fn stray(message: &mut Notice<'_>, byte: u8) -> Result<(), AllocError>
    ensures { OnOk result (Keeps message.old message.new) }
{
    if byte == b'#' {
        return message.push(
            "`#` stands only at the beginning of a line: a comment is written `/* .. */` or `// ..`",
        );
    }
    if byte == b'\\' {
        return message.push(
            "`\\` begins no token: where it joins two lines, play the model by `spinprep --play MODEL`",
        );
    }
    if b'!' <= byte && byte <= b'~' {
        return message.around("", &[byte], " begins no token");
    }
    if byte >= 128 {
        return message.push(ANY);
    }
    message.figure("the byte ", usize::from(byte), " begins no token")
}

/// Of what is written as a function, and has a `return`.
fn of_return(message: &mut Notice<'_>, function: Named<'_>) -> Result<(), AllocError>
    ensures { OnOk result (Keeps message.old message.new) }
{
    message.placed(
        "",
        function,
        " (",
        ") is written as a function, and there are none: ",
    )?;
    message.push(if function.name == b"main".as_slice() {
        "write `init { .. }`, without `return`"
    } else {
        "an `inline f(a, b) { b = a + 1 }` stands in place of its calls, and stores what it gives"
    })
}

fn too_long(message: &mut Notice<'_>, bytes: usize) -> Result<(), AllocError>
    ensures { OnOk result (Keeps message.old message.new) }
{
    message.figure("it has ", bytes, " bytes or more, and may have ")?;
    message.number(MOST_TEXT_BYTES)
}

/// Of a text that has no tokens, that has words that are left out, or that is too deep.
pub fn of_text(message: &mut Notice<'_>, cause: TextCause<'_>) -> Result<(), AllocError>
    ensures { OnOk result (Keeps message.old message.new) }
{
    match cause {
        TextCause::TooLong(bytes) => too_long(message, bytes),
        TextCause::Stray(byte) => stray(message, byte),
        TextCause::Sign(sign) => outside_of_ascii(message, sign),
        TextCause::Slashes => message.push("write `&&` for `/\\`, and `||` for `\\/`"),
        TextCause::Dollar => {
            message.push("`$` begins no token: a name has letters, digits and `_` alone")
        }
        TextCause::OpenString => message.push("the string has no `\"` at its end on this line"),
        TextCause::OpenComment => message.push("the comment has no `*/` at its end"),
        TextCause::LeftOut(word) => left_out(message, word),
        TextCause::ReturnOf(function) => of_return(message, function),
        TextCause::Quote => {
            message.push("a text stands between `\"`, and only in `printf`: write `\"` for `'`")
        }
        TextCause::Prime => message.push(
            "a name has letters, digits and `_` alone: the next value is stored by an assignment, as `x = x + 1`",
        ),
        TextCause::Nested => message.figure(
            "more than ",
            MOST_OPEN as usize,
            " of `( [ { if do` are open here",
        ),
        TextCause::Row => message.figure(
            "more than ",
            MOST_IN_A_ROW as usize,
            " tokens stand in a row without `;`, `::`, a brace, `if`, `fi`, `do` or `od`",
        ),
    }
}
