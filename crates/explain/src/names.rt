//! What is told of names.

ghost use Rattle.std.specs.Prelude.{OnOk};
ghost use Rattle.explain.specs.Said.{Keeps};

use crate::foreign::advice;
use crate::message::Notice;
use explain_cause::cause::{NameSort, Named, TwiceCause, UnknownCause, WrongCause};
use std::alloc::AllocError;

/// Of a name that is declared twice.
pub fn of_twice(message: &mut Notice<'_>, cause: TwiceCause<'_>) -> Result<(), AllocError>
    ensures { OnOk result (Keeps message.old message.new) }
{
    match cause {
        TwiceCause::Again(name, first) => {
            message.around("", name.name, "")?;
            message.line(" is declared already on ", first.offset, "")
        }
        TwiceCause::Init(first) => {
            message.line("there is an `init` already on ", first.offset, "")
        }
        TwiceCause::Special(name) => {
            message.around(
                "",
                name,
                " is a name of the language, and no model declares it",
            )
        }
    }
}

/// The nearest name, if there is one.
pub fn did_you_mean(message: &mut Notice<'_>, near: Option<Named<'_>>) -> Result<(), AllocError>
    ensures { OnOk result (Keeps message.old message.new) }
{
    match near {
        Some(near) => message.placed("; did you mean ", near, " (", ")?"),
        None => Ok(()),
    }
}

/// What a sort is called.
fn a_sort(sort: NameSort) -> &'static str {
    match sort {
        NameSort::Variable => "a variable",
        NameSort::Constant => "a name of `mtype`",
        NameSort::Typedef => "a typedef",
        NameSort::Proctype => "a proctype",
        NameSort::Label => "a label",
        NameSort::Field => "a field",
    }
}

/// The types, as they are told.
pub const TYPES: &str =
    "`bit`, `bool`, `byte`, `chan`, `int`, `mtype`, `pid`, `short`, `unsigned` and the typedefs before it";

/// Of a name that is declared nowhere, and has no other near it.
fn nowhere(sort: NameSort) -> &'static str {
    match sort {
        NameSort::Typedef => " is declared nowhere, where a type is wanted: there are ",
        NameSort::Proctype => " is declared nowhere, where a proctype is wanted",
        NameSort::Variable => {
            " is declared nowhere: declare a variable before its use, as by `int a`, or a name by `mtype = { a, b }`"
        }
        _ => " is declared nowhere",
    }
}

/// Of a field that a typedef lacks.
fn no_field(
    message: &mut Notice<'_>,
    field: &[u8],
    holder: Named<'_>,
    near: Option<Named<'_>>,
) -> Result<(), AllocError>
    ensures { OnOk result (Keeps message.old message.new) }
{
    message.placed("the typedef ", holder, " (", ") has no field ")?;
    message.name(field)?;
    did_you_mean(message, near)
}

/// Of a name that is something else than what is wanted.
fn is_instead(
    message: &mut Notice<'_>,
    first: Named<'_>,
    sort: NameSort,
    behind: &str,
) -> Result<(), AllocError>
    ensures { OnOk result (Keeps message.old message.new) }
{
    message.around("", first.name, " is ")?;
    message.push(a_sort(sort))?;
    message.line(" (", first.offset, behind)
}

/// Of a name that is declared nowhere, with the one nearest to it.
fn of_nowhere(
    message: &mut Notice<'_>,
    sort: NameSort,
    name: &[u8],
    near: Option<Named<'_>>,
) -> Result<(), AllocError>
    ensures { OnOk result (Keeps message.old message.new) }
{
    message.name(name)?;
    match near {
        Some(_) => did_you_mean(message, near),
        None => {
            message.push(nowhere(sort))?;
            message.push(if matches!(sort, NameSort::Typedef) {
                TYPES
            } else {
                ""
            })
        }
    }
}

/// What is told of a name that is something else than a variable, behind its line.
fn behind_sort(sort: NameSort) -> &'static str {
    match sort {
        NameSort::Proctype => "), where a variable is wanted: a process of it is begun by `run`",
        _ => "), where a variable is wanted",
    }
}

/// Of a field behind `->`.
fn behind_arrow(message: &mut Notice<'_>, holder: &[u8], field: &[u8]) -> Result<(), AllocError>
    ensures { OnOk result (Keeps message.old message.new) }
{
    message.around("", field, " is declared nowhere: a field of ")?;
    message.around("", holder, " stands behind `.`, and not behind `->`")
}

/// Of a name that is declared nowhere, with what to do.
fn undeclared(message: &mut Notice<'_>, name: &[u8], advice: &str) -> Result<(), AllocError>
    ensures { OnOk result (Keeps message.old message.new) }
{
    message.around("", name, " is declared nowhere: ")?;
    message.push(advice)
}

/// Of a name that is nearly another.
fn nearly(message: &mut Notice<'_>, name: &[u8], word: &[u8]) -> Result<(), AllocError>
    ensures { OnOk result (Keeps message.old message.new) }
{
    message.name(name)?;
    message.around("; did you mean ", word, "?")
}

/// Of a name that is not declared.
pub fn of_unknown(message: &mut Notice<'_>, cause: UnknownCause<'_>) -> Result<(), AllocError>
    ensures { OnOk result (Keeps message.old message.new) }
{
    match cause {
        UnknownCause::Nowhere(sort, name, near) => of_nowhere(message, sort, name, near),
        UnknownCause::Later(first) => {
            message.placed("", first, " is declared only on ", ", behind its use")
        }
        UnknownCause::Elsewhere(first) => message.placed(
            "",
            first,
            " is a variable of another proctype (",
            "), and is seen only there",
        ),
        UnknownCause::Instead(first, sort) => {
            is_instead(message, first, sort, behind_sort(sort))
        }
        UnknownCause::Itself(first) => message.placed(
            "the typedef ",
            first,
            " (",
            ") cannot have a field of itself, nor of one that is declared behind it",
        ),
        UnknownCause::Arrow(holder, field) => behind_arrow(message, holder.name, field),
        UnknownCause::Foreign(name, foreign) => undeclared(message, name, advice(foreign)),
        UnknownCause::Bare(name) => {
            undeclared(
                message,
                name,
                "a variable is declared before its use, as by `int a`, a label has a `:` behind it, and a loop is left by `break`",
            )
        }
        UnknownCause::Inline(inline) => message.placed(
            "",
            inline,
            " is an inline (",
            "), and is called with parentheses, as in `f()`",
        ),
        UnknownCause::Word(name, word) => nearly(message, name, word),
        UnknownCause::Field(field, holder, near) => no_field(message, field, holder, near),
    }
}

/// What is told of a name that does not fit its use, behind the name.
fn of_use(cause: WrongCause<'_>) -> &'static str {
    match cause {
        WrongCause::ArrayWithoutIndex(_) => " is an array, and wants an index",
        WrongCause::ArrayLength(_) => {
            " is an array: how many elements it has is the number of its declaration"
        }
        WrongCause::ArrayForChannel(_) => {
            " is an array, and a channel is wanted: `len(c)` is how many messages `c` holds, and an array's size is the number of its declaration"
        }
        WrongCause::IndexWithoutArray(_) => " is no array, and takes no index",
        WrongCause::WholeTypedef(_) => " is of a typedef, and one of its fields is wanted",
        WrongCause::NoChannel(_) => " is no `chan`, where a channel is wanted",
        WrongCause::StoredConstant(_) => " is a name of `mtype`, and nothing can be stored in it",
        WrongCause::StoredSpecial(_) => " can only be read",
        WrongCause::NotPlain(_) => " takes no index and no field",
        WrongCause::Preset(_) => " is a variable, and a field begins with a constant expression",
        WrongCause::Holder(_) => " is no `chan`, and only a `chan` begins with a channel",
        _ => "",
    }
}

/// The name that it is told of.
fn used(cause: WrongCause<'_>) -> &[u8] {
    match cause {
        WrongCause::ArrayWithoutIndex(name) => name,
        WrongCause::ArrayLength(name) => name,
        WrongCause::ArrayForChannel(name) => name,
        WrongCause::IndexWithoutArray(name) => name,
        WrongCause::WholeTypedef(name) => name,
        WrongCause::NoChannel(name) => name,
        WrongCause::StoredConstant(name) => name,
        WrongCause::StoredSpecial(name) => name,
        WrongCause::NotPlain(name) => name,
        WrongCause::Preset(name) => name,
        WrongCause::Holder(name) => name,
        _ => b"",
    }
}

/// Of a field behind a name that has none.
fn of_field(message: &mut Notice<'_>, name: &[u8], field: &[u8]) -> Result<(), AllocError>
    ensures { OnOk result (Keeps message.old message.new) }
{
    message.around("", name, " is of no typedef, and has no field ")?;
    message.name(field)
}

fn of_value(message: &mut Notice<'_>, cause: WrongCause<'_>) -> Result<(), AllocError>
    ensures { OnOk result (Keeps message.old message.new) }
{
    match cause {
        WrongCause::OpenSize(name) => message.around(
            "the size of ",
            name,
            " is no constant expression: write a number",
        ),
        WrongCause::OpenCount(name) => message.around(
            "how many ",
            name,
            " begin is no constant expression: write a number",
        ),
        WrongCause::OpenPreset(name) => message.around(
            "the field ",
            name,
            " begins with no constant expression: write a number",
        ),
        WrongCause::OpenCapacity(name) => message.around(
            "the capacity of ",
            name,
            " is no constant expression: write a number",
        ),
        cause => message.around("", used(cause), of_use(cause)),
    }
}

/// Of a name or a value of the wrong kind, and where the name is declared.
pub fn of_declared(
    message: &mut Notice<'_>,
    cause: WrongCause<'_>,
    first: Option<usize>,
) -> Result<(), AllocError>
    ensures { OnOk result (Keeps message.old message.new) }
{
    of_wrong(message, cause)?;
    match first {
        Some(offset) => message.line("; it is declared on ", offset, ""),
        None => Ok(()),
    }
}

/// Of a name or a value of the wrong kind.
fn of_wrong(message: &mut Notice<'_>, cause: WrongCause<'_>) -> Result<(), AllocError>
    ensures { OnOk result (Keeps message.old message.new) }
{
    match cause {
        WrongCause::FieldOfNone(name, field) => of_field(message, name, field),
        WrongCause::ReadUnderscore => {
            message.push("`_` can only be stored in, and has no value")
        }
        WrongCause::PidOutside => message.push("`_pid` has a value only in a process"),
        WrongCause::NoTypedef(first, sort) => {
            is_instead(message, first, sort, "), where a typedef is wanted")
        }
        WrongCause::NoProctype(first, sort) => {
            is_instead(message, first, sort, "), where a proctype is wanted")
        }
        cause => of_value(message, cause),
    }
}
