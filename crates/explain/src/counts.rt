//! What is told of arguments, labels, control, numbers, the first state and inlines.

ghost use Rattle.std.specs.Prelude.{OnOk};
ghost use Rattle.explain.specs.Said.{Keeps};

use crate::message::Notice;
use crate::names::did_you_mean;
use explain_cause::cause::{
    CircleLabels, ControlCause, CountCause, Hazard, InlineCause, LabelCause, Named, RangeCause,
    StartCause,
};
use profile::{
    MOST_BITS, MOST_CALLS, MOST_CELLS, MOST_CHANNELS, MOST_CONSTANTS, MOST_FIELDS, MOST_MESSAGES,
    MOST_PROCESSES, MOST_REPLACED,
};
use std::alloc::AllocError;

/// Of another number of arguments than there are parameters.
fn arguments(
    message: &mut Notice<'_>,
    name: Named<'_>,
    given: usize,
    wanted: usize,
) -> Result<(), AllocError>
    ensures { OnOk result (Keeps message.old message.new) }
{
    message.placed("", name, " (", ") has ")?;
    message.count(wanted, " parameter, and ", " parameters, and ")?;
    message.count(given, " argument is given", " arguments are given")
}

/// Of another number of values than a text has conversions.
fn values(message: &mut Notice<'_>, given: usize, wanted: usize) -> Result<(), AllocError>
    ensures { OnOk result (Keeps message.old message.new) }
{
    message.push("the text has ")?;
    message.count(wanted, " conversion, and ", " conversions, and ")?;
    message.count(given, " value is given", " values are given")
}

/// Of a wrong number of arguments.
pub fn of_count(message: &mut Notice<'_>, cause: CountCause<'_>) -> Result<(), AllocError>
    ensures { OnOk result (Keeps message.old message.new) }
{
    match cause {
        CountCause::Run(name, given, wanted) => arguments(message, name, given, wanted),
        CountCause::Printf(given, wanted) => values(message, given, wanted),
        CountCause::Conversion(letter) => message.around(
            "",
            &[b'%', letter],
            " is no conversion: there are %d, %u, %o, %x, %c and %e, and %% for the sign itself",
        ),
        CountCause::OpenConversion => {
            message.push("nothing stands behind `%`: write `%%` for the sign itself")
        }
    }
}

/// Of a label.
pub fn of_label(message: &mut Notice<'_>, cause: LabelCause<'_>) -> Result<(), AllocError>
    ensures { OnOk result (Keeps message.old message.new) }
{
    match cause {
        LabelCause::Twice(first) => message.placed("the label ", first, " stands already on ", ""),
        LabelCause::Missing(name, near) => {
            message.around("this proctype has no label ", name, "")?;
            match near {
                Some(_) => did_you_mean(message, near),
                None => message.push(
                    ": it stands with a `:` before a statement, as in `again: skip`",
                ),
            }
        }
        LabelCause::Elsewhere(other) => {
            message.placed("the label ", other, " stands in another proctype (", ")")
        }
    }
}

/// The labels of a circle between its first one and the first one again.
fn way(message: &mut Notice<'_>, circle: CircleLabels<'_>) -> Result<(), AllocError>
    ensures { OnOk result (Keeps message.old message.new) }
{
    message.around(" leads to ", circle.second, "")?;
    match circle.count {
        0..=2 => Ok(()),
        3 => message.around(", to ", circle.third, ""),
        _ => message.around(", to ", circle.third, ", further on"),
    }
}

fn of_circle(message: &mut Notice<'_>, circle: CircleLabels<'_>) -> Result<(), AllocError>
    ensures { OnOk result (Keeps message.old message.new) }
{
    message.name(circle.first)?;
    if circle.count <= 1 {
        return message.push(" leads to itself, and no statement is on the way");
    }
    way(message, circle)?;
    message.around(
        " and back to ",
        circle.first,
        ", and no statement is on the way",
    )
}

/// Of breaks, d_steps and circles.
pub fn of_control(message: &mut Notice<'_>, cause: ControlCause<'_>) -> Result<(), AllocError>
    ensures { OnOk result (Keeps message.old message.new) }
{
    match cause {
        ControlCause::LooseBreak => message.push(
            "no loop is round it: write `skip` where nothing is to be done, or leave by `goto` and a label",
        ),
        ControlCause::BreakOfStep => {
            message.push("it would end a `do` that is round the `d_step`")
        }
        ControlCause::Unless => message.push("no `unless` may stand in a `d_step`"),
        ControlCause::GotoLeaves(label) => message.placed(
            "it leaves its `d_step`, in which ",
            label,
            " (",
            ") does not stand",
        ),
        ControlCause::GotoEnters(label) => {
            message.placed("it enters the `d_step` in which ", label, " (", ") stands")
        }
        ControlCause::FirstElse(step) => {
            message.placed("the ", step, " (", ") cannot begin with `else`")
        }
        ControlCause::FirstLeaves(step) => {
            message.placed(
                "it leads out of the ",
                step,
                " (",
                "), which begins with it",
            )
        }
        ControlCause::Circle(circle) => of_circle(message, circle),
    }
}

/// A number that is outside of what it may be.
fn outside(
    message: &mut Notice<'_>,
    number: i32,
    least: usize,
    most: usize,
) -> Result<(), AllocError>
    ensures { OnOk result (Keeps message.old message.new) }
{
    message.push(" is ")?;
    message.signed(number)?;
    message.figure(", and may be from ", least, " to ")?;
    message.number(most)
}

/// A number of the declaration of a name that is outside of what it may be.
fn number_of(
    message: &mut Notice<'_>,
    what: &str,
    name: &[u8],
    number: i32,
    least: usize,
    most: usize,
) -> Result<(), AllocError>
    ensures { OnOk result (Keeps message.old message.new) }
{
    message.around(what, name, "")?;
    outside(message, number, least, most)
}

fn of_fields(message: &mut Notice<'_>, name: &[u8], number: usize) -> Result<(), AllocError>
    ensures { OnOk result (Keeps message.old message.new) }
{
    message.both(
        "the messages of ",
        name,
        " have ",
        number,
        " fields, and may have ",
    )?;
    message.number(MOST_FIELDS)
}

fn of_declared(message: &mut Notice<'_>, cause: RangeCause<'_>) -> Result<(), AllocError>
    ensures { OnOk result (Keeps message.old message.new) }
{
    match cause {
        RangeCause::Size(name, number) => {
            number_of(
                message,
                "the size of ",
                name,
                number,
                1,
                MOST_CELLS as usize,
            )
        }
        RangeCause::Count(name, number) => number_of(
            message,
            "the number of processes ",
            name,
            number,
            1,
            MOST_PROCESSES,
        ),
        RangeCause::Capacity(name, number) => number_of(
            message,
            "the capacity of ",
            name,
            number,
            0,
            MOST_MESSAGES as usize,
        ),
        RangeCause::Fields(name, number) => of_fields(message, name, number),
        _ => Ok(()),
    }
}

/// Of numbers and cells.
pub fn of_range(message: &mut Notice<'_>, cause: RangeCause<'_>) -> Result<(), AllocError>
    ensures { OnOk result (Keeps message.old message.new) }
{
    match cause {
        RangeCause::Number(digits) => message.around("", digits, " is over 4294967295"),
        RangeCause::Width(digits) => message.both(
            "the width is ",
            digits,
            ", and may be from 1 to ",
            MOST_BITS as usize,
            "",
        ),
        RangeCause::Constants(name) => message.both(
            "",
            name,
            " is one more name of `mtype` than ",
            MOST_CONSTANTS,
            "",
        ),
        RangeCause::Divides(name) => {
            message.around("the constant expression of ", name, " divides by 0")
        }
        RangeCause::Cells(name) => message.both(
            "with ",
            name,
            " there are more than ",
            MOST_CELLS as usize,
            " numbers to hold",
        ),
        RangeCause::ChannelCells(name) => message.both(
            "",
            name,
            " may have to hold more than ",
            MOST_CELLS as usize,
            " numbers",
        ),
        cause => of_declared(message, cause),
    }
}

/// What an initialiser did.
fn deed(fault: Hazard) -> &'static str {
    match fault {
        Hazard::Divides => " divides by 0",
        Hazard::Index => " has an index outside its array",
        Hazard::Channel => " asks a channel that is not there",
        Hazard::Any => " comes to a fault",
    }
}

/// Of a text in which no process begins.
fn of_none(message: &mut Notice<'_>, proctype: Option<Named<'_>>) -> Result<(), AllocError>
    ensures { OnOk result (Keeps message.old message.new) }
{
    match proctype {
        Some(proctype) => message.placed(
            "write `active` before the proctype ",
            proctype,
            " (",
            "), or an `init` that runs it",
        ),
        None => message.push("write an `init { .. }`"),
    }
}

/// Of the first state.
pub fn of_start(message: &mut Notice<'_>, cause: StartCause<'_>) -> Result<(), AllocError>
    ensures { OnOk result (Keeps message.old message.new) }
{
    match cause {
        StartCause::NoProcess(proctype) => of_none(message, proctype),
        StartCause::Processes(name) => {
            message.both(
                "with ",
                name,
                " more than ",
                MOST_PROCESSES,
                " processes begin",
            )
        }
        StartCause::Channels(name) => {
            message.both(
                "with ",
                name,
                " more than ",
                MOST_CHANNELS,
                " channels are made",
            )
        }
        StartCause::Initialiser(name, fault) => {
            message.around("the initialiser of ", name, deed(fault))
        }
    }
}

/// Of a call of an inline.
fn of_call(message: &mut Notice<'_>, cause: InlineCause<'_>) -> Result<(), AllocError>
    ensures { OnOk result (Keeps message.old message.new) }
{
    match cause {
        InlineCause::OpenCall(name) => message.around("the call of ", name, " has no `)`"),
        InlineCause::Arguments(name, given, wanted) => arguments(message, name, given, wanted),
        InlineCause::EmptyArgument(name) => message.around("an argument of ", name, " is empty"),
        InlineCause::NameTaken(inline) => {
            message.placed("", inline, " is an inline (", "): ")?;
            message.push("choose another name for one of the two")
        }
        InlineCause::CallsItself(name) => {
            message.around("", name, " is called by what comes out of its own call")
        }
        InlineCause::TooDeep(name) => message.both(
            "with the call of ",
            name,
            " more than ",
            MOST_CALLS as usize,
            " calls stand within one another",
        ),
        InlineCause::TooLong(name) => message.both(
            "with the call of ",
            name,
            " more than ",
            MOST_REPLACED,
            " tokens come out of calls",
        ),
        _ => Ok(()),
    }
}

/// Of inlines.
pub fn of_inline(message: &mut Notice<'_>, cause: InlineCause<'_>) -> Result<(), AllocError>
    ensures { OnOk result (Keeps message.old message.new) }
{
    match cause {
        InlineCause::Within => message.push("an inline may be defined only outside of all braces"),
        InlineCause::Form => message.push(
            "a definition is `inline f(a, b) { .. }`: its parameters are names, without types",
        ),
        InlineCause::NoBody => message.push(
            "a definition is `inline f(a, b) { .. }`: its body stands in braces",
        ),
        InlineCause::OpenBody(name) => {
            message.around("the body of ", name, " has no `}` at its end")
        }
        InlineCause::Twice(first) => {
            message.placed("an inline ", first, " is defined already on ", "")
        }
        InlineCause::ParameterTwice(name) => {
            message.around("two parameters have the name ", name, "")
        }
        cause => of_call(message, cause),
    }
}
