//! What the statements of the first proctype of a model come to, one after another, from its first state on with the numbers of `writes`: as
//! process 0, the only one, or as the `process` that its part says, `NUMBER of COUNT`, or `NUMBER of COUNT timeout`.
//!
//! A condition comes to its value, another statement to `ok`, or either to a fault. The state behind them is its numbers and the messages of
//! each channel, with ` / ` between the two, and a dash for none.
ghost use Rattle.std.specs.Prelude.{◌≡◌};

use crate::layer::ModelView;
use crate::lines::write_all;
use crate::numbers::number;
use crate::values::{add_dash, add_numbers, add_outcome, add_stop};
use diagnostics::Stop;
use pml_channel::channel::Channel;
use pml_eval::eval::eval;
use pml_program::expr::{Expr, Target, Want};
use pml_program::program::{Action, Basic, Program, Stmt};
use pml_token::token::Token;
use pml_tree::tree::{Removal, Search, SendOrder};
use pml_value::message::{addressed, assert, put_at, values};
use pml_value::receive::{asked_at, take_from};
use pml_value::statement::outcome;
use pml_value::view::View as Seen;
use profile::MOST_FIELDS;
use promela_run::live_channel::LiveChannel;
use row_files::{RowBlock, RowWriter};
use run_printf::name_of_number;
use run_printf::string::printed;
use run_start::started::Started;
use std::alloc::Global;

/// A number of processes.
fn count(text: &str, out: &mut RowWriter) -> u8 {
    u8::try_from(number(text, out)).unwrap_or(u8::MAX)
}

/// Who takes statements: the number of a process, how many live, and `timeout`.
#[derive(Clone, Copy)]
struct Taker {
    pid: u8,
    process_count: u8,
    timeout: bool,
}

/// Who takes the statements, as these words say.
fn taker_of(words: &str, out: &mut RowWriter) -> Taker {
    let (pid, rest) = words.split_once(" of ").unwrap_or((words, ""));
    let (process_count, timeout) = rest.split_once(" ").unwrap_or((rest, ""));
    Taker {
        pid: count(pid, out),
        process_count: count(process_count, out),
        timeout: timeout == "timeout",
    }
}

/// What a process reads.
fn seen<'w>(started: &'w Started, taker: Taker) -> Seen<'w>
    ensures store { result.store.now ≡ started.now.store }
    ensures channels { result.channels.now ≡ started.now.channels.items }
{
    let channels = started.channels.as_slice();
    Seen::new(
        &started.store,
        channels,
        taker.pid,
        taker.process_count,
        taker.timeout,
    )
}

/// Prints a string with its values, of no more than a message may have fields.
fn print(
    constants: &[Token<'_>],
    string: &Token<'_>,
    arguments: &[Expr],
    view: &Seen<'_>,
    text: &mut Vec<u8>,
) -> Result<(), Stop> {
    if arguments.len() > MOST_FIELDS {
        return Err(Stop::Memory);
    }
    let numbers = values(arguments, view).map_err(Stop::Fault)?;
    printed(constants, string.text(), numbers.as_slice(), text).map_err(|_| Stop::Memory)
}

/// Prints a number by its name.
fn print_name(
    constants: &[Token<'_>],
    value: &Expr,
    view: &Seen<'_>,
    text: &mut Vec<u8>,
) -> Result<(), Stop> {
    let number = eval(value, view).map_err(Stop::Fault)?;
    name_of_number(constants, number, text).map_err(|_| Stop::Memory)
}

/// Sends a message.
fn send(
    started: &mut Started,
    taker: Taker,
    target: &Target,
    order: SendOrder,
    fields: &[Expr],
) -> Result<(), Stop> {
    let (at, numbers) = addressed(target, fields, &seen(started, taker)).map_err(Stop::Fault)?;
    let channels = started.channels.as_mut_slice();
    put_at(channels, at, order, numbers.as_slice()).map_err(|_| Stop::Memory)
}

/// Receives a message.
fn receive(
    started: &mut Started,
    taker: Taker,
    target: &Target,
    how: (Search, Removal),
    wants: &[Want],
) -> Result<(), Stop> {
    match asked_at(target, wants, &seen(started, taker)) {
        Err(fault) => Err(Stop::Fault(fault)),
        Ok((at, asked)) => {
            let channels = started.channels.as_mut_slice();
            let taken = take_from(
                &mut started.store,
                channels,
                at,
                how.0,
                how.1,
                asked.as_slice(),
            );
            taken.map_err(|_| Stop::Memory)
        }
    }
}

/// Takes a statement that stores or sends.
fn stored(action: &Action<'_>, started: &mut Started, taker: Taker) -> Result<(), Stop> {
    match action {
        Action::Send(target, order, fields) => {
            send(started, taker, target, *order, fields.as_slice())
        }
        Action::Receive(target, search, removal, wants) => {
            let how = (*search, *removal);
            receive(started, taker, target, how, wants.as_slice())
        }
        _ => match outcome(action, &seen(started, taker)).map_err(Stop::Fault)? {
            None => Ok(()),
            Some(goes) => {
                let stored = started.store.set(goes.place, goes.number);
                stored.map_err(|_| Stop::Memory)
            }
        },
    }
}

/// Writes what a condition is worth.
fn add_worth(value: &Expr, view: &Seen<'_>, out: &mut RowWriter) {
    match eval(value, view) {
        Ok(number) => out.signed(number),
        Err(fault) => add_stop(Stop::Fault(fault), out),
    }
}

/// Writes what a statement comes to. What it prints is added to the text.
fn add_result(
    action: &Action<'_>,
    constants: &[Token<'_>],
    started: &mut Started,
    taker: Taker,
    text: &mut Vec<u8>,
    out: &mut RowWriter,
) {
    let ended = match action {
        Action::Holds(value) => return add_worth(value, &seen(started, taker), out),
        Action::Assert(value) => assert(value, &seen(started, taker)).map_err(Stop::Fault),
        Action::Printf(string, arguments) => {
            let view = seen(started, taker);
            print(constants, string, arguments.as_slice(), &view, text)
        }
        Action::Printm(value) => print_name(constants, value, &seen(started, taker), text),
        Action::Else | Action::Run(_) | Action::AssignRun(_, _) => {
            return out.refuse("a statement that needs more than values");
        }
        _ => stored(action, started, taker),
    };
    add_outcome(ended, out);
}

/// Writes what statements come to.
fn add_results(
    steps: &[Stmt<'_>],
    constants: &[Token<'_>],
    started: &mut Started,
    taker: Taker,
    text: &mut Vec<u8>,
    out: &mut RowWriter,
) {
    for stmt in steps {
        out.space();
        match &stmt.basic {
            Basic::Plain(action) => add_result(action, constants, started, taker, text, out),
            _ => out.refuse("a statement that gives structure"),
        }
    }
}

/// Writes the messages of a channel.
fn add_messages(out: &mut RowWriter, channel: &Channel) {
    out.space();
    for place in 0..channel.len() {
        out.word("(");
        add_numbers(out, channel.message(place));
        out.word(")");
    }
    if channel.len() == 0 {
        out.word("-");
    }
}

/// Writes the numbers, and the messages of each channel.
fn add_state(out: &mut RowWriter, cells: &[i32], channels: &[LiveChannel]) {
    add_numbers(out, cells);
    out.word(" / ");
    for live in channels {
        add_messages(out, &live.channel);
    }
    add_dash(out, channels.is_empty());
}

/// Writes bytes as rows do: a grave accent and two hexadecimal digits for one that is no printable sign.
fn add_bytes(bytes: &[u8], out: &mut RowWriter) {
    for byte in bytes {
        if *byte < b' ' || *byte > b'~' || *byte == b'`' {
            out.digits(*byte);
        } else {
            out.byte(*byte);
        }
    }
}

/// Takes the statements of the first proctype, writes what they come to, and answers what they print.
fn take_all(
    alloc: Global,
    program: &Program<'_>,
    started: &mut Started,
    taker: Taker,
    out: &mut RowWriter,
) -> Vec<u8> {
    let mut text = Vec::new(alloc);
    match program.proctypes.as_slice() {
        [] => out.refuse("no proctype"),
        [first, ..] => add_results(
            first.body.steps.as_slice(),
            program.constants.as_slice(),
            started,
            taker,
            &mut text,
            out,
        ),
    }
    text
}

/// Writes what the statements of the first proctype come to, what they print, or the state behind them.
pub fn add_done(
    alloc: Global,
    view: ModelView,
    block: RowBlock,
    program: &Program<'_>,
    started: &mut Started,
    out: &mut RowWriter,
) {
    let taker = taker_of(block.behind("process").unwrap_or("0 of 1"), out);
    write_all(alloc, block, &mut started.store, out);
    let mut results = RowWriter::new(alloc);
    let text = take_all(alloc, program, started, taker, &mut results);
    match (view, results.refused()) {
        (_, Some(why)) => out.refuse(why),
        (ModelView::Results, None) => out.word(results.text()),
        (ModelView::Printed, None) => add_bytes(text.as_slice(), out),
        _ => add_state(
            out,
            started.store.cells().as_slice(),
            started.channels.as_slice(),
        ),
    }
}
