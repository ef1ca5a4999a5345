//! What a statement does by itself.

ghost use Rattle.std.specs.Prelude.{◌≡◌, ◌<◌, Some, OnOk, OnErr, length};
ghost use Rattle.std.specs.Io.{StartsWith};
ghost use Rattle.std.specs.Option.{option_copied};
ghost use Rattle.pml_program.specs.declared.program.Action.TheVariants.{Printf, Printm};
ghost use Rattle.promela_run.specs.Statements.{asserted};
ghost use Rattle.promela_run.specs.State.{reads};
ghost use Rattle.promela_run.specs.Steps.{ran, run_number, run_into as runs_into, does as does_by, effect as effect_of};
ghost use Rattle.pml_program.specs.declared.program.Basic.{Plain};
ghost use Rattle.run_state.specs.Coded.{IsNumbered};
ghost use Rattle.run_state.specs.Live.{Leads, Joins, PastGrows};
ghost use Rattle.run_step.specs.Done.{Does, Grows};

use crate::arguments::{goes_to, values_of};
use crate::storing::store;
use diagnostics::{Fault, Stop};
use pml_eval::eval::eval;
use pml_program::expr::{Expr, Target};
use pml_program::program::{Action, Basic, Run};
use pml_token::token::Token;
use pml_value::message::assert;
use pml_value::receive::Reception;
use profile::MOST_PROCESSES;
use run_printf::name_of_number;
use run_printf::string::printed;
use run_state::live::Live;
use std::alloc::Global;

/// Creates a process, unless too many live.
#[inline(never)]
fn run(
    alloc: Global,
    live: &mut Live<'_, '_>,
    process: usize,
    timeout: bool,
    run: &Run,
) -> Result<(), Stop>
    requires { process < length live.old.state.stands }
    ensures value { Leads (ran live.old.state (reads live.old.state process timeout) run.now) result live.new.state }
    ensures joins { Joins live.old.state live.new.state }
    ensures past { OnOk result (PastGrows live.old live.new) }
{
    if live.process_count() >= MOST_PROCESSES {
        return Ok(());
    }
    let arguments = values_of(
        alloc,
        run.arguments.as_slice(),
        &live.view(process, timeout),
    )?;
    live.create(run.proctype, arguments.as_slice())
}

/// The number of the process that would be created.
fn next_number(live: &Live<'_, '_>) -> i32
    ensures { result ≡ run_number live.now.state }
{
    let count = live.process_count();
    if count < MOST_PROCESSES {
        count as i32
    } else {
        0
    }
}

/// Creates a process, and stores its number.
#[inline(never)]
fn run_into(
    alloc: Global,
    live: &mut Live<'_, '_>,
    process: usize,
    timeout: bool,
    target: &Option<Target>,
    creation: &Run,
) -> Result<(), Stop>
    requires { process < length live.old.state.stands }
    ensures value { Leads (runs_into live.old.state process timeout target.now creation.now) result live.new.state }
    ensures joins { Joins live.old.state live.new.state }
    ensures past { OnOk result (PastGrows live.old live.new) }
{
    let number = next_number(live);
    run(alloc, live, process, timeout, creation)?;
    match goes_to(target, number, &live.view(process, timeout)) {
        Ok(goes) => live.put(goes),
        Err(fault) => Err(Stop::Fault(fault)),
    }
}

/// Prints a string, with values for its conversions.
#[inline(never)]
fn print(
    live: &Live<'_, '_>,
    process: usize,
    timeout: bool,
    string: &Token<'_>,
    arguments: &[Expr],
    text: &mut Vec<u8>,
) -> Result<(), Stop>
    requires { process < length live.now.state.stands }
    ensures value { let s = live.now.state in
        Does (does_by s process timeout (Printf string.now arguments.now)) result s text.old.items text.new.items }
    ensures kept { OnErr result (StartsWith text.new.items text.old.items) }
{
    let alloc = *text.allocator();
    let numbers = values_of(alloc, arguments, &live.view(process, timeout))?;
    let constants = live.program().constants.as_slice();
    printed(constants, string.text(), numbers.as_slice(), text).map_err(|_| Stop::Memory)
}

/// Prints a number by its name.
#[inline(never)]
fn print_name(
    live: &Live<'_, '_>,
    process: usize,
    timeout: bool,
    value: &Expr,
    text: &mut Vec<u8>,
) -> Result<(), Stop>
    requires { process < length live.now.state.stands }
    ensures value { let s = live.now.state in
        Does (does_by s process timeout (Printm value.now)) result s text.old.items text.new.items }
    ensures kept { OnErr result (StartsWith text.new.items text.old.items) }
{
    let number = eval(value, &live.view(process, timeout)).map_err(Stop::Fault)?;
    name_of_number(live.program().constants.as_slice(), number, text).map_err(|_| Stop::Memory)
}

/// Asks that a value is not 0.
#[inline(never)]
fn check(live: &Live<'_, '_>, process: usize, timeout: bool, value: &Expr) -> Result<(), Fault>
    requires { process < length live.now.state.stands }
    ensures { result ≡ asserted value.now (reads live.now.state process timeout) }
{
    assert(value, &live.view(process, timeout))
}

/// Does what a statement does that gives no structure, and appends what it prints.
#[inline(never)]
fn does(
    live: &mut Live<'_, '_>,
    process: usize,
    timeout: bool,
    action: &Action<'_>,
    text: &mut Vec<u8>,
) -> Result<(), Stop>
    requires { process < length live.old.state.stands }
    ensures value { Does (does_by live.old.state process timeout action.now) result live.new.state text.old.items text.new.items }
    ensures grows { Grows result live.old live.new text.old.items text.new.items }
{
    match action {
        Action::Else => Ok(()),
        Action::Assign(_, _) | Action::Holds(_) => live.store(process, timeout, action),
        Action::Increment(_) => live.store(process, timeout, action),
        Action::Decrement(_) => live.store(process, timeout, action),
        Action::Run(creation) => run(*text.allocator(), live, process, timeout, creation),
        Action::AssignRun(target, creation) => run_into(
            *text.allocator(),
            live,
            process,
            timeout,
            target,
            creation,
        ),
        Action::Send(target, order, fields) => {
            live.send(process, timeout, target, *order, fields.as_slice())
        }
        Action::Receive(target, search, removal, wants) => {
            let reception = Reception {
                target,
                search: *search,
                removal: *removal,
                wants: wants.as_slice(),
            };
            live.receive(process, timeout, reception)
        }
        Action::Printf(string, arguments) => print(
            live,
            process,
            timeout,
            string,
            arguments.as_slice(),
            text,
        ),
        Action::Printm(value) => print_name(live, process, timeout, value, text),
        Action::Assert(value) => check(live, process, timeout, value).map_err(Stop::Fault),
    }
}

/// Does what a statement does that gives no structure: at once a store or a condition, as most are; where a condition is a number, as of
/// `skip`, nothing is asked.
#[inline(always)]
fn does_at_once(
    live: &mut Live<'_, '_>,
    process: usize,
    timeout: bool,
    action: &Action<'_>,
    statement: usize,
    text: &mut Vec<u8>,
) -> Result<(), Stop>
    requires there { process < length live.old.state.stands }
    requires numbered { IsNumbered live.old.state process statement (Some (Plain action.now)) }
    ensures value { Does (does_by live.old.state process timeout action.now) result live.new.state text.old.items text.new.items }
    ensures grows { Grows result live.old live.new text.old.items text.new.items }
{
    match action {
        Action::Else | Action::Holds(Expr::Number(_)) => Ok(()),
        Action::Assign(_, _) | Action::Holds(_) => store(live, process, timeout, action, statement),
        Action::Increment(_) => store(live, process, timeout, action, statement),
        Action::Decrement(_) => store(live, process, timeout, action, statement),
        _ => does(live, process, timeout, action, text),
    }
}

/// Does what a statement does by itself, and appends what it prints: a goto, a break and what gives structure do nothing. After a fault,
/// or want of memory, variables and channels may hold anything; no process has moved.
#[inline(always)]
pub fn effect(
    live: &mut Live<'_, '_>,
    process: usize,
    timeout: bool,
    basic: Option<&Basic<'_>>,
    statement: usize,
    text: &mut Vec<u8>,
) -> Result<(), Stop>
    requires there { process < length live.old.state.stands }
    requires numbered { IsNumbered live.old.state process statement (option_copied basic) }
    ensures value { Does (effect_of live.old.state process timeout (option_copied basic.entry)) result live.new.state text.old.items text.new.items }
    ensures grows { Grows result live.old live.new text.old.items text.new.items }
{
    match basic {
        Some(Basic::Plain(action)) => {
            does_at_once(live, process, timeout, action, statement, text)
        }
        _ => Ok(()),
    }
}
