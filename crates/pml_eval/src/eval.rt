//! The value of an expression, and the place of a reference.

ghost use Rattle.std.specs.Prelude.{◌≡◌, ◌+◌, ◌*◌, ◌<◌, ◌≤◌, IfOk, IfSome, List, Some, Ok, length, map};
ghost use Rattle.profile.specs.declared.TheConstants.{MOST_FIELDS};
ghost use Rattle.pml_program.specs.declared.expr.Expr.TheVariants.{Read};
ghost use Rattle.promela_process.specs.declared.sought.Sought.{Sought};
ghost use Rattle.promela_process.specs.Expressions.{val, place, turned_by, cells_of, want, asked_by, index_inside, cell_inside, index_of, polled, is_match, matched};
ghost use Rattle.pml_eval.specs.Asking.{asked, has_match, messages_at, settled};
ghost use Rattle.pml_eval.specs.There.{IsThere, AreThere};

use crate::ground::Ground;
use crate::operators::{decide, infix, number_of, prefix};
use crate::pattern::{Pattern, takes};
use diagnostics::Fault;
use pml_program::expr::{Expr, Target, Turn, Want};
use pml_tree::tree::{Fill, Search};
use promela_process::place::Place;
use promela_process::sought::Sought;

/// The value of an expression, or the first fault from the left. A number or a variable, as most are, is evaluated at once.
#[cycle(eval)]
#[inline(always)]
pub fn eval<G: Ground>(e: &Expr, ground: &G) -> Result<i32, Fault>
    ensures { result ≡ val e.now (G.reading ground.now) }
{
    match e {
        Expr::Number(n) => Ok(*n),
        Expr::Read(target) => read_here(target, ground),
        _ => evaluated(e, ground),
    }
}

/// The value of an expression of any kind.
#[cycle(eval)]
#[inline(never)]
fn evaluated<G: Ground>(e: &Expr, ground: &G) -> Result<i32, Fault>
    ensures { result ≡ val e.now (G.reading ground.now) }
{
    match e {
        Expr::Number(n) => Ok(*n),
        Expr::Pid => Ok(ground.pid()),
        Expr::ProcessCount => Ok(ground.process_count()),
        Expr::Timeout => Ok(number_of(ground.timeout())),
        Expr::Poll(target, search, arguments) => {
            let number = read(target.get(), ground)?;
            poll(arguments.as_slice(), *search, number, ground)
        }
        Expr::Unary(op, a) => {
            let x = signed(a.get(), ground)?;
            Ok(prefix(*op, x))
        }
        Expr::Binary(op, a, b) => {
            let x = eval(a.get(), ground)?;
            if let Some(y) = decide(*op, x) {
                return Ok(y);
            }
            let y = eval(b.get(), ground)?;
            infix(*op, x, y)
        }
        Expr::Choice(a, b, c) => {
            let x = evaluated(a.get(), ground)?;
            if x == 0 {
                evaluated(c.get(), ground)
            } else {
                evaluated(b.get(), ground)
            }
        }
        Expr::Read(target) => read(target, ground),
        Expr::Ask(fill, target) => {
            let number = read(target.get(), ground)?;
            ask(*fill, number, ground)
        }
    }
}

/// The value of what an operator stands before: a thousand of them in a row take little of the stack.
#[cycle(eval)]
#[inline(never)]
fn signed<G: Ground>(e: &Expr, ground: &G) -> Result<i32, Fault>
    ensures { result ≡ val e.now (G.reading ground.now) }
{
    if let Expr::Unary(op, a) = e {
        let x = signed(a.get(), ground)?;
        return Ok(prefix(*op, x));
    }
    eval(e, ground)
}

/// What stands at the place of a reference: at once where it has no index, as most have.
#[cycle(eval)]
#[inline(always)]
fn read_here<G: Ground>(target: &Target, ground: &G) -> Result<i32, Fault>
    ensures { result ≡ val (Read target.now) (G.reading ground.now) }
{
    if let Some(at) = place_at_once(target, ground) {
        return Ok(ground.number(at));
    }
    read(target, ground)
}

/// What stands at the place of a reference. It is a function of its own so that an expression of another kind has no room for a place.
#[cycle(eval)]
#[inline(never)]
fn read<G: Ground>(target: &Target, ground: &G) -> Result<i32, Fault>
    ensures { result ≡ val (Read target.now) (G.reading ground.now) }
{
    let at = place(target, ground)?;
    Ok(ground.number(at))
}

/// The place of a reference without an index, as most are, where its variable has that cell. It stands in one straight line with what
/// is read there, so that the variable is looked up once.
#[inline(always)]
pub fn place_at_once<G: Ground>(target: &Target, ground: &G) -> Option<Place>
    ensures value { IfSome result (λ p. place target.now (G.reading ground.now) ≡ Ok p) }
    ensures there { IfSome result (λ p. p.cell < (G.reading ground.now).cells p.frame p.variable) }
{
    let turns = target.turns.as_slice();
    if turns.len() != 1 || turns[0].index.is_some() {
        return None;
    }
    let frame = ground.frame(target.local);
    let cell = turns[0].offset as usize;
    if cell < ground.size(frame, target.variable) {
        return Some(Place {
            frame,
            variable: target.variable,
            cell,
        });
    }
    None
}

/// Whether the oldest message of the channel with this number matches, or any of them, as the search has it.
#[cycle(eval)]
#[inline(never)]
fn poll<G: Ground>(
    arguments: &[Want],
    search: Search,
    number: i32,
    ground: &G,
) -> Result<i32, Fault>
    ensures { let r = G.reading ground.now in
        result ≡ polled search (length arguments.now) (asked_by arguments.now r) (r.channel number) }
{
    let Some(c) = ground.channel(number) else {
        return Err(Fault::NoSuchChannel);
    };
    if arguments.len() != c.fields {
        return Err(Fault::WrongNumberOfFields);
    }
    if c.length == 0 || c.capacity == 0 {
        return Ok(0);
    }
    first_fault(arguments, ground)?;
    Ok(number_of(any_fits(arguments, search, number, c.length, ground)?))
}

/// The first fault from the left in what is asked, if there is one.
#[cycle(eval)]
pub fn first_fault<G: Ground>(arguments: &[Want], ground: &G) -> Result<(), Fault>
    ensures { result ≡ settled (asked_by arguments.now (G.reading ground.now)) }
{
    for argument in arguments {
        want(argument, ground)?;
    }
    Ok(())
}

/// Whether a message of this channel matches: the oldest, or any of them. What is asked has no fault.
#[cycle(eval)]
fn any_fits<G: Ground>(
    arguments: &[Want],
    search: Search,
    number: i32,
    messages: u16,
    ground: &G,
) -> Result<bool, Fault>
    requires { messages ≡ length (messages_at (G.reading ground.now) number) }
    ensures { let r = G.reading ground.now in
        (ws : List Sought) → asked_by arguments.now r ≡ Ok ws → result ≡ Ok (is_match search ws (messages_at r number)) }
{
    for place in 0..messages as usize {
        if fits(arguments, ground.message(number, place), ground)? {
            return Ok(true);
        }
        if let Search::First = search {
            return Ok(false);
        }
    }
    Ok(false)
}

/// Whether each field is what is asked. What is asked has no fault, and is evaluated as far as the first field that is not.
#[cycle(eval)]
fn fits<G: Ground>(arguments: &[Want], fields: &[i32], ground: &G) -> Result<bool, Fault>
    ensures { let r = G.reading ground.now in
        (ws : List Sought) → asked_by arguments.now r ≡ Ok ws → result ≡ Ok (matched ws fields.now) }
{
    if arguments.len() != fields.len() {
        return Ok(false);
    }
    for i in 0..arguments.len() {
        let one = want(&arguments[i], ground)?;
        if !takes(one, fields[i]) {
            return Ok(false);
        }
    }
    Ok(true)
}

/// Whether a message of the channel with this number is what is asked, the oldest or any of them, or the first fault from the left in
/// what is asked. No memory is taken.
pub fn has_match<G: Ground>(
    arguments: &[Want],
    search: Search,
    number: i32,
    ground: &G,
) -> Result<bool, Fault>
    ensures { result ≡ has_match arguments.now search number (G.reading ground.now) }
{
    first_fault(arguments, ground)?;
    match ground.channel(number) {
        None => Ok(false),
        Some(c) => any_fits(arguments, search, number, c.length, ground),
    }
}

/// What the arguments of a receive ask, or the first fault from the left. No memory is taken.
pub fn pattern<G: Ground>(arguments: &[Want], ground: &G) -> Result<Pattern, Fault>
    requires { length arguments.now ≤ MOST_FIELDS }
    ensures value { result ≡ asked_by arguments.now (G.reading ground.now) }
    ensures there { IfOk result (AreThere (G.reading ground.now).cells) }
{
    let mut pattern = Pattern::new();
    for argument in arguments {
        pattern.push(want(argument, ground)?);
    }
    Ok(pattern)
}

/// What an argument asks of its field, or the first fault from the left.
#[cycle(eval)]
pub fn want<G: Ground>(argument: &Want, ground: &G) -> Result<Sought, Fault>
    ensures value { result ≡ want argument.now (G.reading ground.now) }
    ensures there { IfOk result (IsThere (G.reading ground.now).cells) }
{
    match argument {
        Want::Exactly(n) => Ok(Sought::Exactly(*n)),
        Want::Equal(a) => Ok(Sought::Exactly(eval(a.get(), ground)?)),
        Want::Into(target) => Ok(Sought::Into(place(target, ground)?, target.form)),
        Want::Anything => Ok(Sought::Anything),
    }
}

/// The place of a reference, or the first fault from the left.
#[cycle(eval)]
#[inline(always)]
pub fn place<G: Ground>(target: &Target, ground: &G) -> Result<Place, Fault>
    ensures value { result ≡ place target.now (G.reading ground.now) }
    ensures there { IfOk result (λ p. p.cell < (G.reading ground.now).cells p.frame p.variable) }
{
    if let Some(at) = place_at_once(target, ground) {
        return Ok(at);
    }
    place_by_turns(target, ground)
}

/// The place of a reference, turn by turn.
#[cycle(eval)]
#[inline(never)]
fn place_by_turns<G: Ground>(target: &Target, ground: &G) -> Result<Place, Fault>
    ensures value { result ≡ place target.now (G.reading ground.now) }
    ensures there { IfOk result (λ p. p.cell < (G.reading ground.now).cells p.frame p.variable) }
{
    let frame = ground.frame(target.local);
    let whole = ground.size(frame, target.variable);
    further(whole, 0, 0)?;
    let cell = turned(target.turns.as_slice(), whole, ground)?;
    Ok(Place {
        frame,
        variable: target.variable,
        cell,
    })
}

/// The cell that turns lead to, one after another.
#[cycle(eval)]
fn turned<G: Ground>(turns: &[Turn], whole: usize, ground: &G) -> Result<usize, Fault>
    requires { 0 < whole }
    ensures value { result ≡ cells_of (map turned_by turns.now) whole 0 (G.reading ground.now) }
    ensures there { IfOk result (λ c. c < whole) }
{
    let mut cell = 0;
    for turn in turns {
        cell = further(whole, cell, cells(turn, ground)?)?;
    }
    Ok(cell)
}

/// How many cells a turn goes on by.
#[cycle(eval)]
fn cells<G: Ground>(turn: &Turn, ground: &G) -> Result<usize, Fault>
    ensures { result ≡ turned_by turn.now (G.reading ground.now) }
{
    match &turn.index {
        None => Ok(turn.offset as usize),
        Some(index) => {
            let i = element_of(index.get(), turn.length, ground)?;
            Ok(element(turn.offset, i, turn.stride))
        }
    }
}

/// The index of an element, in an array of so many.
#[cycle(eval)]
fn element_of<G: Ground>(index: &Expr, length: u32, ground: &G) -> Result<u32, Fault>
    ensures value { result ≡ index_of (Some (val index.now)) length (G.reading ground.now) }
    ensures below { IfOk result (λ i. i < length) }
{
    let x = eval(index, ground)?;
    index_within(length, x)
}

/// The cell so many cells further on, in a variable that has `whole`.
fn further(whole: usize, cell: usize, by: usize) -> Result<usize, Fault>
    ensures value { result ≡ cell_inside whole (cell + by) }
    ensures there { IfOk result (λ c. c < whole) }
{
    match cell.checked_add(by) {
        Some(next) if next < whole => Ok(next),
        _ => Err(Fault::IndexOutOfRange),
    }
}

/// The first cell of an element.
fn element(offset: u32, index: u32, stride: u32) -> usize
    ensures { result ≡ offset + index * stride }
{
    offset as usize + index as usize * stride as usize
}

fn index_within(length: u32, x: i32) -> Result<u32, Fault>
    ensures value { result ≡ index_inside length x }
    ensures below { IfOk result (λ i. i < length) }
{
    match u32::try_from(x) {
        Ok(i) if i < length => Ok(i),
        _ => Err(Fault::IndexOutOfRange),
    }
}

/// How full the channel with this number is.
#[inline(never)]
fn ask<G: Ground>(fill: Fill, number: i32, ground: &G) -> Result<i32, Fault>
    ensures { result ≡ asked fill ((G.reading ground.now).channel number) }
{
    let Some(c) = ground.channel(number) else {
        return Err(Fault::NoSuchChannel);
    };
    Ok(match fill {
        Fill::Length => i32::from(c.length),
        Fill::IsEmpty => number_of(c.length == 0),
        Fill::IsFull => number_of(c.length >= c.capacity),
        Fill::IsNotEmpty => number_of(c.length != 0),
        Fill::IsNotFull => number_of(c.length < c.capacity),
    })
}
