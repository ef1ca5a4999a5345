//! Expressions, with their names replaced by what they stand for.

ghost use Rattle.std.specs.Prelude.{◌≡◌, ◌++◌, map, IfOk, OnOk};
ghost use Rattle.pml_tree.specs.declared.tree.Reference.{out-Reference};
ghost use Rattle.pml_program.specs.declared.expr.Expr.TheVariants as term;
ghost use Rattle.check_resolve.specs.Numbered.{scope_of, through, placed_by, numbered, numbered_argument, numbered_reference, numbered_step, at_scope, is_local, literal, signed, mtype, read, target, received, turn_of, target_of, no_target};

use crate::reached::Reached;
use crate::scope::Scope;
use check_names::meaning::{field, is_any, is_count, is_pid, meaning};
use check_names::table::Table;
use check_uses::arithmetic::{negative, value as number_value};
use pml_program::expr::{Expr, Target, Turn, Want};
use pml_program::form::Form;
use pml_tree::room::room_for;
use pml_tree::tree::{Argument, Expr as TreeExpr, Infix, Prefix, Reference, Sign, Step};
use profile::MOST_CONSTANTS;
use promela_model::mark::Constant;
use promela_model::thing::{Thing, Variable};
use sqlite_items::{Boxed, Items};
use std::alloc::{AllocError, Global};

fn literal(constant: Constant) -> i32
    ensures { result ≡ literal constant }
{
    match constant {
        Constant::Is(x) => x,
        _ => 0,
    }
}

fn signed(sign: Sign, constant: Constant) -> Constant
    ensures { result ≡ signed sign constant }
{
    match sign {
        Sign::Plus => constant,
        Sign::Minus => negative(constant),
    }
}

fn mtype(number: usize) -> i32
    ensures { result ≡ mtype number }
{
    if number <= MOST_CONSTANTS {
        number as i32
    } else {
        0
    }
}

fn is_local(table: &Table, owner: usize, name: &[u8]) -> bool
    ensures { result ≡ is_local table.now owner name.now }
{
    0 < owner && table.find(owner, name).is_some()
}

fn no_target(alloc: Global) -> Target
    ensures { result ≡ no_target }
{
    Target {
        local: false,
        variable: 0,
        form: Form::Unknown,
        turns: Items::new(alloc),
    }
}

/// The place that is named, or a target that is none where the model is refused.
pub fn target(alloc: Global, reached: Reached) -> Target
    ensures { result ≡ target reached }
{
    match reached {
        Reached::Place(t) => t,
        _ => no_target(alloc),
    }
}

fn read(reached: Reached) -> Expr
    ensures { result ≡ read reached }
{
    match reached {
        Reached::Place(t) => Expr::Read(t),
        Reached::Constant(n) => Expr::Number(mtype(n)),
        Reached::Pid => Expr::Pid,
        Reached::ProcessCount => Expr::ProcessCount,
        _ => Expr::Number(0),
    }
}

fn received(reached: Reached) -> Want
    ensures { result ≡ received reached }
{
    match reached {
        Reached::Place(t) => Want::Into(t),
        Reached::Constant(n) => Want::Exactly(mtype(n)),
        _ => Want::Anything,
    }
}

fn turn(offset: u32, v: Variable, index: Option<Boxed<Expr>>) -> Turn
    ensures { result ≡ turn_of offset v index }
{
    Turn {
        offset,
        length: v.length,
        stride: v.stride,
        index,
    }
}

/// What an operator with one operand stands for, in a box. It stands by itself, as those below do, so that a level of nesting takes
/// little of the stack.
#[inline(never)]
fn unary(alloc: Global, op: Prefix, x: Boxed<Expr>) -> Result<Boxed<Expr>, AllocError>
    ensures { IfOk result (λ e. e ≡ term.Unary op x) }
{
    Ok(Boxed::new(alloc, Expr::Unary(op, x))?)
}

/// What an operator with two operands stands for, in a box.
#[inline(never)]
fn joined(
    alloc: Global,
    op: Infix,
    x: Boxed<Expr>,
    y: Boxed<Expr>,
) -> Result<Boxed<Expr>, AllocError>
    ensures { IfOk result (λ e. e ≡ term.Binary op x y) }
{
    Ok(Boxed::new(alloc, Expr::Binary(op, x, y))?)
}

/// An expression that is no operator, with its names replaced, in a box.
#[cycle(expression)]
#[inline(never)]
fn other(alloc: Global, e: &TreeExpr, within: Scope<'_, '_, '_>) -> Result<Boxed<Expr>, AllocError>
    ensures { IfOk result (λ x. x ≡ numbered e.now (scope_of within.entry)) }
{
    let x = expr(alloc, e, within)?;
    Ok(Boxed::new(alloc, x)?)
}

/// Two operands and what is between them, with names replaced, in a box.
#[cycle(expression)]
#[inline(never)]
fn binary(alloc: Global, e: &TreeExpr, within: Scope<'_, '_, '_>) -> Result<Boxed<Expr>, AllocError>
    ensures { IfOk result (λ x. x ≡ numbered e.now (scope_of within.entry)) }
{
    match e {
        TreeExpr::Binary(op, a, b) => {
            let x = boxed(alloc, a.get(), within)?;
            let y = boxed(alloc, b.get(), within)?;
            joined(alloc, *op, x, y)
        }
        _ => other(alloc, e, within),
    }
}

/// An expression with its names replaced, in a box. It goes through operators by itself, of which a thousand may stand in a row.
#[cycle(expression)]
#[inline(never)]
fn boxed(alloc: Global, e: &TreeExpr, within: Scope<'_, '_, '_>) -> Result<Boxed<Expr>, AllocError>
    ensures { IfOk result (λ x. x ≡ numbered e.now (scope_of within.entry)) }
{
    match e {
        TreeExpr::Unary(op, a) => {
            let x = boxed(alloc, a.get(), within)?;
            unary(alloc, *op, x)
        }
        _ => binary(alloc, e, within),
    }
}

/// The channel of an expression, in a box.
#[cycle(expression)]
#[inline(never)]
fn channel(
    alloc: Global,
    r: &Reference,
    within: Scope<'_, '_, '_>,
) -> Result<Boxed<Target>, AllocError>
    ensures { IfOk result (λ t. t ≡ target (numbered_reference r.now (scope_of within.entry))) }
{
    let reached = reference(alloc, r, within)?;
    Ok(Boxed::new(alloc, target(alloc, reached))?)
}

/// An expression with its names replaced.
#[cycle(expression)]
pub fn expr(alloc: Global, e: &TreeExpr, within: Scope<'_, '_, '_>) -> Result<Expr, AllocError>
    ensures { IfOk result (λ x. x ≡ numbered e.now (scope_of within.entry)) }
{
    match e {
        TreeExpr::Number(n) => Ok(Expr::Number(literal(number_value(n.text())))),
        TreeExpr::Truth(b) => Ok(Expr::Number(if *b { 1 } else { 0 })),
        TreeExpr::Timeout => Ok(Expr::Timeout),
        TreeExpr::Read(r) => Ok(read(reference(alloc, r, within)?)),
        TreeExpr::Ask(fill, r) => Ok(Expr::Ask(*fill, channel(alloc, r, within)?)),
        TreeExpr::Poll(r, any, arguments) => {
            let at = channel(alloc, r, within)?;
            let wants = wants(alloc, arguments.as_slice(), within)?;
            Ok(Expr::Poll(at, *any, wants))
        }
        TreeExpr::Unary(op, a) => { Ok(Expr::Unary(*op, boxed(alloc, a.get(), within)?)) }
        TreeExpr::Binary(op, a, b) => {
            let x = boxed(alloc, a.get(), within)?;
            let y = boxed(alloc, b.get(), within)?;
            Ok(Expr::Binary(*op, x, y))
        }
        TreeExpr::Choice(a, b, c) => {
            let x = boxed(alloc, a.get(), within)?;
            let y = boxed(alloc, b.get(), within)?;
            let z = boxed(alloc, c.get(), within)?;
            Ok(Expr::Choice(x, y, z))
        }
    }
}

/// What arguments ask.
#[cycle(expression)]
#[inline(never)]
pub fn wants(
    alloc: Global,
    arguments: &[Argument],
    within: Scope<'_, '_, '_>,
) -> Result<Items<Want>, AllocError>
    ensures { IfOk result (λ ws. ws ≡ at_scope (map numbered_argument arguments.now) (scope_of within.entry)) }
{
    let mut wants = room_for(alloc, arguments.len())?;
    for argument in arguments {
        wants.push(want(alloc, argument, within)?)?;
    }
    Ok(wants)
}

#[cycle(expression)]
fn want(alloc: Global, argument: &Argument, within: Scope<'_, '_, '_>) -> Result<Want, AllocError>
    ensures { IfOk result (λ w. w ≡ numbered_argument argument.now (scope_of within.entry)) }
{
    match argument {
        Argument::Exactly(sign, n) => Ok(Want::Exactly(literal(signed(
            *sign,
            number_value(n.text()),
        )))),
        Argument::Fixed(b) => Ok(Want::Exactly(if *b { 1 } else { 0 })),
        Argument::Eval(a) => { Ok(Want::Equal(boxed(alloc, a.get(), within)?)) }
        Argument::Into(r) => Ok(received(reference(alloc, r, within)?)),
    }
}

/// What a reference stands for.
#[cycle(expression)]
#[inline(never)]
pub fn reference(
    alloc: Global,
    r: &Reference,
    within: Scope<'_, '_, '_>,
) -> Result<Reached, AllocError>
    ensures { IfOk result (λ p. p ≡ numbered_reference r.now (scope_of within.entry)) }
{
    let name = r.first.name.text();
    if is_any(name) {
        return Ok(Reached::Anything);
    }
    if is_pid(name) {
        return Ok(Reached::Pid);
    }
    if is_count(name) {
        return Ok(Reached::ProcessCount);
    }
    match meaning(within.all, within.table, within.owner, name) {
        Some(Thing::Variable(v)) => {
            let local = is_local(within.table, within.owner, name);
            Ok(place(alloc, local, v, r, within)?)
        }
        Some(Thing::Constant(n)) => Ok(Reached::Constant(n)),
        _ => Ok(Reached::Nothing),
    }
}

#[cycle(expression)]
fn place(
    alloc: Global,
    local: bool,
    v: Variable,
    r: &Reference,
    within: Scope<'_, '_, '_>,
) -> Result<Reached, AllocError>
    ensures { IfOk result (λ p. p ≡ placed_by local v r.now (scope_of within.entry)) }
{
    let mut turns = room_for(alloc, r.fields.len().saturating_add(1))?;
    turns.push(turn(0, v, index(alloc, &r.first, within)?))?;
    let form = through(alloc, v.form, r.fields.as_slice(), within, &mut turns)?;
    Ok(Reached::Place(Target {
        local,
        variable: v.number,
        form,
        turns,
    }))
}

#[cycle(expression)]
fn through(
    alloc: Global,
    form: Form,
    steps: &[Step],
    within: Scope<'_, '_, '_>,
    turns: &mut Items<Turn>,
) -> Result<Form, AllocError>
    ensures form { IfOk result (λ f. f ≡ (through form (map numbered_step steps.now) (scope_of within.entry)).0) }
    ensures turns { OnOk result (turns.new ≡ turns.old ++ (through form (map numbered_step steps.now) (scope_of within.entry)).1) }
{
    let mut here = form;
    for step in steps {
        match field(within.table, here, step.name.text()) {
            Some(Some(Thing::Variable(v))) => {
                turns.push(turn(v.offset, v, index(alloc, step, within)?))?;
                here = v.form;
            }
            _ => return Ok(here),
        }
    }
    Ok(here)
}

#[cycle(expression)]
fn index(
    alloc: Global,
    step: &Step,
    within: Scope<'_, '_, '_>,
) -> Result<Option<Boxed<Expr>>, AllocError>
    ensures { IfOk result (λ i. i ≡ (numbered_step step.now).index (scope_of within.entry)) }
{
    match &step.index {
        None => Ok(None),
        Some(e) => { Ok(Some(boxed(alloc, e.get(), within)?)) }
    }
}
