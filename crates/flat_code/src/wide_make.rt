//! Wide code of statements, made once.

ghost use Rattle.std.specs.Prelude.{◌≡◌, ◌∷◌, [], IfSome};
ghost use Rattle.std.specs.Option.{option_copied};
ghost use Rattle.pml_program.specs.declared.expr.Target.{out-Target};
ghost use Rattle.flat_code.specs.declared.wide.WideCell.TheVariants.{Element};
ghost use Rattle.flat_code.specs.Wide.{AreCells, AreOwned, IsWideIndex, IsWideCell, IsWideOperand, IsWideWorth, IsWideKept, IsWideSet, IsWideCounted, IsWideCode, IsWideCodeOf};

use crate::code::FlatCell;
use crate::make::{cell_of, worth_of};
use crate::owner::FlatOwner;
use crate::wide::{FlatElement, WideCell, WideCode, WideIndex, WideOperand, WideWorth};
use pml_program::expr::{Expr, Target, Turn};
use pml_program::form::Form;
use pml_program::program::{Action, Basic};
use pml_tree::tree::{Infix, Scalar};

/// What an index is, where it is the number of the process or has a flat code.
fn index_of(
    globals: &FlatOwner<'_, '_>,
    locals: &FlatOwner<'_, '_>,
    value: &Expr,
) -> Option<WideIndex>
    ensures { IfSome result (λ x. IsWideIndex globals.now locals.now value.now x) }
{
    if let Expr::Pid = value {
        return Some(WideIndex::Pid);
    }
    let value = worth_of(globals, locals, value)?;
    Some(WideIndex::Worth(value))
}

/// The turn of a target that has one.
fn one_turn(target: &Target) -> Option<&Turn>
    ensures { IfSome result (λ turn. (out-Target target.now).turns ≡ turn.now ∷ []) }
{
    match target.turns.as_slice() {
        [turn] => Some(turn),
        _ => None,
    }
}

/// The first of so many cells of an owner's variable, from this one on, where it has them.
fn first_of(owner: &FlatOwner<'_, '_>, variable: usize, offset: usize, count: usize) -> Option<u16>
    ensures { IfSome result (AreOwned owner.now variable offset count) }
{
    if count == 0 {
        return None;
    }
    let last = offset.checked_add(count - 1)?;
    let _last = owner.cell(variable, last)?;
    owner.cell(variable, offset)
}

/// The first of so many cells of a target's variable, from this one on.
fn array_in(
    globals: &FlatOwner<'_, '_>,
    locals: &FlatOwner<'_, '_>,
    target: &Target,
    offset: usize,
    count: usize,
) -> Option<FlatCell>
    ensures { IfSome result (AreCells globals.now locals.now target.now offset count) }
{
    if target.local {
        match first_of(locals, target.variable, offset, count) {
            Some(at) => Some(FlatCell::Local(at)),
            None => None,
        }
    } else {
        match first_of(globals, target.variable, offset, count) {
            Some(at) => Some(FlatCell::Global(at)),
            None => None,
        }
    }
}

/// The element of a target with one turn and an index, where an element has one cell.
fn element(
    globals: &FlatOwner<'_, '_>,
    locals: &FlatOwner<'_, '_>,
    target: &Target,
) -> Option<FlatElement>
    ensures { IfSome result (λ x. IsWideCell globals.now locals.now target.now (Element x)) }
{
    let turn = one_turn(target)?;
    let Some(value) = &turn.index else {
        return None;
    };
    if turn.stride != 1 {
        return None;
    }
    let index = index_of(globals, locals, value.get())?;
    let (offset, length) = (turn.offset as usize, turn.length);
    let first = array_in(globals, locals, target, offset, length as usize)?;
    Some(FlatElement {
        first,
        length,
        index,
    })
}

/// The cell or the element of a target.
fn wide_cell(
    globals: &FlatOwner<'_, '_>,
    locals: &FlatOwner<'_, '_>,
    target: &Target,
) -> Option<WideCell>
    ensures { IfSome result (λ c. IsWideCell globals.now locals.now target.now c) }
{
    if let Some(cell) = cell_of(globals, locals, target) {
        return Some(WideCell::Cell(cell));
    }
    match element(globals, locals, target) {
        Some(element) => Some(WideCell::Element(element)),
        None => None,
    }
}

/// A number, the number of the process or a variable.
fn wide_operand(
    globals: &FlatOwner<'_, '_>,
    locals: &FlatOwner<'_, '_>,
    value: &Expr,
) -> Option<WideOperand>
    ensures { IfSome result (λ a. IsWideOperand globals.now locals.now value.now a) }
{
    match value {
        Expr::Number(number) => Some(WideOperand::Number(*number)),
        Expr::Pid => Some(WideOperand::Pid),
        Expr::Read(target) => match wide_cell(globals, locals, target) {
            Some(cell) => Some(WideOperand::Held(cell)),
            None => None,
        },
        _ => None,
    }
}

/// An operand, or two with an operator between them.
fn wide_worth_of(
    globals: &FlatOwner<'_, '_>,
    locals: &FlatOwner<'_, '_>,
    value: &Expr,
) -> Option<WideWorth>
    ensures { IfSome result (λ v. IsWideWorth globals.now locals.now value.now v) }
{
    if let Expr::Binary(op, a, b) = value {
        let a = wide_operand(globals, locals, a.get())?;
        let b = wide_operand(globals, locals, b.get())?;
        return Some(WideWorth::Pair(*op, a, b));
    }
    let a = wide_operand(globals, locals, value)?;
    Some(WideWorth::Plain(a))
}

/// The cell of a target that keeps a word, and which word.
fn wide_kept(
    globals: &FlatOwner<'_, '_>,
    locals: &FlatOwner<'_, '_>,
    target: &Target,
) -> Option<(Scalar, WideCell)>
    ensures { IfSome result (λ k. IsWideKept globals.now locals.now target.now k.0 k.1) }
{
    let Form::Plain(word) = target.form else {
        return None;
    };
    let cell = wide_cell(globals, locals, target)?;
    Some((word, cell))
}

/// The code of an assignment.
fn wide_set(
    globals: &FlatOwner<'_, '_>,
    locals: &FlatOwner<'_, '_>,
    target: &Target,
    value: &Expr,
) -> Option<WideCode>
    ensures { IfSome result (λ code. IsWideSet globals.now locals.now target.now value.now code) }
{
    let (word, cell) = wide_kept(globals, locals, target)?;
    let value = wide_worth_of(globals, locals, value)?;
    Some(WideCode::Set(word, cell, value))
}

/// The code of a statement that adds to a variable.
fn wide_counted(
    globals: &FlatOwner<'_, '_>,
    locals: &FlatOwner<'_, '_>,
    target: &Target,
    by: i32,
) -> Option<WideCode>
    ensures { IfSome result (λ code. IsWideCounted globals.now locals.now target.now by code) }
{
    let (word, cell) = wide_kept(globals, locals, target)?;
    let (held, by) = (WideOperand::Held(cell), WideOperand::Number(by));
    Some(WideCode::Set(word, cell, WideWorth::Pair(Infix::Plus, held, by)))
}

/// The code of a statement without a structure, if there is one.
fn wide_in(
    globals: &FlatOwner<'_, '_>,
    locals: &FlatOwner<'_, '_>,
    action: &Action<'_>,
) -> Option<WideCode>
    ensures { IfSome result (λ code. IsWideCode globals.now locals.now action.now code) }
{
    match action {
        Action::Assign(Some(target), value) => wide_set(globals, locals, target, value),
        Action::Increment(target) => wide_counted(globals, locals, target, 1),
        Action::Decrement(target) => wide_counted(globals, locals, target, -1),
        Action::Holds(value) => {
            let value = wide_worth_of(globals, locals, value)?;
            Some(WideCode::Ask(value))
        }
        _ => None,
    }
}

/// The wide code of a statement, if there is one.
pub fn wide_code_of(
    globals: &FlatOwner<'_, '_>,
    locals: &FlatOwner<'_, '_>,
    basic: Option<&Basic<'_>>,
) -> Option<WideCode>
    ensures { IfSome result (IsWideCodeOf globals.now locals.now (option_copied basic.entry)) }
{
    match basic {
        Some(Basic::Plain(action)) => wide_in(globals, locals, action),
        _ => None,
    }
}
