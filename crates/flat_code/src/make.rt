//! Flat code of statements, made once.

ghost use Rattle.std.specs.Prelude.{◌≡◌, IfSome};
ghost use Rattle.std.specs.Option.{option_copied};
ghost use Rattle.flat_code.specs.declared.code.Operand.TheVariants.{Number};
ghost use Rattle.flat_code.specs.Flat.{held, IsPlain, IsCell, IsOperand, IsWorth, IsKept, IsCode, IsCodeOf, IsCounted, IsSet};

use crate::code::{FlatCell, FlatCode, FlatWorth, Operand};
use crate::owner::FlatOwner;
use pml_program::expr::{Expr, Target};
use pml_program::form::Form;
use pml_program::program::{Action, Basic};
use pml_tree::tree::{Infix, Scalar};

/// The cell of its variable at which a target without an index lies.
fn plain(target: &Target) -> Option<usize>
    ensures { IfSome result (λ cell. IsPlain target.now cell) }
{
    let turns = target.turns.as_slice();
    if turns.len() != 1 || turns[0].index.is_some() {
        return None;
    }
    Some(turns[0].offset as usize)
}

/// The cell of a target without an index.
pub(crate) fn cell_of(
    globals: &FlatOwner<'_, '_>,
    locals: &FlatOwner<'_, '_>,
    target: &Target,
) -> Option<FlatCell>
    ensures { IfSome result (λ cell. IsCell globals.now locals.now target.now cell) }
{
    let cell = plain(target)?;
    if target.local {
        match locals.cell(target.variable, cell) {
            Some(at) => Some(FlatCell::Local(at)),
            None => None,
        }
    } else {
        match globals.cell(target.variable, cell) {
            Some(at) => Some(FlatCell::Global(at)),
            None => None,
        }
    }
}

/// What a cell holds.
fn held(cell: FlatCell) -> Operand
    ensures { result ≡ held cell }
{
    match cell {
        FlatCell::Global(at) => Operand::Global(at),
        FlatCell::Local(at) => Operand::Local(at),
    }
}

/// A number that is small.
fn small(number: i32) -> Option<Operand>
    ensures { IfSome result (λ a. a ≡ Number number) }
{
    if -32_768 <= number && number < 32_768 {
        Some(Operand::Number(number as i16))
    } else {
        None
    }
}

/// A small number or a variable.
fn operand(globals: &FlatOwner<'_, '_>, locals: &FlatOwner<'_, '_>, value: &Expr) -> Option<Operand>
    ensures { IfSome result (λ a. IsOperand globals.now locals.now value.now a) }
{
    match value {
        Expr::Number(number) => small(*number),
        Expr::Read(target) => match cell_of(globals, locals, target) {
            Some(cell) => Some(held(cell)),
            None => None,
        },
        _ => None,
    }
}

/// An operand, or two with an operator between them.
pub(crate) fn worth_of(
    globals: &FlatOwner<'_, '_>,
    locals: &FlatOwner<'_, '_>,
    value: &Expr,
) -> Option<FlatWorth>
    ensures { IfSome result (λ v. IsWorth globals.now locals.now value.now v) }
{
    if let Expr::Binary(op, a, b) = value {
        let a = operand(globals, locals, a.get())?;
        let b = operand(globals, locals, b.get())?;
        return Some(FlatWorth::Pair(*op, a, b));
    }
    let a = operand(globals, locals, value)?;
    Some(FlatWorth::Plain(a))
}

/// The cell of a target that keeps a word, and which word.
fn kept(
    globals: &FlatOwner<'_, '_>,
    locals: &FlatOwner<'_, '_>,
    target: &Target,
) -> Option<(Scalar, FlatCell)>
    ensures { IfSome result (λ k. IsKept globals.now locals.now target.now k.0 k.1) }
{
    let Form::Plain(word) = target.form else {
        return None;
    };
    let cell = cell_of(globals, locals, target)?;
    Some((word, cell))
}

/// The code of an assignment.
fn set(
    globals: &FlatOwner<'_, '_>,
    locals: &FlatOwner<'_, '_>,
    target: &Target,
    value: &Expr,
) -> Option<FlatCode>
    ensures { IfSome result (λ code. IsSet globals.now locals.now target.now value.now code) }
{
    let (word, cell) = kept(globals, locals, target)?;
    let value = worth_of(globals, locals, value)?;
    Some(FlatCode::Set(word, cell, value))
}

/// The code of a statement that adds to a variable.
fn counted(
    globals: &FlatOwner<'_, '_>,
    locals: &FlatOwner<'_, '_>,
    target: &Target,
    by: i16,
) -> Option<FlatCode>
    ensures { IfSome result (λ code. IsCounted globals.now locals.now target.now by code) }
{
    let (word, cell) = kept(globals, locals, target)?;
    let value = FlatWorth::Pair(Infix::Plus, held(cell), Operand::Number(by));
    Some(FlatCode::Set(word, cell, value))
}

/// The code of a statement without a structure, if there is one.
fn code_in(
    globals: &FlatOwner<'_, '_>,
    locals: &FlatOwner<'_, '_>,
    action: &Action<'_>,
) -> Option<FlatCode>
    ensures { IfSome result (λ code. IsCode globals.now locals.now action.now code) }
{
    match action {
        Action::Assign(Some(target), value) => set(globals, locals, target, value),
        Action::Increment(target) => counted(globals, locals, target, 1),
        Action::Decrement(target) => counted(globals, locals, target, -1),
        Action::Holds(value) => {
            let value = worth_of(globals, locals, value)?;
            Some(FlatCode::Ask(value))
        }
        _ => None,
    }
}

/// The code of a statement, if there is one.
pub fn code_of(
    globals: &FlatOwner<'_, '_>,
    locals: &FlatOwner<'_, '_>,
    basic: Option<&Basic<'_>>,
) -> FlatCode
    ensures { IsCodeOf globals.now locals.now (option_copied basic.entry) result }
{
    match basic {
        Some(Basic::Plain(action)) => match code_in(globals, locals, action) {
            Some(code) => code,
            None => FlatCode::No,
        },
        _ => FlatCode::No,
    }
}
