//! What wide code is worth in a store, and what it does.

ghost use Rattle.std.specs.Prelude.{◌≡◌, ◌<◌, IfOk, length, pos};
ghost use Rattle.pml_store.specs.Writing.{joined};
ghost use Rattle.promela_process.specs.Expressions.{index_inside};
ghost use Rattle.promela_run.specs.Moves.{or_fault};
ghost use Rattle.flat_code.specs.Wide.{index_worth, element_at, wide_at, wide_number, wide_worth, wide_store, wide_ready, IsIndexIn, IsElementIn, IsCellIn, IsOperandIn, AreOperandsIn, AreCellsIn};

use crate::run::{index, worth};
use crate::wide::{FlatElement, FlatStore, WideCell, WideCode, WideIndex, WideOperand, WideWorth};
use diagnostics::Fault;
use pml_eval::clip::clip;
use pml_eval::operators::{decide, infix};
use pml_program::form::Form;
use pml_store::store::Store;

/// What an index is worth, or its fault.
#[inline(always)]
fn index_worth(store: &Store, base: usize, pid: u8, at: &WideIndex) -> Result<i32, Fault>
    requires { IsIndexIn (joined store.now.frames) base at.now }
    ensures { result ≡ index_worth (joined store.now.frames) base (pos pid) at.now }
{
    match at {
        WideIndex::Pid => Ok(i32::from(pid)),
        WideIndex::Worth(value) => worth(store, base, value),
    }
}

/// An index within its array.
#[inline(always)]
fn inside(length: u32, x: i32) -> Result<u32, Fault>
    ensures value { result ≡ index_inside length x }
    ensures below { IfOk result (λ i. i < length) }
{
    match u32::try_from(x) {
        Ok(i) if i < length => Ok(i),
        _ => Err(Fault::IndexOutOfRange),
    }
}

/// Where an element is among all cells, or the fault of its index.
#[inline(always)]
fn element_at(store: &Store, base: usize, pid: u8, element: &FlatElement) -> Result<usize, Fault>
    requires { IsElementIn (joined store.now.frames) base element.now }
    ensures value { result ≡ element_at (joined store.now.frames) base (pos pid) element.now }
    ensures there { IfOk result (λ i. i < length (joined store.now.frames)) }
{
    let _count = store.cells().len();
    let x = index_worth(store, base, pid, &element.index)?;
    let i = inside(element.length, x)?;
    Ok(index(store, base, element.first) + i as usize)
}

/// Where a cell is among all, or the fault of its index.
#[inline(always)]
fn wide_at(store: &Store, base: usize, pid: u8, cell: &WideCell) -> Result<usize, Fault>
    requires { IsCellIn (joined store.now.frames) base cell.now }
    ensures value { result ≡ wide_at (joined store.now.frames) base (pos pid) cell.now }
    ensures there { IfOk result (λ i. i < length (joined store.now.frames)) }
{
    match cell {
        WideCell::Cell(cell) => Ok(index(store, base, *cell)),
        WideCell::Element(element) => element_at(store, base, pid, element),
    }
}

/// What an operand is worth, or its fault.
#[inline(always)]
fn wide_number(store: &Store, base: usize, pid: u8, operand: &WideOperand) -> Result<i32, Fault>
    requires { IsOperandIn (joined store.now.frames) base operand.now }
    ensures { result ≡ wide_number (joined store.now.frames) base (pos pid) operand.now }
{
    match operand {
        WideOperand::Number(number) => Ok(*number),
        WideOperand::Pid => Ok(i32::from(pid)),
        WideOperand::Held(cell) => {
            let at = wide_at(store, base, pid, cell)?;
            Ok(store.cell(at))
        }
    }
}

/// What it is worth, or its fault.
#[inline(always)]
fn wide_worth(store: &Store, base: usize, pid: u8, value: &WideWorth) -> Result<i32, Fault>
    requires { AreOperandsIn (joined store.now.frames) base value.now }
    ensures { result ≡ wide_worth (joined store.now.frames) base (pos pid) value.now }
{
    match value {
        WideWorth::Plain(a) => wide_number(store, base, pid, a),
        WideWorth::Pair(op, a, b) => {
            let x = wide_number(store, base, pid, a)?;
            if let Some(decided) = decide(*op, x) {
                return Ok(decided);
            }
            let y = wide_number(store, base, pid, b)?;
            infix(*op, x, y)
        }
    }
}

/// What a code stores, if anything, or its fault.
#[inline(always)]
pub fn wide_store(
    store: &Store,
    base: usize,
    pid: u8,
    code: &WideCode,
) -> Result<Option<FlatStore>, Fault>
    requires { AreCellsIn (joined store.now.frames) base code.now }
    ensures { result ≡ wide_store (joined store.now.frames) base (pos pid) code.now }
{
    match code {
        WideCode::Set(word, cell, value) => {
            let number = wide_worth(store, base, pid, value)?;
            let at = wide_at(store, base, pid, cell)?;
            let number = clip(Form::Plain(*word), number);
            Ok(Some(FlatStore { at, number }))
        }
        WideCode::Ask(value) => {
            wide_worth(store, base, pid, value)?;
            Ok(None)
        }
    }
}

/// Whether a code can be taken: one with a fault can.
#[inline(always)]
pub fn wide_can(store: &Store, base: usize, pid: u8, code: &WideCode) -> bool
    requires { AreCellsIn (joined store.now.frames) base code.now }
    ensures { result ≡ or_fault (wide_ready (joined store.now.frames) base (pos pid) code.now) }
{
    match code {
        WideCode::Set(_, _, _) => true,
        WideCode::Ask(value) => match wide_worth(store, base, pid, value) {
            Err(_) => true,
            Ok(number) => number != 0,
        },
    }
}
