//! What flat code is worth in a store.

ghost use Rattle.std.specs.Prelude.{◌≡◌, ◌<◌, length};
ghost use Rattle.pml_store.specs.Writing.{joined};
ghost use Rattle.flat_code.specs.Flat.{index, number, worth, IsIn, AreIn};

use crate::code::{FlatCell, FlatWorth, Operand};
use diagnostics::Fault;
use pml_eval::operators::infix;
use pml_store::store::Store;

/// Where a cell is among all, where those of the process begin here.
#[inline(always)]
pub fn index(store: &Store, base: usize, cell: FlatCell) -> usize
    requires { index base cell < length (joined store.now.frames) }
    ensures { result ≡ index base cell }
{
    let _count = store.cells().len();
    match cell {
        FlatCell::Global(at) => usize::from(at),
        FlatCell::Local(at) => base + usize::from(at),
    }
}

/// What an operand is worth.
#[inline(always)]
fn number(store: &Store, base: usize, operand: Operand) -> i32
    requires { IsIn (joined store.now.frames) base operand }
    ensures { result ≡ number (joined store.now.frames) base operand }
{
    match operand {
        Operand::Number(number) => i32::from(number),
        Operand::Global(at) => store.cell(index(store, base, FlatCell::Global(at))),
        Operand::Local(at) => store.cell(index(store, base, FlatCell::Local(at))),
    }
}

/// What it is worth, or its fault.
#[inline(always)]
pub fn worth(store: &Store, base: usize, value: &FlatWorth) -> Result<i32, Fault>
    requires { AreIn (joined store.now.frames) base value.now }
    ensures { result ≡ worth (joined store.now.frames) base value.now }
{
    match value {
        FlatWorth::Plain(a) => Ok(number(store, base, *a)),
        FlatWorth::Pair(op, a, b) => infix(*op, number(store, base, *a), number(store, base, *b)),
    }
}
