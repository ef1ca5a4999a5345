//! Variables one behind another, and which of them has a cell.

ghost use Rattle.std.specs.Prelude.{◌≡◌, ◌≤◌, ◌<◌, ◌+◌, IfOk, length, slice_get, slice_index_or};
ghost use Rattle.std.specs.Option.{option_copied};
ghost use Rattle.promela_run.specs.State.{slot_of, cell_of};
ghost use Rattle.run_layout.specs.Numbers.{number_of, number_in};
ghost use Rattle.run_layout.specs.Tables.{AreStarts};

use crate::cells::size;
use pml_program::program::Slot;
use std::alloc::{AllocError, Global};
use std::marker::Model;

/// Variables or fields that lie one behind another, and where each begins. Contracts see the variables.
#[derive(Drop)]
pub struct Layout<'p, 'a> {
    slots: &'p [Slot<'a>],
    starts: Vec<usize>,
}

impl<'p, 'a> Model for Layout<'p, 'a> {
    ghost use Rattle.std.specs.Prelude.{List};
    ghost use Rattle.pml_program.specs.declared.program.Slot.{Slot};
    ghost use Rattle.pml_program.specs.contracts.expr.Expr as worth;
    ghost use Rattle.std.specs.Coded.{codes};
    ghost use Rattle.run_layout.specs.Tables.{AreStarts};

    ghost Value = { List Slot };

    ghost coded = { Prim.hlevel (codes, worth.the_row.coded) };

    ghost view = { λ r. r.slots.now };

    ghost invariant = { λ r. AreStarts 0 r.slots.now r.starts.items };
}

/// Where each begins, as far as a machine word counts.
fn starts_of(alloc: Global, slots: &[Slot<'_>]) -> Result<Vec<usize>, AllocError>
    ensures { IfOk result (λ starts. AreStarts 0 slots.now starts.items) }
{
    let mut starts = Vec::new(alloc);
    let mut at = 0usize;
    for slot in slots {
        starts.push(at)?;
        match at.checked_add(size(slot)) {
            Some(next) => at = next,
            None => return Ok(starts),
        }
    }
    Ok(starts)
}

/// The last of these places that is not past this one, where the first is not.
fn last_start(starts: &[usize], at: usize) -> usize
    requires some { 0 < length starts.now }
    requires first { slice_index_or starts.now 0 0 ≤ at }
    ensures there { result < length starts.now }
    ensures begun { slice_index_or starts.now result 0 ≤ at }
    ensures last { result + 1 < length starts.now → at < slice_index_or starts.now (result + 1) 0 }
{
    let mut low = 0;
    let mut high = starts.len();
    while low + 1 < high {
        let middle = low + (high - low) / 2;
        if starts[middle] <= at {
            low = middle;
        } else {
            high = middle;
        }
    }
    low
}

impl<'p, 'a> Layout<'p, 'a> {
    /// The table of these variables.
    pub fn new(alloc: Global, slots: &'p [Slot<'a>]) -> Result<Layout<'p, 'a>, AllocError>
        ensures { IfOk result (λ layout. layout ≡ slots.now) }
    {
        let starts = starts_of(alloc, slots)?;
        Ok(Layout { slots, starts })
    }

    /// The number of the variable with this cell, or how many there are, and the number of the cell in it, or among the cells
    /// behind them all.
    #[tactic(auto, using(crate::proofs::Seeking::fewer))]
    pub fn number(&self, cell: usize) -> (usize, usize)
        ensures slot { slice_get self.now result.0 ≡ slot_of self.now cell }
        ensures number { result.0 ≡ number_of self.now cell }
        ensures cell { result.1 ≡ cell_of self.now cell }
    {
        let starts = self.starts.as_slice();
        if starts.is_empty() {
            return (self.slots.len(), cell);
        }
        let number = last_start(starts, cell);
        let size = size(&self.slots[number]);
        let within = cell - starts[number];
        if within < size {
            (number, within)
        } else {
            (self.slots.len(), within - size)
        }
    }

    /// The variable with this cell, and the number of the cell in it, or among the cells behind them all.
    pub fn find(&self, cell: usize) -> (Option<&'p Slot<'a>>, usize)
        ensures slot { option_copied result.0 ≡ slot_of self.now cell }
        ensures cell { result.1 ≡ cell_of self.now cell }
    {
        let (number, within) = self.number(cell);
        (self.slots.get(number), within)
    }

    /// The number of the variable with this cell, if one has it, and the number of the cell in it, or among the cells behind them
    /// all.
    pub fn place(&self, cell: usize) -> (Option<usize>, usize)
        ensures number { result.0 ≡ number_in self.now cell }
        ensures cell { result.1 ≡ cell_of self.now cell }
    {
        let (number, within) = self.number(cell);
        if number < self.slots.len() {
            (Some(number), within)
        } else {
            (None, within)
        }
    }
}
