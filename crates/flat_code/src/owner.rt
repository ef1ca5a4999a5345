//! Variables, and where each begins.

ghost use Rattle.std.specs.Prelude.{◌≡◌, ◌<◌, ◌+◌, IfOk, IfSome, slice_get};
ghost use Rattle.std.specs.Option.{option_copied};
ghost use Rattle.run_layout.specs.Tables.{AreStarts};
ghost use Rattle.flat_code.specs.Flat.{cells_in, start};

use pml_program::program::Slot;
use run_layout::cells::size;
use std::alloc::{AllocError, Global};
use std::marker::Model;

/// The variables of an owner, and where each begins among its cells. Contracts see the variables.
#[derive(Drop)]
pub struct FlatOwner<'p, 'a> {
    slots: &'p [Slot<'a>],
    starts: Vec<usize>,
}

impl<'p, 'a> Model for FlatOwner<'p, 'a> {
    ghost use Rattle.std.specs.Prelude.{List};
    ghost use Rattle.pml_program.specs.declared.program.Slot.{Slot};
    ghost use Rattle.pml_program.specs.contracts.expr.Expr as worth;
    ghost use Rattle.std.specs.Coded.{codes};
    ghost use Rattle.run_layout.specs.Tables.{AreStarts};

    ghost Value = { List Slot };

    ghost coded = { Prim.hlevel (codes, worth.the_row.coded) };

    ghost view = { λ r. r.slots.now };

    ghost invariant = { λ r. AreStarts 0 r.slots.now r.starts.items };
}

/// Where each begins, as far as a machine word counts.
#[tactic(auto, using(crate::proofs::Starting::started))]
fn starts_of(alloc: Global, slots: &[Slot<'_>]) -> Result<Vec<usize>, AllocError>
    ensures { IfOk result (λ starts. AreStarts 0 slots.now starts.items) }
{
    let mut starts = Vec::new(alloc);
    let mut at = 0usize;
    for slot in slots {
        starts.push(at)?;
        match at.checked_add(size(slot)) {
            Some(next) => at = next,
            None => return Ok(starts),
        }
    }
    Ok(starts)
}

fn slot_at<'p, 'a>(slots: &'p [Slot<'a>], variable: usize) -> Option<&'p Slot<'a>>
    ensures { option_copied result ≡ slice_get slots.now variable }
{
    slots.get(variable)
}

/// How many cells a variable has.
fn size_at(slots: &[Slot<'_>], variable: usize) -> usize
    ensures { result ≡ cells_in slots.now variable }
{
    match slot_at(slots, variable) {
        Some(slot) => size(slot),
        None => 0,
    }
}

impl<'p, 'a> FlatOwner<'p, 'a> {
    /// The table of these variables.
    pub fn new(alloc: Global, slots: &'p [Slot<'a>]) -> Result<FlatOwner<'p, 'a>, AllocError>
        ensures { IfOk result (λ owner. owner ≡ slots.now) }
    {
        let starts = starts_of(alloc, slots)?;
        Ok(FlatOwner { slots, starts })
    }

    /// Where a cell of a variable is among the cells of all, if the variable has it.
    pub fn cell(&self, variable: usize, cell: usize) -> Option<u16>
        ensures { IfSome result (λ at. (cell < cells_in self.now variable) × (at ≡ start self.now variable + cell)) }
    {
        if cell >= size_at(self.slots, variable) || variable >= self.starts.len() {
            return None;
        }
        match self.starts[variable].checked_add(cell) {
            Some(at) if at <= 65_535 => Some(at as u16),
            _ => None,
        }
    }
}
