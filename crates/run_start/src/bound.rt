//! How many cells a run of a model may have.

ghost use Rattle.std.specs.Prelude.{◌≡◌, ◌≤◌};
ghost use Rattle.profile.specs.declared.TheConstants.{MOST_CELLS};
ghost use Rattle.run_start.specs.Bound.{cells_of, largest, most_cells, IsWithin};

use pml_program::program::{Proctype, Program, Slot};
use profile::MOST_PROCESSES;
use run_layout::cells::size;

/// How many cells variables have: no more than an owner may have.
fn cells_of(slots: &[Slot<'_>]) -> usize
    requires few { cells_of slots.now ≤ MOST_CELLS }
    ensures { result ≡ cells_of slots.now }
{
    let mut cells = 0;
    for slot in slots {
        cells += size(slot);
    }
    cells
}

/// How many the parameters and variables of one proctype have at most.
fn largest(proctypes: &[Proctype<'_>]) -> usize
    requires few { largest proctypes.now ≤ MOST_CELLS }
    ensures { result ≡ largest proctypes.now }
{
    let mut most = 0;
    for proctype in proctypes {
        most = most.max(cells_of(proctype.variables.as_slice()));
    }
    most
}

/// How many cells a run of a model may have.
pub fn most_cells(program: &Program<'_>) -> u32
    requires within { IsWithin program.now }
    ensures { result ≡ most_cells program.now }
{
    let globals = cells_of(program.globals.as_slice());
    let process = largest(program.proctypes.as_slice());
    (globals + MOST_PROCESSES * process) as u32
}
