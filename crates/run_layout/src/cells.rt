//! What the cells of one variable or field are.

ghost use Rattle.std.specs.Prelude.{◌≡◌, ◌%◌};
ghost use Rattle.promela_run.specs.State.{size};

use pml_program::program::Slot;

/// How many cells a variable or a field has.
pub fn size(slot: &Slot<'_>) -> usize
    ensures { result ≡ size slot.now }
{
    slot.length as usize * slot.stride as usize
}

/// The cell within its element, where elements have so many cells.
pub fn remainder(cell: usize, stride: u32) -> usize
    ensures { result ≡ cell % stride }
{
    if stride == 0 {
        cell
    } else {
        cell % stride as usize
    }
}
