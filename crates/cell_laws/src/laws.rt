//! Laws of paths and references.

ghost use Rattle.std.specs.Prelude.{List};
ghost use Rattle.pml_tree.specs.declared.tree.Tree.{Tree};
ghost use Rattle.pml_program.specs.declared.program.Slot.{Slot};
ghost use Rattle.pml_program.specs.declared.program.Program.{Program};
ghost use Rattle.promela_model.specs.StandsModel.{StandsModel};
ghost use Rattle.meaning_laws.specs.Tiled.{IsOwner};
ghost use Rattle.cell_laws.specs.Paths.{ArePrinted, AreReadBack};

/// In a model that a tree stands for, what a value line prints for a cell of a variable is the one path that leads to it, in words:
/// each variable or field by its name, and by its index where it is an array.
pub fn cells_are_printed()
    ensures { (t : Tree) (p : Program) (ss : List Slot) → StandsModel t p → IsOwner p ss → ArePrinted p ss }
{}

/// The round trip: where a reference is asked of a state, it evaluates to a cell for which a value line prints a path of the reference's
/// own names, with the numbers that its indices are worth.
pub fn references_are_printed()
    ensures { (t : Tree) (p : Program) (ss : List Slot) → StandsModel t p → IsOwner p ss → AreReadBack p ss }
{}
