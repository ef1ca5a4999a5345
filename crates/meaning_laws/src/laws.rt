//! Laws of what a tree stands for.

ghost use Rattle.std.specs.Prelude.{◌≡◌, List};
ghost use Rattle.pml_tree.specs.declared.tree.Tree.{Tree};
ghost use Rattle.pml_program.specs.declared.program.Slot.{Slot};
ghost use Rattle.pml_program.specs.declared.program.Program.{Program};
ghost use Rattle.check_resolve.specs.Model.{numbered_model};
ghost use Rattle.promela_model.specs.StandsModel.{StandsModel};
ghost use Rattle.promela_model.specs.Stands.{Globals};
ghost use Rattle.meaning_laws.specs.Tiled.{IsTiled, IsOwner, HasPaths, AreAmong, ReferencesLead};
ghost use Rattle.pml_program.specs.declared.program.Fields.{Fields};

/// A tree stands for its numbered model: the one that `check` answers where the tree is not refused.
pub fn numbering_stands()
    ensures { (t : Tree) → StandsModel t (numbered_model t) }
{}

/// Two models that one tree stands for are equal.
pub fn one_model()
    ensures { (t : Tree) (p q : Program) → StandsModel t p → StandsModel t q → p ≡ q }
{}

/// In a model that a tree stands for, the variables of each owner, and the fields of each typedef, lie one behind another from cell 0
/// on, each element with the cells of its type: no gap is left, and no cell is shared.
pub fn cells_are_tiled()
    ensures { (t : Tree) (p : Program) → StandsModel t p → IsTiled p }
{}

/// In a model that a tree stands for, where the globals, or the variables of a proctype, have at most 1,000,000 cells: each of their
/// cells has exactly one path of variables, fields and indices, and no path leads anywhere else.
pub fn each_cell_has_one_path()
    ensures { (t : Tree) (p : Program) (ss : List Slot) → StandsModel t p → IsOwner p ss → HasPaths p.typedefs ss }
{}

/// What a reference names: where it means a place of no typedef's type, and its indices lie within, its turns lead to a cell that a path
/// from the same variable leads to, where the typedefs before it are those of the model: the path of its names, each of them found, and
/// of its indices.
pub fn references_lead()
    ensures { (gs : Globals) (ls : List Slot) (ts : List Fields) → AreAmong gs.typedefs ts → ReferencesLead gs ls ts }
{}
