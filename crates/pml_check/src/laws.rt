//! What holds of the conditions alone.

ghost use Rattle.std.specs.Prelude.{◌≡◌, ◌⊎◌};
ghost use Rattle.diagnostics.specs.declared.refusal.Refusal.{Refusal};
ghost use Rattle.pml_tree.specs.declared.tree.Tree.{Tree};
ghost use Rattle.promela_refusals.specs.Judged.{Applies, IsFit, IsLeast};
ghost use Rattle.pml_check.specs.Fitted.{Fits};

/// One refusal at most is the least that applies to a tree, and none applies to a tree that fits.
pub fn one_answer()
    ensures least { (t : Tree) (x y : Refusal) → IsLeast t x → IsLeast t y → x ≡ y }
    ensures fits { (t : Tree) (x : Refusal) → IsFit t → IsLeast t x → ⊥ }
{}

/// A refusal applies to a tree, or the tree fits it, and never both.
pub fn each_condition_decides()
    ensures either { (t : Tree) (x : Refusal) → Applies t x ⊎ Fits t x }
    ensures apart { (t : Tree) (x : Refusal) → Applies t x → Fits t x → ⊥ }
{}

/// A tree fits all conditions, or some refusal is the least that applies to it.
pub fn each_tree_is_judged()
    ensures { (t : Tree) → IsFit t ⊎ ((x : Refusal) × IsLeast t x) }
{}
