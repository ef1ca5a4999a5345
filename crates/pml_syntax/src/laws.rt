//! What holds of the grammar alone.

ghost use Rattle.std.specs.Prelude.{◌≡◌, ◌++◌, List, Bool};
ghost use Rattle.pml_token.specs.Word.{Word};
ghost use Rattle.pml_tree.specs.declared.tree.Basic.{Basic};
ghost use Rattle.pml_tree.specs.declared.tree.Tree.{Tree};
ghost use Rattle.promela_grammar.specs.Expressions.{between};
ghost use Rattle.promela_grammar.specs.Models.{SpellsBasic, Spells};

/// Tokens have one tree at most.
pub fn one_tree()
    ensures { (s t : Tree) (ts : List Word) → Spells s ts → Spells t ts → s ≡ t }
{}

/// What a statement keeps as its tokens are those that it takes from the front.
pub fn tokens_are_kept()
    ensures { (closed : Bool) (x : Basic) (from to : List Word) → SpellsBasic closed x from to → from ≡ between from to ++ to }
{}
