//! What holds of the definitions alone.

ghost use Rattle.std.specs.Prelude.{◌≡◌, false, Bool, List, ℕ};
ghost use Rattle.prepare.specs.Changed.{owns};
ghost use Rattle.prepare.specs.Stretches.{stretches};
ghost use Rattle.listed_values.specs.Changes.{changes};
ghost use Rattle.listed_values.specs.Writing.{valued};
ghost use Rattle.listed_values.specs.Laws.{has_list};

/// Nothing is left out of what becomes of the tokens: gaps and tokens, one behind the other, are the text. So what is between tokens stays, and
/// each token that stays is as it was.
pub fn tokens_are_the_text()
    ensures { (is_set : Bool) (text : List ℕ) → owns (changes is_set (stretches text)) ≡ text }
{}

/// A text without a list stays as it is.
pub fn a_text_without_lists_stays()
    ensures { (text : List ℕ) → has_list (stretches text) ≡ false → valued text ≡ text }
{}
