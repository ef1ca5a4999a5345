//! What holds of the definitions alone.

ghost use Rattle.std.specs.Prelude.{◌≡◌, List, ℕ, All};
ghost use Rattle.prepare.specs.Changed.{owns};
ghost use Rattle.prepare.specs.Stretches.{stretches};
ghost use Rattle.prepare.specs.Written.{Written};
ghost use Rattle.mtype_commas.specs.Changes.{changes};
ghost use Rattle.mtype_commas.specs.Laws.{IsOwn};
ghost use Rattle.mtype_commas.specs.Names.{CommasAreExact};

/// Nothing is left out of what becomes of the tokens: gaps and tokens, one behind the other, are the text. So what is between tokens stays, and
/// each token that stays is as it was.
pub fn tokens_are_the_text()
    ensures { (text : List ℕ) → owns (changes (stretches text)) ≡ text }
{}

/// A blank stands for a comma alone, and a comma before a name alone: no other token changes.
pub fn only_commas_change()
    ensures { (ts : List Written) → All IsOwn (changes ts) }
{}

/// Commas change exactly among the names of an `mtype`: a blank stands for each that stands before their `}` or before another one, and a comma
/// before each name directly behind a name.
pub fn commas_are_exact()
    ensures { (ts : List Written) → CommasAreExact (changes ts) }
{}
