//! What holds of the definitions alone.

ghost use Rattle.std.specs.Prelude.{◌≡◌, List, ℕ};
ghost use Rattle.prepare.specs.Stretches.{stretches};
ghost use Rattle.computed_sizes.specs.declared.TheConstants.{MOST_SIZE};
ghost use Rattle.computed_sizes.specs.Sized.{changes};
ghost use Rattle.prepare.specs.Changed.{owns};

/// Nothing is left out of what becomes of the tokens: gaps and tokens, one behind the other, are the text. So what is between tokens stays, and
/// each token that stays is as it was.
pub fn tokens_are_the_text()
    ensures { (text : List ℕ) → owns (changes (stretches text)) ≡ text }
{}

/// The largest number is this.
pub fn the_limit_is_this()
    ensures { MOST_SIZE ≡ 65535 }
{}
