//! What holds of the definitions alone.

ghost use Rattle.std.specs.Prelude.{◌≡◌, ◌<◌, ◌^◌, ◌++◌, List, ℕ};
ghost use Rattle.std.specs.Fmt.{decimal};
ghost use Rattle.prepare.specs.Stretches.{stretches};
ghost use Rattle.names_apart.specs.declared.writing.TheConstants.{MOST_JOINT};
ghost use Rattle.names_apart.specs.InlineCount.{InlineCount};
ghost use Rattle.names_apart.specs.Changes.{changes};
ghost use Rattle.names_apart.specs.Labels as labels;
ghost use Rattle.names_apart.specs.Writing.{longest, joint};
ghost use Rattle.prepare.specs.Changed.{owns};
ghost use Rattle.names_apart.specs.Laws.{NotIn};

/// Where a name is divided nothing is left out: gaps and tokens, one behind the other, are the text. So what is between tokens stays, and each
/// token but the name is as it was.
pub fn tokens_are_the_text()
    ensures { (name : List ℕ) (cs : List InlineCount) (text : List ℕ) → owns (changes name cs (stretches text)) ≡ text }
{}

/// Where labels are divided it is the same.
pub fn label_tokens_are_the_text()
    ensures { (name : List ℕ) (cs : List InlineCount) (text : List ℕ) → owns (labels.changes name cs (stretches text)) ≡ text }
{}

/// A name with a number stands nowhere in the text in which names are divided, not even within another word.
pub fn divided_names_are_new()
    ensures { (text name : List ℕ) (n : ℕ) → longest text < MOST_JOINT → n < 2 ^ 64 → NotIn (name ++ (joint text ++ decimal n)) text }
{}
