//! What holds of the definitions alone.

ghost use Rattle.std.specs.Prelude.{◌≡◌, List, [], ℕ, All};
ghost use Rattle.prepare.specs.Stretches.{stretches};
ghost use Rattle.prepare.specs.Written.{Written};
ghost use Rattle.record_messages.specs.Member.{Member};
ghost use Rattle.record_messages.specs.DeclaredName.{DeclaredName};
ghost use Rattle.record_messages.specs.Changes.{changes};
ghost use Rattle.record_messages.specs.Writing.{written};
ghost use Rattle.record_messages.specs.Laws.{owns, IsOwn};

/// Nothing is left out of what becomes of the tokens: gaps and tokens, one behind the other, are the text.
pub fn tokens_are_the_text()
    ensures { (ms : List Member) (vs : List DeclaredName) (n : ℕ) (text : List ℕ) → owns (changes ms vs n (stretches text)) ≡ text }
{}

/// Types stand for typedefs alone, fields for records, and a counter is declared before a `for`.
pub fn records_alone_change()
    ensures { (ms : List Member) (vs : List DeclaredName) (n : ℕ) (ts : List Written) → All (IsOwn ms vs) (changes ms vs n ts) }
{}

/// Where no typedef has plain fields alone, all is as it was.
pub fn text_without_records_stays()
    ensures { (joint : List ℕ) (n : ℕ) (text : List ℕ) → written [] [] joint (changes [] [] n (stretches text)) ≡ text }
{}
