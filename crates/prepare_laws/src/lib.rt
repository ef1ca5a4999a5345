//! Where separators stand in what is prepared, by the kinds of tokens, and what lists of initialisers leave as it is. Nothing here is run.
#![tactic(auto)]

ghost use Rattle.std.specs.Prelude.{Bool, List, ℕ};
ghost use Rattle.prepare.specs.Stretches.{stretches};
ghost use Rattle.prepare_laws.specs.LineEnds.{SeparatorsAreExact};
ghost use Rattle.prepare_laws.specs.Twice.{Piece, OnceIsTwice, IsWrittenOnce};
ghost use Rattle.prepare_laws.specs.Lists.{ListsAlone};
ghost use Rattle.listed_values.specs.Changes.{changes};

/// A `;` is written exactly where a line ends between a token that may end a statement and one that may begin one, within braces, and in no
/// other bracket, no list and no range of a `for`: nowhere else, and at each such place.
pub fn separators_are_exact()
    ensures { (text : List ℕ) → SeparatorsAreExact (stretches text) }
{}

/// What is written between tokens, by their kinds and the ends of lines, is written again to itself: behind it no place is left where a `;` or a
/// `skip` is to be written.
pub fn written_twice_is_written_once()
    ensures { (ts : List Piece) → OnceIsTwice ts }
{}

/// What is written between the tokens of a text is told by their kinds and the ends of lines alone, so it is written again to itself.
pub fn what_is_written_is_written_once()
    ensures { (text : List ℕ) → IsWrittenOnce (stretches text) }
{}

/// Where lists of initialisers are values or are set by a step, all tokens but those of the lists stay; the step stands before one of them.
pub fn lists_alone_change()
    ensures { (is_set : Bool) (text : List ℕ) → ListsAlone (stretches text) (changes is_set (stretches text)) }
{}
