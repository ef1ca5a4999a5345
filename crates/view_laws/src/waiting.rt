//! Laws of what the processes of a text's model wait for.

ghost use Rattle.view_laws.specs.Waiting.{TextsHaveFilledBodies, WaitsForNothingWhereItMoves};

/// In the model of a text each `if` and `do` has an option, and each sequence in a statement a statement; so in each of its states a process waits for
/// nothing exactly where it takes part in a move.
pub fn who_waits_has_no_move()
    ensures filled { TextsHaveFilledBodies }
    ensures exactly { WaitsForNothingWhereItMoves }
{}
