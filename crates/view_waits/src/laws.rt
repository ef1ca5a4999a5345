//! Laws of what processes wait for, which functions without a body state.

ghost use Rattle.view_waits.specs.Filled.{KeptStatesStandAtNodes, WaitsExactlyWithoutMoves};
ghost use Rattle.view_waits.specs.Laws.{MovesWithoutWaiting, ReasonsAreTrue, WaitsForEachOffer, WaitsWithoutMoves};

/// Each reason that is given is so, by its case: a condition is worth 0, a channel is full, empty, or has no message that matches, nobody receives or sends
/// at a rendezvous, as many processes live as may, or nothing can be taken first in a d_step; another process has exclusive control and a move, or a
/// younger one lives.
pub fn reasons_are_true()
    ensures { ReasonsAreTrue }
{}

/// A process that takes part in a move waits for nothing, and one that takes part in none waits for something, unless it is offered nothing. Where nobody has
/// exclusive control and a move, it waits for each of its offers.
pub fn who_has_no_move_waits()
    ensures moves { MovesWithoutWaiting }
    ensures waits { WaitsWithoutMoves }
    ensures each { WaitsForEachOffer }
{}

/// In a model in which each `if` and `do` has an option, and each sequence in a statement a statement, a process that stands at a node of its proctype waits
/// for nothing exactly where it takes part in a move. Each process of a state that is kept of a run stands at a node.
pub fn who_waits_has_no_move()
    ensures exactly { WaitsExactlyWithoutMoves }
    ensures kept { KeptStatesStandAtNodes }
{}
