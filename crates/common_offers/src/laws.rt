//! What follows of offers that are the same for every process. Nothing here is run.

ghost use Rattle.common_offers.specs.Offers.{AllAreSilent, AllMoveAlike, AllAreDeaf};

/// Where one process has no moves on a level of offers that are the same for every process, no process has.
pub fn all_are_silent()
    ensures { AllAreSilent }
{}

/// On such a level each process has the moves of another, by its own offers.
pub fn all_move_alike()
    ensures { AllMoveAlike }
{}

/// Where one process does not receive a message on such a level, no process does.
pub fn all_are_deaf()
    ensures { AllAreDeaf }
{}
