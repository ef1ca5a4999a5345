//! Laws of moves.

ghost use Rattle.run_search.specs.Laws.{TheHolderGoesOn, TheYoungestDiesFirst};

/// No process dies before a younger one: each death that is among the moves is that of the youngest process.
pub fn the_youngest_dies_first()
    ensures { TheYoungestDiesFirst }
{}

/// While the process that has exclusive control can go on, no other takes a step.
pub fn the_holder_goes_on()
    ensures { TheHolderGoesOn }
{}
