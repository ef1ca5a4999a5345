//! Laws of the definitions, which functions without a body state.

ghost use Rattle.check_conditions.specs.Laws.{Exclude, GotoCrosses, CrossingGoto};

/// No condition both refuses a model and fits it.
pub fn one_answer()
    ensures { Exclude }
{}

/// A goto refuses the model where the first label of its name stands in another d_step, in one where the goto stands in none, or in
/// none where the goto stands in one.
pub fn goto_crosses()
    ensures { GotoCrosses }
{}

/// And for no other goto does the condition on d_steps apply.
pub fn crossing_goto()
    ensures { CrossingGoto }
{}
