//! What a program asks of a walk.

/// How a run goes on until a condition holds.
#[derive(Clone, Copy, Debug, PartialEq, Eq)]
pub enum By {
    /// By steps with one move.
    Forced,
    /// By the process with this number alone.
    Process(usize),
    /// By the generator with this seed.
    Chance(u64),
}

/// What a program asks of a walk.
#[derive(Drop)]
pub enum Request {
    /// To take the move with this number, from 1.
    Take(usize),
    /// So many steps back.
    Back(usize),
    /// To the state behind so many steps.
    Goto(usize),
    /// So many steps with one move at most.
    On(usize),
    /// On until this holds.
    Until(String, By),
    /// Why the process with this number, or each, has no move.
    Why(Option<usize>),
    /// The state.
    State,
    /// The present moves.
    Moves,
    /// The choices so far.
    Record,
}
