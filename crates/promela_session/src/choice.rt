//! How a question ends.

/// How a question ends.
#[derive(Clone, Copy, Debug, PartialEq, Eq)]
pub enum Answer {
    /// By the number of a move, counted from 1.
    Pick(usize),
    /// By the line `q`.
    Quit,
    /// By the end of the choices.
    Ended,
    /// By a line that is too long.
    TooLong,
    /// By a hundred bad lines.
    Hundred,
    /// By a line of the second version that does not fit.
    Misfit,
}
