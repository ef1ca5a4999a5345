//! The two forms of choice files, and what is known of the choices.

/// A form of the choices and of the record.
#[derive(Clone, Copy, Debug, PartialEq, Eq)]
pub enum Version {
    /// A line has the number of a move.
    First,
    /// Behind a first line `choices 2`, a line has the number of a move, and the process and the line of that move.
    Second,
}

/// What is known of the choices.
#[derive(Clone, Copy, Debug, PartialEq, Eq)]
pub enum Stream {
    /// Nothing: no line was read.
    Unread,
    /// Their version.
    Known(Version),
    /// That nothing is left: their end was seen.
    Over,
}
