//! What can be done in a state.

/// An offer of a process: the level on which it lies, and its place there.
#[derive(Clone, Copy, Debug, PartialEq, Eq)]
pub struct Pick {
    pub process: usize,
    pub level: usize,
    pub place: usize,
}

/// A process dies, or takes an offer by itself, or sends to the receive that another process offers. The last two know under
/// which value of `timeout` they were found.
#[derive(Clone, Copy, Debug, PartialEq, Eq)]
pub enum Move {
    Death(usize),
    Alone(Pick, bool),
    Pair(Pick, Pick, bool),
}
