//! What stands round a place of a body.

/// What stands round a place of a body.
#[derive(Clone, Copy, Debug, PartialEq, Eq)]
pub struct Round {
    /// Whether a `do` does.
    pub looped: bool,
    /// Whether the innermost `do` or d_step is a d_step, so that a `break` would leave it.
    pub cut: bool,
    /// The innermost d_step, by how many marks stand before its own.
    pub step: Option<usize>,
}
