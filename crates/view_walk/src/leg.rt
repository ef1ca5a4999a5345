//! A choice of a walk.

/// The number of a choice, counted from 1, and of how many it was one.
#[derive(Clone, Copy, Debug, PartialEq, Eq)]
pub struct Leg {
    pub choice: usize,
    pub of: usize,
}
