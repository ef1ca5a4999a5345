//! Where a number is kept.

/// A cell of a variable. Frame 0 has the globals, and frame n + 1 the variables of process n.
#[derive(Clone, Copy, PartialEq, Eq, Debug)]
pub struct Place {
    pub frame: usize,
    pub variable: usize,
    pub cell: usize,
}
