//! Where a run was stopped.

use crate::moves::Move;
use diagnostics::Stop;

/// A move that was not taken to its end, and why.
#[derive(Clone, Copy, Debug, PartialEq, Eq)]
pub struct Halt {
    pub at: Move,
    pub why: Stop,
}
