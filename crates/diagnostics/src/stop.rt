//! Why a step is not taken to its end.

use crate::Fault;

/// Why a step was not taken to its end.
#[derive(Clone, Copy, Debug, PartialEq, Eq)]
pub enum Stop {
    /// The step is a fault of the run.
    Fault(Fault),
    /// Memory was refused.
    Memory,
}
