//! What a reference stands for.

use pml_program::expr::Target;

/// What a reference stands for.
#[derive(Drop)]
pub enum Reached {
    Place(Target),
    /// An mtype name, by its number.
    Constant(usize),
    /// `_pid`.
    Pid,
    /// `_nr_pr`.
    ProcessCount,
    /// `_`.
    Anything,
    /// Nothing: such a model is refused.
    Nothing,
}
