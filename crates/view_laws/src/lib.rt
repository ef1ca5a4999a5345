//! Laws of walks, and of what processes wait for on them.
#![tactic(auto)]

pub mod waiting;
pub mod walks;
