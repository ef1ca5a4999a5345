//! Why a model is refused: what is found at the first mark that breaks a condition.
#![tactic(auto)]

pub mod control;
pub mod counts;
pub mod names;
pub mod near;
pub mod range;
mod sign;
pub mod spans;
pub mod start;
mod walk;
pub mod wrong;
