//! What one process has and does: numbers, what an expression is worth, what variables and a channel hold, control and what it offers:
//! definitions, in an order to read, and the types that they name. Nothing here is run.
#![tactic(auto)]

pub mod place;
pub mod sought;
