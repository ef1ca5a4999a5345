//! Offers that are the same for every process: they read nothing of a process's own, which is its number and its local variables.
#![tactic(auto)]

pub mod expression;
pub mod laws;
pub mod statement;
