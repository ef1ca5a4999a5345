//! Paths and references: the path that a value line prints for a cell is the reference that evaluates to it.
#![tactic(auto)]

pub mod laws;
