//! The lines that name the places which a step changed.
#![tactic(auto)]

pub mod change;
pub mod changed;
pub mod place;
