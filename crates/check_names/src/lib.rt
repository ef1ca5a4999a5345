//! What the names of a model stand for.
#![tactic(auto)]

pub mod meaning;
pub mod names;
pub mod places;
pub mod table;
pub mod totals;
