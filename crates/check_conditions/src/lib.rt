//! The conditions that refuse a model, as far as they are decided on its marks.
#![tactic(auto)]

mod counts;
pub mod decide;
pub mod find;
pub mod first;
mod first_crossed;
mod labels;
pub mod laws;
mod round;
mod start;
mod structure;
mod unknown;
mod wrong;
