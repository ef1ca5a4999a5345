//! The page of a run: one file of HTML that refers to nothing outside it.
#![tactic(auto)]

pub mod laws;
pub mod page;
mod parts;
pub mod pieces;
mod script;
