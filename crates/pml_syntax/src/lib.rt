//! The tree that the tokens of a model spell.
#![tactic(auto)]

mod action;
mod ahead;
mod body;
mod boxes;
mod counting;
mod declaration;
pub mod laws;
mod lists;
mod program;
mod range;
mod starts;
mod unit;

pub use program::{SyntaxError, parse};
