//! The syntax tree of a model.
#![tactic(auto)]

pub mod room;
pub mod tokens;
pub mod tree;
