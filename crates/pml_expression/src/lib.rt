//! The expressions that tokens spell, and the steps that every rule of the grammar is read by.
#![tactic(auto)]

pub mod cursor;
pub mod expr;
pub mod fault;
pub mod list;
mod operators;
pub mod references;
