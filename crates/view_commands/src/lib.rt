//! The commands of a session: their names, what stands behind each, and the help.
#![tactic(auto)]

pub mod command;
mod forms;
pub mod goals;
pub mod help;
pub mod names;
pub mod others;
