//! Writes the fields of a record that is a message, in their order, and a loop over the messages of a channel as a loop over their number.
#![tactic(auto)]

pub mod changes;
pub mod laws;
pub mod members;
pub mod place;
pub mod variables;
pub mod writing;
