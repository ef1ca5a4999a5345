//! Writes the names of an `mtype` with one comma between each two of them, and with none behind the last.
#![tactic(auto)]

pub mod changes;
pub mod laws;
pub mod place;
pub mod writing;
