//! What stands in a state, in words: processes and where they stand, cells with their paths and numbers, channels with their names.
#![tactic(auto)]

pub mod cells;
pub mod channels;
pub mod made;
pub mod processes;
