//! The texts of moves, and the ends of runs, of states with many processes.
#![tactic(auto)]

pub mod ends;
pub mod kept;
pub mod laws;
mod place;
pub mod texts;
