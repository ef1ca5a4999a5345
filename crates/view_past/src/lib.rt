//! What came before a state: the states that were, who used a channel last, and whom a process waits for.
#![tactic(auto)]

pub mod channels;
pub mod round;
pub mod states;
pub mod target;
pub mod uses;
pub mod whole;
pub mod writers;
