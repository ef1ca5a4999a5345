//! What a move does with a message, why a process has no move, and what a condition reads.
#![tactic(auto)]

pub mod because;
pub mod fault;
pub mod laws;
pub mod offers;
pub mod reads;
pub mod statement;
pub mod transfer;
pub mod waits;
pub mod words;
