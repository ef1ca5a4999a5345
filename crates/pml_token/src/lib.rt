//! Tokens of a text, and their kinds.
#![tactic(auto)]

pub mod token;
