//! Texts that are shown to a person, written piece by piece.
#![tactic(auto)]

pub mod filled;
pub mod writer;
