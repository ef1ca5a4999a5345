//! Where the tokens of a text stand.
#![tactic(auto)]

pub mod laws;
mod tokens;

pub use tokens::placed;
