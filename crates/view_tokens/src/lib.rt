//! Tokens of JSON, as the bytes of a text that grows.
#![tactic(auto)]

mod bare;
mod bytes;
pub mod tokens;
