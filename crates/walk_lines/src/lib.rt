//! What a program asks of a walk by lines of JSON, and lines of JSON that answer it.
#![tactic(auto)]

pub mod answers;
pub mod lines;
pub mod requests;
