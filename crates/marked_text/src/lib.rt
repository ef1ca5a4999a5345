//! The text that comes of a model's files: its tokens, each on the line that it has in its file, with marks where another file begins.
#![tactic(auto)]

pub mod pen;
pub mod written;
