//! Which macro brought a token of a text that was prepared, by the tokens that the preprocessor left, and how that is told.
#![tactic(auto)]

pub mod origin;
pub mod told;
