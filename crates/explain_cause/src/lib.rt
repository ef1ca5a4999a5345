//! Why a model is refused, as values, and what is found of that in a text and in its tokens.
#![tactic(auto)]

pub mod brackets;
pub mod cause;
pub mod foreign;
pub mod lexical;
pub mod place;
pub mod words;
