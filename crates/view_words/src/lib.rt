//! What the command line of spinview asks for.
#![tactic(auto)]

mod asked;
mod help;
mod words;

pub use asked::{RunForm, Wishes};
pub use words::read;
