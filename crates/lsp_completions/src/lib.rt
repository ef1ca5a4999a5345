//! What may be typed at a place of a text, for an editor (LSP 3.17, completion).
#![tactic(auto)]

mod fronts;
mod items;
mod readable;
mod wishes;
mod words;

pub use wishes::completion;
