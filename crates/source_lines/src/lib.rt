//! Lines and columns of a text, and how a line is shown to a person with carets below a place of it.
#![tactic(auto)]

pub mod below;
pub mod beside;
pub mod position;
pub mod shown;
pub mod signs;
pub mod window;
