//! The checked model: its names are replaced by what they stand for, and its statements are what control goes through.
#![tactic(auto)]

pub mod expr;
pub mod form;
pub mod program;
