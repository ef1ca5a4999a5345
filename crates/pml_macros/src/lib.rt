//! Macros over tokens that keep their places: which there are, and what comes of tokens that name them.
#![tactic(auto)]

pub mod atom;
pub mod book;
pub mod calls;
pub mod laws;
pub mod replacing;
pub mod scan;
pub mod table;
pub mod trouble;
pub mod work;
