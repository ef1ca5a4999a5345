//! Writes the size of an array that is declared by an expression as the number that this is.
#![tactic(auto)]

pub mod changes;
pub mod count;
pub mod laws;
pub mod worth;
pub mod writing;

/// The largest number that an expression may come to, or a part of it.
pub const MOST_SIZE: u32 = 65_535;
