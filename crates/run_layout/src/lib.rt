//! Which variable or field has a cell.
#![tactic(auto)]

pub mod cells;
pub mod cursor;
pub mod layout;
pub mod tables;
pub mod typedefs;
