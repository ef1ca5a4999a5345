//! Makes a value of each list of initialisers that has one value alone, and sets the elements of the other ones by the first step, where nothing
//! can be done before it.
#![tactic(auto)]

pub mod changes;
pub mod course;
pub mod laws;
pub mod lists;
pub mod settings;
pub mod writing;
