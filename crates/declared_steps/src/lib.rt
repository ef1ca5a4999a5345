//! Makes an assignment of each declaration that is a step in Spin: of those that do not stand at the beginning of a body.
#![tactic(auto)]

pub mod changes;
pub mod stage;
pub mod writing;
