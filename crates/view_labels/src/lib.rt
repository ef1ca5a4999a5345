//! Where processes can stand: the lines and the labels of a proctype.
#![tactic(auto)]

pub mod labels;
pub mod lines;
