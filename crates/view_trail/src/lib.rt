//! Trails of Spin beside a model: which of the present moves the next line of a trail names.
#![tactic(auto)]

pub mod difference;
pub mod fits;
pub mod inner;
pub mod way;
pub mod which;
