//! The numbers of variables, by place.
#![tactic(auto)]

pub mod law;
pub mod store;
