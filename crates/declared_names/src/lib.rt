//! Where the names of marks are declared, and which declaration each name means.
#![tactic(auto)]

pub mod declared;
pub mod meant;
pub mod occurrence;
mod sites;
