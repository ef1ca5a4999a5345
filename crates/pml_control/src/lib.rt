//! Control: what a process still has to do, and the checks that speak of it.
#![tactic(auto)]

mod circle;
pub mod ends;
pub mod findings;
mod first_point;
mod graph;
mod labels;
pub mod laws;
mod post;
