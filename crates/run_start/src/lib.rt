//! The first state of a checked model, and new processes of a run (Holzmann, *The SPIN Model Checker*, chapter 3).
#![tactic(auto)]

mod begin;
mod beginnings;
mod bound;
mod counting;
pub mod create;
pub mod law;
pub mod start;
pub mod started;

pub use beginnings::Beginnings;
