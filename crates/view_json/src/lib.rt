//! A run as lines of JSON: one for the first state, one a step, one for the end. A state is the fold of the lines.
#![tactic(auto)]

mod actor;
mod changed;
pub mod channel;
pub mod choice;
pub mod counted;
mod couple;
mod couples;
mod deal;
mod known;
pub mod laws;
pub mod lines;
mod list;
pub mod objects;
mod past;
pub mod process;
mod single;
mod singles;
pub mod start;
pub mod steps;
mod texts;
