//! The chart of the messages of a run as text: a row a step, a column a process.
#![tactic(auto)]

pub mod chart;
mod row;
