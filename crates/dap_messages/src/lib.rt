//! Messages of a debug adapter: responses to requests, events, and what stands in requests; and a state as a debugger shows it, by what lives in it alone: two
//! walks that stand in one state show the same.
#![tactic(auto)]

pub mod cells;
pub mod channels;
pub mod fields;
pub mod moves;
pub mod outbox;
pub mod processes;
pub mod references;
pub mod replies;
pub mod variables;
pub mod words;
