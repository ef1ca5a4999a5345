//! A run of a checked model: its states, the moves of each, what a step leads to, and the texts: definitions, in an order to read, and the
//! types that they name. Nothing here is run.
#![tactic(auto)]

pub mod before;
pub mod beginning;
pub mod goes;
pub mod halt;
pub mod live_channel;
pub mod moves;
