//! A run without a session: lines of JSON, or the chart of a walk; and a walk along a trail of Spin.
#![tactic(auto)]

pub mod beside;
pub mod lines;
pub mod next;
pub mod plain;
pub mod search;
pub mod steps;
pub mod trailed;
