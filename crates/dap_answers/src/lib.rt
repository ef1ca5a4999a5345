//! What a debug adapter for Promela answers: a request in, messages out, over a walk, and no device.
#![tactic(auto)]

pub mod answer;
mod back;
mod breaks;
mod commands;
mod console;
mod data;
pub mod debugging;
mod evaluate;
mod fault;
mod run;
mod set_breaks;
mod show;
mod step;
mod stop;
