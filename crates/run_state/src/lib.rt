//! A state of a run: a model with what is made of it once, and what lives in it.
#![tactic(auto)]

pub mod body;
mod channels;
mod coding;
mod flat;
pub mod live;
mod messages;
pub mod played;
pub mod seat;
mod storing;
