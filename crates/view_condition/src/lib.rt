//! Conditions over all of a state: how they are read, and what they are worth.
#![tactic(auto)]

mod base;
pub mod condition;
mod names;
pub mod overview;
mod places;
mod resolve;
pub mod subject;
pub mod unread;
