//! A walk through the states of a checked model: the choices that were made from the first state on, and a place on them. A step back is
//! to play the choices before it again.
#![tactic(auto)]

pub mod leg;
pub mod walk;
