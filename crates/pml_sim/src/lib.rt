//! A checked model as a machine: its states, their moves, its steps, and the texts (Holzmann, *The SPIN Model Checker*, chapters 3
//! and 7).
#![tactic(auto)]

pub mod ending;
pub mod laws;
pub mod world;
