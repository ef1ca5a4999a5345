//! What may be done next in a state of many processes (Holzmann, *The SPIN Model Checker*, chapters 3 and 7).
#![tactic(auto)]

pub mod alone;
pub mod common;
pub mod d_step;
pub mod demand;
pub mod demands;
pub mod executable;
pub mod foremost;
pub mod interest;
pub mod laws;
pub mod lent;
pub mod listeners;
pub mod message;
pub mod picked;
pub mod process;
pub mod rendezvous;
pub mod round;
pub mod runs;
pub mod search;
pub mod tier;
