//! A session over a text of Promela, from the bytes of the model and of the choices to those of the output and of the record
//! (Holzmann, *The SPIN Model Checker*, chapters 3 and 7).
#![tactic(auto)]

mod converting;
pub mod laws;
mod whole;

pub use converting::convert;
pub use whole::{Rejection, checked_of, expanded_of, play, world_of};
