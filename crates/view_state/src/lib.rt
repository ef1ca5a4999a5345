//! A state in words: what stands in it, what each process waits for, and the text of the model with the processes at their lines.
#![tactic(auto)]

pub mod choices;
pub mod counted;
pub mod cut;
pub mod source;
pub mod state;
pub mod why;
