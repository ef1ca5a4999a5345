//! What a session does, over any machine: definitions, in an order to read, and the types that they name. Nothing here is run.
#![tactic(auto)]

pub mod choice;
pub mod ends;
pub mod form;
pub mod line;
