//! What a tree of Promela says: which conditions refuse it, and the model that it stands for: definitions, in an order to read, and the
//! types that they name. Nothing here is run.
#![tactic(auto)]

pub mod condition;
pub mod mark;
pub mod round;
pub mod thing;
