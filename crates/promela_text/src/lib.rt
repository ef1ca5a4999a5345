//! What a text of Promela cuts into, and what comes of its inlines: definitions, in an order to read, and the types that they name. Nothing
//! here is run.
#![tactic(auto)]

pub mod inline_fault;
pub mod lexeme;
pub mod misuse;
