//! The grammar of Promela: which tree the tokens of a text spell: definitions, in an order to read, and the types that they name. Nothing
//! here is run.
#![tactic(auto)]

pub mod opener;
pub mod range;
