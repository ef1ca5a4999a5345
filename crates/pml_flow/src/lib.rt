//! The control graph of a body.
#![tactic(auto)]

mod arms;
pub mod edge;
mod flags;
pub mod graph;
pub mod laws;
mod level;
pub mod lines;
mod only;
mod settled;
mod site;
mod sites;
pub mod statements;
pub mod text;
