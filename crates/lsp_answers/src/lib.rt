//! What a language server for Promela answers: a message in, messages out, and no device.
#![tactic(auto)]

mod aids;
mod answers;
mod colours;
mod completions;
mod documents;
mod fields;
mod folds;
mod questions;
mod remedies;
mod replies;
mod server;
mod signatures;
mod told;

pub use server::Server;
