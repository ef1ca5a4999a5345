//! A session: lines that walk through the states of a model, and what is shown of them.
#![tactic(auto)]

pub mod answers;
pub mod branches;
pub mod charted;
mod going;
mod listed;
pub mod notes;
pub mod past;
pub mod question;
pub mod record;
pub mod replay;
pub mod seeking;
mod showing;
pub mod steps;
pub mod stopped;
mod taking;
pub mod told;
pub mod until;
mod values;
pub mod watch;
pub mod watches;
pub mod written;
