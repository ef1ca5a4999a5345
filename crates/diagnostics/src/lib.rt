//! What can be wrong with a model or with a step, by number and words.
#![tactic(auto)]

mod fault;
mod refusal;
mod stop;

pub use fault::Fault;
pub use refusal::Refusal;
pub use stop::Stop;
