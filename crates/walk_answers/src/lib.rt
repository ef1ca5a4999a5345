//! What is asked of a walk, and what is answered: steps on and back, how a run goes on where there are several moves, and conditions as a process reads them.
#![tactic(auto)]

pub mod choosing;
pub mod going;
pub mod halt;
pub mod request;
pub mod scope;
pub mod seen;
