//! What a process reads of a state, and what its statements store (Holzmann, *The SPIN Model Checker*, chapter 3).
#![tactic(auto)]

pub mod few;
pub mod fields;
pub mod laws;
pub mod message;
pub mod receive;
pub mod statement;
pub mod view;

pub use pml_channel::channel::Channel;
pub use pml_eval::clip::clip;
pub use pml_eval::eval::{eval, pattern, place};
pub use pml_store::store::Store;
