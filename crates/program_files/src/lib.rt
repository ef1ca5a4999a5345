//! The files of a program's run: which file a name leads to, how choices and texts are read, and what is said where one fails.
#![tactic(auto)]

pub mod fault;
pub mod held;
pub mod identity;
pub mod input;
pub mod models;
pub mod reading;
pub mod refusal;
pub mod telling;
pub mod texts;
pub mod words;
