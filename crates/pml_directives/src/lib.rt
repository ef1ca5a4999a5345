//! Texts with `#` lines: what comes of them is the tokens that stand outside of what is left out, with macros replaced.
#![tactic(auto)]

pub mod branches;
pub mod condition;
pub mod definition;
pub mod files;
pub mod lines;
pub mod macros;
pub mod plain;
pub mod refusal;
pub mod splices;
pub mod state;
pub mod whole;
pub mod words;
