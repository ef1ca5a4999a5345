//! Flat code of plain statements: what they do, in cells by their index among all.
#![tactic(auto)]

pub mod code;
pub mod codes;
pub mod make;
pub mod owner;
pub mod run;
pub mod wide;
pub mod wide_make;
pub mod wide_run;
