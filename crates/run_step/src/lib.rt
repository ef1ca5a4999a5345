//! What moves lead to: the effect of a statement, new processes, pairs, d_steps and deaths (Holzmann, *The SPIN Model Checker*,
//! chapters 3 and 7).
#![tactic(auto)]

pub mod arguments;
pub mod effect;
pub mod laws;
pub mod pair;
mod storing;
pub mod take;
mod value;
pub mod within;
