//! What expressions are worth, and what variables keep of it (Holzmann, *The SPIN Model Checker*, chapter 3).
#![tactic(auto)]

pub mod clip;
pub mod eval;
pub mod ground;
pub mod operators;
pub mod pattern;
