//! The static checks of a model, and what they leave: the checked model, in which names are replaced by what they stand for
//! (Holzmann, *The SPIN Model Checker*, chapter 3).
#![tactic(auto)]

mod broken;
mod checked;
mod control;
mod judge;
pub mod laws;
pub mod parsed;
mod start;
mod subject;

pub use checked::{CheckFault, Checked, check};
