//! Which statement of a body breaks a condition on its control: which `break`, which d_step and with which point, which gotos of a circle.
#![tactic(auto)]

pub mod body;
mod circle;
mod first_point;
pub mod proctypes;
pub mod site;
mod walk;
