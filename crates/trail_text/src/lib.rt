//! Trails of Spin as texts: what `spin -t -p` prints, read line by line, how it spells statements, and what it shows of declarations.
#![tactic(auto)]

pub mod beside;
mod declared;
pub mod entry;
pub mod loose;
pub mod marks;
pub mod quiet;
pub mod said;
pub mod scan;
pub mod select;
pub mod spelled;
pub mod trail;
