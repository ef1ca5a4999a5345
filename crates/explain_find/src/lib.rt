//! Why a refused text is refused, and where.
#![tactic(auto)]

mod bare;
mod begun;
mod control;
mod fields;
mod find;
mod heads;
mod initialiser;
mod inlines;
mod kept;
mod marks;
mod misused;
mod there;
mod tree;

pub use find::cause_of;
