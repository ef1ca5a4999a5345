//! The names of a text: where each is declared, and which declaration each use means.
#![tactic(auto)]

mod found;
mod inlines;
mod kept;
mod marks;
mod names;
mod scanned;

pub use declared_names::declared::{Declaration, Stands};
pub use declared_names::occurrence::Occurrence;
pub use inlines::Inlines;
pub use kept::KeptNames;
pub use names::{TextNames, names_of};
