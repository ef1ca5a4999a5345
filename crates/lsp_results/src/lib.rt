//! What a language server answers of a text, as values of JSON (LSP 3.17): places and changes, names, renames, remedies, signatures, parts to fold, and what
//! each token is.
#![tactic(auto)]

pub mod actions;
pub mod asked;
mod cells;
pub mod changes;
pub mod colours;
pub mod folds;
pub mod hover;
pub mod page;
pub mod places;
pub mod renames;
pub mod signatures;
pub mod sorts;
pub mod symbols;
pub mod tokens;
