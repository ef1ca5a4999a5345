//! Renames apart what a body declares in several blocks, or by several calls of an inline.
#![tactic(auto)]

pub mod apart;
pub mod candidates;
pub mod changes;
pub mod labelled;
pub mod labels;
pub mod laws;
pub mod scope;
pub mod tally;
pub mod writing;
