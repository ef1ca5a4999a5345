//! Prepares the text of a model: its lines where its markers say, the separators that the ends of lines stand for, blanks in place of
//! blocks that only verification needs and of subtypes of `mtype`, and the range of a `for` over an array.
#![tactic(auto)]

pub mod changed;
pub mod changes;
mod character;
pub mod coding;
pub mod context;
pub mod laws;
pub mod markers;
pub mod numbering;
pub mod roles;
pub mod sizes;
pub mod spelling;
pub mod stretch;
pub mod stretches;

/// What a line of an included file ends with: a blank, behind which the line goes on.
pub const FORM_FEED: u8 = 12;

/// The most bytes that a text may have: what a preprocessor makes of small models.
pub const MOST_BYTES: usize = 8_388_608;
