//! A session over a reader of choices, a writer of the output, and perhaps a writer of the record.
#![tactic(auto)]

pub mod followed;
pub mod heard;
pub mod kept;
pub mod over;
