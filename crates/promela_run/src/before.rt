//! What stands before a byte of a string.

/// What stands before a byte of a string and says how it is read.
#[derive(Clone, Copy)]
pub enum Before {
    Nothing,
    Percent,
    Backslash,
}
