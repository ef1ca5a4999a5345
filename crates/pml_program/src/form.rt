//! The type of a variable.

use pml_tree::tree::Scalar;

/// The type of a variable (Holzmann, *The SPIN Model Checker*, chapter 3).
#[derive(Clone, Copy, Debug, PartialEq, Eq)]
pub enum Form {
    Plain(Scalar),
    /// `unsigned`, with its width.
    Unsigned(u32),
    /// A typedef, by the owner of its fields.
    Struct(usize),
    /// A name that is no typedef's. No checked model has it.
    Unknown,
}
