//! What names stand for.

use pml_program::form::Form;

/// A variable, a parameter or a field, and its cells: `length` elements of `stride` cells each, from `offset` on among those of
/// its owner. Cells are counted up to 1,000,001.
#[derive(Clone, Copy, Debug, PartialEq, Eq)]
pub struct Variable {
    pub form: Form,
    pub array: bool,
    pub length: u32,
    pub stride: u32,
    pub offset: u32,
    /// How many variables of its owner stand before it.
    pub number: usize,
}

/// What a name stands for.
#[derive(Clone, Copy, Debug, PartialEq, Eq)]
pub enum Thing {
    Variable(Variable),
    /// An mtype name, and its number.
    Constant(usize),
    /// A typedef: the owner of its fields, and its cells.
    Typedef(usize, u32),
    /// A proctype: how many stand before it, and how many parameters it has.
    Proctype(usize, usize),
}
