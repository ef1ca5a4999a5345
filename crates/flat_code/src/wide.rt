//! Wide code: what a statement does with elements of arrays, or with the number of its process, in cells.

use crate::code::{FlatCell, FlatWorth};
use pml_tree::tree::{Infix, Scalar};

/// An index: the number of the process, or what flat code is worth.
#[derive(Clone, Copy)]
pub enum WideIndex {
    Pid,
    Worth(FlatWorth),
}

/// An element of so many, of a cell each: the first is at a cell, and the index says which it is.
#[derive(Clone, Copy)]
pub struct FlatElement {
    pub first: FlatCell,
    pub length: u32,
    pub index: WideIndex,
}

/// A cell, or an element.
#[derive(Clone, Copy)]
pub enum WideCell {
    Cell(FlatCell),
    Element(FlatElement),
}

/// A number, the number of the process, or what such a cell holds.
#[derive(Clone, Copy)]
pub enum WideOperand {
    Number(i32),
    Pid,
    Held(WideCell),
}

/// An operand, or two with an operator between them.
#[derive(Clone, Copy)]
pub enum WideWorth {
    Plain(WideOperand),
    Pair(Infix, WideOperand, WideOperand),
}

/// What a statement does: it stores what a type keeps of a number, or asks whether one is not 0.
#[derive(Clone, Copy)]
pub enum WideCode {
    Set(Scalar, WideCell, WideWorth),
    Ask(WideWorth),
}

/// A number that goes to a cell, by its index among all.
#[derive(Clone, Copy)]
pub struct FlatStore {
    pub at: usize,
    pub number: i32,
}
