//! Flat code: what a plain statement does, in cells.

use pml_tree::tree::{Infix, Scalar};

/// A cell: by its index among all, or counted from the first of its process.
#[derive(Clone, Copy, Debug, PartialEq, Eq)]
pub enum FlatCell {
    Global(u16),
    Local(u16),
}

/// A number, or what such a cell holds.
#[derive(Clone, Copy, Debug, PartialEq, Eq)]
pub enum Operand {
    Number(i16),
    Global(u16),
    Local(u16),
}

/// An operand, or two with an operator between them.
#[derive(Clone, Copy, Debug, PartialEq, Eq)]
pub enum FlatWorth {
    Plain(Operand),
    Pair(Infix, Operand, Operand),
}

/// What a statement does: it stores what a type keeps of a number, or asks whether one is not 0, or does what a wide code
/// of its table says. `No` says nothing of it.
#[derive(Clone, Copy, Debug, PartialEq, Eq)]
pub enum FlatCode {
    No,
    Set(Scalar, FlatCell, FlatWorth),
    Ask(FlatWorth),
    Wide(u16),
}

// A model may have as many of them as a text of 1 MB has statements.
const _: () = prove!(size_of::<FlatCode>() == 16);
