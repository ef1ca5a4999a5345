//! The conditions, by number. Holzmann, The SPIN Model Checker, chapters 3 and 7 and its reference pages, has the language; the bounds are
//! this simulator's own.

/// A condition that a model may break. Each refuses it by itself; the one with the least number is answered.
#[derive(Clone, Copy, Debug, PartialEq, Eq)]
pub enum Condition {
    /// A name is declared twice, or one that no text declares.
    Twice,
    /// A name is not declared, or a field that its typedef lacks.
    Unknown,
    /// A name or a value of the wrong kind.
    Wrong,
    /// A run has another number of arguments than its proctype, or a printf than its text.
    Arguments,
    /// A label stands twice, or is missing.
    Label,
    /// A break that no `do` is round.
    Break,
    /// A goto or a break that enters or leaves a d_step, or an unless in one.
    Step,
    /// A number out of range.
    Range,
    /// Too many cells.
    Cells,
    /// No process begins.
    NoProcess,
    /// Too many processes or channels in the first state.
    Start,
}
