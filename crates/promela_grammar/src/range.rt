//! What a `for` or a `select` counts over.

use pml_tree::tokens::Tokens;
use pml_tree::tree::{Expr, Reference};
use sqlite_items::Boxed;

/// The variable, which stands in three statements.
#[derive(Drop)]
pub struct Counter<'a> {
    /// The line of the word before it.
    pub line: u32,
    /// Where it is set.
    pub set: Boxed<Reference<'a>>,
    /// Where it is compared.
    pub compared: Boxed<Reference<'a>>,
    /// Where it is raised.
    pub raised: Boxed<Reference<'a>>,
    pub tokens: Tokens<'a>,
}

/// The first or the last value.
#[derive(Drop)]
pub struct Bound<'a> {
    pub value: Boxed<Expr<'a>>,
    pub tokens: Tokens<'a>,
}

/// What a `for` or a `select` counts over.
#[derive(Drop)]
pub struct Range<'a> {
    pub counter: Counter<'a>,
    pub first: Bound<'a>,
    pub last: Bound<'a>,
}
