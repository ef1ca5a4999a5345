//! Expressions, references and arguments without names.

use crate::form::Form;
use pml_tree::tree::{Fill, Infix, Prefix, Search};
use sqlite_items::{Boxed, Items};

/// An expression.
#[cycle(value)]
#[derive(Drop)]
pub enum Expr {
    Number(i32),
    /// `_pid`.
    Pid,
    /// `_nr_pr`.
    ProcessCount,
    Timeout,
    Read(Target),
    Ask(Fill, Boxed<Target>),
    Poll(Boxed<Target>, Search, Items<Want>),
    Unary(Prefix, Boxed<Expr>),
    Binary(Infix, Boxed<Expr>, Boxed<Expr>),
    Choice(Boxed<Expr>, Boxed<Expr>, Boxed<Expr>),
}

/// What a receive or a poll asks of a field.
#[cycle(value)]
#[derive(Drop)]
pub enum Want {
    Exactly(i32),
    Equal(Boxed<Expr>),
    Into(Target),
    Anything,
}

/// A variable by its number among its owner's, the type of what is reached in it, and the turns that lead there.
#[cycle(value)]
#[derive(Drop)]
pub struct Target {
    pub local: bool,
    pub variable: usize,
    pub form: Form,
    pub turns: Items<Turn>,
}

/// The variable itself or a field, and its index: `length` elements of `stride` cells each, from `offset` on in what it is a part of.
#[cycle(value)]
#[derive(Drop)]
pub struct Turn {
    pub offset: u32,
    pub length: u32,
    pub stride: u32,
    pub index: Option<Boxed<Expr>>,
}
