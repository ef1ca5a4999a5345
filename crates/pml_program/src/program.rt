//! Statements, processes and variables of the checked model.

use crate::expr::{Expr, Target, Want};
use crate::form::Form;
use pml_token::token::Token;
use pml_tree::tokens::Tokens;
use pml_tree::tree::{Removal, Search, SendOrder};
use sqlite_items::Items;

/// A run of the proctype with this number: its place among the proctypes of the model, from 0.
#[derive(Drop)]
pub struct Run {
    pub proctype: usize,
    pub arguments: Items<Expr>,
}

/// A statement that gives no structure. A store without a target is one to `_`.
#[derive(Drop)]
pub enum Action<'a> {
    Else,
    Assign(Option<Target>, Expr),
    AssignRun(Option<Target>, Run),
    Increment(Target),
    Decrement(Target),
    Run(Run),
    Send(Target, SendOrder, Items<Expr>),
    Receive(Target, Search, Removal, Items<Want>),
    Printf(Token<'a>, Items<Expr>),
    Printm(Expr),
    Assert(Expr),
    Holds(Expr),
}

/// A statement without its labels.
#[cycle(program)]
#[derive(Drop)]
pub enum Basic<'a> {
    Plain(Action<'a>),
    Goto(Token<'a>),
    Break,
    If(Items<Seq<'a>>),
    Do(Items<Seq<'a>>),
    Block(Seq<'a>),
    Atomic(Seq<'a>),
    DStep(Seq<'a>),
    Unless(Seq<'a>, Seq<'a>),
}

/// A statement with its labels, and its tokens behind them.
#[cycle(program)]
#[derive(Drop)]
pub struct Stmt<'a> {
    pub labels: Items<Token<'a>>,
    pub basic: Basic<'a>,
    pub tokens: Tokens<'a>,
}

/// Statements one after another.
#[cycle(program)]
#[derive(Drop)]
pub struct Seq<'a> {
    pub steps: Items<Stmt<'a>>,
}

/// What a variable begins with.
#[derive(Drop)]
pub enum Initial {
    Zero,
    Value(Expr),
    /// Channels of this capacity, with fields of these types.
    Channel(u32, Items<Form>),
}

/// A variable, in order of declaration: `length` elements of `stride` cells each, from `offset` on among those of its owner.
/// An array of one element is an array all the same.
#[derive(Drop)]
pub struct Slot<'a> {
    pub name: Token<'a>,
    pub form: Form,
    pub array: bool,
    pub offset: u32,
    pub length: u32,
    pub stride: u32,
    pub initial: Initial,
}

/// A proctype: its parameters are the first of its variables. Behind them come all variables of its body, in the order of the
/// text.
#[derive(Drop)]
pub struct Proctype<'a> {
    pub name: Token<'a>,
    pub owner: usize,
    pub starts: u32,
    pub parameters: usize,
    pub variables: Items<Slot<'a>>,
    pub body: Seq<'a>,
    pub end: Token<'a>,
}

/// A typedef's fields, by their owner.
#[derive(Drop)]
pub struct Fields<'a> {
    pub owner: usize,
    pub fields: Items<Slot<'a>>,
}

/// A model that fits.
#[derive(Drop)]
pub struct Program<'a> {
    pub globals: Items<Slot<'a>>,
    /// mtype names, by number.
    pub constants: Items<Token<'a>>,
    pub typedefs: Items<Fields<'a>>,
    pub proctypes: Items<Proctype<'a>>,
}
