//! The syntax tree of a model (Holzmann, *The SPIN Model Checker*, chapter 3). Names and numbers stand in it as their tokens,
//! and the trees borrow these: the list of tokens outlives them. Parentheses leave no trace.

use crate::tokens::Tokens;
use pml_token::token::Token;
use sqlite_items::{Boxed, Items};

/// A type that a word names.
#[derive(Clone, Copy, Debug, PartialEq, Eq)]
pub enum Scalar {
    Bit,
    Bool,
    Byte,
    Chan,
    Mtype,
    Pid,
    Short,
    Int,
}

/// An operator before its operand.
#[derive(Clone, Copy, Debug, PartialEq, Eq)]
pub enum Prefix {
    Not,
    Complement,
    Minus,
}

/// An operator between two operands.
#[derive(Clone, Copy, Debug, PartialEq, Eq)]
pub enum Infix {
    Times,
    Divide,
    Remainder,
    Plus,
    Minus,
    ShiftLeft,
    ShiftRight,
    Below,
    AtMost,
    Above,
    AtLeast,
    Equal,
    Unequal,
    BitAnd,
    BitXor,
    BitOr,
    And,
    Or,
}

/// What is asked of a channel: `len`, `empty`, `full`, `nempty`, `nfull`.
#[derive(Clone, Copy, Debug, PartialEq, Eq)]
pub enum Fill {
    Length,
    IsEmpty,
    IsFull,
    IsNotEmpty,
    IsNotFull,
}

/// The sign of a number.
#[derive(Clone, Copy, Debug, PartialEq, Eq)]
pub enum Sign {
    Plus,
    Minus,
}

/// Where a send puts its message: behind the others (`!`), or in order (`!!`).
#[derive(Clone, Copy, Debug, PartialEq, Eq)]
pub enum SendOrder {
    Fifo,
    Sorted,
}

/// Which message a receive or a poll looks at: the first one (`?`), or the first one that matches (`??`).
#[derive(Clone, Copy, Debug, PartialEq, Eq)]
pub enum Search {
    First,
    Matching,
}

/// Whether a receive takes its message out of the channel, or leaves it there (`<..>`).
#[derive(Clone, Copy, Debug, PartialEq, Eq)]
pub enum Removal {
    Remove,
    Keep,
}

/// An expression, without its parentheses.
#[cycle(expr)]
#[derive(Drop)]
pub enum Expr<'a> {
    Number(Token<'a>),
    /// `true` and `skip`, or `false`.
    Truth(bool),
    Timeout,
    Read(Reference<'a>),
    Ask(Fill, Reference<'a>),
    /// `q?[..]` or `q??[..]`.
    Poll(Reference<'a>, Search, Items<Argument<'a>>),
    Unary(Prefix, Boxed<Expr<'a>>),
    Binary(Infix, Boxed<Expr<'a>>, Boxed<Expr<'a>>),
    Choice(Boxed<Expr<'a>>, Boxed<Expr<'a>>, Boxed<Expr<'a>>),
}

/// An argument of a receive or a poll.
#[cycle(expr)]
#[derive(Drop)]
pub enum Argument<'a> {
    /// A number, alone or behind a `-`.
    Exactly(Sign, Token<'a>),
    /// `true` and `skip`, or `false`.
    Fixed(bool),
    Eval(Boxed<Expr<'a>>),
    Into(Reference<'a>),
}

/// A name and its index, and the fields behind it.
#[cycle(expr)]
#[derive(Drop)]
pub struct Reference<'a> {
    pub first: Step<'a>,
    pub fields: Items<Step<'a>>,
}

/// A name, with an index or without.
#[cycle(expr)]
#[derive(Drop)]
pub struct Step<'a> {
    pub name: Token<'a>,
    pub index: Option<Boxed<Expr<'a>>>,
}

/// The type of a variable, a parameter or a field.
#[derive(Drop)]
pub enum Sort<'a> {
    Plain(Scalar),
    /// `unsigned`, with its width.
    Unsigned(Token<'a>),
    /// A typedef.
    Named(Token<'a>),
}

/// What stands behind the `=` of a declaration.
#[derive(Drop)]
pub enum Initial<'a> {
    Value(Boxed<Expr<'a>>),
    /// `[capacity] of { types }`.
    Channel(Boxed<Expr<'a>>, Items<Scalar>),
}

/// A variable, a parameter or a field. A declaration of several is one of these for each.
#[derive(Drop)]
pub struct Variable<'a> {
    pub sort: Sort<'a>,
    pub name: Token<'a>,
    pub size: Option<Boxed<Expr<'a>>>,
    pub initial: Option<Initial<'a>>,
}

/// `run name(arguments)`.
#[derive(Drop)]
pub struct Run<'a> {
    pub name: Token<'a>,
    pub arguments: Items<Expr<'a>>,
}

/// A statement that gives no structure.
#[derive(Drop)]
pub enum Action<'a> {
    Else,
    Assign(Reference<'a>, Boxed<Expr<'a>>),
    AssignRun(Reference<'a>, Run<'a>),
    Increment(Reference<'a>),
    Decrement(Reference<'a>),
    Run(Run<'a>),
    Send(Reference<'a>, SendOrder, Items<Expr<'a>>),
    Receive(Reference<'a>, Search, Removal, Items<Argument<'a>>),
    Printf(Token<'a>, Items<Expr<'a>>),
    Printm(Boxed<Expr<'a>>),
    Assert(Boxed<Expr<'a>>),
    Holds(Boxed<Expr<'a>>),
}

/// An item of a body, without its labels.
#[cycle(statement)]
#[derive(Drop)]
pub enum Basic<'a> {
    /// Variables, which take no step.
    Declare(Items<Variable<'a>>),
    /// `xr` and `xs`, which take no step.
    Exclusive(Items<Reference<'a>>),
    Plain(Boxed<Action<'a>>),
    Goto(Token<'a>),
    Break,
    If(Items<Seq<'a>>),
    Do(Items<Seq<'a>>),
    Block(Seq<'a>),
    Atomic(Seq<'a>),
    DStep(Seq<'a>),
    /// The main part and the escape, each a sequence of one statement.
    Unless(Seq<'a>, Seq<'a>),
}

/// An item of a body, with its labels and its tokens behind them. The labels of an `unless` stand on its parts, and a
/// declaration has none.
#[cycle(statement)]
#[derive(Drop)]
pub struct Item<'a> {
    pub labels: Items<Token<'a>>,
    pub basic: Boxed<Basic<'a>>,
    pub tokens: Tokens<'a>,
}

/// Items one after another. In a statement, one of them at least is no declaration, `xr` or `xs`.
#[cycle(statement)]
#[derive(Drop)]
pub struct Seq<'a> {
    pub items: Items<Item<'a>>,
}

/// How many processes of a proctype begin.
#[derive(Drop)]
pub enum Starts<'a> {
    Never,
    Once,
    Times(Boxed<Expr<'a>>),
}

/// A proctype, or `init`, which has the word `init` as its name, no parameters, and starts once.
#[derive(Drop)]
pub struct Proctype<'a> {
    pub starts: Starts<'a>,
    pub name: Token<'a>,
    pub parameters: Items<Variable<'a>>,
    pub body: Seq<'a>,
    /// The closing brace.
    pub end: Token<'a>,
}

/// A part of a model.
#[derive(Drop)]
pub enum Unit<'a> {
    Variables(Items<Variable<'a>>),
    Constants(Items<Token<'a>>),
    Typedef(Token<'a>, Items<Variable<'a>>),
    Proctype(Proctype<'a>),
}

/// A model.
#[derive(Drop)]
pub struct Tree<'a> {
    pub units: Items<Unit<'a>>,
}
