//! Marks: what a model declares, uses and wants, in the order of the text.

use pml_token::token::Token;
use pml_tree::tree::Sort;
use sqlite_items::Items;

/// What a constant expression gives.
#[derive(Clone, Copy, Debug, PartialEq, Eq)]
pub enum Constant {
    Is(i32),
    /// A constant expression that divides by zero.
    Faulty,
    /// No constant expression.
    Open,
}

/// What is done with a reference.
#[derive(Clone, Copy, Debug, PartialEq, Eq)]
pub enum Use {
    Read,
    Store,
    /// Read and stored, as by `++`.
    Update,
    /// Stored by a receive, or compared where it is a constant.
    Receive,
    Channel,
    /// The initialiser of a typedef's field.
    Preset,
}

/// A name in a reference, and whether an index stands behind it.
#[derive(Drop)]
pub struct Shape<'a> {
    pub name: Token<'a>,
    pub indexed: bool,
}

/// What a variable is declared in: a typedef, as its field, or anything else.
#[derive(Clone, Copy, Debug, PartialEq, Eq)]
pub enum Role {
    Variable,
    Field,
}

/// What an initialiser makes of the cells of its variable.
#[derive(Clone, Copy, Debug, PartialEq, Eq)]
pub enum Makes {
    Numbers,
    Channels,
}

/// What a channel initialiser stands behind: a `chan`, or a variable of another type, where it is wrong.
#[derive(Clone, Copy, Debug, PartialEq, Eq)]
pub enum Holder {
    Chan,
    Other,
}

/// A structure that a `break` or a `goto` may leave.
#[derive(Clone, Copy, Debug, PartialEq, Eq)]
pub enum Structure {
    Do,
    DStep,
}

/// What a name is declared as.
#[derive(Drop)]
pub enum Declared<'a> {
    /// Its role, its sort, the size of an array, and what its initialiser makes.
    Variable(Role, Sort<'a>, Option<Constant>, Makes),
    /// An mtype name, whose number is by how many stand before it.
    Constant,
    /// The owner of its fields.
    Typedef(usize),
    /// How many proctypes stand before it, and how many parameters it has.
    Proctype(usize, usize),
}

/// What a mark says.
#[derive(Drop)]
pub enum What<'a> {
    Declares(Token<'a>, Declared<'a>),
    Uses(Use, Items<Shape<'a>>),
    /// A typedef is wanted.
    Typedef(Token<'a>),
    /// A proctype is wanted, with this many parameters.
    Runs(Token<'a>, usize),
    /// A text is printed, with this many values.
    Prints(Token<'a>, usize),
    Number(Token<'a>),
    /// The width of an `unsigned`.
    Width(Token<'a>),
    /// The size of an array.
    Size(Constant),
    /// How many processes begin.
    Starts(Constant),
    /// An initialiser of a typedef's field.
    Preset(Constant),
    /// A channel initialiser: what it stands behind, its capacity, and its number of fields.
    Channel(Holder, Constant, usize),
    Label(Token<'a>),
    Goto(Token<'a>),
    Break,
    Unless,
    /// A structure begins.
    Enter(Structure),
    /// The innermost structure ends.
    Leave,
}

/// A mark, and whose it is: 0 for what is global, else the number of the typedef or proctype among the units, from 1.
#[derive(Drop)]
pub struct Mark<'a> {
    pub owner: usize,
    pub what: What<'a>,
}
