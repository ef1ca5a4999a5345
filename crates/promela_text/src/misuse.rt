//! Which rule a definition or a call of an inline breaks, and at which token.

/// A rule of inlines.
#[derive(Clone, Copy, Debug, PartialEq, Eq)]
pub enum Rule {
    /// A definition stands outside of all braces and calls.
    Outside,
    /// A definition has its form.
    Form,
    /// A body has its last `}`.
    Body,
    /// The parameters of a definition have different names.
    Parameters,
    /// Definitions have different names.
    Names,
    /// A call has its `)`.
    Call,
    /// A call has as many arguments as there are parameters: so many are given, and so many are wanted.
    Arguments(usize, usize),
    /// No argument is empty.
    Empty,
    /// What comes out of a call does not call it again.
    Recursion,
    /// Not too many calls stand within one another.
    Depth,
    /// Not too many tokens come out of calls.
    Length,
}

/// What is wrong: the rule that is broken, the token that breaks it, by its place in the list, and the name of the definition that it
/// speaks of, in the same way.
#[derive(Clone, Copy, Debug, PartialEq, Eq)]
pub struct Misuse {
    pub rule: Rule,
    pub at: usize,
    pub definition: usize,
}

/// A limit of what comes out.
#[derive(Clone, Copy, Debug, PartialEq, Eq)]
pub enum Limit {
    /// How many brackets are open.
    Open,
    /// How many tokens stand in a row.
    Row,
}
