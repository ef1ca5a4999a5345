//! Edges of a graph.

/// An offer of a node.
#[derive(Clone, Copy, Debug, PartialEq, Eq)]
pub struct Edge {
    /// The number of its statement's position.
    pub statement: usize,
    /// The node that follows.
    pub target: usize,
    /// Statement and target lie in the same outermost atomic.
    pub keeps: bool,
    /// The target lies in a d_step.
    pub stays: bool,
    /// Of a d_step, the first node inside.
    pub entry: Option<usize>,
}
