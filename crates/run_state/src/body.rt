//! The body of a proctype, as it is played.

ghost use Rattle.std.specs.Prelude.{◌≡◌, ◌<◌, ◌≤◌, true, false, length};
ghost use Rattle.std.specs.Option.{option_copied};
ghost use Rattle.run_state.specs.Standing.{IsBody, shows};

use pml_flow::edge::Edge;
use pml_flow::graph::Graph;
use pml_flow::statements::Statements;
use pml_program::program::{Basic, Proctype};

/// A proctype, its graph, and its statements by number.
#[derive(Drop)]
pub struct Body<'w, 'p, 'a> {
    pub proctype: &'p Proctype<'a>,
    pub graph: &'p Graph,
    pub statements: &'w Statements<'p, 'a>,
}

impl<'w, 'p, 'a> Body<'w, 'p, 'a> {
    /// Whether its graph has this node.
    pub fn has_node(&self, node: usize) -> bool
        ensures yes { result ≡ true → node < length self.now.graph.now.nodes }
        ensures no { result ≡ false → length self.now.graph.now.nodes ≤ node }
    {
        node < self.graph.node_count()
    }

    /// The statement of an edge, without its labels.
    pub fn basic(&self, edge: Edge) -> Option<&'p Basic<'a>>
        requires { IsBody self.now }
        ensures { option_copied result ≡ (shows self.now edge).basic }
    {
        let statement = self.statements.get(edge.statement)?;
        Some(&statement.basic)
    }
}
