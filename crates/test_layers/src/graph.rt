//! How rows write the graph of a body: its first node, then a line for each node with its edges.
//!
//! An edge is its level, its statement's tokens and the node that follows; behind it stands `keeps` where both lie in one outermost
//! atomic, `stays` where the node that follows lies in a d_step, and `in N` with the first node inside a d_step.
//!
//! The levels of a node are how many offers each has, from the lowest.
//!
//! The texts of a node are those of its edges, each with `;` behind it.
//!
//! What is known of nodes besides is a line for each: its line in the text, `end` where it is a valid end point, and `atomic N`
//! where it lies in an atomic, N being the first node with the same outermost one.
use crate::layer::GraphView;
use crate::statements::add_spaced;
use pml_flow::edge::Edge;
use pml_flow::graph::Graph;
use pml_flow::statements::{Statements, all_statements};
use pml_program::program::{Basic, Seq, Stmt};
use row_files::RowWriter;
use std::alloc::{AllocError, Global};

fn add_statement(stmt: &Stmt<'_>, out: &mut RowWriter) {
    match &stmt.basic {
        Basic::DStep(_) => out.word("d_step"),
        _ => add_spaced(stmt.tokens.as_slice(), out),
    }
}

/// Writes where an edge leads.
fn add_target(out: &mut RowWriter, edge: Edge) {
    out.word("] ");
    out.number(edge.target);
    if edge.keeps {
        out.word(" keeps");
    }
    if edge.stays {
        out.word(" stays");
    }
    if let Some(entry) = edge.entry {
        out.word(" in ");
        out.number(entry);
    }
    out.word(";");
}

fn add_edge(statements: &Statements<'_, '_>, level: usize, edge: Edge, out: &mut RowWriter) {
    out.word(" ");
    out.number(level);
    out.word(" [");
    if let Some(stmt) = statements.get(edge.statement) {
        add_statement(stmt, out);
    }
    add_target(out, edge);
}

fn add_level(statements: &Statements<'_, '_>, level: usize, edges: &[Edge], out: &mut RowWriter) {
    for edge in edges {
        add_edge(statements, level, *edge, out);
    }
}

fn add_node(statements: &Statements<'_, '_>, graph: &Graph, node: usize, out: &mut RowWriter) {
    if node >= graph.node_count() {
        return;
    }
    out.number(node);
    out.word(":");
    for level in 0..graph.level_count(node) {
        add_level(statements, level, graph.level(node, level), out);
    }
    out.word("\n");
}

fn add_nodes(statements: &Statements<'_, '_>, graph: &Graph, out: &mut RowWriter) {
    out.word("start ");
    out.number(graph.start());
    out.word("\n");
    for node in 0..graph.node_count() {
        add_node(statements, graph, node, out);
    }
}

fn add_edges(alloc: Global, body: &Seq<'_>, graph: &Graph, out: &mut RowWriter) {
    match all_statements(alloc, body) {
        Ok(statements) => add_nodes(&statements, graph, out),
        Err(AllocError) => out.no_memory(),
    }
}

fn add_levels(out: &mut RowWriter, graph: &Graph, node: usize) {
    if node >= graph.node_count() {
        return;
    }
    out.number(node);
    out.word(":");
    for level in 0..graph.level_count(node) {
        out.word(" ");
        out.number(graph.level(node, level).len());
    }
    if graph.only_level(node).is_some() != (graph.level_count(node) == 1) {
        out.word(" one level is told where there are more, or is not told");
    }
    out.word("\n");
}

fn add_all_levels(out: &mut RowWriter, graph: &Graph) {
    for node in 0..graph.node_count() {
        add_levels(out, graph, node);
    }
}

fn add_texts(out: &mut RowWriter, graph: &Graph, edges: &[Edge]) {
    for edge in edges {
        out.word(" ");
        out.bytes(graph.text(edge.statement));
        out.word(";");
    }
}

fn add_node_texts(out: &mut RowWriter, graph: &Graph, node: usize) {
    if node >= graph.node_count() {
        return;
    }
    out.number(node);
    out.word(":");
    for level in 0..graph.level_count(node) {
        add_texts(out, graph, graph.level(node, level));
    }
    out.word("\n");
}

fn add_all_texts(out: &mut RowWriter, graph: &Graph) {
    for node in 0..graph.node_count() {
        add_node_texts(out, graph, node);
    }
}

fn first_alike(graph: &Graph, atomic: Option<usize>) -> usize {
    for node in 0..graph.node_count() {
        if graph.atomic(node) == atomic {
            return node;
        }
    }
    0
}

fn add_marks(out: &mut RowWriter, graph: &Graph, node: usize) {
    if node >= graph.node_count() {
        return;
    }
    out.number(node);
    out.word(": line ");
    out.count(graph.line(node));
    if graph.is_valid_end(node) {
        out.word(" end");
    }
    if graph.atomic(node).is_some() {
        out.word(" atomic ");
        out.number(first_alike(graph, graph.atomic(node)));
    }
    out.word("\n");
}

fn add_all_marks(out: &mut RowWriter, graph: &Graph) {
    for node in 0..graph.node_count() {
        add_marks(out, graph, node);
    }
}

/// Writes what is asked of the graph of a body.
pub fn add_graph(
    alloc: Global,
    view: GraphView,
    body: &Seq<'_>,
    graph: &Graph,
    out: &mut RowWriter,
) {
    match view {
        GraphView::Levels => add_all_levels(out, graph),
        GraphView::Texts => add_all_texts(out, graph),
        GraphView::Marks => add_all_marks(out, graph),
        _ => add_edges(alloc, body, graph, out),
    }
}
