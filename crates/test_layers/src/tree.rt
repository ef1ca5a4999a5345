//! What the layers make of a tree.
use crate::graph::add_graph;
use crate::layer::{GraphView, LayerView, ModelView};
use crate::lines::add_lines;
use crate::model::add_model;
use crate::shape::add_expressions;
use crate::statements::add_texts;
use crate::values::{add_creation, add_stop, add_values};
use pml_check::{CheckFault, Checked, check};
use pml_flow::graph::Graph;
use pml_program::program::Program;
use pml_syntax::{SyntaxError, parse};
use pml_token::token::Token;
use pml_tree::tree::Tree;
use row_files::{RowBlock, RowWriter};
use run_start::start::start;
use std::alloc::{AllocError, Global};

/// What is asked of a checked model.
fn of_model(
    alloc: Global,
    view: ModelView,
    block: RowBlock,
    checked: &Checked<'_>,
    out: &mut RowWriter,
) {
    let program = checked.program();
    match view {
        ModelView::Condition => out.word("none"),
        ModelView::Whole => add_model(program, out),
        ModelView::Statements => add_texts(program, out),
        ModelView::Expressions => add_expressions(program, out),
        ModelView::Graph(view) => of_graphs(alloc, view, program, checked.graphs(), out),
        ModelView::Created => add_creation(alloc, block, program, out),
        ModelView::Lines(view) => add_lines(alloc, view, block, program, out),
        _ => match start(alloc, program) {
            Ok(started) => add_values(alloc, view, block, program, started, out),
            Err(stop) => add_stop(stop, out),
        },
    }
}

/// What is asked of the first of these graphs.
fn of_graphs(
    alloc: Global,
    view: GraphView,
    program: &Program<'_>,
    graphs: &[Graph],
    out: &mut RowWriter,
) {
    match (program.proctypes.as_slice(), graphs) {
        ([proctype, ..], [graph, ..]) => add_graph(alloc, view, &proctype.body, graph, out),
        _ => out.word("no proctype"),
    }
}

fn add_fault(fault: CheckFault, out: &mut RowWriter) {
    match fault {
        CheckFault::Refused(refusal) => {
            out.word("M");
            out.count(u32::from(refusal.number()));
        }
        CheckFault::Memory => out.no_memory(),
    }
}

/// What the layers make of the model that a tree is.
fn of_checked<'a>(
    alloc: Global,
    view: ModelView,
    block: RowBlock,
    tree: Tree<'a>,
    out: &mut RowWriter,
) {
    match check(alloc, tree) {
        Ok(checked) => of_model(alloc, view, block, &checked, out),
        Err(fault) => add_fault(fault, out),
    }
}

/// A tree is there. It is let go by a check: a program that drops one itself proves anew how each of its parts is dropped.
fn of_tree<'a>(alloc: Global, tree: Tree<'a>, out: &mut RowWriter) {
    let _ = check(alloc, tree);
    out.word("tree");
}

/// What the layers make of a tree, or of the model that it is.
fn of_parsed<'a>(
    alloc: Global,
    view: LayerView,
    block: RowBlock,
    tree: Tree<'a>,
    out: &mut RowWriter,
) {
    match view {
        LayerView::Model(view) => of_checked(alloc, view, block, tree, out),
        _ => of_tree(alloc, tree, out),
    }
}

/// Writes what the layers make of the tree that tokens have, or the line that no rule reads.
pub fn of_tokens<'a>(
    alloc: Global,
    view: LayerView,
    block: RowBlock,
    tokens: &'a [Token<'a>],
    out: &mut RowWriter,
) {
    match parse(alloc, tokens) {
        Ok(tree) => of_parsed(alloc, view, block, tree, out),
        Err(SyntaxError::Syntax(line)) => {
            out.word("fault at line ");
            out.count(line);
        }
        Err(SyntaxError::Memory) => out.no_memory(),
    }
}
