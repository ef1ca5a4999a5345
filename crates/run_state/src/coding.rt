//! The flat codes of a model's statements.

ghost use Rattle.std.specs.Prelude.{◌≡◌, ◌<◌, length, IfOk, OnOk, map, slice_get, slice_index_or};
ghost use Rattle.std.specs.Option.{option_copied};
ghost use Rattle.pml_flow.specs.Graph.{AreGraphs};
ghost use Rattle.flat_code.specs.Wide.{wide_of};
ghost use Rattle.run_state.specs.Coded.{basic_in, no_table, AddsCode, AreCodes, AreAllCodes};
ghost use Rattle.run_state.specs.Standing.{statements_of};

use crate::body::Body;
use crate::played::body_at;
use flat_code::code::FlatCode;
use flat_code::codes::Codes;
use flat_code::make::code_of;
use flat_code::owner::FlatOwner;
use flat_code::wide::WideCode;
use flat_code::wide_make::wide_code_of;
use pml_flow::edge::Edge;
use pml_flow::graph::Graph;
use pml_flow::statements::Statements;
use pml_program::program::{Basic, Program};
use std::alloc::{AllocError, Global};

/// The number behind those of the statements of edges, or this one.
fn behind(edges: &[Edge], count: usize) -> usize {
    let mut count = count;
    for edge in edges {
        if edge.statement >= count {
            count = edge.statement.saturating_add(1);
        }
    }
    count
}

/// The same of a node.
fn behind_node(graph: &Graph, node: usize, count: usize) -> usize
    requires { node < length graph.now.nodes }
{
    let mut count = count;
    for level in 0..graph.level_count(node) {
        count = behind(graph.level(node, level), count);
    }
    count
}

/// The number behind those of the statements that edges have.
fn statement_count(graph: &Graph) -> usize {
    let mut count = 0;
    for node in 0..graph.node_count() {
        count = behind_node(graph, node, count);
    }
    count
}

/// The statement with this number, without its labels.
fn basic_at<'p, 'a>(statements: &Statements<'p, 'a>, number: usize) -> Option<&'p Basic<'a>>
    ensures { option_copied result ≡ basic_in statements.now number }
{
    let statement = statements.get(number)?;
    Some(&statement.basic)
}

/// Adds the code of a statement: a flat one, or a wide one, or none.
fn add_code(
    globals: &FlatOwner<'_, '_>,
    locals: &FlatOwner<'_, '_>,
    basic: Option<&Basic<'_>>,
    codes: &mut Codes,
) -> Result<(), AllocError>
    ensures { OnOk result (AddsCode globals.now locals.now (option_copied basic.entry) codes.old codes.new) }
{
    match code_of(globals, locals, basic) {
        FlatCode::No => match wide_code_of(globals, locals, basic) {
            Some(code) => codes.add_wide(code),
            None => codes.add(FlatCode::No),
        },
        code => codes.add(code),
    }
}

/// The codes of so many statements.
fn codes_of(
    alloc: Global,
    globals: &FlatOwner<'_, '_>,
    locals: &FlatOwner<'_, '_>,
    statements: &Statements<'_, '_>,
    count: usize,
) -> Result<Codes, AllocError>
    ensures { IfOk result (AreCodes globals.now locals.now statements.now) }
{
    let mut codes = Codes::with_capacity(alloc, count)?;
    for number in 0..count {
        add_code(globals, locals, basic_at(statements, number), &mut codes)?;
    }
    Ok(codes)
}

/// The codes of a body.
fn codes_in(
    alloc: Global,
    globals: &FlatOwner<'_, '_>,
    body: &Body<'_, '_, '_>,
) -> Result<Codes, AllocError>
    ensures { IfOk result (AreCodes globals.now body.now.proctype.now.variables body.now.statements.now) }
{
    let locals = FlatOwner::new(alloc, body.proctype.variables.as_slice())?;
    let count = statement_count(body.graph);
    codes_of(alloc, globals, &locals, body.statements, count)
}

/// The codes of each proctype.
pub(crate) fn codes_of_all<'p, 'a>(
    alloc: Global,
    program: &'p Program<'a>,
    graphs: &'p [Graph],
    statements: &[Statements<'p, 'a>],
) -> Result<Vec<Codes>, AllocError>
    requires graphs { AreGraphs program.now.proctypes graphs.now }
    requires statements { statements.now ≡ map (λ q. statements_of q.body) program.now.proctypes }
    ensures { IfOk result (λ v. AreAllCodes program.now v.items) }
{
    let globals = FlatOwner::new(alloc, program.globals.as_slice())?;
    let mut all = Vec::with_capacity(alloc, statements.len())?;
    for sort in 0..statements.len() {
        match body_at(program, graphs, statements, sort) {
            Some(body) => all.push(codes_in(alloc, &globals, &body)?)?,
            None => return Ok(all),
        }
    }
    Ok(all)
}

/// The code of a statement of a proctype, by their numbers.
#[inline(always)]
pub(crate) fn code_at(codes: &[Codes], sort: usize, statement: usize) -> Option<&FlatCode>
    ensures { option_copied result ≡ slice_get (slice_index_or codes.now sort no_table).codes statement }
{
    match codes.get(sort) {
        Some(codes) => codes.get(statement),
        None => None,
    }
}

/// The wide code of a statement of a proctype, by their numbers.
#[inline(always)]
pub(crate) fn wide_at(codes: &[Codes], sort: usize, statement: usize) -> Option<&WideCode>
    ensures { option_copied result ≡ wide_of (slice_index_or codes.now sort no_table) statement }
{
    match codes.get(sort) {
        Some(codes) => codes.wide(statement),
        None => None,
    }
}
