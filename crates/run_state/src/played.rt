//! A model that is played, with what is made of it once.

ghost use Rattle.std.specs.Prelude.{◌≡◌, IfOk, IfSome, map, option_map, slice_get};
ghost use Rattle.std.specs.Option.{option_copied};
ghost use Rattle.pml_flow.specs.Graph.{AreGraphs};
ghost use Rattle.promela_run.specs.State.{body_of, begins_at, variables_at};
ghost use Rattle.run_state.specs.Coded.{basic_in, statements_at, IsFlatOf};
ghost use Rattle.flat_code.specs.Wide.{IsWideCodeOf};
ghost use Rattle.run_state.specs.Held.{sorts_of};
ghost use Rattle.run_state.specs.Standing.{stand_of, statements_of, IsBody};

use crate::body::Body;
use crate::coding::{code_at, codes_of_all, wide_at};
use crate::seat::Seat;
use flat_code::code::FlatCode;
use flat_code::codes::Codes;
use flat_code::wide::WideCode;
use pml_flow::graph::Graph;
use pml_flow::statements::{Statements, all_statements};
use pml_program::program::{Proctype, Program};
use run_layout::tables::Tables;
use run_start::Beginnings;
use std::alloc::{AllocError, Global};
use std::marker::Model;

/// A model that is played: its tables and what its typedefs begin with, and the graphs, the statements and their flat
/// codes of its proctypes, in their order. Contracts see the program.
#[derive(Drop)]
pub struct Played<'p, 'a> {
    beginnings: Beginnings<'p, 'a>,
    graphs: &'p [Graph],
    statements: Vec<Statements<'p, 'a>>,
    flat: Vec<Codes>,
}

impl<'p, 'a> Model for Played<'p, 'a> {
    ghost use Rattle.std.specs.Prelude.{[]};
    ghost use Rattle.std.specs.Coded.{codes};
    ghost use mir.Syntax.{named};
    ghost use Rattle.pml_program.specs.declared.program.Program.{Program};
    ghost use Rattle.pml_program.specs.contracts.expr.Expr as worth;
    ghost use Rattle.pml_program.specs.contracts.program.Seq as seq;
    ghost use Rattle.pml_program.specs.contracts.program.Basic as basic;
    ghost use Rattle.run_state.specs.Coded.{IsPrepared};

    ghost Value = { Program };

    ghost coded = { Prim.hlevel (codes, worth.the_row.coded, (seq.the_row (record { mir = named 0; lft = [] })).coded, (basic.the_row (record { mir = named 0; lft = [] })).coded) };

    ghost view = { λ m. m.beginnings };

    ghost invariant = { λ m. IsPrepared m.beginnings m.graphs.now m.statements.items m.flat.items };
}

/// The statements of each proctype.
fn statements_of_all<'p, 'a>(
    alloc: Global,
    proctypes: &'p [Proctype<'a>],
) -> Result<Vec<Statements<'p, 'a>>, AllocError>
    ensures { IfOk result (λ v. v.items ≡ map (λ q. statements_of q.body) proctypes.now) }
{
    let mut all = Vec::with_capacity(alloc, proctypes.len())?;
    for proctype in proctypes {
        all.push(all_statements(alloc, &proctype.body)?)?;
    }
    Ok(all)
}

fn graph_at(graphs: &[Graph], sort: usize) -> Option<&Graph>
    ensures { option_copied result ≡ slice_get graphs.now sort }
{
    graphs.get(sort)
}

/// The first node of a proctype, by its number.
fn start_of(graphs: &[Graph], sort: usize) -> usize
    ensures { IfSome (slice_get graphs.now sort) (λ g. result ≡ g.start) }
{
    match graph_at(graphs, sort) {
        Some(graph) => graph.start(),
        None => 0,
    }
}

/// The proctype with this number.
pub fn proctype_at<'p, 'a>(program: &'p Program<'a>, sort: usize) -> Option<&'p Proctype<'a>>
    ensures { option_copied result ≡ slice_get program.now.proctypes sort }
{
    program.proctypes.as_slice().get(sort)
}

/// The body of the proctype with this number.
pub(crate) fn body_at<'w, 'p, 'a>(
    program: &'p Program<'a>,
    graphs: &'p [Graph],
    statements: &'w [Statements<'p, 'a>],
    sort: usize,
) -> Option<Body<'w, 'p, 'a>>
    requires graphs { AreGraphs program.now.proctypes graphs.now }
    requires statements { statements.now ≡ map (λ q. statements_of q.body) program.now.proctypes }
    ensures proctype { option_map (λ k. k.proctype.now) result ≡ slice_get program.now.proctypes sort }
    ensures body { option_map (λ k. k.proctype.now.body) result ≡ body_of program.now sort }
    ensures is { IfSome result IsBody }
{
    let proctype = proctype_at(program, sort)?;
    Some(Body {
        proctype,
        graph: &graphs[sort],
        statements: &statements[sort],
    })
}

impl<'p, 'a> Played<'p, 'a> {
    /// A model with the graphs of its proctypes.
    pub fn new(
        alloc: Global,
        program: &'p Program<'a>,
        graphs: &'p [Graph],
    ) -> Result<Played<'p, 'a>, AllocError>
        requires { AreGraphs program.now.proctypes graphs.now }
        ensures { IfOk result (λ m. m ≡ program.now) }
    {
        let statements = statements_of_all(alloc, program.proctypes.as_slice())?;
        let flat = codes_of_all(alloc, program, graphs, statements.as_slice())?;
        let beginnings = Beginnings::new(alloc, program)?;
        Ok(Played {
            beginnings,
            graphs,
            statements,
            flat,
        })
    }

    /// The model.
    pub fn program(&self) -> &'p Program<'a>
        ensures { result.now ≡ self.now }
    {
        self.tables().program()
    }

    /// Its tables.
    pub fn tables(&self) -> &Tables<'p, 'a>
        ensures { result.now ≡ self.now }
    {
        self.beginnings.tables()
    }

    /// What its typedefs begin with.
    pub fn beginnings(&self) -> &Beginnings<'p, 'a>
        ensures { result.now ≡ self.now }
    {
        &self.beginnings
    }

    /// The proctype with this number.
    pub fn proctype(&self, sort: usize) -> Option<&'p Proctype<'a>>
        ensures { option_copied result ≡ slice_get self.now.proctypes sort }
    {
        proctype_at(self.program(), sort)
    }

    /// The body of the proctype with this number.
    pub fn body(&self, sort: usize) -> Option<Body<'_, 'p, 'a>>
        ensures proctype { option_map (λ k. k.proctype.now) result ≡ slice_get self.now.proctypes sort }
        ensures body { option_map (λ k. k.proctype.now.body) result ≡ body_of self.now sort }
        ensures is { IfSome result IsBody }
    {
        body_at(
            self.program(),
            self.graphs,
            self.statements.as_slice(),
            sort,
        )
    }

    /// The flat code of a statement of a proctype, by their numbers.
    #[inline(always)]
    pub fn code(&self, sort: usize, statement: usize) -> Option<&FlatCode>
        ensures { IfSome result (λ code. IsFlatOf self.now.globals (variables_at self.now sort)
            (basic_in (statements_at self.now sort) statement) code.now) }
    {
        code_at(self.flat.as_slice(), sort, statement)
    }

    /// The wide code of a statement of a proctype, by their numbers, if it has one.
    #[inline(always)]
    pub fn wide(&self, sort: usize, statement: usize) -> Option<&WideCode>
        ensures { IfSome result (λ code. IsWideCodeOf self.now.globals (variables_at self.now sort)
            (basic_in (statements_at self.now sort) statement) code.now) }
    {
        wide_at(self.flat.as_slice(), sort, statement)
    }

    /// A process of the proctype with this number before its first statement.
    pub fn begins(&self, sort: usize) -> Seat
        ensures sort { result.sort ≡ sort }
        ensures stands { stand_of self.now result ≡ begins_at self.now sort }
    {
        let node = start_of(self.graphs, sort);
        Seat { sort, node }
    }
}

/// Processes before their first statements.
pub(crate) fn seats_of(
    alloc: Global,
    played: &Played<'_, '_>,
    sorts: &[usize],
) -> Result<Vec<Seat>, AllocError>
    ensures stands { IfOk result (λ v. map (stand_of played.now) v.items ≡ map (begins_at played.now) sorts.now) }
    ensures sorts { IfOk result (λ v. sorts.now ≡ sorts_of v.items) }
{
    let mut seats = Vec::with_capacity(alloc, sorts.len())?;
    for sort in sorts {
        seats.push(played.begins(*sort))?;
    }
    Ok(seats)
}
