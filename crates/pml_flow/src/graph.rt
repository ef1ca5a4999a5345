//! The control graph of a proctype.

ghost use Rattle.std.specs.Prelude.{◌≡◌, ℕ, ◌<◌, ◌-◌, ◌++◌, ◌∷◌, [], false, IfOk, IfSome, OnOk, length, map, replicate, slice_get, slice_index_or};
ghost use Rattle.std.specs.Option.{option_copied};
ghost use Rattle.promela_process.specs.Control.{SettlesEverywhere};
ghost use Rattle.pml_control.specs.Plan.{IsPlan};
ghost use Rattle.pml_flow.specs.Arms.{all_of, bounds_from};
ghost use Rattle.pml_flow.specs.Composed.{text_at, offer_line_at};
ghost use Rattle.pml_flow.specs.Only.{only_spans};
ghost use Rattle.pml_flow.specs.Graph.{kept, ranks_from, rank, node_by, targets, end_by, end_of, same_number, site_of, entry_by, edge, edges_level, all_edges, levels_by, all_levels, node_of, node_at, levels_of, atomic_in, is_end_at, flag_edges, IsGraph};

use crate::arms::{arm_of, begin_of, bound};
use crate::edge::Edge;
use crate::flags::{flag, valid_ends};
use crate::level::{Level, Way};
use crate::lines::kept_lines;
use crate::only::{Span, only_span, spanned};
use crate::settled::{
    atomic_at, end_of, entry_by, is_inside, is_same, rank, ranks, start_of, targets,
};
use crate::site::Site;
use crate::sites::sites;
use crate::statements::all_statements;
use crate::text::{Texts, all_texts};
use pml_control::ends::Ending;
use pml_control::findings::Plan;
use pml_program::program::Proctype;
use std::alloc::{AllocError, Global};
use std::marker::Model;

/// Where settling ends: the levels of offers there, and the outermost atomic that it lies in.
#[derive(Drop)]
pub struct Node {
    levels: Vec<usize>,
    atomic: Option<usize>,
}

impl Model for Node {
    ghost use Rattle.pml_flow.specs.Graph.{Node};

    ghost Value = { Node };

    ghost view = { λ n. record { levels = n.levels.items; atomic = n.atomic } };
}

/// What edges are made from, by the numbers of positions: the node and the number where settling ends from each, and the sites.
#[derive(Drop)]
struct Tables<'t> {
    targets: &'t [usize],
    ends: &'t [Ending],
    sites: &'t [Site],
}

impl<'t> Model for Tables<'t> {
    ghost use Rattle.pml_flow.specs.Graph.{Tables};

    ghost Value = { Tables };

    ghost view = { λ t. record { targets = t.targets.now; ends = t.ends.now; sites = t.sites.now } };
}

/// The edges of all positions, level by level: where each level ends among them, and where those of each number end among the levels.
#[derive(Drop)]
struct AllEdges {
    edges: Vec<Edge>,
    bounds: Vec<usize>,
    numbers: Vec<usize>,
}

impl Model for AllEdges {
    ghost use Rattle.pml_flow.specs.Graph.{AllEdges};

    ghost Value = { AllEdges };

    ghost view = { λ a. record { edges = a.edges.items; bounds = a.bounds.items; numbers = a.numbers.items } };
}

/// The control graph of a proctype. Nodes under one escape have its edges in common.
#[derive(Drop)]
pub struct Graph {
    start: usize,
    nodes: Vec<Node>,
    edges: Vec<Edge>,
    bounds: Vec<usize>,
    only: Vec<Option<Span>>,
    lines: Vec<u32>,
    ends: Vec<bool>,
    texts: Texts,
}

impl Model for Graph {
    ghost use Rattle.std.specs.Prelude.{◌≡◌};
    ghost use Rattle.pml_flow.specs.Graph.{Graph};
    ghost use Rattle.pml_flow.specs.Only.{only_spans};

    ghost Value = { Graph };

    ghost view = { λ g. record { start = g.start; nodes = g.nodes.items; edges = g.edges.items; bounds = g.bounds.items; lines = g.lines.items; ends = g.ends.items; texts = g.texts } };

    ghost invariant = { λ g. g.only.items ≡ only_spans g.bounds.items g.nodes.items };
}

impl Graph {
    /// The graph of a proctype, by its plan. Takes time and memory in proportion to the body and to the edges.
    pub fn build(alloc: Global, proctype: &Proctype<'_>, plan: &Plan) -> Result<Graph, AllocError>
        requires settles { SettlesEverywhere proctype.now.body }
        requires plan { IsPlan proctype.now.body plan.now }
        ensures { IfOk result (λ g. IsGraph proctype.now.body proctype.now.end.line g) }
    {
        let next = plan.next();
        let ranks = ranks(alloc, next)?;
        let targets = targets(alloc, ranks.as_slice(), plan.ends())?;
        drop(ranks);
        let sites = sites(alloc, &proctype.body)?;
        let tables = Tables {
            targets: targets.as_slice(),
            ends: plan.ends(),
            sites: sites.as_slice(),
        };
        let all = all_edges(alloc, &tables)?;
        let nodes = kept_nodes(alloc, all.numbers.as_slice(), sites.as_slice(), next)?;
        drop(sites);
        let start = start_of(targets.as_slice());
        let statements = all_statements(alloc, &proctype.body)?;
        let lines = kept_lines(alloc, &statements, next, proctype.end.line())?;
        let ends = valid_ends(alloc, nodes.len(), &statements, targets.as_slice())?;
        let offered = offered(alloc, next.len(), all.edges.as_slice())?;
        let texts = all_texts(alloc, &statements, offered.as_slice())?;
        let AllEdges { edges, bounds, .. } = all;
        let only = only_spans(alloc, bounds.as_slice(), nodes.as_slice())?;
        Ok(Graph {
            start,
            nodes,
            edges,
            bounds,
            only,
            lines,
            ends,
            texts,
        })
    }

    /// The first node.
    pub fn start(&self) -> usize
        ensures { result ≡ self.now.start }
    {
        self.start
    }

    /// How many nodes there are.
    pub fn node_count(&self) -> usize
        ensures { result ≡ length self.now.nodes }
    {
        self.nodes.len()
    }

    /// How many levels of offers a node has.
    pub fn level_count(&self, node: usize) -> usize
        requires { node < length self.now.nodes }
        ensures { result ≡ length (levels_of self.now (slice_get self.now.nodes node)) }
    {
        self.nodes[node].levels.len()
    }

    /// The offers of one level of a node, in text order; none where there is no such level.
    pub fn level(&self, node: usize, level: usize) -> &[Edge]
        requires { node < length self.now.nodes }
        ensures { result.now ≡ slice_index_or (levels_of self.now (slice_get self.now.nodes node)) level [] }
    {
        let levels = self.nodes[node].levels.as_slice();
        arm_of(self.edges.as_slice(), self.bounds.as_slice(), levels, level)
    }

    /// The offers of a node's one level, where it has just one, as most nodes have: they are found faster so than by `level`.
    #[inline(always)]
    pub fn only_level(&self, node: usize) -> Option<&[Edge]>
        requires { node < length self.now.nodes }
        ensures { IfSome result (λ es. levels_of self.now (slice_get self.now.nodes node) ≡ es.now ∷ []) }
    {
        let span = self.only[node]?;
        Some(spanned(self.edges.as_slice(), span))
    }

    /// The text of a statement that an edge offers, `line L [TEXT]`, by its number.
    pub fn text(&self, statement: usize) -> &[u8]
        ensures { result.now ≡ text_at self.now.texts statement }
    {
        self.texts.get(statement)
    }

    /// The line in this text.
    pub fn offer_line(&self, statement: usize) -> u32
        ensures { result ≡ offer_line_at self.now.texts statement }
    {
        self.texts.line(statement)
    }

    /// The line of what stands first at a node: that of its first token, or of the closing brace.
    pub fn line(&self, node: usize) -> u32
        ensures { result ≡ slice_index_or self.now.lines node 0 }
    {
        match self.lines.get(node) {
            Some(line) => *line,
            None => 0,
        }
    }

    /// Whether a node is a valid end point.
    pub fn is_valid_end(&self, node: usize) -> bool
        ensures { result ≡ is_end_at self.now.ends node }
    {
        match self.ends.get(node) {
            Some(is_end) => *is_end,
            None => false,
        }
    }

    /// The outermost atomic that a node lies in, by a number.
    pub fn atomic(&self, node: usize) -> Option<usize>
        requires { node < length self.now.nodes }
        ensures { result ≡ atomic_in (slice_get self.now.nodes node) }
    {
        self.nodes[node].atomic
    }
}

/// The edge of a way.
fn edge(tables: &Tables<'_>, way: Way) -> Edge
    ensures { result ≡ edge tables.now way }
{
    let end = end_of(tables.ends, way.target);
    Edge {
        statement: way.statement,
        target: rank(tables.targets, way.target),
        keeps: is_same(
            atomic_at(tables.sites, way.statement),
            atomic_at(tables.sites, end),
        ),
        stays: is_inside(tables.sites, end),
        entry: entry_by(tables.targets, way.entry),
    }
}

/// Adds the edges of a level, which has the last way in text order first.
fn add_edges(tables: &Tables<'_>, ways: &[Way], edges: &mut Vec<Edge>) -> Result<(), AllocError>
    ensures { OnOk result (edges.new.items ≡ edges.old.items ++ edges_level tables.now ways.now) }
{
    let mut left = ways.len();
    while left > 0 {
        left -= 1;
        edges.push(edge(tables, ways[left]))?;
    }
    Ok(())
}

/// Adds the edges of levels, and where each level ends.
fn add_levels(
    tables: &Tables<'_>,
    ways: &[Level],
    edges: &mut Vec<Edge>,
    bounds: &mut Vec<usize>,
) -> Result<(), AllocError>
    ensures edges { OnOk result (edges.new.items ≡ edges.old.items ++ all_of (map (edges_level tables.now) ways.now)) }
    ensures bounds { OnOk result (bounds.new.items ≡ bounds.old.items ++ bounds_from (length edges.old.items) (map (edges_level tables.now) ways.now)) }
{
    for level in ways {
        add_edges(tables, level.ways(), edges)?;
        bounds.push(edges.len())?;
    }
    Ok(())
}

/// The edges of all positions.
fn all_edges(alloc: Global, tables: &Tables<'_>) -> Result<AllEdges, AllocError>
    ensures { IfOk result (λ a. a ≡ all_edges tables.now) }
{
    let mut edges = Vec::new(alloc);
    let mut bounds = Vec::new(alloc);
    let mut numbers = Vec::new(alloc);
    for site in tables.sites {
        add_levels(tables, site.ways(), &mut edges, &mut bounds)?;
        numbers.push(bounds.len())?;
    }
    Ok(AllEdges {
        edges,
        bounds,
        numbers,
    })
}

/// Adds the levels of a number.
fn add_numbers(numbers: &[usize], number: usize, levels: &mut Vec<usize>) -> Result<(), AllocError>
    ensures { OnOk result (levels.new.items ≡ levels.old.items ++ levels_by numbers.now number) }
{
    for level in begin_of(numbers, number)..bound(numbers, number) {
        levels.push(level)?;
    }
    Ok(())
}

/// The node of a position: the levels that it shows, its own and those of the escapes above it.
fn node_of(alloc: Global, numbers: &[usize], site: &Site) -> Result<Node, AllocError>
    ensures { IfOk result (λ n. n ≡ node_of numbers.now site.now) }
{
    let mut levels = Vec::with_capacity(alloc, site.shows().len())?;
    for number in site.shows() {
        add_numbers(numbers, *number, &mut levels)?;
    }
    Ok(Node {
        levels,
        atomic: site.atomic(),
    })
}

/// Adds the node of a number, where settling ends there.
fn add_node(
    alloc: Global,
    numbers: &[usize],
    step: Option<usize>,
    site: Option<&Site>,
    nodes: &mut Vec<Node>,
) -> Result<(), AllocError>
    ensures { OnOk result (nodes.new.items ≡ nodes.old.items ++ node_at numbers.now step (option_copied site.entry)) }
{
    match step {
        Some(_) => Ok(()),
        None => match site {
            Some(site) => Ok(nodes.push(node_of(alloc, numbers, site)?)?),
            None => Ok(()),
        },
    }
}

fn site_at(sites: &[Site], number: usize) -> Option<&Site>
    ensures { option_copied result ≡ slice_get sites.now number }
{
    sites.get(number)
}

/// A node for each number where settling ends.
fn kept_nodes(
    alloc: Global,
    numbers: &[usize],
    sites: &[Site],
    next: &[Option<usize>],
) -> Result<Vec<Node>, AllocError>
    ensures { IfOk result (λ v. v.items ≡ map (node_of numbers.now) (kept next.now sites.now)) }
{
    let mut nodes = Vec::new(alloc);
    for (number, step) in next.iter().enumerate() {
        add_node(alloc, numbers, *step, site_at(sites, number), &mut nodes)?;
    }
    Ok(nodes)
}

/// Where the one level of each node stands that has just one.
fn only_spans(
    alloc: Global,
    bounds: &[usize],
    nodes: &[Node],
) -> Result<Vec<Option<Span>>, AllocError>
    ensures { IfOk result (λ v. v.items ≡ only_spans bounds.now nodes.now) }
{
    let mut spans = Vec::with_capacity(alloc, nodes.len())?;
    for node in nodes {
        spans.push(only_span(bounds, node.levels.as_slice()))?;
    }
    Ok(spans)
}

/// Flags the statements that edges offer.
fn flag_edges(flags: &mut Vec<bool>, edges: &[Edge])
    ensures { flags.new.items ≡ flag_edges flags.old.items edges.now }
{
    for edge in edges {
        flag(flags, edge.statement);
    }
}

/// Which statements edges offer, of so many numbers.
fn offered(alloc: Global, count: usize, edges: &[Edge]) -> Result<Vec<bool>, AllocError>
    ensures { IfOk result (λ v. v.items ≡ flag_edges (replicate count false) edges.now) }
{
    let mut flags = Vec::new(alloc);
    flags.resize(count, false)?;
    flag_edges(&mut flags, edges);
    Ok(flags)
}
