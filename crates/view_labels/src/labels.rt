//! Labels, and the nodes that they lead to.

ghost use Rattle.view_text.specs.Written.{Stays};

use pml_control::ends::Ending;
use pml_control::findings::{Plan, examine};
use pml_token::token::Token;
use run_state::body::Body;
use run_state::live::Live;
use run_state::seat::seat_at;
use std::alloc::{AllocError, Global};
use view_text::writer::Writer;

// The node of a number where settling ends: so many numbers stand before it where settling ends too.
fn rank(next: &[Option<usize>], number: usize) -> usize {
    let mut count = 0usize;
    for step in &next[..number.min(next.len())] {
        if step.is_none() {
            count = count.saturating_add(1);
        }
    }
    count
}

// The node that a number leads to.
fn target(plan: &Plan, number: usize) -> Option<usize> {
    match plan.ends().get(number) {
        Some(Ending::Stays(end)) => Some(rank(plan.next(), *end)),
        _ => None,
    }
}

fn has(labels: &[Token<'_>], label: &[u8]) -> bool {
    for token in labels {
        if token.text() == label {
            return true;
        }
    }
    false
}

// Whether the statement with this number has a label.
fn is_labelled(body: &Body<'_, '_, '_>, number: usize, label: &[u8]) -> bool {
    match body.statements.get(number) {
        Some(stmt) => has(stmt.labels.as_slice(), label),
        None => false,
    }
}

/// The node that a label of the proctype with this number leads to.
pub fn node_of_label(
    alloc: Global,
    live: &Live<'_, '_>,
    sort: usize,
    label: &[u8],
) -> Result<Option<usize>, AllocError> {
    let Some(body) = live.body(sort) else {
        return Ok(None);
    };
    let plan = examine(alloc, &body.proctype.body)?;
    let mut found = None;
    for number in 0..plan.next().len() {
        if is_labelled(&body, number, label) {
            found = target(&plan, number);
        }
    }
    Ok(found)
}

// Whether a label is of the statement with this number and of one with a higher number, which is the same: a `do` has several.
fn is_again(body: &Body<'_, '_, '_>, number: usize, count: usize) -> bool {
    let Some(stmt) = body.statements.get(number) else {
        return true;
    };
    let [label, ..] = stmt.labels.as_slice() else {
        return true;
    };
    for other in number.saturating_add(1)..count {
        if is_labelled(body, other, label.text()) {
            return true;
        }
    }
    false
}

// Writes the labels of a statement: `, critical`.
fn add_all(labels: &[Token<'_>], out: &mut Writer)
    ensures { Stays out.old out.new }
{
    for token in labels {
        out.add(b", ");
        out.add(token.text());
    }
}

// Writes the labels of the statement with this number, where they lead to a node.
fn add_leading(body: &Body<'_, '_, '_>, plan: &Plan, number: usize, node: usize, out: &mut Writer)
    ensures { Stays out.old out.new }
{
    let Some(stmt) = body.statements.get(number) else {
        return;
    };
    let count = plan.next().len();
    if !is_again(body, number, count) && target(plan, number) == Some(node) {
        add_all(stmt.labels.as_slice(), out);
    }
}

// Writes the labels that lead to a node, in the order of the text, which numbers go against.
fn add_at(body: &Body<'_, '_, '_>, plan: &Plan, node: usize, out: &mut Writer)
    ensures { Stays out.old out.new }
{
    let count = plan.next().len();
    for behind in 0..count {
        add_leading(body, plan, count - behind - 1, node, out);
    }
}

/// Writes each label that leads to where a process stands: `, critical`.
pub fn add_labels(live: &Live<'_, '_>, process: usize, out: &mut Writer)
    ensures { Stays out.old out.new }
{
    let Some(seat) = seat_at(live.seats(), process) else {
        return;
    };
    let Some(body) = live.body(seat.sort) else {
        return;
    };
    match examine(out.allocator(), &body.proctype.body) {
        Ok(plan) => add_at(&body, &plan, seat.node, out),
        Err(_) => out.refuse(),
    }
}
