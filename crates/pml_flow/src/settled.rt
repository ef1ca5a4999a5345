//! Where settling ends, by numbers and by nodes.

ghost use Rattle.std.specs.Prelude.{◌≡◌, ◌-◌, IfOk, length};
ghost use Rattle.pml_flow.specs.Graph.{ranks_from, rank, node_by, targets, end_by, end_of, same_number, site_of, entry_by};

use crate::site::Site;
use pml_control::ends::Ending;
use std::alloc::{AllocError, Global};

/// The node that the last number leads to.
pub(crate) fn start_of(targets: &[usize]) -> usize
    ensures { result ≡ rank targets.now (length targets.now - 1) }
{
    rank(targets, targets.len().saturating_sub(1))
}

/// The node of each number where settling ends.
pub(crate) fn ranks(alloc: Global, next: &[Option<usize>]) -> Result<Vec<usize>, AllocError>
    ensures { IfOk result (λ v. v.items ≡ ranks_from 0 next.now) }
{
    let mut ranks = Vec::with_capacity(alloc, next.len())?;
    let mut count = 0;
    for step in next {
        ranks.push(count)?;
        if step.is_none() {
            count += 1;
        }
    }
    Ok(ranks)
}

/// The node of a number where settling ends, or 0.
pub(crate) fn rank(ranks: &[usize], number: usize) -> usize
    ensures { result ≡ rank ranks.now number }
{
    match ranks.get(number) {
        Some(rank) => *rank,
        None => 0,
    }
}

/// The node of an end.
pub(crate) fn node_by(ranks: &[usize], end: Ending) -> usize
    ensures { result ≡ node_by ranks.now end }
{
    match end {
        Ending::Stays(end) => rank(ranks, end),
        _ => 0,
    }
}

/// The node that settling comes to from each number.
pub(crate) fn targets(
    alloc: Global,
    ranks: &[usize],
    ends: &[Ending],
) -> Result<Vec<usize>, AllocError>
    ensures { IfOk result (λ v. v.items ≡ targets ranks.now ends.now) }
{
    let mut targets = Vec::with_capacity(alloc, ends.len())?;
    for end in ends {
        targets.push(node_by(ranks, *end))?;
    }
    Ok(targets)
}

/// The number of an end, or 0.
pub(crate) fn end_by(end: Ending) -> usize
    ensures { result ≡ end_by end }
{
    match end {
        Ending::Stays(end) => end,
        _ => 0,
    }
}

/// The number where settling ends from a number.
pub(crate) fn end_of(ends: &[Ending], number: usize) -> usize
    ensures { result ≡ end_of ends.now number }
{
    match ends.get(number) {
        Some(end) => end_by(*end),
        None => 0,
    }
}

/// Whether both are there and equal.
pub(crate) fn is_same(one: Option<usize>, other: Option<usize>) -> bool
    ensures { result ≡ same_number one other }
{
    match (one, other) {
        (Some(one), Some(other)) => one == other,
        _ => false,
    }
}

/// The outermost atomic that a number lies in.
pub(crate) fn atomic_at(sites: &[Site], number: usize) -> Option<usize>
    ensures { result ≡ (site_of sites.now number).atomic }
{
    match sites.get(number) {
        Some(site) => site.atomic(),
        None => None,
    }
}

/// Whether a number lies in a d_step.
pub(crate) fn is_inside(sites: &[Site], number: usize) -> bool
    ensures { result ≡ (site_of sites.now number).inside }
{
    match sites.get(number) {
        Some(site) => site.is_inside(),
        None => false,
    }
}

/// The node that a d_step begins with.
pub(crate) fn entry_by(targets: &[usize], entry: Option<usize>) -> Option<usize>
    ensures { result ≡ entry_by targets.now entry }
{
    match entry {
        Some(number) => Some(rank(targets, number)),
        None => None,
    }
}
