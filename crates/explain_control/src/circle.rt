//! The circle of gotos that the first position in the text from which settling never ends comes to.

ghost use Rattle.std.specs.Prelude.{◌≡◌, ◌⊎◌, ◌++◌, [], ◌∷◌, true, slice_index_or, IfOk, OnOk, MatchOption};
ghost use Rattle.pml_control.specs.declared.ends.Ending.TheVariants as ending;
ghost use Rattle.pml_control.specs.Ends.{next_of, ending_of, Circling, AreEnds};
ghost use Rattle.explain_control.specs.Blamed.{site_at, own_label, Returns, NoneCircles, IsRound};

use crate::site::{Label, PostMatter, PostSite};
use pml_control::ends::Ending;
use std::alloc::{AllocError, Global};

/// The post that a post leads to.
fn next_of(next: &[Option<usize>], post: usize) -> Option<usize>
    ensures { result ≡ next_of next.now post }
{
    match next.get(post) {
        Some(there) => *there,
        None => None,
    }
}

/// The greatest post from which settling never ends.
fn last_circling(ends: &[Ending]) -> Option<usize>
    ensures { MatchOption result (NoneCircles ends.now) (λ post. ending_of ends.now post ≡ ending.Circles) }
{
    let mut left = ends.len();
    while left > 0 {
        left -= 1;
        if let Ending::Circles = ends[left] {
            return Some(left);
        }
    }
    None
}

/// Whether a post was passed, or is none.
fn is_passed(passed: &[bool], post: usize) -> bool
    ensures { result ≡ slice_index_or passed.now post true }
{
    match passed.get(post) {
        Some(is) => *is,
        None => true,
    }
}

/// A post of the circle that a post comes to: the first that is come to again.
fn post_in_circle(alloc: Global, next: &[Option<usize>], from: usize) -> Result<usize, AllocError>
    requires { Circling next.now from }
    ensures { IfOk result (Returns next.now) }
{
    let mut passed = Vec::with_capacity(alloc, next.len())?;
    passed.resize(next.len(), false)?;
    let mut here = from;
    while let Some(there) = next_of(next, here) {
        if is_passed(&passed, there) {
            return Ok(there);
        }
        passed[there] = true;
        here = there;
    }
    Ok(here)
}

/// The label that a goto at a post names.
fn label_at(sites: &[PostSite], post: usize) -> Option<Label>
    ensures { MatchOption result (own_label (site_at sites.now post).matter ≡ []) (λ label. own_label (site_at sites.now post).matter ≡ label ∷ []) }
{
    match sites.get(post) {
        Some(site) => match site.matter {
            PostMatter::Goto(label) => Some(label),
            _ => None,
        },
        None => None,
    }
}

/// A post, where it is a goto and the other is none, or one that stands behind it in the text; else the other.
fn later_goto(sites: &[PostSite], post: usize, other: usize) -> usize
    ensures { (result ≡ post) ⊎ (result ≡ other) }
{
    if label_at(sites, post).is_some() && (post > other || label_at(sites, other).is_none()) {
        post
    } else {
        other
    }
}

/// The first goto in the text of the circle that a post stands in: the one with the greatest post.
fn first_goto(sites: &[PostSite], next: &[Option<usize>], from: usize) -> usize
    requires { Returns next.now from }
    ensures { Returns next.now result }
{
    let mut here = from;
    let mut most = from;
    for _ in next {
        most = later_goto(sites, here, most);
        match next_of(next, here) {
            Some(there) if there != from => here = there,
            _ => return most,
        }
    }
    most
}

/// The first goto of the circle that the first position in the text from which settling never ends comes to.
pub fn first_circling(
    alloc: Global,
    sites: &[PostSite],
    next: &[Option<usize>],
    ends: &[Ending],
) -> Result<Option<usize>, AllocError>
    requires { AreEnds next.now ends.now }
    ensures { IfOk result (λ post. MatchOption post (NoneCircles ends.now) (Returns next.now)) }
{
    let Some(start) = last_circling(ends) else {
        return Ok(None);
    };
    let post = post_in_circle(alloc, next, start)?;
    Ok(Some(first_goto(sites, next, post)))
}

/// Adds the label that a goto at a post names.
fn add_label(sites: &[PostSite], post: usize, labels: &mut Vec<Label>) -> Result<(), AllocError>
    ensures { OnOk result (labels.new.items ≡ labels.old.items ++ own_label (site_at sites.now post).matter) }
{
    if let Some(label) = label_at(sites, post) {
        labels.push(label)?;
    }
    Ok(())
}

/// The labels that the gotos of a circle name, from a post of it on.
pub fn labels_of(
    alloc: Global,
    sites: &[PostSite],
    next: &[Option<usize>],
    post: usize,
) -> Result<Vec<Label>, AllocError>
    requires { Returns next.now post }
    ensures { IfOk result (λ labels. IsRound sites.now next.now post labels.items) }
{
    let mut labels = Vec::new(alloc);
    let mut here = post;
    for _ in next {
        add_label(sites, here, &mut labels)?;
        let Some(there) = next_of(next, here) else {
            return Ok(labels);
        };
        if there == post {
            return Ok(labels);
        }
        here = there;
    }
    Ok(labels)
}
