//! What is told of a body.

ghost use Rattle.std.specs.Prelude.{true, ◌≡◌, ◌++◌, IfOk, OnOk, MatchOption};
ghost use Rattle.explain_control.specs.Sites.{sites_of};
ghost use Rattle.explain_control.specs.Blamed.{site_at, is_else, breaks_in, NoStepIsBad, IsBlamedStep, NoCircle, IsBlamedCircle};

use crate::circle::{first_circling, labels_of};
use crate::first_point::{BadStep, first_bad, first_leap, is_else};
use crate::site::{Label, PostMatter, PostSite};
use crate::walk::sites;
use pml_control::findings::examine;
use pml_program::program::Seq;
use std::alloc::{AllocError, Global};

/// A d_step with a bad first point.
#[derive(Clone, Copy)]
pub struct BadFirstPoint {
    /// How many bytes of the text stand before the d_step.
    pub step: Option<u32>,
    /// How many stand before the `else` that it begins with, or before the `goto` or `break` that leads out of it.
    pub point: Option<u32>,
    /// Whether it begins with an `else`.
    pub is_else: bool,
}

/// A circle of gotos.
#[derive(Drop)]
pub struct Circle {
    /// How many bytes of the text stand before its first goto.
    pub goto: Option<u32>,
    /// The labels that its gotos name, from that one on.
    pub labels: Vec<Label>,
}

/// How many bytes of the text stand before the statement at a post.
fn offset_at(sites: &[PostSite], post: usize) -> Option<u32>
    ensures { result ≡ (site_at sites.now post).offset }
{
    match sites.get(post) {
        Some(site) => site.offset,
        None => None,
    }
}

/// Adds how many bytes stand before each `break` of a body, in the order of the text. That of a `for` or a `select` has those of its word.
pub fn breaks_of(
    alloc: Global,
    body: &Seq<'_>,
    breaks: &mut Vec<Option<u32>>,
) -> Result<(), AllocError>
    ensures { OnOk result (breaks.new.items ≡ breaks.old.items ++ breaks_in (sites_of body.now)) }
{
    let sites = sites(alloc, body)?;
    add_breaks(&sites, breaks)
}

fn add_breaks(sites: &[PostSite], breaks: &mut Vec<Option<u32>>) -> Result<(), AllocError>
    ensures { OnOk result (breaks.new.items ≡ breaks.old.items ++ breaks_in sites.now) }
{
    let mut left = sites.len();
    while left > 0 {
        left -= 1;
        let site = sites[left];
        if let PostMatter::Break = site.matter {
            breaks.push(site.offset)?;
        }
    }
    Ok(())
}

/// The `else`, or the goto or `break` that leads out.
fn offender(sites: &[PostSite], next: &[Option<usize>], bad: BadStep) -> Option<u32>
    ensures { is_else (site_at sites.now bad.point).matter ≡ true → result ≡ (site_at sites.now bad.point).offset }
{
    if is_else(sites, bad.point) {
        return offset_at(sites, bad.point);
    }
    match first_leap(sites, next, bad.first) {
        Some(leap) => offset_at(sites, leap),
        None => None,
    }
}

/// The first d_step of a body with a bad first point, if there is one.
pub fn first_point_of(alloc: Global, body: &Seq<'_>) -> Result<Option<BadFirstPoint>, AllocError>
    ensures { IfOk result (λ o. MatchOption o (NoStepIsBad body.now) (λ bad. IsBlamedStep body.now bad)) }
{
    let plan = examine(alloc, body)?;
    let sites = sites(alloc, body)?;
    let Some(bad) = first_bad(&sites, plan.ends()) else {
        return Ok(None);
    };
    Ok(Some(BadFirstPoint {
        step: offset_at(&sites, bad.step),
        point: offender(&sites, plan.next(), bad),
        is_else: is_else(&sites, bad.point),
    }))
}

/// The circle that the first position of a body from which settling never ends comes to.
pub fn circle_of(alloc: Global, body: &Seq<'_>) -> Result<Option<Circle>, AllocError>
    ensures { IfOk result (λ o. MatchOption o (NoCircle body.now) (λ c. IsBlamedCircle body.now c)) }
{
    let plan = examine(alloc, body)?;
    let sites = sites(alloc, body)?;
    let Some(goto) = first_circling(alloc, &sites, plan.next(), plan.ends())? else {
        return Ok(None);
    };
    Ok(Some(Circle {
        goto: offset_at(&sites, goto),
        labels: labels_of(alloc, &sites, plan.next(), goto)?,
    }))
}
