//! The first d_step of a body, in the order of the text, that has a bad first point.

ghost use Rattle.std.specs.Prelude.{◌≡◌, ◌≤◌, ◌<◌, ◌+◌, true, false, MatchOption, ℕ, length, IfSome};
ghost use Rattle.explain_control.specs.Blamed.{site_at, is_else, end_of, bad_end, is_bad, IsBadStepAt, IsFirstBadStep, NoneIsBad, is_leap};

use crate::site::{PostMatter, PostSite};
use pml_control::ends::Ending;

/// A d_step with a bad first point: its post, that of its first statement, and the one where settling ends from there.
#[derive(Clone, Copy)]
pub struct BadStep {
    pub step: usize,
    pub first: usize,
    pub point: usize,
}

/// What stands at a post, the end of an arm where there is none.
fn matter_at(sites: &[PostSite], post: usize) -> PostMatter
    ensures { result ≡ (site_at sites.now post).matter }
{
    match sites.get(post) {
        Some(site) => site.matter,
        None => PostMatter::Bare,
    }
}

/// Whether a post is an `else`.
pub fn is_else(sites: &[PostSite], post: usize) -> bool
    ensures { result ≡ is_else (site_at sites.now post).matter }
{
    matches!(matter_at(sites, post), PostMatter::Else)
}

/// Whether settling from the first statement of a d_step with these posts ends where it may not.
fn bad_end(sites: &[PostSite], least: usize, first: usize, end: usize) -> bool
    ensures { result ≡ bad_end sites.now least first end }
{
    end < least || first < end || is_else(sites, end)
}

/// The post where settling ends from a post, if it ends.
fn end_of(ends: &[Ending], post: usize) -> Option<usize>
    ensures { result ≡ end_of ends.now post }
{
    match ends.get(post) {
        Some(Ending::Stays(end)) => Some(*end),
        _ => None,
    }
}

/// The d_step at a post, if it is one with a bad first point.
fn bad_at(sites: &[PostSite], ends: &[Ending], step: usize) -> Option<BadStep>
    ensures { MatchOption result (is_bad sites.now ends.now step ≡ false)
        (IsBadStepAt sites.now ends.now step) }
{
    let PostMatter::DStep(least, first) = matter_at(sites, step) else {
        return None;
    };
    let Some(point) = end_of(ends, first) else {
        return None;
    };
    if bad_end(sites, least, first, point) {
        Some(BadStep { step, first, point })
    } else {
        None
    }
}

/// The first d_step in the text with a bad first point: the one with the greatest post. `ends` are the ends of the chains of all posts.
pub fn first_bad(sites: &[PostSite], ends: &[Ending]) -> Option<BadStep>
    ensures { MatchOption result (NoneIsBad sites.now ends.now) (IsFirstBadStep sites.now ends.now) }
{
    let mut left = sites.len();
    while left > 0 {
        left -= 1;
        let bad = bad_at(sites, ends, left);
        if bad.is_some() {
            return bad;
        }
    }
    None
}

/// Whether a post is a goto or a `break`.
fn is_leap(sites: &[PostSite], post: usize) -> bool
    ensures { result ≡ is_leap (site_at sites.now post).matter }
{
    matches!(
        matter_at(sites, post),
        PostMatter::Goto(_) | PostMatter::Break
    )
}

/// The first goto or `break` that settling comes to from a post.
pub fn first_leap(sites: &[PostSite], next: &[Option<usize>], from: usize) -> Option<usize>
    ensures { IfSome result (λ post. is_leap (site_at sites.now post).matter ≡ true) }
{
    let mut here = from;
    for _ in next {
        if is_leap(sites, here) {
            return Some(here);
        }
        match next.get(here) {
            Some(Some(there)) => here = *there,
            _ => return None,
        }
    }
    None
}
