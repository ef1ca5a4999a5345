//! The numbered positions of a body, with the ways on from each.

ghost use Rattle.std.specs.Prelude.{◌≡◌, ℕ, ◌+◌, ◌<◌, ◌++◌, ◌∷◌, [], Bool, true, false, None, IfOk, OnOk, length, slice_set};
ghost use Rattle.pml_program.specs.declared.program.Basic.{DStep};
ghost use Rattle.pml_flow.specs.Ways.{plain_site, way, one, site, bare, outer, last_of, ways_in, ways_arm, ways_list, ways_arms, sites_in, sites_arm, sites_entered, sites_escape, sites_list, sites_arms, sites_of};

use crate::level::{Level, Way, add_copies, add_levels, copies, one};
use crate::site::Site;
use pml_program::program::{Basic, Seq, Stmt};
use std::alloc::{AllocError, Global};

/// The numbered positions of a body. What follows a statement has a number below the statement's.
pub fn sites(alloc: Global, body: &Seq<'_>) -> Result<Vec<Site>, AllocError>
    ensures { IfOk result (λ ss. ss.items ≡ sites_of body.now) }
{
    let mut sites = Vec::new(alloc);
    sites.push(Site::bare(alloc, None, false))?;
    add_steps(alloc, body.steps.as_slice(), false, None, &[], &mut sites)?;
    Ok(sites)
}

/// The number of the last position.
fn last(sites: &[Site]) -> usize
    requires { 0 < length sites.now }
    ensures { result ≡ last_of sites.now }
{
    sites.len() - 1
}

/// The way of a statement that is no d_step.
fn onward(statement: usize, target: usize) -> Way
    ensures { result ≡ way statement target }
{
    Way {
        statement,
        target,
        entry: None,
    }
}

/// The outer of two atomics.
fn outer(atomic: Option<usize>, end: usize) -> Option<usize>
    ensures { result ≡ outer atomic end }
{
    match atomic {
        Some(_) => atomic,
        None => Some(end),
    }
}

/// No numbers.
fn none(above: &[usize]) -> &[usize]
    ensures { result.now ≡ [] }
{
    &above[..0]
}

/// A number before others.
fn before(alloc: Global, number: usize, numbers: &[usize]) -> Result<Vec<usize>, AllocError>
    ensures { IfOk result (λ v. v.items ≡ number ∷ numbers.now) }
{
    let mut all = Vec::with_capacity(alloc, numbers.len().saturating_add(1))?;
    all.push(number)?;
    all.extend_from_slice(numbers)?;
    Ok(all)
}

/// A position with copies of these ways, and escapes above it.
fn own_site(
    alloc: Global,
    number: usize,
    inside: bool,
    atomic: Option<usize>,
    above: &[usize],
    ways: &[Level],
) -> Result<Site, AllocError>
    ensures { IfOk result (λ s. s ≡ site atomic inside (number ∷ above.now) ways.now) }
{
    let shows = before(alloc, number, above)?;
    Ok(Site::new(atomic, inside, shows, copies(alloc, ways)?))
}

fn set_site(sites: &mut Vec<Site>, number: usize, site: Site)
    requires { number < length sites.old.items }
    ensures { sites.new.items ≡ slice_set sites.old.items number site }
{
    sites[number] = site;
}

/// Adds the position of a statement where settling ends, with copies of these ways.
fn add_own(
    alloc: Global,
    inside: bool,
    atomic: Option<usize>,
    above: &[usize],
    ways: &[Level],
    sites: &mut Vec<Site>,
) -> Result<(), AllocError>
    requires { 0 < length sites.old.items }
    ensures { OnOk result (sites.new.items ≡ sites.old.items ++ site atomic inside ((last_of sites.old.items + 1) ∷ above.now) ways.now ∷ []) }
{
    let number = last(sites.as_slice()) + 1;
    let own = own_site(alloc, number, inside, atomic, above, ways)?;
    Ok(sites.push(own)?)
}

/// The position of a statement that gives no structure: settling ends there. Answers its way.
fn add_plain(
    alloc: Global,
    inside: bool,
    atomic: Option<usize>,
    above: &[usize],
    sites: &mut Vec<Site>,
) -> Result<Vec<Level>, AllocError>
    requires { 0 < length sites.old.items }
    ensures sites { OnOk result (sites.new.items ≡ sites.old.items ++ plain_site (last_of sites.old.items) atomic inside above.now ∷ []) }
    ensures ways { IfOk result (λ w. w.items ≡ one (way (last_of sites.old.items + 1) (last_of sites.old.items))) }
{
    let after = last(sites.as_slice());
    let ways = one(alloc, onward(after + 1, after))?;
    add_own(alloc, inside, atomic, above, ways.as_slice(), sites)?;
    Ok(ways)
}

/// The position of a goto or a break: settling goes on from there. Answers its way.
fn add_jump(
    alloc: Global,
    inside: bool,
    atomic: Option<usize>,
    sites: &mut Vec<Site>,
) -> Result<Vec<Level>, AllocError>
    requires { 0 < length sites.old.items }
    ensures sites { OnOk result (sites.new.items ≡ sites.old.items ++ bare atomic inside ∷ []) }
    ensures ways { IfOk result (λ w. w.items ≡ one (way (last_of sites.old.items + 1) (last_of sites.old.items + 1))) }
{
    let own = last(sites.as_slice()) + 1;
    sites.push(Site::bare(alloc, atomic, inside))?;
    Ok(one(alloc, onward(own, own))?)
}

/// The positions of statements, from the last to the first. Answers the ways of the first.
#[cycle(sites)]
fn add_steps(
    alloc: Global,
    stmts: &[Stmt<'_>],
    inside: bool,
    atomic: Option<usize>,
    above: &[usize],
    sites: &mut Vec<Site>,
) -> Result<Vec<Level>, AllocError>
    requires { 0 < length sites.old.items }
    ensures sites { OnOk result (sites.new.items ≡ sites.old.items ++ sites_list (last_of sites.old.items) inside atomic above.now stmts.now) }
    ensures ways { IfOk result (λ w. w.items ≡ ways_list (last_of sites.old.items) inside stmts.now) }
{
    let mut ways = Vec::new(alloc);
    let mut left = stmts.len();
    while left > 0 {
        left -= 1;
        ways = add_basic(alloc, &stmts[left].basic, inside, atomic, above, sites)?;
    }
    Ok(ways)
}

/// The positions of a statement under escapes. Answers its own ways.
#[cycle(sites)]
fn add_basic(
    alloc: Global,
    basic: &Basic<'_>,
    inside: bool,
    atomic: Option<usize>,
    above: &[usize],
    sites: &mut Vec<Site>,
) -> Result<Vec<Level>, AllocError>
    requires { 0 < length sites.old.items }
    ensures sites { OnOk result (sites.new.items ≡ sites.old.items ++ sites_in (last_of sites.old.items) inside atomic above.now basic.now) }
    ensures ways { IfOk result (λ w. w.items ≡ ways_in (last_of sites.old.items) inside basic.now) }
{
    let after = last(sites.as_slice());
    match basic {
        Basic::Plain(_) => Ok(add_plain(alloc, inside, atomic, above, sites)?),
        Basic::Goto(_) | Basic::Break => Ok(add_jump(alloc, inside, atomic, sites)?),
        Basic::If(options) => {
            let ways = add_options(alloc, options.as_slice(), inside, atomic, above, sites)?;
            add_own(alloc, inside, atomic, above, ways.as_slice(), sites)?;
            Ok(ways)
        }
        Basic::Do(options) => {
            sites.push(Site::bare(alloc, atomic, inside))?;
            let ways = add_options(alloc, options.as_slice(), inside, atomic, above, sites)?;
            let own = own_site(alloc, after + 1, inside, atomic, above, ways.as_slice())?;
            set_site(sites, after + 1, own);
            sites.push(Site::bare(alloc, atomic, inside))?;
            Ok(ways)
        }
        Basic::Block(body) => Ok(add_entered(body, inside, atomic, atomic, above, sites)?),
        Basic::Atomic(body) => {
            let within = outer(atomic, after + 1);
            Ok(add_entered(body, inside, atomic, within, above, sites)?)
        }
        Basic::DStep(body) => Ok(add_d_step(alloc, body, inside, atomic, above, sites)?),
        Basic::Unless(main, escape) => {
            let escaped = add_escape(alloc, escape, inside, atomic, above, sites)?;
            let over = before(alloc, after + 1, above)?;
            let mut ways = add_arm(alloc, main, inside, atomic, over.as_slice(), sites)?;
            sites.push(Site::bare(alloc, atomic, inside))?;
            add_copies(alloc, &mut ways, escaped.as_slice())?;
            Ok(ways)
        }
    }
}

/// The positions of a statement that is entered at its arm, which lies in the atomic `within`. Answers the arm's ways.
#[cycle(sites)]
fn add_entered(
    arm: &Seq<'_>,
    inside: bool,
    atomic: Option<usize>,
    within: Option<usize>,
    above: &[usize],
    sites: &mut Vec<Site>,
) -> Result<Vec<Level>, AllocError>
    requires { 0 < length sites.old.items }
    ensures sites { OnOk result (sites.new.items ≡ sites.old.items ++ sites_entered (last_of sites.old.items) inside atomic within above.now arm.now) }
    ensures ways { IfOk result (λ w. w.items ≡ ways_arm (last_of sites.old.items) inside arm.now) }
{
    let alloc = *sites.allocator();
    let ways = add_arm(alloc, arm, inside, within, above, sites)?;
    sites.push(Site::bare(alloc, atomic, inside))?;
    Ok(ways)
}

/// The positions of an escape, whose end has the ways of its first statement. Answers these ways.
#[cycle(sites)]
fn add_escape(
    alloc: Global,
    escape: &Seq<'_>,
    inside: bool,
    atomic: Option<usize>,
    above: &[usize],
    sites: &mut Vec<Site>,
) -> Result<Vec<Level>, AllocError>
    requires { 0 < length sites.old.items }
    ensures sites { OnOk result (sites.new.items ≡ sites.old.items ++ sites_escape (last_of sites.old.items) inside atomic above.now escape.now) }
    ensures ways { IfOk result (λ w. w.items ≡ ways_arm (last_of sites.old.items) inside escape.now) }
{
    let end = last(sites.as_slice()) + 1;
    let ways = add_arm(alloc, escape, inside, atomic, above, sites)?;
    let own = own_site(alloc, end, inside, atomic, none(above), ways.as_slice())?;
    set_site(sites, end, own);
    Ok(ways)
}

/// The positions of a d_step, which is entered from inside one alone.
#[cycle(sites)]
fn add_d_step(
    alloc: Global,
    body: &Seq<'_>,
    inside: bool,
    atomic: Option<usize>,
    above: &[usize],
    sites: &mut Vec<Site>,
) -> Result<Vec<Level>, AllocError>
    requires { 0 < length sites.old.items }
    ensures sites { OnOk result (sites.new.items ≡ sites.old.items ++ sites_in (last_of sites.old.items) inside atomic above.now (DStep body.now)) }
    ensures ways { IfOk result (λ w. w.items ≡ ways_in (last_of sites.old.items) inside (DStep body.now)) }
{
    let after = last(sites.as_slice());
    let entered = add_arm(alloc, body, true, atomic, none(above), sites)?;
    if inside {
        sites.push(Site::bare(alloc, atomic, inside))?;
        return Ok(entered);
    }
    let first = last(sites.as_slice());
    let ways = one(
        alloc,
        Way {
            statement: first + 1,
            target: after,
            entry: Some(first),
        },
    )?;
    add_own(alloc, inside, atomic, above, ways.as_slice(), sites)?;
    Ok(ways)
}

/// The positions of options, from the last to the first. Answers the ways of all.
#[cycle(sites)]
fn add_options(
    alloc: Global,
    options: &[Seq<'_>],
    inside: bool,
    atomic: Option<usize>,
    above: &[usize],
    sites: &mut Vec<Site>,
) -> Result<Vec<Level>, AllocError>
    requires { 0 < length sites.old.items }
    ensures sites { OnOk result (sites.new.items ≡ sites.old.items ++ sites_arms (last_of sites.old.items) inside atomic above.now options.now) }
    ensures ways { IfOk result (λ w. w.items ≡ ways_arms (last_of sites.old.items) inside options.now) }
{
    let mut ways = Vec::new(alloc);
    let mut left = options.len();
    while left > 0 {
        left -= 1;
        let more = add_arm(alloc, &options[left], inside, atomic, above, sites)?;
        add_levels(alloc, &mut ways, more.as_slice())?;
    }
    Ok(ways)
}

/// The positions of an arm. Answers the ways of its first statement.
#[cycle(sites)]
fn add_arm(
    alloc: Global,
    seq: &Seq<'_>,
    inside: bool,
    atomic: Option<usize>,
    above: &[usize],
    sites: &mut Vec<Site>,
) -> Result<Vec<Level>, AllocError>
    requires { 0 < length sites.old.items }
    ensures sites { OnOk result (sites.new.items ≡ sites.old.items ++ sites_arm (last_of sites.old.items) inside atomic above.now seq.now) }
    ensures ways { IfOk result (λ w. w.items ≡ ways_arm (last_of sites.old.items) inside seq.now) }
{
    sites.push(Site::bare(alloc, atomic, inside))?;
    Ok(add_steps(alloc, seq.steps.as_slice(), inside, atomic, above, sites)?)
}
