//! What stands at each post of a body, in the order of the posts' numbers.

ghost use Rattle.std.specs.Prelude.{◌≡◌, ℕ, ◌<◌, ◌++◌, IfOk, OnOk, length};
ghost use Rattle.explain_control.specs.Sites.{bare, goto, first_line, matter_of, last_of, sites_in, sites_closed, sites_arm, sites_list, sites_arms, sites_of};

use crate::site::{Label, PostMatter, PostSite};
use pml_program::program::{Action, Basic, Seq, Stmt};
use pml_token::token::Token;
use std::alloc::{AllocError, Global};

/// What stands at the posts of a body.
pub fn sites(alloc: Global, body: &Seq<'_>) -> Result<Vec<PostSite>, AllocError>
    ensures { IfOk result (λ sites. sites.items ≡ sites_of body.now) }
{
    let mut sites = Vec::new(alloc);
    sites.push(bare())?;
    add_steps(body.steps.as_slice(), &mut sites)?;
    Ok(sites)
}

/// The end of an arm.
fn bare() -> PostSite
    ensures { result ≡ bare }
{
    PostSite {
        offset: None,
        matter: PostMatter::Bare,
    }
}

/// The number of the last post.
fn last(sites: &[PostSite]) -> usize
    requires { 0 < length sites.now }
    ensures { result ≡ last_of sites.now }
{
    sites.len() - 1
}

/// How many bytes stand before the first of these tokens.
fn first_line(tokens: &[Token<'_>]) -> Option<u32>
    ensures { result ≡ first_line tokens.now }
{
    match tokens {
        [first, ..] => Some(first.line()),
        [] => None,
    }
}

/// What a plain statement is.
fn matter_of(action: &Action<'_>) -> PostMatter
    ensures { result ≡ matter_of action.now }
{
    match action {
        Action::Else => PostMatter::Else,
        _ => PostMatter::Other,
    }
}

/// The label that a goto names.
fn label_of(label: &Token<'_>) -> PostMatter
    ensures { result ≡ goto label.now }
{
    PostMatter::Goto(Label {
        offset: label.line(),
        length: label.text().len(),
    })
}

/// What stands at the posts of statements, from the last to the first.
#[cycle(sites)]
fn add_steps(stmts: &[Stmt<'_>], sites: &mut Vec<PostSite>) -> Result<(), AllocError>
    requires { 0 < length sites.old.items }
    ensures { OnOk result (sites.new.items ≡ sites.old.items ++ sites_list (last_of sites.old.items) stmts.now) }
{
    let mut left = stmts.len();
    while left > 0 {
        left -= 1;
        let stmt = &stmts[left];
        let offset = first_line(stmt.tokens.as_slice());
        add_basic(offset, &stmt.basic, sites)?;
    }
    Ok(())
}

/// The same of a statement whose first token has so many bytes before it.
#[cycle(sites)]
fn add_basic(
    offset: Option<u32>,
    basic: &Basic<'_>,
    sites: &mut Vec<PostSite>,
) -> Result<(), AllocError>
    requires { 0 < length sites.old.items }
    ensures { OnOk result (sites.new.items ≡ sites.old.items ++ sites_in offset (last_of sites.old.items) basic.now) }
{
    let after = last(sites.as_slice());
    match basic {
        Basic::Plain(action) => {
            let matter = matter_of(action);
            Ok(sites.push(PostSite { offset, matter })?)
        }
        Basic::Goto(label) => {
            let matter = label_of(label);
            Ok(sites.push(PostSite { offset, matter })?)
        }
        Basic::Break => Ok(sites.push(PostSite {
            offset,
            matter: PostMatter::Break,
        })?),
        Basic::If(options) => {
            add_options(options.as_slice(), sites)?;
            Ok(sites.push(PostSite {
                offset,
                matter: PostMatter::Other,
            })?)
        }
        Basic::Do(options) => {
            sites.push(bare())?;
            add_options(options.as_slice(), sites)?;
            Ok(sites.push(PostSite {
                offset,
                matter: PostMatter::Other,
            })?)
        }
        Basic::Block(body) => Ok(add_entered(offset, body, sites)?),
        Basic::Atomic(body) => Ok(add_entered(offset, body, sites)?),
        Basic::DStep(body) => {
            add_arm(body, sites)?;
            let matter = PostMatter::DStep(after + 1, last(sites.as_slice()));
            Ok(sites.push(PostSite { offset, matter })?)
        }
        Basic::Unless(main, escape) => {
            add_arm(escape, sites)?;
            Ok(add_entered(offset, main, sites)?)
        }
    }
}

/// The same of a statement that is entered at the first statement of its arm.
#[cycle(sites)]
fn add_entered(
    offset: Option<u32>,
    arm: &Seq<'_>,
    sites: &mut Vec<PostSite>,
) -> Result<(), AllocError>
    requires { 0 < length sites.old.items }
    ensures { OnOk result (sites.new.items ≡ sites.old.items ++ sites_closed offset (last_of sites.old.items) arm.now) }
{
    add_arm(arm, sites)?;
    Ok(sites.push(PostSite {
        offset,
        matter: PostMatter::Other,
    })?)
}

/// The same of options, from the last to the first.
#[cycle(sites)]
fn add_options(options: &[Seq<'_>], sites: &mut Vec<PostSite>) -> Result<(), AllocError>
    requires { 0 < length sites.old.items }
    ensures { OnOk result (sites.new.items ≡ sites.old.items ++ sites_arms (last_of sites.old.items) options.now) }
{
    let mut left = options.len();
    while left > 0 {
        left -= 1;
        add_arm(&options[left], sites)?;
    }
    Ok(())
}

/// The same of an arm.
#[cycle(sites)]
fn add_arm(seq: &Seq<'_>, sites: &mut Vec<PostSite>) -> Result<(), AllocError>
    requires { 0 < length sites.old.items }
    ensures { OnOk result (sites.new.items ≡ sites.old.items ++ sites_arm (last_of sites.old.items) seq.now) }
{
    sites.push(bare())?;
    Ok(add_steps(seq.steps.as_slice(), sites)?)
}
