//! The positions of a body, numbered from its end, and where settling goes on from each.

ghost use Rattle.std.specs.Prelude.{◌≡◌, ℕ, ◌<◌, ◌++◌, ◌∷◌, [], IfOk, OnOk, length};
ghost use Rattle.pml_control.specs.Graph.{posts_closed, last_of, posts_in, posts_arm, posts_list, posts_arms, posts_of};

use crate::post::Post;
use pml_program::program::{Action, Basic, Seq, Stmt};
use pml_token::token::Token;
use std::alloc::{AllocError, Global};

/// The posts of a body. What follows a statement has a number below the statement's, and a label's post is the last that has it.
pub fn posts<'t>(alloc: Global, body: &Seq<'t>) -> Result<Vec<Post<'t>>, AllocError>
    ensures { IfOk result (λ ns. ns.items ≡ posts_of body.now) }
{
    let mut posts = Vec::new(alloc);
    posts.push(Post::bare_stay(alloc))?;
    add_steps(alloc, body.steps.as_slice(), 0, false, &mut posts)?;
    Ok(posts)
}

/// The number of the last post.
fn last(posts: &[Post]) -> usize
    requires { 0 < length posts.now }
    ensures { result ≡ last_of posts.now }
{
    posts.len() - 1
}

/// The posts of statements, from the last to the first.
#[cycle(posts)]
fn add_steps<'t>(
    alloc: Global,
    stmts: &[Stmt<'t>],
    out: usize,
    inside: bool,
    posts: &mut Vec<Post<'t>>,
) -> Result<(), AllocError>
    requires { 0 < length posts.old.items }
    ensures { OnOk result (posts.new.items ≡ posts.old.items ++ posts_list (last_of posts.old.items) out inside stmts.now) }
{
    let mut left = stmts.len();
    while left > 0 {
        left -= 1;
        let stmt = &stmts[left];
        add_basic(
            alloc,
            stmt.labels.as_slice(),
            &stmt.basic,
            out,
            inside,
            posts,
        )?;
    }
    Ok(())
}

/// The posts of a statement. A break goes on to `out`.
#[cycle(posts)]
fn add_basic<'t>(
    alloc: Global,
    labels: &[Token<'t>],
    basic: &Basic<'t>,
    out: usize,
    inside: bool,
    posts: &mut Vec<Post<'t>>,
) -> Result<(), AllocError>
    requires { 0 < length posts.old.items }
    ensures { OnOk result (posts.new.items ≡ posts.old.items ++ posts_in labels.now (last_of posts.old.items) out inside basic.now) }
{
    let after = last(posts.as_slice());
    match basic {
        Basic::Plain(action) => {
            let is_else = matches!(action, Action::Else);
            Ok(posts.push(Post::stay(alloc, labels, is_else)?)?)
        }
        Basic::Goto(label) => Ok(posts.push(Post::leap(alloc, labels, label.text())?)?),
        Basic::Break => Ok(posts.push(Post::pass(alloc, labels, out)?)?),
        Basic::If(options) => {
            add_options(alloc, options.as_slice(), after, out, inside, posts)?;
            Ok(posts.push(Post::stay(alloc, labels, false)?)?)
        }
        Basic::Do(options) => {
            posts.push(Post::bare_stay(alloc))?;
            add_options(alloc, options.as_slice(), after + 1, after, inside, posts)?;
            Ok(posts.push(Post::pass(alloc, labels, after + 1)?)?)
        }
        Basic::Block(body) => { Ok(add_entered(labels, body, after, out, inside, posts)?) }
        Basic::Atomic(body) => { Ok(add_entered(labels, body, after, out, inside, posts)?) }
        Basic::DStep(body) => {
            add_arm(alloc, body, after, out, true, posts)?;
            let first = last(posts.as_slice());
            Ok(posts.push(Post::gate(alloc, labels, inside, after + 1, first)?)?)
        }
        Basic::Unless(main, escape) => {
            add_arm(alloc, escape, after, out, inside, posts)?;
            Ok(add_entered(labels, main, after, out, inside, posts)?)
        }
    }
}

/// The posts of a statement that is entered at the first statement of its arm.
#[cycle(posts)]
fn add_entered<'t>(
    labels: &[Token<'t>],
    arm: &Seq<'t>,
    after: usize,
    out: usize,
    inside: bool,
    posts: &mut Vec<Post<'t>>,
) -> Result<(), AllocError>
    requires { 0 < length posts.old.items }
    ensures { OnOk result (posts.new.items ≡ posts.old.items ++ posts_closed (last_of posts.old.items) labels.now after out inside arm.now) }
{
    let alloc = *posts.allocator();
    add_arm(alloc, arm, after, out, inside, posts)?;
    let first = last(posts.as_slice());
    Ok(posts.push(Post::pass(alloc, labels, first)?)?)
}

/// The posts of options, from the last to the first.
#[cycle(posts)]
fn add_options<'t>(
    alloc: Global,
    options: &[Seq<'t>],
    after: usize,
    out: usize,
    inside: bool,
    posts: &mut Vec<Post<'t>>,
) -> Result<(), AllocError>
    requires { 0 < length posts.old.items }
    ensures { OnOk result (posts.new.items ≡ posts.old.items ++ posts_arms (last_of posts.old.items) after out inside options.now) }
{
    let mut left = options.len();
    while left > 0 {
        left -= 1;
        add_arm(alloc, &options[left], after, out, inside, posts)?;
    }
    Ok(())
}

/// The posts of an arm, whose end goes on to the post `after`.
#[cycle(posts)]
fn add_arm<'t>(
    alloc: Global,
    seq: &Seq<'t>,
    after: usize,
    out: usize,
    inside: bool,
    posts: &mut Vec<Post<'t>>,
) -> Result<(), AllocError>
    requires { 0 < length posts.old.items }
    ensures { OnOk result (posts.new.items ≡ posts.old.items ++ posts_arm (last_of posts.old.items) after out inside seq.now) }
{
    posts.push(Post::bare_pass(alloc, after))?;
    Ok(add_steps(alloc, seq.steps.as_slice(), out, inside, posts)?)
}
