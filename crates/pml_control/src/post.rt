//! Posts of the graph that settling goes through.

ghost use Rattle.std.specs.Prelude.{◌≡◌, [], false, IfOk};

use pml_token::token::Token;
use sqlite_items::Items;
use std::alloc::{AllocError, Global};
use std::marker::Model;

/// A statement with its labels, or the end of a sequence.
#[derive(Drop)]
pub struct Post<'t> {
    labels: Items<Token<'t>>,
    goto: Option<&'t [u8]>,
    next: Option<usize>,
    is_else: bool,
    d_step: Option<(usize, usize)>,
}

impl<'t> Model for Post<'t> {
    ghost use Rattle.std.specs.Option.{option_copied};
    ghost use Rattle.pml_control.specs.Graph.{Spot};

    ghost Value = { Spot };

    ghost view = { λ n. record { labels = n.labels; goto = option_copied n.goto; next = n.next; is_else = n.is_else; d_step = n.d_step } };
}

impl<'t> Post<'t> {
    ghost use Rattle.std.specs.Option.{option_copied};
    ghost use Rattle.pml_control.specs.Graph.{stay, leap, pass, gate};

    /// Where settling ends, without a statement's labels.
    pub fn bare_stay(alloc: Global) -> Post<'t>
        ensures { result ≡ stay [] false }
    {
        Post {
            labels: Items::new(alloc),
            goto: None,
            next: None,
            is_else: false,
            d_step: None,
        }
    }

    /// The end of an arm, which goes on to the post `next`.
    pub fn bare_pass(alloc: Global, next: usize) -> Post<'t>
        ensures { result ≡ pass [] next }
    {
        Post {
            labels: Items::new(alloc),
            goto: None,
            next: Some(next),
            is_else: false,
            d_step: None,
        }
    }

    /// What stands first where settling ends.
    pub fn stay(alloc: Global, labels: &[Token<'t>], is_else: bool) -> Result<Post<'t>, AllocError>
        ensures { IfOk result (λ n. n ≡ stay labels.now is_else) }
    {
        Ok(Post {
            labels: copies(alloc, labels)?,
            goto: None,
            next: None,
            is_else,
            d_step: None,
        })
    }

    /// A goto.
    pub fn leap(
        alloc: Global,
        labels: &[Token<'t>],
        label: &'t [u8],
    ) -> Result<Post<'t>, AllocError>
        ensures { IfOk result (λ n. n ≡ leap labels.now label.now) }
    {
        Ok(Post {
            labels: copies(alloc, labels)?,
            goto: Some(label),
            next: None,
            is_else: false,
            d_step: None,
        })
    }

    /// What goes on to the post `next`.
    pub fn pass(alloc: Global, labels: &[Token<'t>], next: usize) -> Result<Post<'t>, AllocError>
        ensures { IfOk result (λ n. n ≡ pass labels.now next) }
    {
        Ok(Post {
            labels: copies(alloc, labels)?,
            goto: None,
            next: Some(next),
            is_else: false,
            d_step: None,
        })
    }

    /// A d_step with the posts from `least` to `first`, its first statement. It is entered where control is `inside` one.
    pub fn gate(
        alloc: Global,
        labels: &[Token<'t>],
        inside: bool,
        least: usize,
        first: usize,
    ) -> Result<Post<'t>, AllocError>
        ensures { IfOk result (λ n. n ≡ gate labels.now inside least first) }
    {
        Ok(Post {
            labels: copies(alloc, labels)?,
            goto: None,
            next: if inside { Some(first) } else { None },
            is_else: false,
            d_step: Some((least, first)),
        })
    }

    /// The labels that stand before it.
    pub fn labels(&self) -> &[Token<'t>]
        ensures { result.now ≡ self.now.labels }
    {
        self.labels.as_slice()
    }

    /// The label of a goto.
    pub fn goto(&self) -> Option<&'t [u8]>
        ensures { option_copied result ≡ self.now.goto }
    {
        self.goto
    }

    /// The post that it goes on to, if it goes on to one.
    pub fn next(&self) -> Option<usize>
        ensures { result ≡ self.now.next }
    {
        self.next
    }

    /// Whether it is an `else`.
    pub fn is_else(&self) -> bool
        ensures { result ≡ self.now.is_else }
    {
        self.is_else
    }

    /// Of a d_step the least post inside, and that of its first statement, which is the greatest.
    pub fn d_step(&self) -> Option<(usize, usize)>
        ensures { result ≡ self.now.d_step }
    {
        self.d_step
    }
}

/// The same tokens again.
fn copies<'t>(alloc: Global, tokens: &[Token<'t>]) -> Result<Items<Token<'t>>, AllocError>
    ensures { IfOk result (λ ts. ts ≡ tokens.now) }
{
    let mut copied = Items::new(alloc);
    for token in tokens {
        copied.push(token.copied())?;
    }
    Ok(copied)
}
