//! A syntax tree that was read.

ghost use Rattle.std.specs.Prelude.{◌≡◌, IfOk};

use pml_tree::tree::Tree;
use sqlite_items::Boxed;
use std::alloc::{AllocError, Global};
use std::marker::Model;

/// A syntax tree that was read, in a place of its own. Contracts see the tree.
#[derive(Drop)]
pub struct Parsed<'a> {
    tree: Boxed<Tree<'a>>,
}

impl<'a> Model for Parsed<'a> {
    ghost use Rattle.pml_tree.specs.declared.tree.Tree.{Tree};
    ghost use Rattle.pml_tree.specs.contracts.tree.Expr as expr;
    ghost use Rattle.pml_tree.specs.contracts.tree.Seq as seq;
    ghost use Rattle.std.specs.Coded.{codes};
    ghost use mir.Syntax.{named};
    ghost use Rattle.std.specs.Prelude.{[]};

    ghost Value = { Tree };

    ghost coded = { Prim.hlevel (codes, (expr.the_row (record { mir = named 0; lft = [] })).coded, (seq.the_row (record { mir = named 0; lft = [] })).coded) };

    ghost view = { λ p. p.tree };
}

impl<'a> Parsed<'a> {
    /// Keeps a tree.
    pub fn new(alloc: Global, tree: Tree<'a>) -> Result<Parsed<'a>, AllocError>
        ensures { IfOk result (λ parsed. parsed ≡ tree.entry) }
    {
        let tree = Boxed::new(alloc, tree)?;
        Ok(Parsed { tree })
    }

    /// The tree.
    pub fn tree(&self) -> &Tree<'a>
        ensures { result.now ≡ self.now }
    {
        self.tree.get()
    }
}
