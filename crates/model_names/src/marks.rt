//! The marks of the tree that tokens spell.

ghost use Rattle.std.specs.Prelude.{◌≡◌, IfOk, IfSome};
ghost use Rattle.promela_model.specs.Marks.{of_tree};
ghost use Rattle.model_names.specs.Told.{AreMarks};

use check_uses::model::marks;
use pml_check::parsed::Parsed;
use pml_syntax::{SyntaxError, parse};
use pml_token::token::Token;
use pml_tree::tree::Tree;
use promela_model::mark::Mark;
use sqlite_items::Items;
use std::alloc::{AllocError, Global};

fn marks_in<'a>(alloc: Global, parsed: &Parsed<'a>) -> Result<Items<Mark<'a>>, AllocError>
    ensures { IfOk result (λ ms. ms ≡ of_tree parsed.now) }
{
    marks(alloc, parsed.tree())
}

/// The marks of a tree, which is let go.
fn marks_of_tree<'a>(alloc: Global, tree: Tree<'a>) -> Result<Items<Mark<'a>>, AllocError>
    ensures { IfOk result (λ ms. ms ≡ of_tree tree.entry) }
{
    // Lent from a pattern: where a parameter is lent, the check of its loan does not end.
    match Parsed::new(alloc, tree) {
        Ok(parsed) => marks_in(alloc, &parsed),
        Err(AllocError) => Err(AllocError),
    }
}

/// The marks of the tree that tokens spell, if they spell one.
pub fn marks_of<'a>(
    alloc: Global,
    tokens: &'a [Token<'a>],
) -> Result<Option<Items<Mark<'a>>>, AllocError>
    ensures { IfOk result (λ o. IfSome o (AreMarks tokens.now)) }
{
    match parse(alloc, tokens) {
        Ok(tree) => Ok(Some(marks_of_tree(alloc, tree)?)),
        Err(SyntaxError::Syntax(_)) => Ok(None),
        Err(SyntaxError::Memory) => Err(AllocError),
    }
}
