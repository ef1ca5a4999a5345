//! Trees of tokens, and what is asked of them.

ghost use Rattle.std.specs.Prelude.{◌≡◌, IfOk, MatchResult, Some};
ghost use Rattle.pml_tree.specs.declared.tree.Tree.{Tree};
ghost use Rattle.promela_grammar.specs.Models.{Spells};
ghost use Rattle.promela_model.specs.Marks.{of_tree};
ghost use Rattle.check_resolve.specs.Model.{numbered_model};
ghost use Rattle.explain_find.specs.Told.{NoTree, AreMarks};

use check_names::names::all_names;
use check_resolve::model::number;
use check_uses::model::marks;
use diagnostics::Refusal;
use pml_check::parsed::Parsed;
use pml_check::{CheckFault, check};
use pml_program::program::Program;
use pml_syntax::{SyntaxError, parse};
use pml_token::token::Token;
use pml_tree::tree::Tree;
use promela_model::mark::Mark;
use sqlite_items::{Boxed, Items};
use std::alloc::{AllocError, Global};

fn marks_in<'a>(alloc: Global, parsed: &Parsed<'a>) -> Result<Items<Mark<'a>>, AllocError>
    ensures { IfOk result (λ ms. ms ≡ of_tree parsed.now) }
{
    marks(alloc, parsed.tree())
}

/// The marks of a tree, which is let go.
fn marks_of_tree<'a>(alloc: Global, tree: Tree<'a>) -> Result<Items<Mark<'a>>, AllocError>
    ensures { IfOk result (λ ms. ms ≡ of_tree tree.entry) }
{
    // Lent from a pattern: where a parameter is lent, the check of its loan does not end.
    match Parsed::new(alloc, tree) {
        Ok(parsed) => marks_in(alloc, &parsed),
        Err(AllocError) => Err(AllocError),
    }
}

/// The marks of the tree that tokens spell; where they spell none, the line of the token that no rule reads, or of the last one.
pub fn marks_of<'a>(
    alloc: Global,
    tokens: &'a [Token<'a>],
) -> Result<Result<Items<Mark<'a>>, u32>, AllocError>
    ensures { IfOk result (λ read. MatchResult read (AreMarks tokens.now) (λ line. NoTree tokens.now)) }
{
    match parse(alloc, tokens) {
        Ok(tree) => Ok(Ok(marks_of_tree(alloc, tree)?)),
        Err(SyntaxError::Syntax(line)) => Ok(Err(line)),
        Err(SyntaxError::Memory) => Err(AllocError),
    }
}

/// The model that a tree stands for, with its names replaced.
fn program_in<'a>(alloc: Global, parsed: &Parsed<'a>) -> Result<Program<'a>, AllocError>
    ensures { IfOk result (λ p. p ≡ numbered_model parsed.now) }
{
    let tree = parsed.tree();
    let marks = marks(alloc, tree)?;
    let all = all_names(alloc, marks.as_slice())?;
    number(alloc, tree, &all.table)
}

fn boxed<'a>(alloc: Global, program: Program<'a>) -> Result<Boxed<Program<'a>>, AllocError>
    ensures { IfOk result (λ p. p ≡ program.entry) }
{
    Boxed::new(alloc, program)
}

/// The same in a place of its own.
fn boxed_in<'a>(alloc: Global, parsed: &Parsed<'a>) -> Result<Boxed<Program<'a>>, AllocError>
    ensures { IfOk result (λ p. p ≡ numbered_model parsed.now) }
{
    match program_in(alloc, parsed) {
        Ok(program) => boxed(alloc, program),
        Err(AllocError) => Err(AllocError),
    }
}

/// The same of a tree, which is let go.
fn program_of_tree<'a>(alloc: Global, tree: Tree<'a>) -> Result<Boxed<Program<'a>>, AllocError>
    ensures { IfOk result (λ p. p ≡ numbered_model tree.entry) }
{
    match Parsed::new(alloc, tree) {
        Ok(parsed) => boxed_in(alloc, &parsed),
        Err(AllocError) => Err(AllocError),
    }
}

/// The model that the tree stands for that tokens spell, if they spell one.
pub fn program_of<'a>(
    alloc: Global,
    tokens: &'a [Token<'a>],
) -> Result<Option<Boxed<Program<'a>>>, AllocError>
    ensures { (t : Tree) → Spells t tokens.now → IfOk result (λ o. o ≡ Some (numbered_model t)) }
{
    match parse(alloc, tokens) {
        Ok(tree) => Ok(Some(program_of_tree(alloc, tree)?)),
        Err(SyntaxError::Syntax(_)) => Ok(None),
        Err(SyntaxError::Memory) => Err(AllocError),
    }
}

fn is_bad_start<'a>(alloc: Global, tree: Tree<'a>) -> Result<bool, AllocError> {
    match check(alloc, tree) {
        Ok(_) => Ok(false),
        Err(CheckFault::Refused(Refusal::Initialiser)) => Ok(true),
        Err(CheckFault::Refused(_)) => Ok(false),
        Err(CheckFault::Memory) => Err(AllocError),
    }
}

/// Whether the tokens are refused for an initialiser.
pub fn is_refused_at_start<'a>(alloc: Global, tokens: &'a [Token<'a>]) -> Result<bool, AllocError> {
    match parse(alloc, tokens) {
        Ok(tree) => is_bad_start(alloc, tree),
        Err(SyntaxError::Syntax(_)) => Ok(false),
        Err(SyntaxError::Memory) => Err(AllocError),
    }
}
