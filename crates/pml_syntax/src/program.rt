//! The tree that all of the tokens spell.

ghost use Rattle.std.specs.Prelude.{◌≡◌, ◌≤◌, ℕ, IfOk, All, Err};
ghost use Rattle.pml_tree.specs.declared.tree.Tree.{Tree};
ghost use Rattle.promela_grammar.specs.Models.{Spells};
ghost use Rattle.pml_syntax.specs.Answer.{Answers, IsOnLine};

use crate::unit::model;
use pml_expression::cursor::Cursor;
use pml_expression::fault::ReadFault;
use pml_token::token::Token;
use pml_tree::tree::Tree;
use std::alloc::Global;
use thiserror::Error;

/// Why there is no tree.
#[derive(Clone, Copy, Debug, PartialEq, Eq, Error)]
pub enum SyntaxError {
    /// Memory ran out.
    #[error("out of memory")]
    Memory,
    /// No tree spells the tokens. The number is the line of the token that no rule reads, or of the last one, or 1.
    #[error("no model is spelled, from line {0} on")]
    Syntax(u32),
}

/// The line of the token from which on there are `left`, or of the last one, or 1 where there is none.
fn line_at(tokens: &[Token<'_>], left: usize) -> u32
    ensures { (most : ℕ) → 1 ≤ most → All (λ w. IsOnLine most w.line) tokens.now → IsOnLine most result }
{
    let at = tokens.len().saturating_sub(left.max(1));
    match tokens.get(at) {
        Some(token) => token.line(),
        None => 1,
    }
}

/// The tree that the tokens of a model spell.
pub fn parse<'a>(alloc: Global, tokens: &'a [Token<'a>]) -> Result<Tree<'a>, SyntaxError>
    // What is answered spells the tokens.
    ensures found { IfOk result (λ t. Spells t tokens.now) }
    // What spells the tokens is answered, unless memory runs out, so no other tree spells them.
    ensures only { (t : Tree) → Spells t tokens.now → Answers t result }
    // A syntax fault comes only where no tree spells the tokens.
    ensures none { (line : ℕ) → result ≡ Err (SyntaxError.Syntax line) → (t : Tree) → Spells t tokens.now → ⊥ }
    // Its line is one of the text, if those of the tokens are.
    ensures line { (most : ℕ) → 1 ≤ most → All (λ w. IsOnLine most w.line) tokens.now → (at : ℕ) → result ≡ Err (SyntaxError.Syntax at) → IsOnLine most at }
{
    let mut cursor = Cursor::new(tokens);
    match model(alloc, tokens.len(), &mut cursor) {
        Ok(t) => Ok(t),
        Err(ReadFault::Memory) => Err(SyntaxError::Memory),
        Err(ReadFault::Syntax(left)) => Err(SyntaxError::Syntax(line_at(tokens, left))),
    }
}
