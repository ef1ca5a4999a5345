//! The lines of nodes.

ghost use Rattle.std.specs.Prelude.{◌≡◌, IfOk};
ghost use Rattle.std.specs.Option.{option_copied};
ghost use Rattle.promela_process.specs.Offers.{first_line};
ghost use Rattle.pml_flow.specs.Marked.{line_of, lines_from};

use crate::statements::Statements;
use pml_program::program::Stmt;
use pml_token::token::Token;
use std::alloc::{AllocError, Global};

/// The line of the first token, or of the closing brace.
pub fn first_line(tokens: &[Token<'_>], brace: u32) -> u32
    ensures { result ≡ first_line tokens.now brace }
{
    match tokens {
        [first, ..] => first.line(),
        [] => brace,
    }
}

/// The line of a statement, or of the closing brace.
pub fn line_of(stmt: Option<&Stmt<'_>>, brace: u32) -> u32
    ensures { result ≡ line_of (option_copied stmt.entry) brace }
{
    match stmt {
        Some(stmt) => first_line(stmt.tokens.as_slice(), brace),
        None => brace,
    }
}

/// The lines of the numbers where settling ends.
pub fn kept_lines(
    alloc: Global,
    statements: &Statements<'_, '_>,
    next: &[Option<usize>],
    brace: u32,
) -> Result<Vec<u32>, AllocError>
    ensures { IfOk result (λ v. v.items ≡ lines_from brace statements.now 0 next.now) }
{
    let mut lines = Vec::new(alloc);
    for (number, step) in next.iter().enumerate() {
        if step.is_none() {
            lines.push(line_of(statements.get(number), brace))?;
        }
    }
    Ok(lines)
}
