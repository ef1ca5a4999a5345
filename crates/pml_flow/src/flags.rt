//! Valid end points.

ghost use Rattle.std.specs.Prelude.{◌≡◌, false, IfOk, replicate};
ghost use Rattle.std.specs.Option.{option_copied};
ghost use Rattle.promela_process.specs.Offers.{is_end, any_end};
ghost use Rattle.pml_flow.specs.Marked.{has_end, flag, flag_if, marked};

use crate::statements::Statements;
use pml_program::program::Stmt;
use pml_token::token::Token;
use std::alloc::{AllocError, Global};

/// Whether a label begins with `end`.
fn is_end(label: &[u8]) -> bool
    ensures { result ≡ is_end label.now }
{
    label.starts_with(b"end")
}

fn any_end(labels: &[Token<'_>]) -> bool
    ensures { result ≡ any_end labels.now }
{
    for label in labels {
        if is_end(label.text()) {
            return true;
        }
    }
    false
}

fn has_end(stmt: Option<&Stmt<'_>>) -> bool
    ensures { result ≡ has_end (option_copied stmt.entry) }
{
    match stmt {
        Some(stmt) => any_end(stmt.labels.as_slice()),
        None => false,
    }
}

/// Flags a number, if it is there.
pub fn flag(flags: &mut Vec<bool>, number: usize)
    ensures { flags.new.items ≡ flag flags.old.items number }
{
    if number < flags.len() {
        flags[number] = true;
    }
}

fn flag_if(flags: bool, ends: &mut Vec<bool>, node: usize)
    ensures { ends.new.items ≡ flag_if flags ends.old.items node }
{
    if flags {
        flag(ends, node);
    }
}

/// Which nodes are the closing brace or what a label that begins with `end` leads to.
pub fn valid_ends(
    alloc: Global,
    count: usize,
    statements: &Statements<'_, '_>,
    targets: &[usize],
) -> Result<Vec<bool>, AllocError>
    ensures { IfOk result (λ v. v.items ≡ marked statements.now 0 (flag (replicate count false) 0) targets.now) }
{
    let mut ends = Vec::new(alloc);
    ends.resize(count, false)?;
    flag(&mut ends, 0);
    for (number, target) in targets.iter().enumerate() {
        flag_if(has_end(statements.get(number)), &mut ends, *target);
    }
    Ok(ends)
}
