//! Lists of expressions with commas between them.

ghost use Rattle.std.specs.Prelude.{◌≡◌, ◌∷◌, [], IfOk, length};
ghost use Rattle.pml_expression.specs.Reading as reading;
ghost use Rattle.pml_expression.specs.Reading.{Reads};

use crate::cursor::Cursor;
use crate::expr::expr;
use crate::fault::ReadFault;
use pml_token::token::Kind;
use pml_tree::room::room_for;
use pml_tree::tree::Expr;
use sqlite_items::Items;
use std::alloc::{AllocError, Global};

/// Expressions with commas between them, behind the first ones.
#[tactic(auto, unfolding(crate::specs::Reading::list_from, crate::specs::Reading::and_then, crate::specs::Reading::pick))]
pub fn expr_list<'a>(
    alloc: Global,
    depth: usize,
    first: Items<Expr<'a>>,
    tokens: &mut Cursor<'a>,
) -> Result<Items<Expr<'a>>, ReadFault>
    ensures { Reads (reading.list_from (reading.expr depth 1) (length tokens.old) first.entry tokens.old) result tokens.new }
{
    let mut found = first;
    for _turn in 0..tokens.left() {
        let x = expr(alloc, depth, 1, tokens)?;
        found.push(x)?;
        if !tokens.sees(Kind::Comma) {
            return Ok(found);
        }
        tokens.expect(Kind::Comma)?;
    }
    Err(tokens.refuse())
}

/// Expressions in parentheses, behind the first ones.
#[tactic(auto, unfolding(crate::specs::Reading::enclosed, crate::specs::Reading::closing, crate::specs::Reading::and_then))]
fn enclosed<'a>(
    alloc: Global,
    depth: usize,
    first: Items<Expr<'a>>,
    tokens: &mut Cursor<'a>,
) -> Result<Items<Expr<'a>>, ReadFault>
    ensures { Reads (reading.enclosed (reading.expr depth 1) first.entry tokens.old) result tokens.new }
{
    tokens.expect(Kind::OpenParen)?;
    let found = expr_list(alloc, depth, first, tokens)?;
    tokens.closing(Kind::CloseParen, found)
}

/// The expressions that a comma or a parenthesis goes on with, behind the first one.
#[tactic(auto, unfolding(crate::specs::Reading::behind_first, crate::specs::Reading::and_then, crate::specs::Reading::pick))]
fn behind_first<'a>(
    alloc: Global,
    depth: usize,
    first: Items<Expr<'a>>,
    tokens: &mut Cursor<'a>,
) -> Result<Items<Expr<'a>>, ReadFault>
    ensures { Reads (reading.behind_first (reading.expr depth 1) first.entry tokens.old) result tokens.new }
{
    if tokens.sees(Kind::OpenParen) {
        return enclosed(alloc, depth, first, tokens);
    }
    if !tokens.sees(Kind::Comma) {
        return Ok(first);
    }
    tokens.expect(Kind::Comma)?;
    expr_list(alloc, depth, first, tokens)
}

/// One item, as a list.
pub fn alone<T: Drop>(alloc: Global, item: T) -> Result<Items<T>, AllocError>
    ensures { IfOk result (λ r. r ≡ item ∷ []) }
{
    let mut items = room_for(alloc, 1)?;
    items.push(item)?;
    Ok(items)
}

/// What is sent.
#[tactic(auto, unfolding(crate::specs::Reading::values, crate::specs::Reading::and_then))]
pub fn values<'a>(
    alloc: Global,
    depth: usize,
    tokens: &mut Cursor<'a>,
) -> Result<Items<Expr<'a>>, ReadFault>
    ensures { Reads (reading.values depth tokens.old) result tokens.new }
{
    let first = alone(alloc, expr(alloc, depth, 1, tokens)?)?;
    behind_first(alloc, depth, first, tokens)
}
