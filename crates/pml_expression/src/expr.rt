//! Expressions, by precedence climbing.

ghost use Rattle.std.specs.Prelude.{◌≡◌, IfOk, length};
ghost use Rattle.pml_tree.specs.declared.tree.Expr.TheVariants as term;
ghost use Rattle.promela_grammar.specs.Expressions.{prefix_level};
ghost use Rattle.pml_expression.specs.Reading as reading;
ghost use Rattle.pml_expression.specs.Reading.{Reads};

use crate::cursor::Cursor;
use crate::fault::ReadFault;
use crate::operators::{PREFIX_LEVEL, Start, level, operator, query, start_of};
use crate::references::{expr_between, polled, reference};
use pml_token::token::Kind;
use pml_tree::tree::{Expr, Fill, Infix, Prefix, Reference};
use sqlite_items::Boxed;
use std::alloc::{AllocError, Global};

/// The operand that begins with a reference, behind that.
#[cycle(expr)]
#[tactic(auto, unfolding(crate::specs::Reading::behind, crate::specs::Reading::poll, crate::specs::Reading::and_then, crate::specs::Reading::pick))]
pub fn behind<'a>(
    alloc: Global,
    depth: usize,
    r: Reference<'a>,
    tokens: &mut Cursor<'a>,
) -> Result<Expr<'a>, ReadFault>
    ensures { Reads (reading.behind (reading.expr depth) r.entry tokens.old) result tokens.new }
{
    let Some(search) = query(tokens.peek()) else {
        return Ok(Expr::Read(r));
    };
    if !tokens.sees_second(Kind::OpenBracket) {
        return Ok(Expr::Read(r));
    }
    tokens.skip();
    let xs = polled(alloc, depth, tokens)?;
    Ok(Expr::Poll(r, search, xs))
}

/// The expression at the front, as `expr` reads it, in a box.
#[cycle(expr)]
pub fn boxed_expr<'a>(
    alloc: Global,
    depth: usize,
    least: u8,
    tokens: &mut Cursor<'a>,
) -> Result<Boxed<Expr<'a>>, ReadFault>
    ensures { Reads (reading.expr depth least tokens.old) result tokens.new }
{
    let x = expr(alloc, depth, least, tokens)?;
    Ok(Boxed::new(alloc, x)?)
}

/// The expression behind a token of this kind.
#[cycle(expr)]
#[tactic(auto, unfolding(crate::specs::Reading::expr_behind, crate::specs::Reading::and_then))]
pub fn expr_behind<'a>(
    alloc: Global,
    depth: usize,
    kind: Kind,
    tokens: &mut Cursor<'a>,
) -> Result<Boxed<Expr<'a>>, ReadFault>
    ensures { Reads (reading.expr_behind (reading.expr depth) kind tokens.old) result tokens.new }
{
    tokens.expect(kind)?;
    boxed_expr(alloc, depth, 1, tokens)
}

/// The conditional whose condition was read.
#[cycle(expr)]
#[tactic(auto, unfolding(crate::specs::Reading::chosen, crate::specs::Reading::and_then))]
fn chosen<'a>(
    alloc: Global,
    depth: usize,
    x: Boxed<Expr<'a>>,
    tokens: &mut Cursor<'a>,
) -> Result<Expr<'a>, ReadFault>
    ensures { Reads (reading.chosen (reading.expr depth) x.entry tokens.old) result tokens.new }
{
    let y = expr_behind(alloc, depth, Kind::Arrow, tokens)?;
    let z = expr_behind(alloc, depth, Kind::Colon, tokens)?;
    Ok(Expr::Choice(x, y, z))
}

/// The conditional whose condition was read, or that expression alone.
#[cycle(expr)]
#[tactic(auto, unfolding(crate::specs::Reading::alternatives, crate::specs::Reading::and_then, crate::specs::Reading::pick))]
fn alternatives<'a>(
    alloc: Global,
    depth: usize,
    x: Expr<'a>,
    tokens: &mut Cursor<'a>,
) -> Result<Expr<'a>, ReadFault>
    ensures { Reads (reading.alternatives (reading.expr depth) x.entry tokens.old) result tokens.new }
{
    if !tokens.sees(Kind::Arrow) {
        return Ok(x);
    }
    let x = Boxed::new(alloc, x)?;
    chosen(alloc, depth, x, tokens)
}

#[cycle(expr)]
#[inline(never)]
#[tactic(auto, unfolding(crate::specs::Reading::group, crate::specs::Reading::expr_behind, crate::specs::Reading::and_then))]
fn group<'a>(alloc: Global, depth: usize, tokens: &mut Cursor<'a>) -> Result<Expr<'a>, ReadFault>
    ensures { Reads (reading.group (reading.expr depth) tokens.old) result tokens.new }
{
    tokens.expect(Kind::OpenParen)?;
    let x = expr(alloc, depth, 1, tokens)?;
    let x = alternatives(alloc, depth, x, tokens)?;
    tokens.closing(Kind::CloseParen, x)
}

/// A reference, or a poll of it.
#[cycle(expr)]
#[inline(never)]
#[tactic(auto, unfolding(crate::specs::Reading::variable, crate::specs::Reading::and_then))]
fn variable<'a>(alloc: Global, depth: usize, tokens: &mut Cursor<'a>) -> Result<Expr<'a>, ReadFault>
    ensures { Reads (reading.variable (reading.expr depth) tokens.old) result tokens.new }
{
    let r = reference(alloc, depth, tokens)?;
    behind(alloc, depth, r, tokens)
}

/// What is asked of a channel, behind the word.
#[cycle(expr)]
#[inline(never)]
#[tactic(auto, unfolding(crate::specs::Reading::ask, crate::specs::Reading::and_then))]
fn ask<'a>(
    alloc: Global,
    depth: usize,
    fill: Fill,
    tokens: &mut Cursor<'a>,
) -> Result<Expr<'a>, ReadFault>
    ensures { Reads (reading.ask (reading.expr depth) fill tokens.old) result tokens.new }
{
    tokens.expect(Kind::OpenParen)?;
    let r = reference(alloc, depth, tokens)?;
    tokens.closing(Kind::CloseParen, Expr::Ask(fill, r))
}

/// An operand with the operator before it, in a box. It stands by itself, so that an operator takes little of the stack.
#[inline(never)]
fn operated<'a>(
    alloc: Global,
    op: Prefix,
    x: Boxed<Expr<'a>>,
) -> Result<Boxed<Expr<'a>>, AllocError>
    ensures { IfOk result (λ e. e ≡ term.Unary op x.entry) }
{
    Ok(Boxed::new(alloc, Expr::Unary(op, x))?)
}

/// The operand of an operator before it, in a box: a thousand such operators in a row take little of the stack.
#[cycle(expr)]
#[inline(never)]
#[tactic(auto, unfolding(crate::specs::Reading::expr, crate::specs::Reading::level_of, crate::specs::Reading::prefix, crate::specs::Reading::operand, crate::specs::Reading::and_then))]
fn boxed_operand<'a>(
    alloc: Global,
    depth: usize,
    tokens: &mut Cursor<'a>,
) -> Result<Boxed<Expr<'a>>, ReadFault>
    ensures { Reads (reading.expr depth prefix_level tokens.old) result tokens.new }
{
    let Start::Prefix(op) = start_of(tokens.peek()) else {
        return boxed_expr(alloc, depth, PREFIX_LEVEL, tokens);
    };
    if depth == 0 {
        return Err(tokens.refuse());
    }
    tokens.skip();
    let x = boxed_operand(alloc, depth - 1, tokens)?;
    Ok(operated(alloc, op, x)?)
}

/// The operand of an operator before it, behind that.
#[cycle(expr)]
#[tactic(auto, unfolding(crate::specs::Reading::operand, crate::specs::Reading::and_then))]
fn operand<'a>(
    alloc: Global,
    depth: usize,
    op: Prefix,
    tokens: &mut Cursor<'a>,
) -> Result<Expr<'a>, ReadFault>
    ensures { Reads (reading.operand (reading.expr depth) op tokens.old) result tokens.new }
{
    let x = boxed_operand(alloc, depth, tokens)?;
    Ok(Expr::Unary(op, x))
}

#[cycle(expr)]
#[tactic(auto, unfolding(crate::specs::Reading::prefix, crate::specs::Reading::number, crate::specs::Reading::and_then))]
fn prefix<'a>(alloc: Global, depth: usize, tokens: &mut Cursor<'a>) -> Result<Expr<'a>, ReadFault>
    ensures { Reads (reading.prefix (reading.expr depth) tokens.old) result tokens.new }
{
    match start_of(tokens.peek()) {
        Start::Name => variable(alloc, depth, tokens),
        Start::Number => Ok(Expr::Number(tokens.expect(Kind::Number)?)),
        Start::Truth(value) => {
            tokens.skip();
            Ok(Expr::Truth(value))
        }
        Start::Timeout => {
            tokens.skip();
            Ok(Expr::Timeout)
        }
        Start::Ask(fill) => {
            tokens.skip();
            ask(alloc, depth, fill, tokens)
        }
        Start::Prefix(op) => {
            tokens.skip();
            operand(alloc, depth, op, tokens)
        }
        Start::Group => group(alloc, depth, tokens),
        Start::Eval => Err(tokens.refuse()),
        Start::Other => Err(tokens.refuse()),
    }
}

/// The operation whose left operand and operator were read.
#[cycle(expr)]
#[tactic(auto, unfolding(crate::specs::Reading::infix_with, crate::specs::Reading::and_then))]
fn infix_with<'a>(
    alloc: Global,
    depth: usize,
    op: Infix,
    left: Boxed<Expr<'a>>,
    tokens: &mut Cursor<'a>,
) -> Result<Expr<'a>, ReadFault>
    ensures { Reads (reading.infix_with (reading.expr depth) op left.entry tokens.old) result tokens.new }
{
    let right = boxed_expr(alloc, depth, level(op) + 1, tokens)?;
    Ok(Expr::Binary(op, left, right))
}

/// Goes on from an expression on the left, as long as operators of the level come.
#[cycle(expr)]
#[inline(never)]
#[tactic(auto, unfolding(crate::specs::Reading::climb, crate::specs::Reading::and_then, crate::specs::Reading::pick))]
pub fn climb<'a>(
    alloc: Global,
    depth: usize,
    least: u8,
    first: Expr<'a>,
    tokens: &mut Cursor<'a>,
) -> Result<Expr<'a>, ReadFault>
    ensures { Reads (reading.climb (reading.expr depth) (length tokens.old) least first.entry tokens.old) result tokens.new }
{
    let mut left = first;
    for _turn in 0..tokens.left() {
        let Some(op) = operator(tokens.peek()) else {
            return Ok(left);
        };
        if level(op) < least {
            return Ok(left);
        }
        tokens.skip();
        let operand = Boxed::new(alloc, left)?;
        left = infix_with(alloc, depth, op, operand, tokens)?;
    }
    Ok(left)
}

/// The expression at the front, whose operators have at least this level. It nests no deeper than `depth`.
#[cycle(expr)]
#[tactic(auto, unfolding(crate::specs::Reading::expr, crate::specs::Reading::level_of, crate::specs::Reading::and_then))]
pub fn expr<'a>(
    alloc: Global,
    depth: usize,
    least: u8,
    tokens: &mut Cursor<'a>,
) -> Result<Expr<'a>, ReadFault>
    ensures { Reads (reading.expr depth least tokens.old) result tokens.new }
{
    if depth == 0 {
        return Err(tokens.refuse());
    }
    let left = prefix(alloc, depth - 1, tokens)?;
    climb(alloc, depth - 1, least, left, tokens)
}
