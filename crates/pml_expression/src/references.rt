//! References, and arguments of messages, with the expressions in them.

ghost use Rattle.std.specs.Prelude.{[], length};
ghost use Rattle.pml_tree.specs.declared.tree.Argument.TheVariants as g;
ghost use Rattle.pml_expression.specs.Reading as reading;
ghost use Rattle.pml_expression.specs.Reading.{Reads};

use crate::cursor::Cursor;
use crate::expr::expr_behind;
use crate::fault::ReadFault;
use crate::operators::{Start, start_of};
use pml_token::token::Kind;
use pml_tree::room::room_for;
use pml_tree::tree::{Argument, Expr, Prefix, Reference, Sign, Step};
use sqlite_items::{Boxed, Items};
use std::alloc::Global;

/// The expression between tokens of these kinds. It nests no deeper than `depth`, as all that is read here.
#[cycle(expr)]
#[tactic(auto, unfolding(crate::specs::Reading::expr_between, crate::specs::Reading::and_then))]
pub fn expr_between<'a>(
    alloc: Global,
    depth: usize,
    front: Kind,
    back: Kind,
    tokens: &mut Cursor<'a>,
) -> Result<Boxed<Expr<'a>>, ReadFault>
    ensures { Reads (reading.expr_between (reading.expr depth) front back tokens.old) result tokens.new }
{
    let x = expr_behind(alloc, depth, front, tokens)?;
    tokens.closing(back, x)
}

/// The index behind a name, if there is one.
#[cycle(expr)]
#[tactic(auto, unfolding(crate::specs::Reading::index, crate::specs::Reading::and_then, crate::specs::Reading::pick))]
pub fn index<'a>(
    alloc: Global,
    depth: usize,
    tokens: &mut Cursor<'a>,
) -> Result<Option<Boxed<Expr<'a>>>, ReadFault>
    ensures { Reads (reading.index (reading.expr depth) tokens.old) result tokens.new }
{
    if !tokens.sees(Kind::OpenBracket) {
        return Ok(None);
    }
    let x = expr_between(alloc, depth, Kind::OpenBracket, Kind::CloseBracket, tokens)?;
    Ok(Some(x))
}

#[cycle(expr)]
#[tactic(auto, unfolding(crate::specs::Reading::step, crate::specs::Reading::and_then))]
fn step<'a>(alloc: Global, depth: usize, tokens: &mut Cursor<'a>) -> Result<Step<'a>, ReadFault>
    ensures { Reads (reading.step (reading.expr depth) tokens.old) result tokens.new }
{
    let name = tokens.expect(Kind::Name)?;
    let index = index(alloc, depth, tokens)?;
    Ok(Step { name, index })
}

/// The fields behind a name.
#[cycle(expr)]
#[tactic(auto, unfolding(crate::specs::Reading::fields_from, crate::specs::Reading::and_then, crate::specs::Reading::pick))]
fn fields<'a>(
    alloc: Global,
    depth: usize,
    tokens: &mut Cursor<'a>,
) -> Result<Items<Step<'a>>, ReadFault>
    ensures { Reads (reading.fields_from (reading.expr depth) (length tokens.old) [] tokens.old) result tokens.new }
{
    let mut found = Items::new(alloc);
    for _turn in 0..tokens.left() {
        if !tokens.sees(Kind::Dot) {
            return Ok(found);
        }
        tokens.expect(Kind::Dot)?;
        let field = step(alloc, depth, tokens)?;
        found.push(field)?;
    }
    Ok(found)
}

/// A name with its index, and the fields behind it.
#[cycle(expr)]
#[tactic(auto, unfolding(crate::specs::Reading::reference, crate::specs::Reading::and_then))]
pub fn reference<'a>(
    alloc: Global,
    depth: usize,
    tokens: &mut Cursor<'a>,
) -> Result<Reference<'a>, ReadFault>
    ensures { Reads (reading.reference (reading.expr depth) tokens.old) result tokens.new }
{
    let first = step(alloc, depth, tokens)?;
    let fields = fields(alloc, depth, tokens)?;
    Ok(Reference { first, fields })
}

#[tactic(auto, unfolding(crate::specs::Reading::exactly_minus, crate::specs::Reading::and_then))]
fn exactly_minus<'a>(tokens: &mut Cursor<'a>) -> Result<Argument<'a>, ReadFault>
    ensures { Reads (reading.exactly_minus tokens.old) result tokens.new }
{
    tokens.expect(Kind::Minus)?;
    Ok(Argument::Exactly(Sign::Minus, tokens.expect(Kind::Number)?))
}

#[cycle(expr)]
#[tactic(auto, unfolding(crate::specs::Reading::eval, crate::specs::Reading::and_then))]
fn eval<'a>(alloc: Global, depth: usize, tokens: &mut Cursor<'a>) -> Result<Argument<'a>, ReadFault>
    ensures { Reads (reading.eval (reading.expr depth) tokens.old) result tokens.new }
{
    tokens.expect(Kind::Eval)?;
    let x = expr_between(alloc, depth, Kind::OpenParen, Kind::CloseParen, tokens)?;
    Ok(Argument::Eval(x))
}

#[cycle(expr)]
#[tactic(auto, unfolding(crate::specs::Reading::argument, crate::specs::Reading::into, crate::specs::Reading::exactly, crate::specs::Reading::and_then))]
fn argument<'a>(
    alloc: Global,
    depth: usize,
    tokens: &mut Cursor<'a>,
) -> Result<Argument<'a>, ReadFault>
    ensures { Reads (reading.argument (reading.expr depth) tokens.old) result tokens.new }
{
    match start_of(tokens.peek()) {
        Start::Name => Ok(Argument::Into(reference(alloc, depth, tokens)?)),
        Start::Number => Ok(Argument::Exactly(Sign::Plus, tokens.expect(Kind::Number)?)),
        Start::Prefix(Prefix::Minus) => exactly_minus(tokens),
        Start::Truth(value) => {
            tokens.skip();
            Ok(Argument::Fixed(value))
        }
        Start::Eval => eval(alloc, depth, tokens),
        _ => Err(tokens.refuse()),
    }
}

/// Arguments with commas between them, behind the first ones.
#[cycle(expr)]
#[tactic(auto, unfolding(crate::specs::Reading::list_from, crate::specs::Reading::and_then, crate::specs::Reading::pick))]
fn argument_list<'a>(
    alloc: Global,
    depth: usize,
    first: Items<Argument<'a>>,
    tokens: &mut Cursor<'a>,
) -> Result<Items<Argument<'a>>, ReadFault>
    ensures { Reads (reading.list_from (reading.argument (reading.expr depth)) (length tokens.old) first.entry tokens.old) result tokens.new }
{
    let mut found = first;
    for _turn in 0..tokens.left() {
        let x = argument(alloc, depth, tokens)?;
        found.push(x)?;
        if !tokens.sees(Kind::Comma) {
            return Ok(found);
        }
        tokens.expect(Kind::Comma)?;
    }
    Err(tokens.refuse())
}

/// Arguments in parentheses, behind the first ones.
#[cycle(expr)]
#[tactic(auto, unfolding(crate::specs::Reading::enclosed, crate::specs::Reading::and_then))]
fn enclosed<'a>(
    alloc: Global,
    depth: usize,
    first: Items<Argument<'a>>,
    tokens: &mut Cursor<'a>,
) -> Result<Items<Argument<'a>>, ReadFault>
    ensures { Reads (reading.enclosed (reading.argument (reading.expr depth)) first.entry tokens.old) result tokens.new }
{
    tokens.expect(Kind::OpenParen)?;
    let found = argument_list(alloc, depth, first, tokens)?;
    tokens.closing(Kind::CloseParen, found)
}

/// The arguments that a comma or a parenthesis goes on with, behind the first one.
#[cycle(expr)]
#[tactic(auto, unfolding(crate::specs::Reading::behind_first, crate::specs::Reading::and_then, crate::specs::Reading::pick))]
fn behind_first<'a>(
    alloc: Global,
    depth: usize,
    first: Items<Argument<'a>>,
    tokens: &mut Cursor<'a>,
) -> Result<Items<Argument<'a>>, ReadFault>
    ensures { Reads (reading.behind_first (reading.argument (reading.expr depth)) first.entry tokens.old) result tokens.new }
{
    if tokens.sees(Kind::OpenParen) {
        return enclosed(alloc, depth, first, tokens);
    }
    if !tokens.sees(Kind::Comma) {
        return Ok(first);
    }
    tokens.expect(Kind::Comma)?;
    argument_list(alloc, depth, first, tokens)
}

/// The arguments of a receive or a poll.
#[cycle(expr)]
#[tactic(auto, unfolding(crate::specs::Reading::arguments, crate::specs::Reading::and_then, crate::specs::Reading::pick))]
pub fn arguments<'a>(
    alloc: Global,
    depth: usize,
    tokens: &mut Cursor<'a>,
) -> Result<Items<Argument<'a>>, ReadFault>
    ensures { Reads (reading.arguments (reading.expr depth) tokens.old) result tokens.new }
{
    if tokens.sees(Kind::OpenParen) {
        return enclosed(alloc, depth, Items::new(alloc), tokens);
    }
    let x = argument(alloc, depth, tokens)?;
    let mut first = room_for(alloc, 1)?;
    first.push(x)?;
    behind_first(alloc, depth, first, tokens)
}

/// The arguments of a poll, in brackets.
#[cycle(expr)]
#[tactic(auto, unfolding(crate::specs::Reading::polled, crate::specs::Reading::and_then))]
pub(crate) fn polled<'a>(
    alloc: Global,
    depth: usize,
    tokens: &mut Cursor<'a>,
) -> Result<Items<Argument<'a>>, ReadFault>
    ensures { Reads (reading.polled (reading.expr depth) tokens.old) result tokens.new }
{
    tokens.expect(Kind::OpenBracket)?;
    let found = arguments(alloc, depth, tokens)?;
    tokens.closing(Kind::CloseBracket, found)
}
