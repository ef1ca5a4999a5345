//! Statements without structure. Each is read with whether it ends with `else`.

ghost use Rattle.std.specs.Prelude.{length, []};
ghost use Rattle.pml_expression.specs.Reading as expressions;
ghost use Rattle.pml_expression.specs.Reading.{Reads};
ghost use Rattle.pml_syntax.specs.ReadingStatements as reading;

use crate::ahead::leads_to_run;
use crate::boxes;
use crate::starts::{Change, Deed, change_of, deed_of};
use pml_expression::cursor::Cursor;
use pml_expression::expr::{behind, boxed_expr, climb, expr_behind};
use pml_expression::fault::ReadFault;
use pml_expression::list::{expr_list, values};
use pml_expression::references::{arguments, expr_between, reference};
use pml_token::token::{Kind, Token};
use pml_tree::room::room_for;
use pml_tree::tree::{Action, Argument, Expr, Reference, Removal, Run, Search, SendOrder};
use sqlite_items::{Boxed, Items};
use std::alloc::Global;

#[tactic(auto, unfolding(crate::specs::ReadingStatements::run_values, pml_expression::specs::Reading::pick))]
fn run_values<'a>(
    alloc: Global,
    depth: usize,
    tokens: &mut Cursor<'a>,
) -> Result<Items<Expr<'a>>, ReadFault>
    ensures { Reads (reading.run_values depth tokens.old) result tokens.new }
{
    if tokens.sees(Kind::CloseParen) {
        return Ok(Items::new(alloc));
    }
    expr_list(alloc, depth, room_for(alloc, 1)?, tokens)
}

#[tactic(auto, unfolding(crate::specs::ReadingStatements::run_call, pml_expression::specs::Reading::closing, pml_expression::specs::Reading::and_then))]
fn run_call<'a>(alloc: Global, depth: usize, tokens: &mut Cursor<'a>) -> Result<Run<'a>, ReadFault>
    ensures { Reads (reading.run_call depth tokens.old) result tokens.new }
{
    let name = tokens.expect_name(Kind::Run, Kind::OpenParen)?;
    let arguments = run_values(alloc, depth, tokens)?;
    tokens.closing(Kind::CloseParen, Run { name, arguments })
}

/// A run in at most `nested - 1` parentheses.
#[tactic(auto, unfolding(crate::specs::ReadingStatements::run_within, pml_expression::specs::Reading::and_then, pml_expression::specs::Reading::pick))]
fn run_within<'a>(
    alloc: Global,
    depth: usize,
    nested: usize,
    tokens: &mut Cursor<'a>,
) -> Result<Run<'a>, ReadFault>
    ensures { Reads (reading.run_within depth nested tokens.old) result tokens.new }
{
    if nested == 0 {
        return Err(tokens.refuse());
    }
    if !tokens.sees(Kind::OpenParen) {
        return run_call(alloc, depth, tokens);
    }
    tokens.expect(Kind::OpenParen)?;
    let x = run_within(alloc, depth, nested - 1, tokens)?;
    tokens.expect(Kind::CloseParen)?;
    Ok(x)
}

#[tactic(auto, unfolding(crate::specs::ReadingStatements::run_first, pml_expression::specs::Reading::and_then))]
fn run_first<'a>(
    alloc: Global,
    depth: usize,
    tokens: &mut Cursor<'a>,
) -> Result<(Boxed<Action<'a>>, bool), ReadFault>
    ensures { Reads (reading.run_first depth tokens.old) result tokens.new }
{
    let x = run_within(alloc, depth, tokens.left(), tokens)?;
    boxes::run(alloc, x)
}

#[tactic(auto, unfolding(crate::specs::ReadingStatements::holds, pml_expression::specs::Reading::and_then))]
fn holds<'a>(
    alloc: Global,
    depth: usize,
    tokens: &mut Cursor<'a>,
) -> Result<(Boxed<Action<'a>>, bool), ReadFault>
    ensures { Reads (reading.holds depth tokens.old) result tokens.new }
{
    let x = boxed_expr(alloc, depth, 1, tokens)?;
    boxes::holds(alloc, x)
}

/// The expression that begins with a reference, behind that.
#[tactic(auto, unfolding(crate::specs::ReadingStatements::continued, pml_expression::specs::Reading::and_then))]
fn continued<'a>(
    alloc: Global,
    depth: usize,
    r: Boxed<Reference<'a>>,
    tokens: &mut Cursor<'a>,
) -> Result<(Boxed<Action<'a>>, bool), ReadFault>
    ensures { Reads (reading.continued depth r.entry tokens.old) result tokens.new }
{
    let first = behind(alloc, depth, r.into_inner(), tokens)?;
    let x = climb(alloc, depth, 1, first, tokens)?;
    boxes::held(alloc, x)
}

#[tactic(auto, unfolding(crate::specs::ReadingStatements::assigned, pml_expression::specs::Reading::and_then, pml_expression::specs::Reading::pick))]
fn assigned<'a>(
    alloc: Global,
    depth: usize,
    r: Boxed<Reference<'a>>,
    tokens: &mut Cursor<'a>,
) -> Result<(Boxed<Action<'a>>, bool), ReadFault>
    ensures { Reads (reading.assigned depth r.entry tokens.old) result tokens.new }
{
    if leads_to_run(tokens) {
        let x = run_within(alloc, depth, tokens.left(), tokens)?;
        return boxes::assign_run(alloc, r, x);
    }
    let x = boxed_expr(alloc, depth, 1, tokens)?;
    boxes::assign(alloc, r, x)
}

#[tactic(auto, unfolding(crate::specs::ReadingStatements::sent, pml_expression::specs::Reading::and_then))]
fn sent<'a>(
    alloc: Global,
    depth: usize,
    order: SendOrder,
    r: Boxed<Reference<'a>>,
    tokens: &mut Cursor<'a>,
) -> Result<(Boxed<Action<'a>>, bool), ReadFault>
    ensures { Reads (reading.sent depth order r.entry tokens.old) result tokens.new }
{
    let xs = values(alloc, depth, tokens)?;
    boxes::send(alloc, order, r, xs)
}

/// The arguments of a receive that leaves its message in the channel.
#[tactic(auto, unfolding(crate::specs::ReadingStatements::copied, pml_expression::specs::Reading::closing, pml_expression::specs::Reading::and_then))]
fn copied<'a>(
    alloc: Global,
    depth: usize,
    tokens: &mut Cursor<'a>,
) -> Result<Items<Argument<'a>>, ReadFault>
    ensures { Reads (reading.copied depth tokens.old) result tokens.new }
{
    tokens.expect(Kind::Less)?;
    let xs = arguments(alloc, depth, tokens)?;
    tokens.closing(Kind::Greater, xs)
}

#[tactic(auto, unfolding(crate::specs::ReadingStatements::received, pml_expression::specs::Reading::and_then, pml_expression::specs::Reading::pick))]
fn received<'a>(
    alloc: Global,
    depth: usize,
    search: Search,
    r: Boxed<Reference<'a>>,
    tokens: &mut Cursor<'a>,
) -> Result<(Boxed<Action<'a>>, bool), ReadFault>
    ensures { Reads (reading.received depth search r.entry tokens.old) result tokens.new }
{
    if tokens.sees(Kind::Less) {
        let xs = copied(alloc, depth, tokens)?;
        return boxes::receive(alloc, search, Removal::Keep, r, xs);
    }
    let xs = arguments(alloc, depth, tokens)?;
    boxes::receive(alloc, search, Removal::Remove, r, xs)
}

/// What a statement that begins with a reference does with it.
#[tactic(auto, unfolding(crate::specs::ReadingStatements::changed, pml_expression::specs::Reading::and_then, pml_expression::specs::Reading::pick))]
fn changed<'a>(
    alloc: Global,
    depth: usize,
    r: Boxed<Reference<'a>>,
    tokens: &mut Cursor<'a>,
) -> Result<(Boxed<Action<'a>>, bool), ReadFault>
    ensures { Reads (reading.changed depth r.entry tokens.old) result tokens.new }
{
    match change_of(tokens.peek()) {
        Change::Assign => {
            tokens.skip();
            assigned(alloc, depth, r, tokens)
        }
        Change::Increment => {
            tokens.skip();
            boxes::increment(alloc, r)
        }
        Change::Decrement => {
            tokens.skip();
            boxes::decrement(alloc, r)
        }
        Change::Send(order) => {
            tokens.skip();
            sent(alloc, depth, order, r, tokens)
        }
        Change::Receive(search) => {
            if tokens.sees_second(Kind::OpenBracket) {
                return continued(alloc, depth, r, tokens);
            }
            tokens.skip();
            received(alloc, depth, search, r, tokens)
        }
        Change::Other => continued(alloc, depth, r, tokens),
    }
}

#[tactic(auto, unfolding(crate::specs::ReadingStatements::printed, pml_expression::specs::Reading::and_then, pml_expression::specs::Reading::pick))]
fn printed<'a>(
    alloc: Global,
    depth: usize,
    tokens: &mut Cursor<'a>,
) -> Result<Items<Expr<'a>>, ReadFault>
    ensures { Reads (reading.printed depth tokens.old) result tokens.new }
{
    if !tokens.sees(Kind::Comma) {
        return Ok(Items::new(alloc));
    }
    tokens.expect(Kind::Comma)?;
    expr_list(alloc, depth, room_for(alloc, 1)?, tokens)
}

/// A `printf` up to its string.
#[tactic(auto, unfolding(crate::specs::ReadingStatements::format, pml_expression::specs::Reading::and_then))]
fn format<'a>(tokens: &mut Cursor<'a>) -> Result<Token<'a>, ReadFault>
    ensures { Reads (reading.format tokens.old) result tokens.new }
{
    tokens.expect_all(&[Kind::Printf, Kind::OpenParen])?;
    tokens.expect(Kind::Quoted)
}

#[tactic(auto, unfolding(crate::specs::ReadingStatements::printf, pml_expression::specs::Reading::and_then))]
fn printf<'a>(
    alloc: Global,
    depth: usize,
    tokens: &mut Cursor<'a>,
) -> Result<(Boxed<Action<'a>>, bool), ReadFault>
    ensures { Reads (reading.printf depth tokens.old) result tokens.new }
{
    let string = format(tokens)?;
    let xs = printed(alloc, depth, tokens)?;
    tokens.expect(Kind::CloseParen)?;
    boxes::printf(alloc, string, xs)
}

#[tactic(auto, unfolding(crate::specs::ReadingStatements::printm, pml_expression::specs::Reading::and_then))]
fn printm<'a>(
    alloc: Global,
    depth: usize,
    tokens: &mut Cursor<'a>,
) -> Result<(Boxed<Action<'a>>, bool), ReadFault>
    ensures { Reads (reading.printm depth tokens.old) result tokens.new }
{
    tokens.expect(Kind::Printm)?;
    let x = expr_between(alloc, depth, Kind::OpenParen, Kind::CloseParen, tokens)?;
    boxes::printm(alloc, x)
}

/// The reference at the front, in a box.
pub fn boxed_reference<'a>(
    alloc: Global,
    depth: usize,
    tokens: &mut Cursor<'a>,
) -> Result<Boxed<Reference<'a>>, ReadFault>
    ensures { Reads (expressions.reference (expressions.expr depth) tokens.old) result tokens.new }
{
    let r = reference(alloc, depth, tokens)?;
    Ok(Boxed::new(alloc, r)?)
}

#[tactic(auto, unfolding(crate::specs::ReadingStatements::reference_first, pml_expression::specs::Reading::and_then))]
fn reference_first<'a>(
    alloc: Global,
    depth: usize,
    tokens: &mut Cursor<'a>,
) -> Result<(Boxed<Action<'a>>, bool), ReadFault>
    ensures { Reads (reading.reference_first depth tokens.old) result tokens.new }
{
    let r = boxed_reference(alloc, depth, tokens)?;
    changed(alloc, depth, r, tokens)
}

#[tactic(auto, unfolding(crate::specs::ReadingStatements::assert, pml_expression::specs::Reading::and_then))]
fn assert<'a>(
    alloc: Global,
    depth: usize,
    tokens: &mut Cursor<'a>,
) -> Result<(Boxed<Action<'a>>, bool), ReadFault>
    ensures { Reads (reading.assert depth tokens.old) result tokens.new }
{
    let x = expr_behind(alloc, depth, Kind::Assert, tokens)?;
    boxes::assert(alloc, x)
}

/// A statement without structure.
#[tactic(auto, unfolding(crate::specs::ReadingStatements::action, pml_expression::specs::Reading::pick))]
pub fn action<'a>(
    alloc: Global,
    depth: usize,
    tokens: &mut Cursor<'a>,
) -> Result<(Boxed<Action<'a>>, bool), ReadFault>
    ensures { Reads (reading.action depth tokens.old) result tokens.new }
{
    match deed_of(tokens.peek()) {
        Deed::Else => {
            tokens.skip();
            boxes::otherwise(alloc)
        }
        Deed::Name => reference_first(alloc, depth, tokens),
        Deed::Run => run_first(alloc, depth, tokens),
        Deed::Group => {
            if leads_to_run(tokens) {
                return run_first(alloc, depth, tokens);
            }
            holds(alloc, depth, tokens)
        }
        Deed::Printf => printf(alloc, depth, tokens),
        Deed::Printm => printm(alloc, depth, tokens),
        Deed::Assert => assert(alloc, depth, tokens),
        Deed::Other => holds(alloc, depth, tokens),
    }
}
