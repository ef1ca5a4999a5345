//! What a `for` or a `select` counts over.

ghost use Rattle.std.specs.Prelude.{◌≡◌};
ghost use Rattle.pml_expression.specs.Reading as expressions;
ghost use Rattle.pml_expression.specs.Reading.{Reads};
ghost use Rattle.pml_syntax.specs.Answer.{Gives};
ghost use Rattle.pml_syntax.specs.ReadingStatements as reading;

use crate::action::boxed_reference;
use pml_expression::cursor::Cursor;
use pml_expression::expr::boxed_expr;
use pml_expression::fault::ReadFault;
use pml_token::token::{Kind, Token};
use pml_tree::tokens::Tokens;
use pml_tree::tree::{Expr, Reference};
use promela_grammar::range::{Bound, Counter, Range};
use sqlite_items::Boxed;
use std::alloc::Global;

/// The word, which is to be of this kind, and the parenthesis behind it. Answers the line of the word.
#[tactic(auto, unfolding(crate::specs::ReadingStatements::opened, pml_expression::specs::Reading::and_then))]
fn opened(word: Kind, tokens: &mut Cursor<'_>) -> Result<u32, ReadFault>
    ensures { Reads (reading.opened word tokens.old) result tokens.new }
{
    let word = tokens.expect(word)?;
    tokens.expect(Kind::OpenParen)?;
    Ok(word.line())
}

/// The reference at the front of tokens that are read again.
fn peeked<'a>(
    alloc: Global,
    depth: usize,
    tokens: &'a [Token<'a>],
) -> Result<Boxed<Reference<'a>>, ReadFault>
    ensures { Gives (expressions.reference (expressions.expr depth) tokens.now) result }
{
    let mut ahead = Cursor::new(tokens);
    boxed_reference(alloc, depth, &mut ahead)
}

/// The variable, read once for each place that it has.
#[tactic(auto, unfolding(crate::specs::ReadingStatements::loop_variable, pml_expression::specs::Reading::and_then))]
fn loop_variable<'a>(
    alloc: Global,
    depth: usize,
    line: u32,
    tokens: &mut Cursor<'a>,
) -> Result<Counter<'a>, ReadFault>
    ensures { Reads (reading.loop_variable depth line tokens.old) result tokens.new }
{
    let start = tokens.ahead();
    let set = peeked(alloc, depth, start)?;
    let compared = peeked(alloc, depth, start)?;
    let raised = boxed_reference(alloc, depth, tokens)?;
    Ok(Counter {
        line,
        set,
        compared,
        raised,
        tokens: tokens.since(start),
    })
}

/// A value behind a token of this kind.
#[tactic(auto, unfolding(crate::specs::ReadingStatements::loop_bound, pml_expression::specs::Reading::and_then))]
fn loop_bound<'a>(
    alloc: Global,
    depth: usize,
    front: Kind,
    tokens: &mut Cursor<'a>,
) -> Result<Bound<'a>, ReadFault>
    ensures { Reads (reading.loop_bound depth front tokens.old) result tokens.new }
{
    tokens.expect(front)?;
    let start = tokens.ahead();
    let value = boxed_expr(alloc, depth, 1, tokens)?;
    Ok(Bound {
        value,
        tokens: tokens.since(start),
    })
}

/// The two values, up to the parenthesis that closes.
#[tactic(auto, unfolding(crate::specs::ReadingStatements::loop_bounds, pml_expression::specs::Reading::closing, pml_expression::specs::Reading::and_then))]
fn loop_bounds<'a>(
    alloc: Global,
    depth: usize,
    tokens: &mut Cursor<'a>,
) -> Result<(Bound<'a>, Bound<'a>), ReadFault>
    ensures { Reads (reading.loop_bounds depth tokens.old) result tokens.new }
{
    let first = loop_bound(alloc, depth, Kind::Colon, tokens)?;
    let last = loop_bound(alloc, depth, Kind::DotDot, tokens)?;
    tokens.closing(Kind::CloseParen, (first, last))
}

/// What is counted over, with the word, which is to be of this kind.
#[tactic(auto, unfolding(crate::specs::ReadingStatements::loop_range, pml_expression::specs::Reading::and_then))]
fn loop_range<'a>(
    alloc: Global,
    depth: usize,
    word: Kind,
    tokens: &mut Cursor<'a>,
) -> Result<Range<'a>, ReadFault>
    ensures { Reads (reading.loop_range depth word tokens.old) result tokens.new }
{
    let line = opened(word, tokens)?;
    let counter = loop_variable(alloc, depth, line, tokens)?;
    let (first, last) = loop_bounds(alloc, depth, tokens)?;
    Ok(Range {
        counter,
        first,
        last,
    })
}

/// What is counted over, in a box.
pub fn boxed_range<'a>(
    alloc: Global,
    depth: usize,
    word: Kind,
    tokens: &mut Cursor<'a>,
) -> Result<Boxed<Range<'a>>, ReadFault>
    ensures { Reads (reading.loop_range depth word tokens.old) result tokens.new }
{
    let range = loop_range(alloc, depth, word, tokens)?;
    Ok(Boxed::new(alloc, range)?)
}
