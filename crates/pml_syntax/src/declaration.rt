//! Declarations of variables. Each is read with whether it ends with `}`.

ghost use Rattle.std.specs.Prelude.{◌≡◌, length, []};
ghost use Rattle.pml_expression.specs.Reading as expressions;
ghost use Rattle.pml_expression.specs.Reading.{Reads};
ghost use Rattle.pml_syntax.specs.ReadingStatements as reading;

use crate::ahead::skip_visibility;
use crate::starts::scalar;
use pml_expression::cursor::Cursor;
use pml_expression::expr::{boxed_expr, expr_behind};
use pml_expression::fault::ReadFault;
use pml_expression::references::{index, reference};
use pml_token::token::{Kind, Token};
use pml_tree::tree::{Expr, Initial, Reference, Scalar, Sort, Variable};
use promela_grammar::opener::Opener;
use sqlite_items::{Boxed, Items};
use std::alloc::Global;

/// A type, `unsigned`, or the name of a typedef.
#[tactic(auto, unfolding(crate::specs::ReadingStatements::opener_of, pml_expression::specs::Reading::and_then, pml_expression::specs::Reading::pick))]
pub fn opener_of<'a>(tokens: &mut Cursor<'a>) -> Result<Opener<'a>, ReadFault>
    ensures { Reads (reading.opener_of tokens.old) result tokens.new }
{
    if let Some(s) = scalar(tokens.peek()) {
        tokens.skip();
        return Ok(Opener::Plain(s));
    }
    if tokens.sees(Kind::Unsigned) {
        tokens.expect(Kind::Unsigned)?;
        return Ok(Opener::Unsigned);
    }
    Ok(Opener::Named(tokens.expect(Kind::Name)?))
}

#[tactic(auto, unfolding(crate::specs::ReadingStatements::scalar_of))]
fn scalar_of(tokens: &mut Cursor<'_>) -> Result<Scalar, ReadFault>
    ensures { Reads (reading.scalar_of tokens.old) result tokens.new }
{
    let Some(s) = scalar(tokens.peek()) else {
        return Err(tokens.refuse());
    };
    tokens.skip();
    Ok(s)
}

#[tactic(auto, unfolding(pml_expression::specs::Reading::list_from, pml_expression::specs::Reading::and_then, pml_expression::specs::Reading::pick))]
fn scalars(alloc: Global, tokens: &mut Cursor<'_>) -> Result<Items<Scalar>, ReadFault>
    ensures { Reads (expressions.list_from reading.scalar_of (length tokens.old) [] tokens.old) result tokens.new }
{
    let mut found = Items::new(alloc);
    for _turn in 0..tokens.left() {
        let s = scalar_of(tokens)?;
        found.push(s)?;
        if !tokens.sees(Kind::Comma) {
            return Ok(found);
        }
        tokens.expect(Kind::Comma)?;
    }
    Err(tokens.refuse())
}

/// The capacity of a channel, up to the types that it carries.
#[tactic(auto, unfolding(crate::specs::ReadingStatements::capacity, pml_expression::specs::Reading::and_then))]
fn capacity<'a>(
    alloc: Global,
    depth: usize,
    tokens: &mut Cursor<'a>,
) -> Result<Boxed<Expr<'a>>, ReadFault>
    ensures { Reads (reading.capacity depth tokens.old) result tokens.new }
{
    let x = expr_behind(alloc, depth, Kind::OpenBracket, tokens)?;
    tokens.expect_all(&[Kind::CloseBracket, Kind::Of, Kind::OpenBrace])?;
    Ok(x)
}

#[tactic(auto, unfolding(crate::specs::ReadingStatements::channel, pml_expression::specs::Reading::closing, pml_expression::specs::Reading::and_then))]
fn channel<'a>(
    alloc: Global,
    depth: usize,
    tokens: &mut Cursor<'a>,
) -> Result<(Option<Initial<'a>>, bool), ReadFault>
    ensures { Reads (reading.channel depth tokens.old) result tokens.new }
{
    let capacity = capacity(alloc, depth, tokens)?;
    let types = scalars(alloc, tokens)?;
    tokens.expect(Kind::CloseBrace)?;
    Ok((Some(Initial::Channel(capacity, types)), true))
}

#[tactic(auto, unfolding(crate::specs::ReadingStatements::initial, pml_expression::specs::Reading::and_then, pml_expression::specs::Reading::pick))]
fn initial<'a>(
    alloc: Global,
    depth: usize,
    tokens: &mut Cursor<'a>,
) -> Result<(Option<Initial<'a>>, bool), ReadFault>
    ensures { Reads (reading.initial depth tokens.old) result tokens.new }
{
    if !tokens.sees(Kind::Assign) {
        return Ok((None, false));
    }
    tokens.expect(Kind::Assign)?;
    if tokens.sees(Kind::OpenBracket) {
        return channel(alloc, depth, tokens);
    }
    let x = boxed_expr(alloc, depth, 1, tokens)?;
    Ok((Some(Initial::Value(x)), false))
}

#[tactic(auto, unfolding(crate::specs::ReadingStatements::packed_value, pml_expression::specs::Reading::and_then, pml_expression::specs::Reading::pick))]
fn packed_value<'a>(
    alloc: Global,
    depth: usize,
    tokens: &mut Cursor<'a>,
) -> Result<Option<Initial<'a>>, ReadFault>
    ensures { Reads (reading.packed_value depth tokens.old) result tokens.new }
{
    if !tokens.sees(Kind::Assign) {
        return Ok(None);
    }
    let x = expr_behind(alloc, depth, Kind::Assign, tokens)?;
    Ok(Some(Initial::Value(x)))
}

#[tactic(auto, unfolding(crate::specs::ReadingStatements::plain, pml_expression::specs::Reading::and_then))]
fn plain<'a>(
    alloc: Global,
    depth: usize,
    s: Scalar,
    tokens: &mut Cursor<'a>,
) -> Result<(Variable<'a>, bool), ReadFault>
    ensures { Reads (reading.plain depth s tokens.old) result tokens.new }
{
    let name = tokens.expect(Kind::Name)?;
    let size = index(alloc, depth, tokens)?;
    let (initial, closed) = initial(alloc, depth, tokens)?;
    let sort = Sort::Plain(s);
    let v = Variable {
        sort,
        name,
        size,
        initial,
    };
    Ok((v, closed))
}

#[tactic(auto, unfolding(crate::specs::ReadingStatements::structured, pml_expression::specs::Reading::and_then))]
fn structured<'a>(
    alloc: Global,
    depth: usize,
    typedef: &Token<'a>,
    tokens: &mut Cursor<'a>,
) -> Result<(Variable<'a>, bool), ReadFault>
    ensures { Reads (reading.structured depth typedef.now tokens.old) result tokens.new }
{
    let name = tokens.expect(Kind::Name)?;
    let size = index(alloc, depth, tokens)?;
    let sort = Sort::Named(typedef.copied());
    let v = Variable {
        sort,
        name,
        size,
        initial: None,
    };
    Ok((v, false))
}

#[tactic(auto, unfolding(crate::specs::ReadingStatements::packed, pml_expression::specs::Reading::and_then))]
fn packed<'a>(
    alloc: Global,
    depth: usize,
    tokens: &mut Cursor<'a>,
) -> Result<(Variable<'a>, bool), ReadFault>
    ensures { Reads (reading.packed depth tokens.old) result tokens.new }
{
    let name = tokens.expect(Kind::Name)?;
    tokens.expect(Kind::Colon)?;
    let width = tokens.expect(Kind::Number)?;
    let initial = packed_value(alloc, depth, tokens)?;
    let sort = Sort::Unsigned(width);
    let v = Variable {
        sort,
        name,
        size: None,
        initial,
    };
    Ok((v, false))
}

fn variable<'a>(
    alloc: Global,
    depth: usize,
    opener: &Opener<'a>,
    tokens: &mut Cursor<'a>,
) -> Result<(Variable<'a>, bool), ReadFault>
    ensures { Reads (reading.variable_by depth opener.now tokens.old) result tokens.new }
{
    match opener {
        Opener::Plain(s) => plain(alloc, depth, *s, tokens),
        Opener::Unsigned => packed(alloc, depth, tokens),
        Opener::Named(typedef) => structured(alloc, depth, typedef, tokens),
    }
}

/// Variables with commas between them, behind the first ones.
#[tactic(auto, unfolding(crate::specs::ReadingStatements::variables_from, pml_expression::specs::Reading::and_then, pml_expression::specs::Reading::pick))]
fn variables<'a>(
    alloc: Global,
    depth: usize,
    opener: &Opener<'a>,
    first: Items<Variable<'a>>,
    tokens: &mut Cursor<'a>,
) -> Result<(Items<Variable<'a>>, bool), ReadFault>
    ensures { Reads (reading.variables_from depth (length tokens.old) opener.now first.entry tokens.old) result tokens.new }
{
    let mut found = first;
    for _turn in 0..tokens.left() {
        let (v, closed) = variable(alloc, depth, opener, tokens)?;
        found.push(v)?;
        if !tokens.sees(Kind::Comma) {
            return Ok((found, closed));
        }
        tokens.expect(Kind::Comma)?;
    }
    Err(tokens.refuse())
}

/// The variables of a declaration, behind the first ones.
#[tactic(auto, unfolding(crate::specs::ReadingStatements::declaration_from, pml_expression::specs::Reading::and_then))]
pub fn declaration<'a>(
    alloc: Global,
    depth: usize,
    first: Items<Variable<'a>>,
    tokens: &mut Cursor<'a>,
) -> Result<(Items<Variable<'a>>, bool), ReadFault>
    ensures { Reads (reading.declaration_from depth first.entry tokens.old) result tokens.new }
{
    skip_visibility(tokens);
    let opener = opener_of(tokens)?;
    variables(alloc, depth, &opener, first, tokens)
}

/// References with commas between them.
#[tactic(auto, unfolding(crate::specs::ReadingStatements::references, pml_expression::specs::Reading::list_from, pml_expression::specs::Reading::and_then, pml_expression::specs::Reading::pick))]
pub fn references<'a>(
    alloc: Global,
    depth: usize,
    tokens: &mut Cursor<'a>,
) -> Result<Items<Reference<'a>>, ReadFault>
    ensures { Reads (reading.references depth tokens.old) result tokens.new }
{
    let mut found = Items::new(alloc);
    for _turn in 0..tokens.left() {
        let r = reference(alloc, depth, tokens)?;
        found.push(r)?;
        if !tokens.sees(Kind::Comma) {
            return Ok(found);
        }
        tokens.expect(Kind::Comma)?;
    }
    Err(tokens.refuse())
}
