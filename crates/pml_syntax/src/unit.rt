//! Units of a model.

ghost use Rattle.std.specs.Prelude.{◌≡◌, IfOk, length, []};
ghost use Rattle.promela_grammar.specs.Actions as grammar;
ghost use Rattle.pml_expression.specs.Reading as expressions;
ghost use Rattle.pml_expression.specs.Reading.{Reads};
ghost use Rattle.pml_syntax.specs.ReadingUnits as reading;

use crate::ahead::{skip_semicolons, skip_visibility};
use crate::body::body;
use crate::declaration::{declaration, opener_of};
use crate::starts::{Head, declares, head_of, parts_parameters};
use pml_expression::cursor::Cursor;
use pml_expression::fault::ReadFault;
use pml_expression::references::index;
use pml_token::token::{Kind, Token};
use pml_tree::room::room_for;
use pml_tree::tree::{Item, Proctype, Scalar, Seq, Sort, Starts, Tree, Unit, Variable};
use promela_grammar::opener::Opener;
use sqlite_items::{Boxed, Items};
use std::alloc::Global;

#[tactic(auto, unfolding(crate::specs::ReadingUnits::plain_parameter, pml_expression::specs::Reading::and_then))]
fn plain_parameter<'a>(s: Scalar, tokens: &mut Cursor<'a>) -> Result<Variable<'a>, ReadFault>
    ensures { Reads (reading.plain_parameter s tokens.old) result tokens.new }
{
    let name = tokens.expect(Kind::Name)?;
    Ok(Variable {
        sort: Sort::Plain(s),
        name,
        size: None,
        initial: None,
    })
}

#[tactic(auto, unfolding(crate::specs::ReadingUnits::packed_parameter, pml_expression::specs::Reading::and_then))]
fn packed_parameter<'a>(tokens: &mut Cursor<'a>) -> Result<Variable<'a>, ReadFault>
    ensures { Reads (reading.packed_parameter tokens.old) result tokens.new }
{
    let name = tokens.expect(Kind::Name)?;
    tokens.expect(Kind::Colon)?;
    let width = tokens.expect(Kind::Number)?;
    Ok(Variable {
        sort: Sort::Unsigned(width),
        name,
        size: None,
        initial: None,
    })
}

/// A parameter behind its type.
fn parameter<'a>(opener: &Opener<'a>, tokens: &mut Cursor<'a>) -> Result<Variable<'a>, ReadFault>
    ensures { Reads (reading.parameter_by opener.now tokens.old) result tokens.new }
{
    match opener {
        Opener::Plain(s) => plain_parameter(*s, tokens),
        Opener::Unsigned => packed_parameter(tokens),
        Opener::Named(_) => Err(tokens.refuse()),
    }
}

#[tactic(auto, unfolding(crate::specs::ReadingUnits::typed_parameter, pml_expression::specs::Reading::and_then))]
fn typed_parameter<'a>(tokens: &mut Cursor<'a>) -> Result<(Variable<'a>, Opener<'a>), ReadFault>
    ensures { Reads (reading.typed_parameter tokens.old) result tokens.new }
{
    skip_visibility(tokens);
    let opener = opener_of(tokens)?;
    let v = parameter(&opener, tokens)?;
    Ok((v, opener))
}

#[tactic(auto, unfolding(crate::specs::ReadingUnits::next_parameter, pml_expression::specs::Reading::and_then, pml_expression::specs::Reading::pick))]
fn next_parameter<'a>(
    opener: Opener<'a>,
    tokens: &mut Cursor<'a>,
) -> Result<(Variable<'a>, Opener<'a>), ReadFault>
    ensures { Reads (reading.next_parameter opener.entry tokens.old) result tokens.new }
{
    if declares(tokens.peek()) {
        return typed_parameter(tokens);
    }
    let v = parameter(&opener, tokens)?;
    Ok((v, opener))
}

/// The parameter behind a separator. A comma may leave out its type, which is then that of the one before.
#[tactic(auto, unfolding(crate::specs::ReadingUnits::more_parameter, pml_expression::specs::Reading::pick))]
fn more_parameter<'a>(
    opener: Opener<'a>,
    tokens: &mut Cursor<'a>,
) -> Result<(Variable<'a>, Opener<'a>), ReadFault>
    ensures { Reads (reading.more_parameter opener.entry tokens.old) result tokens.new }
{
    if tokens.sees(Kind::Semicolon) {
        tokens.skip();
        return typed_parameter(tokens);
    }
    tokens.skip();
    next_parameter(opener, tokens)
}

#[tactic(auto, unfolding(crate::specs::ReadingUnits::parameters_from, pml_expression::specs::Reading::and_then, pml_expression::specs::Reading::pick))]
fn more_parameters<'a>(
    first_opener: Opener<'a>,
    first: Items<Variable<'a>>,
    tokens: &mut Cursor<'a>,
) -> Result<Items<Variable<'a>>, ReadFault>
    ensures { Reads (reading.parameters_from (length tokens.old) first_opener.entry first.entry tokens.old) result tokens.new }
{
    let mut found = first;
    let mut opener = first_opener;
    for _turn in 0..tokens.left() {
        if !parts_parameters(tokens.peek()) {
            return Ok(found);
        }
        let (v, later) = more_parameter(opener, tokens)?;
        found.push(v)?;
        opener = later;
    }
    Ok(found)
}

#[tactic(auto, unfolding(crate::specs::ReadingUnits::parameters, pml_expression::specs::Reading::and_then, pml_expression::specs::Reading::pick))]
fn parameters<'a>(alloc: Global, tokens: &mut Cursor<'a>) -> Result<Items<Variable<'a>>, ReadFault>
    ensures { Reads (reading.parameters tokens.old) result tokens.new }
{
    let mut first = Items::new(alloc);
    if tokens.sees(Kind::CloseParen) {
        return Ok(first);
    }
    let (v, opener) = typed_parameter(tokens)?;
    first.push(v)?;
    more_parameters(opener, first, tokens)
}

/// Names with commas between them.
#[tactic(auto, unfolding(pml_expression::specs::Reading::list_from, pml_expression::specs::Reading::and_then, pml_expression::specs::Reading::pick))]
fn name_list<'a>(alloc: Global, tokens: &mut Cursor<'a>) -> Result<Items<Token<'a>>, ReadFault>
    ensures { Reads (expressions.list_from (expressions.expect Kind.Name) (length tokens.old) [] tokens.old) result tokens.new }
{
    let mut found = Items::new(alloc);
    for _turn in 0..tokens.left() {
        let name = tokens.expect(Kind::Name)?;
        found.push(name)?;
        if !tokens.sees(Kind::Comma) {
            return Ok(found);
        }
        tokens.expect(Kind::Comma)?;
    }
    Err(tokens.refuse())
}

#[tactic(auto, unfolding(crate::specs::ReadingUnits::names, pml_expression::specs::Reading::closing, pml_expression::specs::Reading::and_then))]
fn names<'a>(alloc: Global, tokens: &mut Cursor<'a>) -> Result<Items<Token<'a>>, ReadFault>
    ensures { Reads (reading.names tokens.old) result tokens.new }
{
    tokens.expect(Kind::OpenBrace)?;
    let found = name_list(alloc, tokens)?;
    tokens.closing(Kind::CloseBrace, found)
}

#[tactic(auto, unfolding(crate::specs::ReadingUnits::constants, pml_expression::specs::Reading::and_then, pml_expression::specs::Reading::pick))]
fn constants<'a>(alloc: Global, tokens: &mut Cursor<'a>) -> Result<Unit<'a>, ReadFault>
    ensures { Reads (reading.constants tokens.old) result tokens.new }
{
    if tokens.sees(Kind::Assign) {
        tokens.expect(Kind::Assign)?;
        let found = names(alloc, tokens)?;
        return Ok(Unit::Constants(found));
    }
    let found = names(alloc, tokens)?;
    Ok(Unit::Constants(found))
}

#[tactic(auto, unfolding(crate::specs::ReadingUnits::starts, pml_expression::specs::Reading::and_then, pml_expression::specs::Reading::pick))]
fn starts<'a>(alloc: Global, depth: usize, tokens: &mut Cursor<'a>) -> Result<Starts<'a>, ReadFault>
    ensures { Reads (reading.starts depth tokens.old) result tokens.new }
{
    if !tokens.sees(Kind::Active) {
        return Ok(Starts::Never);
    }
    tokens.expect(Kind::Active)?;
    match index(alloc, depth, tokens)? {
        None => Ok(Starts::Once),
        Some(count) => Ok(Starts::Times(count)),
    }
}

/// The declarations of a typedef.
#[tactic(auto, unfolding(crate::specs::ReadingUnits::members_from, pml_expression::specs::Reading::and_then, pml_expression::specs::Reading::pick))]
fn members<'a>(
    alloc: Global,
    depth: usize,
    tokens: &mut Cursor<'a>,
) -> Result<Items<Variable<'a>>, ReadFault>
    ensures { Reads (reading.members_from depth (length tokens.old) [] tokens.old) result tokens.new }
{
    let mut found = Items::new(alloc);
    for _turn in 0..tokens.left() {
        let (more, _) = declaration(alloc, depth, found, tokens)?;
        found = more;
        let separated = tokens.sees(Kind::Semicolon);
        skip_semicolons(tokens);
        if tokens.sees(Kind::CloseBrace) {
            return Ok(found);
        }
        if !separated {
            return Err(tokens.refuse());
        }
    }
    Err(tokens.refuse())
}

#[tactic(auto, unfolding(crate::specs::ReadingUnits::typedef, pml_expression::specs::Reading::closing, pml_expression::specs::Reading::and_then))]
fn typedef<'a>(alloc: Global, depth: usize, tokens: &mut Cursor<'a>) -> Result<Unit<'a>, ReadFault>
    ensures { Reads (reading.typedef depth tokens.old) result tokens.new }
{
    let name = tokens.expect_name(Kind::Typedef, Kind::OpenBrace)?;
    let fields = members(alloc, depth, tokens)?;
    tokens.closing(Kind::CloseBrace, Unit::Typedef(name, fields))
}

#[tactic(auto, unfolding(crate::specs::ReadingUnits::items_or_none, pml_expression::specs::Reading::and_then, pml_expression::specs::Reading::pick))]
fn items_or_none<'a>(
    alloc: Global,
    depth: usize,
    tokens: &mut Cursor<'a>,
) -> Result<Items<Item<'a>>, ReadFault>
    ensures { Reads (reading.items_or_none depth tokens.old) result tokens.new }
{
    if tokens.sees(Kind::CloseBrace) {
        return Ok(Items::new(alloc));
    }
    let (items, _) = body(alloc, depth, tokens)?;
    Ok(items)
}

/// The body of a process, with the brace that ends it.
#[tactic(auto, unfolding(crate::specs::ReadingUnits::body, pml_expression::specs::Reading::ending, pml_expression::specs::Reading::and_then))]
fn braced<'a>(
    alloc: Global,
    depth: usize,
    tokens: &mut Cursor<'a>,
) -> Result<(Items<Item<'a>>, Token<'a>), ReadFault>
    ensures { Reads (reading.body depth tokens.old) result tokens.new }
{
    tokens.expect(Kind::OpenBrace)?;
    let items = items_or_none(alloc, depth, tokens)?;
    tokens.ending(Kind::CloseBrace, items)
}

/// The name of a proctype, and its parameters.
#[tactic(auto, unfolding(crate::specs::ReadingUnits::signature, pml_expression::specs::Reading::closing, pml_expression::specs::Reading::and_then))]
fn signature<'a>(
    alloc: Global,
    tokens: &mut Cursor<'a>,
) -> Result<(Token<'a>, Items<Variable<'a>>), ReadFault>
    ensures { Reads (reading.signature tokens.old) result tokens.new }
{
    let name = tokens.expect_name(Kind::Proctype, Kind::OpenParen)?;
    let found = parameters(alloc, tokens)?;
    tokens.closing(Kind::CloseParen, (name, found))
}

/// A proctype, or `init`, from its body on.
#[tactic(auto, unfolding(crate::specs::ReadingUnits::process, pml_expression::specs::Reading::and_then))]
fn process<'a>(
    alloc: Global,
    depth: usize,
    starts: Starts<'a>,
    name: Token<'a>,
    parameters: Items<Variable<'a>>,
    tokens: &mut Cursor<'a>,
) -> Result<Unit<'a>, ReadFault>
    ensures { Reads (reading.process depth starts.entry name.entry parameters.entry tokens.old) result tokens.new }
{
    let (items, end) = braced(alloc, depth, tokens)?;
    let process = Proctype {
        starts,
        name,
        parameters,
        body: Seq { items },
        end,
    };
    Ok(Unit::Proctype(process))
}

#[tactic(auto, unfolding(crate::specs::ReadingUnits::proctype, pml_expression::specs::Reading::and_then))]
fn proctype<'a>(alloc: Global, depth: usize, tokens: &mut Cursor<'a>) -> Result<Unit<'a>, ReadFault>
    ensures { Reads (reading.proctype depth tokens.old) result tokens.new }
{
    let starts = starts(alloc, depth, tokens)?;
    let (name, parameters) = signature(alloc, tokens)?;
    process(alloc, depth, starts, name, parameters, tokens)
}

#[tactic(auto, unfolding(crate::specs::ReadingUnits::init, pml_expression::specs::Reading::and_then))]
fn init<'a>(alloc: Global, depth: usize, tokens: &mut Cursor<'a>) -> Result<Unit<'a>, ReadFault>
    ensures { Reads (reading.init depth tokens.old) result tokens.new }
{
    let name = tokens.expect(Kind::Init)?;
    process(alloc, depth, Starts::Once, name, Items::new(alloc), tokens)
}

#[tactic(auto, unfolding(crate::specs::ReadingUnits::variables, pml_expression::specs::Reading::and_then))]
fn variables<'a>(
    alloc: Global,
    depth: usize,
    tokens: &mut Cursor<'a>,
) -> Result<Unit<'a>, ReadFault>
    ensures { Reads (reading.variables depth tokens.old) result tokens.new }
{
    let (found, _) = declaration(alloc, depth, room_for(alloc, 1)?, tokens)?;
    Ok(Unit::Variables(found))
}

#[tactic(auto, unfolding(crate::specs::ReadingUnits::unit, pml_expression::specs::Reading::pick))]
fn unit<'a>(alloc: Global, depth: usize, tokens: &mut Cursor<'a>) -> Result<Unit<'a>, ReadFault>
    ensures { Reads (reading.unit depth tokens.old) result tokens.new }
{
    match head_of(tokens.peek()) {
        Head::Mtype => {
            if tokens.sees_second(Kind::Name) {
                return variables(alloc, depth, tokens);
            }
            tokens.skip();
            constants(alloc, tokens)
        }
        Head::Typedef => typedef(alloc, depth, tokens),
        Head::Proctype => proctype(alloc, depth, tokens),
        Head::Init => init(alloc, depth, tokens),
        Head::Other => variables(alloc, depth, tokens),
    }
}

#[tactic(auto, unfolding(crate::specs::ReadingUnits::units_from, pml_expression::specs::Reading::and_then, pml_expression::specs::Reading::pick))]
fn units<'a>(
    alloc: Global,
    depth: usize,
    tokens: &mut Cursor<'a>,
) -> Result<Items<Unit<'a>>, ReadFault>
    ensures { Reads (reading.units_from depth (length tokens.old) [] tokens.old) result tokens.new }
{
    let mut found = Items::new(alloc);
    for _turn in 0..tokens.left() {
        skip_semicolons(tokens);
        if tokens.is_empty() {
            return Ok(found);
        }
        let x = unit(alloc, depth, tokens)?;
        found.push(x)?;
    }
    skip_semicolons(tokens);
    if !tokens.is_empty() {
        return Err(tokens.refuse());
    }
    Ok(found)
}

/// The tree of all the tokens that are left. It nests no deeper than `depth`.
#[tactic(auto, unfolding(crate::specs::ReadingUnits::model, pml_expression::specs::Reading::and_then))]
pub fn model<'a>(
    alloc: Global,
    depth: usize,
    tokens: &mut Cursor<'a>,
) -> Result<Tree<'a>, ReadFault>
    ensures { Reads (reading.model depth tokens.old) result tokens.new }
{
    let units = units(alloc, depth, tokens)?;
    Ok(Tree { units })
}
