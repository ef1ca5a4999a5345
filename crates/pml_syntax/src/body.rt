//! Bodies: items one after another. An item is read with whether it is a statement, and whether it ends with `}`, `fi`, `od`
//! or `else`.

ghost use Rattle.std.specs.Prelude.{◌≡◌, ◌||◌, length, [], false};
ghost use Rattle.pml_expression.specs.Reading.{Reads};
ghost use Rattle.pml_syntax.specs.ReadingStatements as reading;

use crate::action::action;
use crate::ahead::{is_declaration, is_label, skip_separators};
use crate::boxes;
use crate::counting::{for_of, select_of};
use crate::declaration::{declaration, references};
use crate::lists::behind;
use crate::range::boxed_range;
use crate::starts::{Opening, is_end, is_exclusive, is_separator, opening_of};
use pml_expression::cursor::Cursor;
use pml_expression::fault::ReadFault;
use pml_expression::list::alone;
use pml_token::token::{Kind, Token};
use pml_tree::room::room_for;
use pml_tree::tree::{Basic, Item, Seq};
use sqlite_items::{Boxed, Items};
use std::alloc::Global;

#[tactic(auto, unfolding(crate::specs::ReadingStatements::labels_from, pml_expression::specs::Reading::and_then, pml_expression::specs::Reading::pick))]
fn labels<'a>(alloc: Global, tokens: &mut Cursor<'a>) -> Result<Items<Token<'a>>, ReadFault>
    ensures { Reads (reading.labels_from (length tokens.old) [] tokens.old) result tokens.new }
{
    let mut found = Items::new(alloc);
    for _turn in 0..tokens.left() {
        if !is_label(tokens) {
            return Ok(found);
        }
        let name = tokens.expect(Kind::Name)?;
        tokens.expect(Kind::Colon)?;
        found.push(name)?;
    }
    Ok(found)
}

fn either(a: bool, b: bool) -> bool
    ensures { result ≡ (a || b) }
{
    a || b
}

#[tactic(auto, unfolding(crate::specs::ReadingStatements::declared, pml_expression::specs::Reading::and_then))]
fn declared<'a>(
    alloc: Global,
    depth: usize,
    tokens: &mut Cursor<'a>,
) -> Result<(Item<'a>, bool, bool), ReadFault>
    ensures { Reads (reading.declared depth tokens.old) result tokens.new }
{
    let start = tokens.ahead();
    let (variables, closed) = declaration(alloc, depth, room_for(alloc, 1)?, tokens)?;
    let made = boxes::declare(alloc, variables);
    boxes::item(alloc, made, tokens.since(start), false, closed)
}

#[tactic(auto, unfolding(crate::specs::ReadingStatements::exclusive, pml_expression::specs::Reading::and_then))]
fn exclusive<'a>(
    alloc: Global,
    depth: usize,
    tokens: &mut Cursor<'a>,
) -> Result<(Item<'a>, bool, bool), ReadFault>
    ensures { Reads (reading.exclusive depth tokens.old) result tokens.new }
{
    let start = tokens.ahead();
    tokens.skip();
    let channels = references(alloc, depth, tokens)?;
    let made = boxes::exclusive(alloc, channels);
    boxes::item(alloc, made, tokens.since(start), false, false)
}

#[tactic(auto, unfolding(crate::specs::ReadingStatements::plainly, pml_expression::specs::Reading::and_then))]
fn plainly<'a>(
    alloc: Global,
    depth: usize,
    tokens: &mut Cursor<'a>,
) -> Result<(Boxed<Basic<'a>>, bool), ReadFault>
    ensures { Reads (reading.plainly depth tokens.old) result tokens.new }
{
    let (x, closed) = action(alloc, depth, tokens)?;
    boxes::with(boxes::plain(alloc, x), closed)
}

/// The label that a `goto` names.
#[tactic(auto, unfolding(crate::specs::ReadingStatements::goto, pml_expression::specs::Reading::and_then))]
fn goto<'a>(alloc: Global, tokens: &mut Cursor<'a>) -> Result<(Boxed<Basic<'a>>, bool), ReadFault>
    ensures { Reads (reading.goto tokens.old) result tokens.new }
{
    let name = tokens.expect(Kind::Name)?;
    boxes::with(boxes::goto(alloc, name), false)
}

/// A `select`, with its word.
#[tactic(auto, unfolding(crate::specs::ReadingStatements::select, pml_expression::specs::Reading::and_then))]
fn select<'a>(
    alloc: Global,
    depth: usize,
    tokens: &mut Cursor<'a>,
) -> Result<(Boxed<Basic<'a>>, bool), ReadFault>
    ensures { Reads (reading.select depth tokens.old) result tokens.new }
{
    let range = boxed_range(alloc, depth, Kind::Select, tokens)?;
    boxes::with(select_of(alloc, range), false)
}

/// The items of a body with a statement.
#[cycle(body)]
#[tactic(auto, unfolding(crate::specs::ReadingStatements::seq, pml_expression::specs::Reading::and_then, pml_expression::specs::Reading::pick))]
fn seq<'a>(
    alloc: Global,
    depth: usize,
    tokens: &mut Cursor<'a>,
) -> Result<Items<Item<'a>>, ReadFault>
    ensures { Reads (reading.seq depth (reading.items depth) tokens.old) result tokens.new }
{
    let (found, step) = body(alloc, depth, tokens)?;
    if !step {
        return Err(tokens.refuse());
    }
    Ok(found)
}

#[cycle(body)]
#[tactic(auto, unfolding(crate::specs::ReadingStatements::options_from, pml_expression::specs::Reading::and_then, pml_expression::specs::Reading::pick))]
fn option_list<'a>(
    alloc: Global,
    depth: usize,
    tokens: &mut Cursor<'a>,
) -> Result<Items<Seq<'a>>, ReadFault>
    ensures { Reads (reading.options_from depth (reading.items depth) (length tokens.old) [] tokens.old) result tokens.new }
{
    let mut found = Items::new(alloc);
    for _turn in 0..tokens.left() {
        tokens.expect(Kind::DoubleColon)?;
        let items = seq(alloc, depth, tokens)?;
        found = behind(found, Seq { items })?;
        if !tokens.sees(Kind::DoubleColon) {
            return Ok(found);
        }
    }
    Err(tokens.refuse())
}

/// Options, and the word that ends them.
#[cycle(body)]
#[tactic(auto, unfolding(crate::specs::ReadingStatements::options, pml_expression::specs::Reading::closing, pml_expression::specs::Reading::and_then))]
fn options<'a>(
    alloc: Global,
    depth: usize,
    last: Kind,
    tokens: &mut Cursor<'a>,
) -> Result<Items<Seq<'a>>, ReadFault>
    ensures { Reads (reading.options depth (reading.items depth) last tokens.old) result tokens.new }
{
    let found = option_list(alloc, depth, tokens)?;
    tokens.closing(last, found)
}

/// A body in braces.
#[cycle(body)]
#[tactic(auto, unfolding(crate::specs::ReadingStatements::braces, pml_expression::specs::Reading::closing, pml_expression::specs::Reading::and_then))]
fn braces<'a>(
    alloc: Global,
    depth: usize,
    tokens: &mut Cursor<'a>,
) -> Result<Items<Item<'a>>, ReadFault>
    ensures { Reads (reading.braces depth (reading.items depth) tokens.old) result tokens.new }
{
    tokens.expect(Kind::OpenBrace)?;
    let items = seq(alloc, depth, tokens)?;
    tokens.closing(Kind::CloseBrace, items)
}

/// An `if`, behind the word.
#[cycle(body)]
#[tactic(auto, unfolding(crate::specs::ReadingStatements::if_fi, pml_expression::specs::Reading::and_then))]
fn choice<'a>(
    alloc: Global,
    depth: usize,
    tokens: &mut Cursor<'a>,
) -> Result<(Boxed<Basic<'a>>, bool), ReadFault>
    ensures { Reads (reading.if_fi depth (reading.items depth) tokens.old) result tokens.new }
{
    let found = options(alloc, depth, Kind::Fi, tokens)?;
    boxes::with(boxes::of_options(alloc, false, found), true)
}

/// A `do`, behind the word.
#[cycle(body)]
#[tactic(auto, unfolding(crate::specs::ReadingStatements::do_od, pml_expression::specs::Reading::and_then))]
fn turns<'a>(
    alloc: Global,
    depth: usize,
    tokens: &mut Cursor<'a>,
) -> Result<(Boxed<Basic<'a>>, bool), ReadFault>
    ensures { Reads (reading.do_od depth (reading.items depth) tokens.old) result tokens.new }
{
    let found = options(alloc, depth, Kind::Od, tokens)?;
    boxes::with(boxes::of_options(alloc, true, found), true)
}

/// A body in braces, behind the word that makes it one step, if there is one.
#[cycle(body)]
#[tactic(auto, unfolding(crate::specs::ReadingStatements::block, crate::specs::ReadingStatements::atomic, crate::specs::ReadingStatements::d_step, pml_expression::specs::Reading::and_then))]
fn embraced<'a>(
    alloc: Global,
    depth: usize,
    opening: Opening,
    tokens: &mut Cursor<'a>,
) -> Result<(Boxed<Basic<'a>>, bool), ReadFault>
    ensures { Reads (reading.embraced depth (reading.items depth) opening tokens.old) result tokens.new }
{
    let items = braces(alloc, depth, tokens)?;
    match opening {
        Opening::Atomic => boxes::with(boxes::of_braces(alloc, Opening::Atomic, items), true),
        Opening::DStep => boxes::with(boxes::of_braces(alloc, Opening::DStep, items), true),
        _ => boxes::with(boxes::of_braces(alloc, Opening::Block, items), true),
    }
}

/// A `for`, with its word.
#[cycle(body)]
#[tactic(auto, unfolding(crate::specs::ReadingStatements::for_loop, pml_expression::specs::Reading::and_then))]
fn for_loop<'a>(
    alloc: Global,
    depth: usize,
    tokens: &mut Cursor<'a>,
) -> Result<(Boxed<Basic<'a>>, bool), ReadFault>
    ensures { Reads (reading.for_loop depth (reading.items depth) tokens.old) result tokens.new }
{
    let range = boxed_range(alloc, depth, Kind::For, tokens)?;
    let items = braces(alloc, depth, tokens)?;
    boxes::with(for_of(alloc, range, items), true)
}

#[cycle(body)]
#[tactic(auto, unfolding(crate::specs::ReadingStatements::basic))]
fn basic<'a>(
    alloc: Global,
    depth: usize,
    tokens: &mut Cursor<'a>,
) -> Result<(Boxed<Basic<'a>>, bool), ReadFault>
    ensures { Reads (reading.basic depth (reading.items depth) tokens.old) result tokens.new }
{
    match opening_of(tokens.peek()) {
        Opening::If => {
            tokens.skip();
            choice(alloc, depth, tokens)
        }
        Opening::Do => {
            tokens.skip();
            turns(alloc, depth, tokens)
        }
        Opening::Block => embraced(alloc, depth, Opening::Block, tokens),
        Opening::Atomic => {
            tokens.skip();
            embraced(alloc, depth, Opening::Atomic, tokens)
        }
        Opening::DStep => {
            tokens.skip();
            embraced(alloc, depth, Opening::DStep, tokens)
        }
        Opening::For => for_loop(alloc, depth, tokens),
        Opening::Select => select(alloc, depth, tokens),
        Opening::Goto => {
            tokens.skip();
            goto(alloc, tokens)
        }
        Opening::Break => {
            tokens.skip();
            boxes::with(boxes::leave(alloc), false)
        }
        Opening::Other => plainly(alloc, depth, tokens),
    }
}

#[cycle(body)]
#[tactic(auto, unfolding(crate::specs::ReadingStatements::statement, pml_expression::specs::Reading::and_then))]
fn statement<'a>(
    alloc: Global,
    depth: usize,
    tokens: &mut Cursor<'a>,
) -> Result<(Item<'a>, bool), ReadFault>
    ensures { Reads (reading.statement depth (reading.items depth) tokens.old) result tokens.new }
{
    let labels = labels(alloc, tokens)?;
    let start = tokens.ahead();
    let (basic, closed) = basic(alloc, depth, tokens)?;
    let item = Item {
        labels,
        basic,
        tokens: tokens.since(start),
    };
    Ok((item, closed))
}

/// What a statement gives way to.
#[cycle(body)]
#[tactic(auto, unfolding(crate::specs::ReadingStatements::escape, pml_expression::specs::Reading::and_then))]
fn escape<'a>(
    alloc: Global,
    depth: usize,
    tokens: &mut Cursor<'a>,
) -> Result<(Items<Item<'a>>, bool), ReadFault>
    ensures { Reads (reading.escape depth (reading.items depth) tokens.old) result tokens.new }
{
    tokens.expect(Kind::Unless)?;
    let (item, closed) = statement(alloc, depth, tokens)?;
    let items = alone(alloc, item)?;
    Ok((items, closed))
}

#[cycle(body)]
#[tactic(auto, unfolding(crate::specs::ReadingStatements::stepped, pml_expression::specs::Reading::and_then, pml_expression::specs::Reading::pick))]
fn stepped<'a>(
    alloc: Global,
    depth: usize,
    tokens: &mut Cursor<'a>,
) -> Result<(Item<'a>, bool, bool), ReadFault>
    ensures { Reads (reading.stepped depth (reading.items depth) tokens.old) result tokens.new }
{
    let start = tokens.ahead();
    let (main, closed) = statement(alloc, depth, tokens)?;
    if !tokens.sees(Kind::Unless) {
        return Ok((main, true, closed));
    }
    let main = alone(alloc, main)?;
    let (escape, closed) = escape(alloc, depth, tokens)?;
    let made = boxes::unless(alloc, main, escape);
    boxes::item(alloc, made, tokens.since(start), true, closed)
}

#[cycle(body)]
#[tactic(auto, unfolding(crate::specs::ReadingStatements::item, pml_expression::specs::Reading::pick))]
fn item<'a>(
    alloc: Global,
    depth: usize,
    tokens: &mut Cursor<'a>,
) -> Result<(Item<'a>, bool, bool), ReadFault>
    ensures { Reads (reading.item depth (reading.items depth) tokens.old) result tokens.new }
{
    if is_declaration(tokens) {
        return declared(alloc, depth, tokens);
    }
    if is_exclusive(tokens.peek()) {
        return exclusive(alloc, depth, tokens);
    }
    stepped(alloc, depth, tokens)
}

#[cycle(body)]
#[tactic(auto, unfolding(crate::specs::ReadingStatements::items_from, pml_expression::specs::Reading::and_then, pml_expression::specs::Reading::pick))]
fn items<'a>(
    alloc: Global,
    depth: usize,
    tokens: &mut Cursor<'a>,
) -> Result<(Items<Item<'a>>, bool), ReadFault>
    ensures { Reads (reading.items_from depth (reading.items depth) (length tokens.old) false [] tokens.old) result tokens.new }
{
    let mut found = Items::new(alloc);
    let mut step = false;
    for _turn in 0..tokens.left() {
        let (x, is_step, closed) = item(alloc, depth, tokens)?;
        found.push(x)?;
        step = either(step, is_step);
        let joined = either(closed, is_separator(tokens.peek()));
        skip_separators(tokens);
        if is_end(tokens.peek()) {
            return Ok((found, step));
        }
        if !joined {
            return Err(tokens.refuse());
        }
    }
    Err(tokens.refuse())
}

/// The items of a body, and whether one of them is a statement. It nests no deeper than `depth`.
#[cycle(body)]
#[tactic(auto, unfolding(crate::specs::ReadingStatements::items))]
pub fn body<'a>(
    alloc: Global,
    depth: usize,
    tokens: &mut Cursor<'a>,
) -> Result<(Items<Item<'a>>, bool), ReadFault>
    ensures { Reads (reading.items depth tokens.old) result tokens.new }
{
    if depth == 0 {
        return Err(tokens.refuse());
    }
    items(alloc, depth - 1, tokens)
}
