//! The statements that a `for` or a `select` stands for.

ghost use Rattle.std.specs.Prelude.{◌≡◌, ◌++◌, ◌∷◌, [], IfOk, OnOk};
ghost use Rattle.pml_tree.specs.declared.tree.Action.TheVariants as a;
ghost use Rattle.pml_tree.specs.declared.tree.Expr.TheVariants as e;
ghost use Rattle.pml_tree.specs.declared.tree.Basic.TheVariants as b;
ghost use Rattle.promela_grammar.specs.Actions as grammar;
ghost use Rattle.promela_grammar.specs.Models as loops;

use crate::boxes;
use crate::lists::{behind, joined};
use crate::starts::Opening;
use pml_expression::list::alone;
use pml_token::token::{Kind, Token};
use pml_tree::room::room_for;
use pml_tree::tokens::Tokens;
use pml_tree::tree::{Action, Basic, Expr, Infix, Item, Reference, Seq};
use promela_grammar::range::{Bound, Counter, Range};
use sqlite_items::{Boxed, Items};
use std::alloc::{AllocError, Global};

/// Adds copies of these tokens.
fn add_all<'a>(found: &mut Items<Token<'a>>, tokens: &[Token<'a>]) -> Result<(), AllocError>
    ensures { OnOk result (found.new ≡ found.old ++ tokens.now) }
{
    for token in tokens {
        found.push(token.copied())?;
    }
    Ok(())
}

/// A token that the text has not, between tokens that it has.
fn around<'a>(
    alloc: Global,
    front: &[Token<'a>],
    word: Token<'a>,
    back: &[Token<'a>],
) -> Result<Tokens<'a>, AllocError>
    ensures { IfOk result (λ ts. ts ≡ front.now ++ word.entry ∷ back.now) }
{
    let count = front.len().saturating_add(back.len()).saturating_add(1);
    let mut found = room_for(alloc, count)?;
    add_all(&mut found, front)?;
    found.push(word)?;
    add_all(&mut found, back)?;
    Tokens::made(alloc, found)
}

/// Two options.
fn two_options<'a>(
    alloc: Global,
    x: Items<Item<'a>>,
    y: Items<Item<'a>>,
) -> Result<Items<Seq<'a>>, AllocError>
    ensures { IfOk result (λ r. r ≡ grammar.seq_of x.entry ∷ grammar.seq_of y.entry ∷ []) }
{
    let first = behind(room_for(alloc, 2)?, Seq { items: x })?;
    behind(first, Seq { items: y })
}

/// A statement without labels, as items.
fn single<'a>(
    alloc: Global,
    basic: Boxed<Basic<'a>>,
    tokens: Tokens<'a>,
) -> Result<Items<Item<'a>>, AllocError>
    ensures { IfOk result (λ r. r ≡ grammar.item_of [] basic.entry tokens.entry ∷ []) }
{
    alone(alloc, boxes::unlabelled(alloc, basic, tokens))
}

/// A statement without structure, without labels, as items.
fn plain<'a>(
    alloc: Global,
    action: Boxed<Action<'a>>,
    tokens: Tokens<'a>,
) -> Result<Items<Item<'a>>, AllocError>
    ensures { IfOk result (λ r. r ≡ grammar.item_of [] (b.Plain action.entry) tokens.entry ∷ []) }
{
    let basic = boxes::plain(alloc, action)?;
    single(alloc, basic, tokens)
}

/// The variable gets its first value.
fn setting<'a>(
    alloc: Global,
    line: u32,
    variable: Boxed<Reference<'a>>,
    named: &[Token<'a>],
    first: Bound<'a>,
) -> Result<Items<Item<'a>>, AllocError>
    ensures { IfOk result (λ r. r ≡ loops.setting line variable.entry named.now first.entry ∷ []) }
{
    let Bound { value, tokens } = first;
    let action = Boxed::new(alloc, Action::Assign(variable.into_inner(), value))?;
    let word = Token::new(Kind::Assign, b"=", line);
    let tokens = around(alloc, named, word, tokens.as_slice())?;
    plain(alloc, action, tokens)
}

fn boxed<'a>(alloc: Global, x: Expr<'a>) -> Result<Boxed<Expr<'a>>, AllocError>
    ensures { IfOk result (λ r. r ≡ x.entry) }
{
    Boxed::new(alloc, x)
}

fn compared<'a>(
    alloc: Global,
    operator: Infix,
    variable: Boxed<Reference<'a>>,
    last: Boxed<Expr<'a>>,
) -> Result<Boxed<Action<'a>>, AllocError>
    ensures { IfOk result (λ r. r ≡ a.Holds (e.Binary operator (e.Read variable.entry) last.entry)) }
{
    let left = boxed(alloc, Expr::Read(variable.into_inner()))?;
    let x = boxed(alloc, Expr::Binary(operator, left, last))?;
    Ok(Boxed::new(alloc, Action::Holds(x))?)
}

/// The variable is compared with the last value.
fn comparing<'a>(
    alloc: Global,
    operator: Infix,
    word: Token<'a>,
    variable: Boxed<Reference<'a>>,
    named: &[Token<'a>],
    last: Bound<'a>,
) -> Result<Items<Item<'a>>, AllocError>
    ensures { IfOk result (λ r. r ≡ loops.comparing operator word.entry variable.entry named.now last.entry ∷ []) }
{
    let Bound { value, tokens } = last;
    let action = compared(alloc, operator, variable, value)?;
    let tokens = around(alloc, named, word, tokens.as_slice())?;
    plain(alloc, action, tokens)
}

/// The variable is raised by one.
fn raising<'a>(
    alloc: Global,
    line: u32,
    variable: Boxed<Reference<'a>>,
    named: &[Token<'a>],
) -> Result<Items<Item<'a>>, AllocError>
    ensures { IfOk result (λ r. r ≡ loops.raising line variable.entry named.now ∷ []) }
{
    let action = Boxed::new(alloc, Action::Increment(variable.into_inner()))?;
    let word = Token::new(Kind::Increment, b"++", line);
    let tokens = around(alloc, named, word, &[])?;
    plain(alloc, action, tokens)
}

/// The `else` of a `for`.
fn otherwise<'a>(alloc: Global, line: u32) -> Result<Items<Item<'a>>, AllocError>
    ensures { IfOk result (λ r. r ≡ loops.otherwise_item line ∷ []) }
{
    let action = Boxed::new(alloc, Action::Else)?;
    let tokens = around(alloc, &[], Token::new(Kind::Else, b"else", line), &[])?;
    plain(alloc, action, tokens)
}

fn breaking<'a>(alloc: Global, line: u32) -> Result<Items<Item<'a>>, AllocError>
    ensures { IfOk result (λ r. r ≡ loops.breaking line ∷ []) }
{
    let tokens = around(alloc, &[], Token::new(Kind::Break, b"break", line), &[])?;
    let basic = boxes::leave(alloc)?;
    single(alloc, basic, tokens)
}

/// The `do` over two options.
fn turning<'a>(
    alloc: Global,
    line: u32,
    on: Items<Item<'a>>,
    out: Items<Item<'a>>,
) -> Result<Items<Item<'a>>, AllocError>
    ensures { IfOk result (λ r. r ≡ loops.turning line (grammar.seq_of on.entry ∷ grammar.seq_of out.entry ∷ []) ∷ []) }
{
    let options = two_options(alloc, on, out)?;
    let tokens = around(alloc, &[], Token::new(Kind::Do, b"do", line), &[])?;
    let basic = boxes::of_options(alloc, true, options)?;
    single(alloc, basic, tokens)
}

/// What is done in each turn of a `for`: its items, and then the variable is raised.
fn raised_behind<'a>(
    alloc: Global,
    line: u32,
    variable: Boxed<Reference<'a>>,
    named: &[Token<'a>],
    items: Items<Item<'a>>,
) -> Result<Items<Item<'a>>, AllocError>
    ensures { IfOk result (λ r. r ≡ items.entry ++ loops.raising line variable.entry named.now ∷ []) }
{
    let raise = raising(alloc, line, variable, named)?;
    joined(alloc, items, raise)
}

/// The option that goes on with a `for`: these items, behind the comparison.
fn for_on<'a>(
    alloc: Global,
    line: u32,
    variable: Boxed<Reference<'a>>,
    named: &[Token<'a>],
    last: Bound<'a>,
    items: Items<Item<'a>>,
) -> Result<Items<Item<'a>>, AllocError>
    ensures { IfOk result (λ r. r ≡ loops.at_most line variable.entry named.now last.entry ∷ items.entry) }
{
    let word = Token::new(Kind::AtMost, b"<=", line);
    let test = comparing(alloc, Infix::AtMost, word, variable, named, last)?;
    joined(alloc, test, items)
}

/// The option that ends a `for`.
fn for_out<'a>(alloc: Global, line: u32) -> Result<Items<Item<'a>>, AllocError>
    ensures { IfOk result (λ r. grammar.seq_of r ≡ loops.for_out line) }
{
    let first = otherwise(alloc, line)?;
    let second = breaking(alloc, line)?;
    joined(alloc, first, second)
}

/// The option that goes on with a `select`.
fn select_on<'a>(
    alloc: Global,
    line: u32,
    compared: Boxed<Reference<'a>>,
    raised: Boxed<Reference<'a>>,
    named: &[Token<'a>],
    last: Bound<'a>,
) -> Result<Items<Item<'a>>, AllocError>
    ensures { IfOk result (λ r. grammar.seq_of r ≡ loops.select_on line compared.entry raised.entry named.now last.entry) }
{
    let word = Token::new(Kind::Less, b"<", line);
    let test = comparing(alloc, Infix::Below, word, compared, named, last)?;
    let raise = raising(alloc, line, raised, named)?;
    joined(alloc, test, raise)
}

/// The first value, and then the `do` over two options, in braces.
fn counted<'a>(
    alloc: Global,
    line: u32,
    set: Items<Item<'a>>,
    on: Items<Item<'a>>,
    out: Items<Item<'a>>,
) -> Result<Boxed<Basic<'a>>, AllocError>
    ensures { IfOk result (λ r. r ≡ b.Block (grammar.seq_of (set.entry ++ loops.turning line (grammar.seq_of on.entry ∷ grammar.seq_of out.entry ∷ []) ∷ []))) }
{
    let turns = turning(alloc, line, on, out)?;
    let items = joined(alloc, set, turns)?;
    boxes::of_braces(alloc, Opening::Block, items)
}

/// What a `for` over these items stands for.
pub fn for_of<'a>(
    alloc: Global,
    range: Boxed<Range<'a>>,
    items: Items<Item<'a>>,
) -> Result<Boxed<Basic<'a>>, AllocError>
    ensures { IfOk result (λ r. r ≡ loops.for_of range.entry items.entry) }
{
    let Range {
        counter,
        first,
        last,
    } = range.into_inner();
    let Counter {
        line,
        set,
        compared,
        raised,
        tokens,
    } = counter;
    let named = tokens.as_slice();
    let set = setting(alloc, line, set, named, first)?;
    let items = raised_behind(alloc, line, raised, named, items)?;
    let on = for_on(alloc, line, compared, named, last, items)?;
    let out = for_out(alloc, line)?;
    counted(alloc, line, set, on, out)
}

/// What a `select` stands for.
pub fn select_of<'a>(alloc: Global, range: Boxed<Range<'a>>) -> Result<Boxed<Basic<'a>>, AllocError>
    ensures { IfOk result (λ r. r ≡ loops.select_of range.entry) }
{
    let Range {
        counter,
        first,
        last,
    } = range.into_inner();
    let Counter {
        line,
        set,
        compared,
        raised,
        tokens,
    } = counter;
    let named = tokens.as_slice();
    let set = setting(alloc, line, set, named, first)?;
    let on = select_on(alloc, line, compared, raised, named, last)?;
    let out = breaking(alloc, line)?;
    counted(alloc, line, set, on, out)
}
