//! Statements of their parts, in boxes. One that is read has beside it whether it ends with `}`, `fi`, `od` or `else`.

ghost use Rattle.pml_tree.specs.declared.tree.Action.TheVariants as a;
ghost use Rattle.pml_tree.specs.declared.tree.Basic.TheVariants as b;
ghost use Rattle.promela_grammar.specs.Actions as grammar;
ghost use Rattle.pml_syntax.specs.Answer.{Makes, Beside, ItemOf, of_options, of_braces};
ghost use Rattle.std.specs.Prelude.{◌≡◌, IfOk, [], true, false};

use crate::starts::Opening;
use pml_expression::fault::ReadFault;
use pml_token::token::Token;
use pml_tree::tokens::Tokens;
use pml_tree::tree::{
    Action, Argument, Basic, Expr, Item, Reference, Removal, Run, Search, SendOrder, Seq, Variable,
};
use sqlite_items::{Boxed, Items};
use std::alloc::{AllocError, Global};

fn action<'a>(
    alloc: Global,
    x: Action<'a>,
    closed: bool,
) -> Result<(Boxed<Action<'a>>, bool), ReadFault>
    ensures { Makes (x.entry, closed) result }
{
    Ok((Boxed::new(alloc, x)?, closed))
}

/// `else`.
pub fn otherwise<'a>(alloc: Global) -> Result<(Boxed<Action<'a>>, bool), ReadFault>
    ensures { Makes (a.Else, true) result }
{
    action(alloc, Action::Else, true)
}

/// `run NAME (..)`.
pub fn run<'a>(alloc: Global, x: Run<'a>) -> Result<(Boxed<Action<'a>>, bool), ReadFault>
    ensures { Makes (a.Run x.entry, false) result }
{
    action(alloc, Action::Run(x), false)
}

/// A condition.
pub fn holds<'a>(alloc: Global, x: Boxed<Expr<'a>>) -> Result<(Boxed<Action<'a>>, bool), ReadFault>
    ensures { Makes (a.Holds x.entry, false) result }
{
    action(alloc, Action::Holds(x), false)
}

/// A condition that is in no box.
pub fn held<'a>(alloc: Global, x: Expr<'a>) -> Result<(Boxed<Action<'a>>, bool), ReadFault>
    ensures { Makes (a.Holds x.entry, false) result }
{
    holds(alloc, Boxed::new(alloc, x)?)
}

/// `VARIABLE = EXPRESSION`.
pub fn assign<'a>(
    alloc: Global,
    r: Boxed<Reference<'a>>,
    x: Boxed<Expr<'a>>,
) -> Result<(Boxed<Action<'a>>, bool), ReadFault>
    ensures { Makes (a.Assign r.entry x.entry, false) result }
{
    action(alloc, Action::Assign(r.into_inner(), x), false)
}

/// `VARIABLE = run NAME (..)`.
pub fn assign_run<'a>(
    alloc: Global,
    r: Boxed<Reference<'a>>,
    x: Run<'a>,
) -> Result<(Boxed<Action<'a>>, bool), ReadFault>
    ensures { Makes (a.AssignRun r.entry x.entry, false) result }
{
    action(alloc, Action::AssignRun(r.into_inner(), x), false)
}

/// `VARIABLE ++`.
pub fn increment<'a>(
    alloc: Global,
    r: Boxed<Reference<'a>>,
) -> Result<(Boxed<Action<'a>>, bool), ReadFault>
    ensures { Makes (a.Increment r.entry, false) result }
{
    action(alloc, Action::Increment(r.into_inner()), false)
}

/// `VARIABLE --`.
pub fn decrement<'a>(
    alloc: Global,
    r: Boxed<Reference<'a>>,
) -> Result<(Boxed<Action<'a>>, bool), ReadFault>
    ensures { Makes (a.Decrement r.entry, false) result }
{
    action(alloc, Action::Decrement(r.into_inner()), false)
}

/// A send, by `!` or `!!`.
pub fn send<'a>(
    alloc: Global,
    order: SendOrder,
    r: Boxed<Reference<'a>>,
    xs: Items<Expr<'a>>,
) -> Result<(Boxed<Action<'a>>, bool), ReadFault>
    ensures { Makes (a.Send r.entry order xs.entry, false) result }
{
    action(alloc, Action::Send(r.into_inner(), order, xs), false)
}

/// A receive, by `?` or `??`, with or without `< >`.
pub fn receive<'a>(
    alloc: Global,
    search: Search,
    removal: Removal,
    r: Boxed<Reference<'a>>,
    xs: Items<Argument<'a>>,
) -> Result<(Boxed<Action<'a>>, bool), ReadFault>
    ensures { Makes (a.Receive r.entry search removal xs.entry, false) result }
{
    action(
        alloc,
        Action::Receive(r.into_inner(), search, removal, xs),
        false,
    )
}

/// `printf (STRING, ..)`.
pub fn printf<'a>(
    alloc: Global,
    string: Token<'a>,
    xs: Items<Expr<'a>>,
) -> Result<(Boxed<Action<'a>>, bool), ReadFault>
    ensures { Makes (a.Printf string.entry xs.entry, false) result }
{
    action(alloc, Action::Printf(string, xs), false)
}

/// `printm (EXPRESSION)`.
pub fn printm<'a>(alloc: Global, x: Boxed<Expr<'a>>) -> Result<(Boxed<Action<'a>>, bool), ReadFault>
    ensures { Makes (a.Printm x.entry, false) result }
{
    action(alloc, Action::Printm(x), false)
}

/// `assert (EXPRESSION)`.
pub fn assert<'a>(alloc: Global, x: Boxed<Expr<'a>>) -> Result<(Boxed<Action<'a>>, bool), ReadFault>
    ensures { Makes (a.Assert x.entry, false) result }
{
    action(alloc, Action::Assert(x), false)
}

/// A statement in a box, with what stands beside it.
pub fn with<'a>(
    made: Result<Boxed<Basic<'a>>, AllocError>,
    closed: bool,
) -> Result<(Boxed<Basic<'a>>, bool), ReadFault>
    ensures { Beside made.entry closed result }
{
    Ok((made?, closed))
}

/// A declaration of variables.
pub fn declare<'a>(
    alloc: Global,
    variables: Items<Variable<'a>>,
) -> Result<Boxed<Basic<'a>>, AllocError>
    ensures { IfOk result (λ r. r ≡ b.Declare variables.entry) }
{
    Boxed::new(alloc, Basic::Declare(variables))
}

/// `xr` or `xs` of channels.
pub fn exclusive<'a>(
    alloc: Global,
    channels: Items<Reference<'a>>,
) -> Result<Boxed<Basic<'a>>, AllocError>
    ensures { IfOk result (λ r. r ≡ b.Exclusive channels.entry) }
{
    Boxed::new(alloc, Basic::Exclusive(channels))
}

/// A statement that gives no structure.
pub fn plain<'a>(alloc: Global, x: Boxed<Action<'a>>) -> Result<Boxed<Basic<'a>>, AllocError>
    ensures { IfOk result (λ r. r ≡ b.Plain x.entry) }
{
    Boxed::new(alloc, Basic::Plain(x))
}

/// `goto LABEL`.
pub fn goto<'a>(alloc: Global, name: Token<'a>) -> Result<Boxed<Basic<'a>>, AllocError>
    ensures { IfOk result (λ r. r ≡ b.Goto name.entry) }
{
    Boxed::new(alloc, Basic::Goto(name))
}

/// `break`.
pub fn leave<'a>(alloc: Global) -> Result<Boxed<Basic<'a>>, AllocError>
    ensures { IfOk result (λ r. r ≡ b.Break) }
{
    Boxed::new(alloc, Basic::Break)
}

/// A `do` of these options, or an `if`.
pub fn of_options<'a>(
    alloc: Global,
    turns: bool,
    options: Items<Seq<'a>>,
) -> Result<Boxed<Basic<'a>>, AllocError>
    ensures { IfOk result (λ r. r ≡ of_options turns options.entry) }
{
    let basic = if turns {
        Basic::Do(options)
    } else {
        Basic::If(options)
    };
    Boxed::new(alloc, basic)
}

/// A body in braces.
pub fn of_braces<'a>(
    alloc: Global,
    opening: Opening,
    items: Items<Item<'a>>,
) -> Result<Boxed<Basic<'a>>, AllocError>
    ensures { IfOk result (λ r. r ≡ of_braces opening (grammar.seq_of items.entry)) }
{
    let body = Seq { items };
    let basic = match opening {
        Opening::Atomic => Basic::Atomic(body),
        Opening::DStep => Basic::DStep(body),
        _ => Basic::Block(body),
    };
    Boxed::new(alloc, basic)
}

/// A statement that gives way to another.
pub fn unless<'a>(
    alloc: Global,
    main: Items<Item<'a>>,
    escape: Items<Item<'a>>,
) -> Result<Boxed<Basic<'a>>, AllocError>
    ensures { IfOk result (λ r. r ≡ b.Unless (grammar.seq_of main.entry) (grammar.seq_of escape.entry)) }
{
    Boxed::new(
        alloc,
        Basic::Unless(Seq { items: main }, Seq { items: escape }),
    )
}

/// An item without labels.
pub fn unlabelled<'a>(alloc: Global, basic: Boxed<Basic<'a>>, tokens: Tokens<'a>) -> Item<'a>
    ensures { result ≡ grammar.item_of [] basic.entry tokens.entry }
{
    Item {
        labels: Items::new(alloc),
        basic,
        tokens,
    }
}

/// An item without labels, with whether it is a statement, and whether it is closed.
pub fn item<'a>(
    alloc: Global,
    made: Result<Boxed<Basic<'a>>, AllocError>,
    tokens: Tokens<'a>,
    step: bool,
    closed: bool,
) -> Result<(Item<'a>, bool, bool), ReadFault>
    ensures { ItemOf made.entry tokens.entry step closed result }
{
    let basic = made?;
    Ok((unlabelled(alloc, basic, tokens), step, closed))
}
