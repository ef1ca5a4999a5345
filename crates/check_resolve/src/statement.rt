//! Bodies, with their names replaced.

ghost use Rattle.std.specs.Prelude.{◌≡◌, ◌++◌, ◌∷◌, [], Some, map, IfOk, OnOk};
ghost use Rattle.pml_program.specs.declared.program.Basic.{Plain, Goto, Break, If, Do, Block, Atomic, DStep, Unless};
ghost use Rattle.check_names.specs.Totals.{IsTotalled};
ghost use Rattle.check_resolve.specs.Declarations.{known};
ghost use Rattle.check_resolve.specs.Numbered.{owned, scope_of};
ghost use Rattle.check_resolve.specs.Statements.{action, adds, declares, each, numbered_item, numbered_seq};

use crate::action::action;
use crate::declare::{Holder, variables};
use crate::scope::{Scope, Whose};
use check_names::names::Names;
use pml_program::program::{Basic, Seq, Slot, Stmt};
use pml_token::token::Token;
use pml_tree::room::room_for;
use pml_tree::tokens::Tokens;
use pml_tree::tree::{Action as TreeAction, Basic as TreeBasic, Item, Seq as TreeSeq, Variable};
use promela_model::mark::Role;
use sqlite_items::Items;
use std::alloc::{AllocError, Global};

fn copied<'a>(alloc: Global, labels: &[Token<'a>]) -> Result<Items<Token<'a>>, AllocError>
    ensures { IfOk result (λ ls. ls ≡ labels.now) }
{
    let mut copies = room_for(alloc, labels.len())?;
    for label in labels {
        copies.push(label.copied())?;
    }
    Ok(copies)
}

/// Adds a statement. It stands by itself, as those below do, so that a level of nesting takes little of the stack.
#[inline(never)]
fn add<'a>(
    steps: &mut Items<Stmt<'a>>,
    labels: Items<Token<'a>>,
    basic: Basic<'a>,
    tokens: Tokens<'a>,
) -> Result<(), AllocError>
    ensures { OnOk result (steps.new ≡ adds steps.old labels.entry basic.entry tokens.entry) }
{
    steps.push(Stmt {
        labels,
        basic,
        tokens,
    })
}

/// Adds a statement that gives no structure.
#[inline(never)]
fn add_plain<'w, 'a>(
    steps: &'w mut Items<Stmt<'a>>,
    alloc: Global,
    labels: Items<Token<'a>>,
    a: &'w TreeAction<'a>,
    within: Scope<'_, '_, '_>,
    tokens: Tokens<'a>,
) -> Result<(), AllocError>
    ensures { OnOk result (steps.new ≡ adds steps.old labels.entry (Plain (action a.now (scope_of within.entry))) tokens.entry) }
{
    let x = action(alloc, a, within)?;
    add(steps, labels, Basic::Plain(x), tokens)
}

/// Adds a jump to a label.
#[inline(never)]
fn add_goto<'a>(
    steps: &mut Items<Stmt<'a>>,
    labels: Items<Token<'a>>,
    label: &Token<'a>,
    tokens: Tokens<'a>,
) -> Result<(), AllocError>
    ensures { OnOk result (steps.new ≡ adds steps.old labels.entry (Goto label.now) tokens.entry) }
{
    add(steps, labels, Basic::Goto(label.copied()), tokens)
}

/// Adds a `break`.
#[inline(never)]
fn add_break<'a>(
    steps: &mut Items<Stmt<'a>>,
    labels: Items<Token<'a>>,
    tokens: Tokens<'a>,
) -> Result<(), AllocError>
    ensures { OnOk result (steps.new ≡ adds steps.old labels.entry Break tokens.entry) }
{
    add(steps, labels, Basic::Break, tokens)
}

/// Adds an `if`.
#[inline(never)]
fn add_if<'a>(
    steps: &mut Items<Stmt<'a>>,
    labels: Items<Token<'a>>,
    options: Items<Seq<'a>>,
    tokens: Tokens<'a>,
) -> Result<(), AllocError>
    ensures { OnOk result (steps.new ≡ adds steps.old labels.entry (If options.entry) tokens.entry) }
{
    add(steps, labels, Basic::If(options), tokens)
}

/// Adds a `do`.
#[inline(never)]
fn add_do<'a>(
    steps: &mut Items<Stmt<'a>>,
    labels: Items<Token<'a>>,
    options: Items<Seq<'a>>,
    tokens: Tokens<'a>,
) -> Result<(), AllocError>
    ensures { OnOk result (steps.new ≡ adds steps.old labels.entry (Do options.entry) tokens.entry) }
{
    add(steps, labels, Basic::Do(options), tokens)
}

/// Adds a block.
#[inline(never)]
fn add_block<'a>(
    steps: &mut Items<Stmt<'a>>,
    labels: Items<Token<'a>>,
    inside: Seq<'a>,
    tokens: Tokens<'a>,
) -> Result<(), AllocError>
    ensures { OnOk result (steps.new ≡ adds steps.old labels.entry (Block inside.entry) tokens.entry) }
{
    add(steps, labels, Basic::Block(inside), tokens)
}

/// Adds an `atomic`.
#[inline(never)]
fn add_atomic<'a>(
    steps: &mut Items<Stmt<'a>>,
    labels: Items<Token<'a>>,
    inside: Seq<'a>,
    tokens: Tokens<'a>,
) -> Result<(), AllocError>
    ensures { OnOk result (steps.new ≡ adds steps.old labels.entry (Atomic inside.entry) tokens.entry) }
{
    add(steps, labels, Basic::Atomic(inside), tokens)
}

/// Adds a `d_step`.
#[inline(never)]
fn add_d_step<'a>(
    steps: &mut Items<Stmt<'a>>,
    labels: Items<Token<'a>>,
    inside: Seq<'a>,
    tokens: Tokens<'a>,
) -> Result<(), AllocError>
    ensures { OnOk result (steps.new ≡ adds steps.old labels.entry (DStep inside.entry) tokens.entry) }
{
    add(steps, labels, Basic::DStep(inside), tokens)
}

/// Adds an `unless`.
#[inline(never)]
fn add_unless<'a>(
    steps: &mut Items<Stmt<'a>>,
    labels: Items<Token<'a>>,
    main: Seq<'a>,
    escape: Seq<'a>,
    tokens: Tokens<'a>,
) -> Result<(), AllocError>
    ensures { OnOk result (steps.new ≡ adds steps.old labels.entry (Unless main.entry escape.entry) tokens.entry) }
{
    add(steps, labels, Basic::Unless(main, escape), tokens)
}

/// Declares the variables of a body.
#[inline(never)]
fn declared<'a>(
    alloc: Global,
    vs: &[Variable<'a>],
    whose: Whose<'_, '_>,
    names: &mut Names<'a>,
    slots: &mut Items<Slot<'a>>,
) -> Result<(), AllocError>
    requires { IsTotalled names.old.table names.old.totals names.old.constants }
    ensures known { OnOk result (known names.new.table slots.new ≡ owned whose.entry (declares vs.now) (known names.old.table slots.old)) }
    ensures totalled { OnOk result (IsTotalled names.new.table names.new.totals names.new.constants) }
{
    let holder = Holder {
        role: Role::Variable,
        number: whose.owner,
    };
    variables(alloc, names, whose.all, holder, vs, slots)
}

#[cycle(statement)]
fn item<'a>(
    alloc: Global,
    i: &Item<'a>,
    whose: Whose<'_, '_>,
    names: &mut Names<'a>,
    slots: &mut Items<Slot<'a>>,
    steps: &mut Items<Stmt<'a>>,
) -> Result<(), AllocError>
    requires { IsTotalled names.old.table names.old.totals names.old.constants }
    ensures steps { OnOk result (steps.new ≡ steps.old ++ (owned whose.entry (numbered_item i.now) (known names.old.table slots.old)).0) }
    ensures known { OnOk result (known names.new.table slots.new ≡ (owned whose.entry (numbered_item i.now) (known names.old.table slots.old)).1) }
    ensures totalled { OnOk result (IsTotalled names.new.table names.new.totals names.new.constants) }
{
    let labels = copied(alloc, i.labels.as_slice())?;
    let tokens = i.tokens.copied(alloc)?;
    match i.basic.get() {
        TreeBasic::Declare(vs) => declared(alloc, vs.as_slice(), whose, names, slots),
        TreeBasic::Exclusive(_) => Ok(()),
        TreeBasic::Plain(a) => {
            add_plain(
                steps,
                alloc,
                labels,
                a.get(),
                whose.within(&names.table),
                tokens,
            )
        }
        TreeBasic::Goto(l) => add_goto(steps, labels, l, tokens),
        TreeBasic::Break => add_break(steps, labels, tokens),
        TreeBasic::If(options) => {
            let xs = seqs(alloc, options.as_slice(), whose, names, slots)?;
            add_if(steps, labels, xs, tokens)
        }
        TreeBasic::Do(options) => {
            let xs = seqs(alloc, options.as_slice(), whose, names, slots)?;
            add_do(steps, labels, xs, tokens)
        }
        TreeBasic::Block(s) => {
            let x = seq(alloc, s, whose, names, slots)?;
            add_block(steps, labels, x, tokens)
        }
        TreeBasic::Atomic(s) => {
            let x = seq(alloc, s, whose, names, slots)?;
            add_atomic(steps, labels, x, tokens)
        }
        TreeBasic::DStep(s) => {
            let x = seq(alloc, s, whose, names, slots)?;
            add_d_step(steps, labels, x, tokens)
        }
        TreeBasic::Unless(main, escape) => {
            let x = seq(alloc, main, whose, names, slots)?;
            let y = seq(alloc, escape, whose, names, slots)?;
            add_unless(steps, labels, x, y, tokens)
        }
    }
}

/// Adds an option.
#[inline(never)]
fn add_option<'a>(options: &mut Items<Seq<'a>>, option: Seq<'a>) -> Result<(), AllocError>
    ensures { OnOk result (options.new ≡ options.old ++ option.entry ∷ []) }
{
    options.push(option)
}

#[cycle(statement)]
#[inline(never)]
fn seqs<'a>(
    alloc: Global,
    ss: &[TreeSeq<'a>],
    whose: Whose<'_, '_>,
    names: &mut Names<'a>,
    slots: &mut Items<Slot<'a>>,
) -> Result<Items<Seq<'a>>, AllocError>
    requires { IsTotalled names.old.table names.old.totals names.old.constants }
    ensures seqs { IfOk result (λ xs. xs ≡ (owned whose.entry (each (map numbered_seq ss.now)) (known names.old.table slots.old)).0) }
    ensures known { OnOk result (known names.new.table slots.new ≡ (owned whose.entry (each (map numbered_seq ss.now)) (known names.old.table slots.old)).1) }
    ensures totalled { OnOk result (IsTotalled names.new.table names.new.totals names.new.constants) }
{
    let mut seqs = room_for(alloc, ss.len())?;
    for s in ss {
        let x = seq(alloc, s, whose, names, slots)?;
        add_option(&mut seqs, x)?;
    }
    Ok(seqs)
}

/// A sequence with its names replaced. Its declarations take no step: they are added to the names and the variables.
#[cycle(statement)]
pub fn seq<'a>(
    alloc: Global,
    s: &TreeSeq<'a>,
    whose: Whose<'_, '_>,
    names: &mut Names<'a>,
    slots: &mut Items<Slot<'a>>,
) -> Result<Seq<'a>, AllocError>
    requires { IsTotalled names.old.table names.old.totals names.old.constants }
    ensures seq { IfOk result (λ x. x ≡ (owned whose.entry (numbered_seq s.now) (known names.old.table slots.old)).0) }
    ensures known { OnOk result (known names.new.table slots.new ≡ (owned whose.entry (numbered_seq s.now) (known names.old.table slots.old)).1) }
    ensures totalled { OnOk result (IsTotalled names.new.table names.new.totals names.new.constants) }
{
    let mut steps = room_for(alloc, s.items.len())?;
    for i in s.items.as_slice() {
        item(alloc, i, whose, names, slots, &mut steps)?;
    }
    Ok(Seq { steps })
}
