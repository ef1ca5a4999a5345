//! The marks of statements.

ghost use Rattle.std.specs.Prelude.{◌≡◌, ◌++◌, map, OnOk, IfOk};
ghost use Rattle.promela_model.specs.Marks.{of_run, of_action, of_seq, all_marks};
ghost use Rattle.check_uses.specs.Parts.{of_basic, of_item, of_references, of_labels};

use crate::declare::variables;
use crate::expr::{add, arguments, expr, exprs, reference};
use pml_token::token::Token;
use pml_tree::tree::{Action, Basic, Item, Reference, Run, Seq};
use promela_model::mark::{Mark, Role, Structure, Use, What};
use sqlite_items::Items;
use std::alloc::{AllocError, Global};

fn run<'a>(
    alloc: Global,
    r: &Run<'a>,
    owner: usize,
    out: &mut Items<Mark<'a>>,
) -> Result<(), AllocError>
    ensures { OnOk result (out.new ≡ out.old ++ of_run r.now owner) }
{
    exprs(alloc, r.arguments.as_slice(), owner, out)?;
    add(out, owner, What::Runs(r.name.copied(), r.arguments.len()))
}

/// Adds the marks of a statement that gives no structure.
pub fn action<'a>(
    alloc: Global,
    a: &Action<'a>,
    owner: usize,
    out: &mut Items<Mark<'a>>,
) -> Result<(), AllocError>
    ensures { OnOk result (out.new ≡ out.old ++ of_action a.now owner) }
{
    match a {
        Action::Else => Ok(()),
        Action::Assign(r, e) => {
            reference(alloc, r, Use::Store, owner, out)?;
            expr(alloc, e.get(), owner, out)
        }
        Action::AssignRun(r, p) => {
            reference(alloc, r, Use::Store, owner, out)?;
            run(alloc, p, owner, out)
        }
        Action::Increment(r) => reference(alloc, r, Use::Update, owner, out),
        Action::Decrement(r) => reference(alloc, r, Use::Update, owner, out),
        Action::Run(p) => run(alloc, p, owner, out),
        Action::Send(r, _, all) => {
            reference(alloc, r, Use::Channel, owner, out)?;
            exprs(alloc, all.as_slice(), owner, out)
        }
        Action::Receive(r, _, _, all) => {
            reference(alloc, r, Use::Channel, owner, out)?;
            arguments(alloc, all.as_slice(), owner, out)
        }
        Action::Printf(text, all) => {
            exprs(alloc, all.as_slice(), owner, out)?;
            add(out, owner, What::Prints(text.copied(), all.len()))
        }
        Action::Printm(e) => expr(alloc, e.get(), owner, out),
        Action::Assert(e) => expr(alloc, e.get(), owner, out),
        Action::Holds(e) => expr(alloc, e.get(), owner, out),
    }
}

fn references<'a>(
    alloc: Global,
    all: &[Reference<'a>],
    owner: usize,
    out: &mut Items<Mark<'a>>,
) -> Result<(), AllocError>
    ensures { OnOk result (out.new ≡ out.old ++ of_references all.now owner) }
{
    for one in all {
        reference(alloc, one, Use::Channel, owner, out)?;
    }
    Ok(())
}

fn labels<'a>(all: &[Token<'a>], owner: usize, out: &mut Items<Mark<'a>>) -> Result<(), AllocError>
    ensures { OnOk result (out.new ≡ out.old ++ of_labels all.now owner) }
{
    for one in all {
        add(out, owner, What::Label(one.copied()))?;
    }
    Ok(())
}

#[cycle(statement)]
fn basic<'a>(
    alloc: Global,
    b: &Basic<'a>,
    owner: usize,
    out: &mut Items<Mark<'a>>,
) -> Result<(), AllocError>
    ensures { OnOk result (out.new ≡ out.old ++ of_basic b.now owner) }
{
    match b {
        Basic::Declare(all) => variables(alloc, Role::Variable, owner, all.as_slice(), owner, out),
        Basic::Exclusive(all) => references(alloc, all.as_slice(), owner, out),
        Basic::Plain(a) => action(alloc, a.get(), owner, out),
        Basic::Goto(l) => add(out, owner, What::Goto(l.copied())),
        Basic::Break => add(out, owner, What::Break),
        Basic::If(options) => seqs(alloc, options.as_slice(), owner, out),
        Basic::Do(options) => {
            add(out, owner, What::Enter(Structure::Do))?;
            seqs(alloc, options.as_slice(), owner, out)?;
            add(out, owner, What::Leave)
        }
        Basic::Block(s) => seq(alloc, s, owner, out),
        Basic::Atomic(s) => seq(alloc, s, owner, out),
        Basic::DStep(s) => {
            add(out, owner, What::Enter(Structure::DStep))?;
            seq(alloc, s, owner, out)?;
            add(out, owner, What::Leave)
        }
        Basic::Unless(main, escape) => {
            add(out, owner, What::Unless)?;
            seq(alloc, main, owner, out)?;
            seq(alloc, escape, owner, out)
        }
    }
}

#[cycle(statement)]
fn item<'a>(
    alloc: Global,
    i: &Item<'a>,
    owner: usize,
    out: &mut Items<Mark<'a>>,
) -> Result<(), AllocError>
    ensures { OnOk result (out.new ≡ out.old ++ of_item i.now owner) }
{
    labels(i.labels.as_slice(), owner, out)?;
    basic(alloc, i.basic.get(), owner, out)
}

#[cycle(statement)]
fn seqs<'a>(
    alloc: Global,
    all: &[Seq<'a>],
    owner: usize,
    out: &mut Items<Mark<'a>>,
) -> Result<(), AllocError>
    ensures { OnOk result (out.new ≡ out.old ++ all_marks (map of_seq all.now) owner) }
{
    for one in all {
        seq(alloc, one, owner, out)?;
    }
    Ok(())
}

/// Adds the marks of a sequence.
#[cycle(statement)]
pub fn seq<'a>(
    alloc: Global,
    s: &Seq<'a>,
    owner: usize,
    out: &mut Items<Mark<'a>>,
) -> Result<(), AllocError>
    ensures { OnOk result (out.new ≡ out.old ++ of_seq s.now owner) }
{
    for one in s.items.as_slice() {
        item(alloc, one, owner, out)?;
    }
    Ok(())
}
