//! The marks of expressions.

ghost use Rattle.std.specs.Prelude.{◌≡◌, ◌++◌, ◌∷◌, [], OnOk, IfOk};
ghost use Rattle.promela_model.specs.Marks.{of_expr, of_argument, of_reference, mark};
ghost use Rattle.check_uses.specs.Parts.{of_step, shapes, of_arguments, of_exprs};

use pml_tree::room::room_for;
use pml_tree::tree::{Argument, Expr, Reference, Step};
use promela_model::mark::{Mark, Shape, Use, What};
use sqlite_items::Items;
use std::alloc::{AllocError, Global};

/// Adds a mark.
pub fn add<'a>(out: &mut Items<Mark<'a>>, owner: usize, what: What<'a>) -> Result<(), AllocError>
    ensures { OnOk result (out.new ≡ out.old ++ mark owner what.entry ∷ []) }
{
    out.push(Mark { owner, what })
}

/// Adds the marks of an expression.
#[cycle(expr)]
pub fn expr<'a>(
    alloc: Global,
    e: &Expr<'a>,
    owner: usize,
    out: &mut Items<Mark<'a>>,
) -> Result<(), AllocError>
    ensures { OnOk result (out.new ≡ out.old ++ of_expr e.now owner) }
{
    match e {
        Expr::Number(n) => add(out, owner, What::Number(n.copied())),
        Expr::Truth(_) => Ok(()),
        Expr::Timeout => Ok(()),
        Expr::Read(r) => reference(alloc, r, Use::Read, owner, out),
        Expr::Ask(_, r) => reference(alloc, r, Use::Channel, owner, out),
        Expr::Poll(r, _, all) => {
            reference(alloc, r, Use::Channel, owner, out)?;
            arguments(alloc, all.as_slice(), owner, out)
        }
        Expr::Unary(_, a) => expr(alloc, a.get(), owner, out),
        Expr::Binary(_, a, b) => {
            expr(alloc, a.get(), owner, out)?;
            expr(alloc, b.get(), owner, out)
        }
        Expr::Choice(a, b, c) => {
            expr(alloc, a.get(), owner, out)?;
            expr(alloc, b.get(), owner, out)?;
            expr(alloc, c.get(), owner, out)
        }
    }
}

/// Adds the marks of the arguments of a receive.
#[cycle(expr)]
pub fn arguments<'a>(
    alloc: Global,
    all: &[Argument<'a>],
    owner: usize,
    out: &mut Items<Mark<'a>>,
) -> Result<(), AllocError>
    ensures { OnOk result (out.new ≡ out.old ++ of_arguments all.now owner) }
{
    for one in all {
        argument(alloc, one, owner, out)?;
    }
    Ok(())
}

#[cycle(expr)]
fn argument<'a>(
    alloc: Global,
    one: &Argument<'a>,
    owner: usize,
    out: &mut Items<Mark<'a>>,
) -> Result<(), AllocError>
    ensures { OnOk result (out.new ≡ out.old ++ of_argument one.now owner) }
{
    match one {
        Argument::Exactly(_, n) => add(out, owner, What::Number(n.copied())),
        Argument::Fixed(_) => Ok(()),
        Argument::Eval(a) => expr(alloc, a.get(), owner, out),
        Argument::Into(r) => reference(alloc, r, Use::Receive, owner, out),
    }
}

/// Adds the marks of a reference.
#[cycle(expr)]
pub fn reference<'a>(
    alloc: Global,
    r: &Reference<'a>,
    used: Use,
    owner: usize,
    out: &mut Items<Mark<'a>>,
) -> Result<(), AllocError>
    ensures { OnOk result (out.new ≡ out.old ++ of_reference r.now used owner) }
{
    let mut shapes = room_for(alloc, r.fields.len().saturating_add(1))?;
    shapes.push(step(alloc, &r.first, owner, out)?)?;
    for field in r.fields.as_slice() {
        shapes.push(step(alloc, field, owner, out)?)?;
    }
    add(out, owner, What::Uses(used, shapes))
}

#[cycle(expr)]
fn step<'a>(
    alloc: Global,
    s: &Step<'a>,
    owner: usize,
    out: &mut Items<Mark<'a>>,
) -> Result<Shape<'a>, AllocError>
    ensures shape { IfOk result (λ shape. shape ≡ (of_step s.now).shape) }
    ensures marks { OnOk result (out.new ≡ out.old ++ (of_step s.now).marks owner) }
{
    match &s.index {
        None => Ok(Shape {
            name: s.name.copied(),
            indexed: false,
        }),
        Some(index) => {
            expr(alloc, index.get(), owner, out)?;
            Ok(Shape {
                name: s.name.copied(),
                indexed: true,
            })
        }
    }
}

/// Adds the marks of expressions.
pub fn exprs<'a>(
    alloc: Global,
    all: &[Expr<'a>],
    owner: usize,
    out: &mut Items<Mark<'a>>,
) -> Result<(), AllocError>
    ensures { OnOk result (out.new ≡ out.old ++ of_exprs all.now owner) }
{
    for e in all {
        expr(alloc, e, owner, out)?;
    }
    Ok(())
}
