//! The marks of declarations.

ghost use Rattle.std.specs.Prelude.{◌≡◌, ◌++◌, OnOk, IfOk};
ghost use Rattle.promela_model.specs.Marks.{of_sort, of_size, of_initial, made_by, holder, of_variable, of_variables, preset_layer};
ghost use Rattle.check_uses.specs.Parts.{size_of};
ghost use Rattle.pml_tree.specs.declared.tree.Expr.{out-Expr};

use crate::constant::constant;
use crate::expr::{add, expr, reference};
use pml_tree::tree::{Expr, Initial, Scalar, Sort, Variable};
use promela_model::mark::{Constant, Declared, Holder, Makes, Mark, Role, Use, What};
use sqlite_items::{Boxed, Items};
use std::alloc::{AllocError, Global};

/// Adds the marks of variables, parameters or fields, which are declared as `holder`'s.
pub fn variables<'a>(
    alloc: Global,
    role: Role,
    holder: usize,
    all: &[Variable<'a>],
    owner: usize,
    out: &mut Items<Mark<'a>>,
) -> Result<(), AllocError>
    ensures { OnOk result (out.new ≡ out.old ++ of_variables role holder all.now owner) }
{
    for one in all {
        variable(alloc, role, holder, one, owner, out)?;
    }
    Ok(())
}

fn variable<'a>(
    alloc: Global,
    role: Role,
    holder: usize,
    v: &Variable<'a>,
    owner: usize,
    out: &mut Items<Mark<'a>>,
) -> Result<(), AllocError>
    ensures { OnOk result (out.new ≡ out.old ++ of_variable role holder v.now owner) }
{
    sort(&v.sort, owner, out)?;
    let size = size(alloc, &v.size, owner, out)?;
    let makes = initial(alloc, role, &v.sort, &v.initial, owner, out)?;
    let declared = Declared::Variable(role, copied(&v.sort), size, makes);
    add(out, holder, What::Declares(v.name.copied(), declared))
}

fn copied<'a>(sort: &Sort<'a>) -> Sort<'a>
    ensures { result ≡ sort.now }
{
    match sort {
        Sort::Plain(t) => Sort::Plain(*t),
        Sort::Unsigned(n) => Sort::Unsigned(n.copied()),
        Sort::Named(t) => Sort::Named(t.copied()),
    }
}

fn sort<'a>(sort: &Sort<'a>, owner: usize, out: &mut Items<Mark<'a>>) -> Result<(), AllocError>
    ensures { OnOk result (out.new ≡ out.old ++ of_sort sort.now owner) }
{
    match sort {
        Sort::Plain(_) => Ok(()),
        Sort::Unsigned(n) => {
            add(out, owner, What::Number(n.copied()))?;
            add(out, owner, What::Width(n.copied()))
        }
        Sort::Named(t) => add(out, owner, What::Typedef(t.copied())),
    }
}

fn size<'a>(
    alloc: Global,
    size: &Option<Boxed<Expr<'a>>>,
    owner: usize,
    out: &mut Items<Mark<'a>>,
) -> Result<Option<Constant>, AllocError>
    ensures size { IfOk result (λ n. n ≡ size_of size.now) }
    ensures marks { OnOk result (out.new ≡ out.old ++ of_size size.now owner) }
{
    match size {
        None => Ok(None),
        Some(e) => {
            expr(alloc, e.get(), owner, out)?;
            let n = constant(e.get());
            add(out, owner, What::Size(n))?;
            Ok(Some(n))
        }
    }
}

fn initial<'a>(
    alloc: Global,
    role: Role,
    sort: &Sort<'a>,
    initial: &Option<Initial<'a>>,
    owner: usize,
    out: &mut Items<Mark<'a>>,
) -> Result<Makes, AllocError>
    ensures makes { IfOk result (λ made. made ≡ made_by initial.now) }
    ensures marks { OnOk result (out.new ≡ out.old ++ of_initial role sort.now initial.now owner) }
{
    match initial {
        None => Ok(Makes::Numbers),
        Some(Initial::Value(e)) => {
            match role {
                Role::Field => preset(alloc, e.get(), owner, out)?,
                Role::Variable => expr(alloc, e.get(), owner, out)?,
            }
            Ok(Makes::Numbers)
        }
        Some(Initial::Channel(e, types)) => {
            expr(alloc, e.get(), owner, out)?;
            add(
                out,
                owner,
                What::Channel(holder(sort), constant(e.get()), types.len()),
            )?;
            Ok(Makes::Channels)
        }
    }
}

fn holder(sort: &Sort) -> Holder
    ensures { result ≡ holder sort.now }
{
    match sort {
        Sort::Plain(Scalar::Chan) => Holder::Chan,
        _ => Holder::Other,
    }
}

fn preset<'a>(
    alloc: Global,
    e: &Expr<'a>,
    owner: usize,
    out: &mut Items<Mark<'a>>,
) -> Result<(), AllocError>
    ensures { OnOk result (out.new ≡ out.old ++ preset_layer e.now (out-Expr e.now) owner) }
{
    match e {
        Expr::Read(r) => reference(alloc, r, Use::Preset, owner, out),
        _ => {
            expr(alloc, e, owner, out)?;
            add(out, owner, What::Preset(constant(e)))
        }
    }
}
