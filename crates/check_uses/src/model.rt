//! The marks of a model.

ghost use Rattle.std.specs.Prelude.{◌≡◌, ◌++◌, OnOk, IfOk};
ghost use Rattle.promela_model.specs.Marks.{of_starts, of_unit, of_units, of_tree};
ghost use Rattle.check_uses.specs.Parts.{of_process, of_constants};

use crate::constant::constant;
use crate::declare::variables;
use crate::expr::{add, expr};
use crate::statement::seq;
use pml_token::token::Token;
use pml_tree::tree::{Proctype, Starts, Tree, Unit};
use promela_model::mark::{Constant, Declared, Mark, Role, What};
use sqlite_items::Items;
use std::alloc::{AllocError, Global};

fn starts<'a>(
    alloc: Global,
    s: &Starts<'a>,
    owner: usize,
    out: &mut Items<Mark<'a>>,
) -> Result<(), AllocError>
    ensures { OnOk result (out.new ≡ out.old ++ of_starts s.now owner) }
{
    match s {
        Starts::Never => Ok(()),
        Starts::Once => add(out, owner, What::Starts(Constant::Is(1))),
        Starts::Times(e) => {
            expr(alloc, e.get(), 0, out)?;
            add(out, owner, What::Starts(constant(e.get())))
        }
    }
}

fn process<'a>(
    alloc: Global,
    p: &Proctype<'a>,
    owner: usize,
    before: usize,
    out: &mut Items<Mark<'a>>,
) -> Result<(), AllocError>
    ensures { OnOk result (out.new ≡ out.old ++ of_process owner before p.now) }
{
    let declared = Declared::Proctype(before, p.parameters.len());
    add(out, 0, What::Declares(p.name.copied(), declared))?;
    starts(alloc, &p.starts, owner, out)?;
    variables(
        alloc,
        Role::Variable,
        owner,
        p.parameters.as_slice(),
        owner,
        out,
    )?;
    seq(alloc, &p.body, owner, out)
}

fn constants<'a>(names: &[Token<'a>], out: &mut Items<Mark<'a>>) -> Result<(), AllocError>
    ensures { OnOk result (out.new ≡ out.old ++ of_constants names.now) }
{
    for i in (0..names.len()).rev() {
        add(
            out,
            0,
            What::Declares(names[i].copied(), Declared::Constant),
        )?;
    }
    Ok(())
}

fn unit<'a>(
    alloc: Global,
    u: &Unit<'a>,
    number: usize,
    before: usize,
    out: &mut Items<Mark<'a>>,
) -> Result<(), AllocError>
    ensures { OnOk result (out.new ≡ out.old ++ of_unit number before u.now) }
{
    match u {
        Unit::Variables(all) => variables(alloc, Role::Variable, 0, all.as_slice(), 0, out),
        Unit::Constants(names) => constants(names.as_slice(), out),
        Unit::Typedef(name, fields) => {
            variables(alloc, Role::Field, number, fields.as_slice(), 0, out)?;
            add(
                out,
                0,
                What::Declares(name.copied(), Declared::Typedef(number)),
            )
        }
        Unit::Proctype(p) => process(alloc, p, number, before, out),
    }
}

/// The marks of a model, in the order of the text.
pub fn marks<'a>(alloc: Global, tree: &Tree<'a>) -> Result<Items<Mark<'a>>, AllocError>
    ensures { IfOk result (λ marks. marks ≡ of_tree tree.now) }
{
    let mut out = Items::new(alloc);
    let mut proctypes = 0usize;
    for (i, one) in tree.units.as_slice().iter().enumerate() {
        unit(alloc, one, i + 1, proctypes, &mut out)?;
        if let Unit::Proctype(_) = one {
            proctypes += 1;
        }
    }
    Ok(out)
}
