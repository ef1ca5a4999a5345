//! A whole model, with its names replaced.

ghost use Rattle.std.specs.Prelude.{◌≡◌, ◌++◌, reverse, OnOk, IfOk};
ghost use Rattle.pml_tree.specs.declared.tree.Unit.TheVariants as part;
ghost use Rattle.promela_model.specs.Marks.{of_tree};
ghost use Rattle.check_uses.specs.Parts.{of_constants};
ghost use Rattle.check_names.specs.Env.{env, env_from};
ghost use Rattle.check_names.specs.Totals.{IsTotalled};
ghost use Rattle.check_resolve.specs.Numbered.{owned};
ghost use Rattle.check_resolve.specs.Model.{count, made, with_process, with_unit, numbered_model};

use crate::declare::{Holder, declare, natural, variables};
use crate::scope::Whose;
use crate::statement::seq;
use check_names::names::Names;
use check_names::table::Table;
use check_uses::constant::constant;
use pml_program::program::{Fields, Proctype, Program};
use pml_token::token::Token;
use pml_tree::tree::{Proctype as TreeProctype, Starts, Tree, Unit, Variable};
use promela_model::mark::{Declared, Role, What};
use sqlite_items::Items;
use std::alloc::{AllocError, Global};

fn count(starts: &Starts) -> u32
    ensures { result ≡ count starts.now }
{
    match starts {
        Starts::Never => 0,
        Starts::Once => 1,
        Starts::Times(e) => natural(constant(e.get())),
    }
}

fn constants<'w, 'a>(
    list: &'w [Token<'a>],
    names: &'w mut Names<'a>,
    tokens: &'w mut Items<Token<'a>>,
) -> Result<(), AllocError>
    requires { IsTotalled names.old.table names.old.totals names.old.constants }
    ensures tokens { OnOk result (tokens.new ≡ tokens.old ++ reverse list.now) }
    ensures names { OnOk result (names.new.table ≡ env_from names.old.table (of_constants list.now)) }
    ensures totalled { OnOk result (IsTotalled names.new.table names.new.totals names.new.constants) }
{
    for i in (0..list.len()).rev() {
        let name = list[i].copied();
        let what = What::Declares(name.copied(), Declared::Constant);
        declare(names, 0, &what)?;
        tokens.push(name)?;
    }
    Ok(())
}

fn process<'w, 'a>(
    alloc: Global,
    names: &'w mut Names<'a>,
    all: &Table,
    owner: usize,
    p: &'w TreeProctype<'a>,
    program: &'w mut Program<'a>,
) -> Result<(), AllocError>
    requires { IsTotalled names.old.table names.old.totals names.old.constants }
    ensures made { OnOk result (made program.new names.new.table ≡ with_process all.now owner p.now (made program.old names.old.table)) }
    ensures totalled { OnOk result (IsTotalled names.new.table names.new.totals names.new.constants) }
{
    let declared = Declared::Proctype(program.proctypes.len(), p.parameters.len());
    declare(names, 0, &What::Declares(p.name.copied(), declared))?;
    let mut slots = Items::new(alloc);
    let holder = Holder {
        role: Role::Variable,
        number: owner,
    };
    variables(
        alloc,
        names,
        all,
        holder,
        p.parameters.as_slice(),
        &mut slots,
    )?;
    let body = seq(alloc, &p.body, Whose { all, owner }, names, &mut slots)?;
    program.proctypes.push(Proctype {
        name: p.name.copied(),
        owner,
        starts: count(&p.starts),
        parameters: p.parameters.len(),
        variables: slots,
        body,
        end: p.end.copied(),
    })
}

fn typedef<'w, 'a>(
    alloc: Global,
    names: &'w mut Names<'a>,
    whose: Whose<'_, '_>,
    name: &'w Token<'a>,
    vs: &'w [Variable<'a>],
    program: &'w mut Program<'a>,
) -> Result<(), AllocError>
    requires { IsTotalled names.old.table names.old.totals names.old.constants }
    ensures made { OnOk result (made program.new names.new.table
        ≡ owned whose.entry with_unit (part.Typedef name.now vs.now) (made program.old names.old.table)) }
    ensures totalled { OnOk result (IsTotalled names.new.table names.new.totals names.new.constants) }
{
    let mut fields = Items::new(alloc);
    let holder = Holder {
        role: Role::Field,
        number: whose.owner,
    };
    variables(alloc, names, whose.all, holder, vs, &mut fields)?;
    let what = What::Declares(name.copied(), Declared::Typedef(whose.owner));
    declare(names, 0, &what)?;
    program.typedefs.push(Fields {
        owner: whose.owner,
        fields,
    })
}

fn unit<'w, 'a>(
    alloc: Global,
    names: &'w mut Names<'a>,
    all: &Table,
    number: usize,
    u: &'w Unit<'a>,
    program: &'w mut Program<'a>,
) -> Result<(), AllocError>
    requires { IsTotalled names.old.table names.old.totals names.old.constants }
    ensures made { OnOk result (made program.new names.new.table ≡ with_unit all.now number u.now (made program.old names.old.table)) }
    ensures totalled { OnOk result (IsTotalled names.new.table names.new.totals names.new.constants) }
{
    match u {
        Unit::Variables(vs) => {
            let holder = Holder {
                role: Role::Variable,
                number: 0,
            };
            variables(
                alloc,
                names,
                all,
                holder,
                vs.as_slice(),
                &mut program.globals,
            )
        }
        Unit::Constants(list) => constants(list.as_slice(), names, &mut program.constants),
        Unit::Typedef(name, vs) => {
            let whose = Whose { all, owner: number };
            typedef(alloc, names, whose, name, vs.as_slice(), program)
        }
        Unit::Proctype(p) => process(alloc, names, all, number, p, program),
    }
}

/// The model that a tree stands for. `all` are the names of the whole text, among which a `run` finds a proctype that is declared
/// behind it. Of a model that is to be refused this says nothing.
pub fn number<'a>(alloc: Global, tree: &Tree<'a>, all: &Table) -> Result<Program<'a>, AllocError>
    requires { all.now ≡ env (of_tree tree.now) }
    ensures { IfOk result (λ p. p ≡ numbered_model tree.now) }
{
    let mut names = Names::new(alloc);
    let mut program = Program {
        globals: Items::new(alloc),
        constants: Items::new(alloc),
        typedefs: Items::new(alloc),
        proctypes: Items::new(alloc),
    };
    for (i, one) in tree.units.as_slice().iter().enumerate() {
        unit(alloc, &mut names, all, i + 1, one, &mut program)?;
    }
    Ok(program)
}
