//! Variables, and what they begin with.

ghost use Rattle.std.specs.Prelude.{◌≡◌, map, OnOk, IfOk};
ghost use Rattle.promela_model.specs.Marks.{made_by};
ghost use Rattle.check_uses.specs.Parts.{size_of};
ghost use Rattle.check_names.specs.Env.{after};
ghost use Rattle.check_names.specs.Totals.{IsTotalled};
ghost use Rattle.check_resolve.specs.Numbered.{scope_of};
ghost use Rattle.check_resolve.specs.Declarations.{known, natural, plain, initial, slot, declares, with_variable, with_variables};

use crate::expression::expr;
use crate::scope::Scope;
use check_names::names::Names;
use check_names::table::Table;
use check_uses::constant::constant;
use pml_program::form::Form;
use pml_program::program::{Initial, Slot};
use pml_token::token::Token;
use pml_tree::room::room_for;
use pml_tree::tree::{Expr as TreeExpr, Initial as TreeInitial, Scalar, Sort, Variable};
use promela_model::mark::{Constant, Declared, Makes, Role, What};
use promela_model::thing::Thing;
use sqlite_items::{Boxed, Items};
use std::alloc::{AllocError, Global};

/// A number of processes or messages.
pub fn natural(constant: Constant) -> u32
    ensures { result ≡ natural constant }
{
    match constant {
        Constant::Is(n) => { if 0 <= n { n as u32 } else { 0 } }
        _ => 0,
    }
}

/// Declares a name.
pub fn declare<'a>(names: &mut Names<'a>, owner: usize, what: &What<'a>) -> Result<(), AllocError>
    requires { IsTotalled names.old.table names.old.totals names.old.constants }
    ensures table { OnOk result (names.new.table ≡ after names.old.table owner what.now) }
    ensures totalled { OnOk result (IsTotalled names.new.table names.new.totals names.new.constants) }
{
    let _ = names.table.len();
    names.declare(owner, what)
}

fn copied<'a>(sort: &Sort<'a>) -> Sort<'a>
    ensures { result ≡ sort.now }
{
    match sort {
        Sort::Plain(t) => Sort::Plain(*t),
        Sort::Unsigned(n) => Sort::Unsigned(n.copied()),
        Sort::Named(t) => Sort::Named(t.copied()),
    }
}

fn size_of(size: &Option<Boxed<TreeExpr>>) -> Option<Constant>
    ensures { result ≡ size_of size.now }
{
    match size {
        None => None,
        Some(e) => Some(constant(e.get())),
    }
}

fn made_by(initial: &Option<TreeInitial>) -> Makes
    ensures { result ≡ made_by initial.now }
{
    match initial {
        Some(TreeInitial::Channel(_, _)) => Makes::Channels,
        _ => Makes::Numbers,
    }
}

fn declares<'a>(role: Role, v: &Variable<'a>) -> What<'a>
    ensures { result ≡ declares role v.now }
{
    let makes = made_by(&v.initial);
    let declared = Declared::Variable(role, copied(&v.sort), size_of(&v.size), makes);
    What::Declares(v.name.copied(), declared)
}

fn forms(alloc: Global, types: &[Scalar]) -> Result<Items<Form>, AllocError>
    ensures { IfOk result (λ fs. fs ≡ map plain types.now) }
{
    let mut forms = room_for(alloc, types.len())?;
    for one in types {
        forms.push(Form::Plain(*one))?;
    }
    Ok(forms)
}

fn initial(
    alloc: Global,
    begins: &Option<TreeInitial>,
    within: Scope<'_, '_, '_>,
) -> Result<Initial, AllocError>
    ensures { IfOk result (λ x. x ≡ initial begins.now (scope_of within.entry)) }
{
    match begins {
        None => Ok(Initial::Zero),
        Some(TreeInitial::Value(e)) => Ok(Initial::Value(expr(alloc, e.get(), within)?)),
        Some(TreeInitial::Channel(e, types)) => {
            let forms = forms(alloc, types.as_slice())?;
            Ok(Initial::Channel(natural(constant(e.get())), forms))
        }
    }
}

fn slot<'a>(name: Token<'a>, initial: Initial, found: Option<Thing>) -> Slot<'a>
    ensures { result ≡ slot name.entry initial found }
{
    match found {
        Some(Thing::Variable(v)) => Slot {
            name,
            form: v.form,
            array: v.array,
            offset: v.offset,
            length: v.length,
            stride: v.stride,
            initial,
        },
        _ => Slot {
            name,
            form: Form::Unknown,
            array: false,
            offset: 0,
            length: 1,
            stride: 1,
            initial,
        },
    }
}

/// Whose variables, parameters or fields are declared: those of a typedef, or of a proctype or the whole text, by their number.
#[derive(Clone, Copy)]
pub struct Holder {
    /// Fields, or variables.
    pub role: Role,
    /// 0, or the number of a proctype or typedef among the units.
    pub number: usize,
}

fn variable<'a>(
    alloc: Global,
    names: &mut Names<'a>,
    all: &Table,
    holder: Holder,
    v: &Variable<'a>,
    slots: &mut Items<Slot<'a>>,
) -> Result<(), AllocError>
    requires { IsTotalled names.old.table names.old.totals names.old.constants }
    ensures known { OnOk result (known names.new.table slots.new ≡ with_variable all.now holder.role holder.number v.now (known names.old.table slots.old)) }
    ensures totalled { OnOk result (IsTotalled names.new.table names.new.totals names.new.constants) }
{
    if names.table.find(holder.number, v.name.text()).is_some() {
        return Ok(());
    }
    let user = match holder.role {
        Role::Field => 0,
        Role::Variable => holder.number,
    };
    let within = Scope {
        all,
        table: &names.table,
        owner: user,
    };
    let initial = initial(alloc, &v.initial, within)?;
    declare(names, holder.number, &declares(holder.role, v))?;
    let found = names.table.find(holder.number, v.name.text());
    slots.push(slot(v.name.copied(), initial, found))
}

/// Declares variables, parameters or fields, which are `holder`'s, and adds them.
pub fn variables<'a>(
    alloc: Global,
    names: &mut Names<'a>,
    all: &Table,
    holder: Holder,
    vs: &[Variable<'a>],
    slots: &mut Items<Slot<'a>>,
) -> Result<(), AllocError>
    requires { IsTotalled names.old.table names.old.totals names.old.constants }
    ensures known { OnOk result (known names.new.table slots.new ≡ with_variables all.now holder.role holder.number vs.now (known names.old.table slots.old)) }
    ensures totalled { OnOk result (IsTotalled names.new.table names.new.totals names.new.constants) }
{
    for v in vs {
        variable(alloc, names, all, holder, v, slots)?;
    }
    Ok(())
}
