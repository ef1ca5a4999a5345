//! The names that are declared so far.

ghost use Rattle.std.specs.Prelude.{◌≡◌, [], ◌+◌, ◌<◌, ◌^◌, None, length, OnOk, IfOk};
ghost use Rattle.promela_model.specs.Names.{form, stride, user, form_of, stride_of, constants_in, length_of};
ghost use Rattle.check_names.specs.Env.{thing_of, add, after, env};
ghost use Rattle.check_names.specs.Entry.{found};
ghost use Rattle.check_names.specs.Totals.{IsTotalled};

use crate::meaning::visible;
use crate::table::Table;
use crate::totals::{Total, at, grow, grown};
use check_uses::arithmetic::read;
use pml_program::form::Form;
use pml_tree::tree::Sort;
use profile::MOST_CELLS;
use promela_model::mark::{Constant, Declared, Mark, Role, What};
use promela_model::thing::{Thing, Variable};
use sqlite_items::Items;
use std::alloc::{AllocError, Global};

/// The names that are declared so far, what their owners have, and how many mtype names there are.
#[derive(Drop)]
pub struct Names<'a> {
    pub table: Table<'a>,
    pub totals: Items<Total>,
    pub constants: usize,
}

fn form_of(found: Option<Thing>) -> Form
    ensures { result ≡ form_of found }
{
    match found {
        Some(Thing::Typedef(t, _)) => Form::Struct(t),
        _ => Form::Unknown,
    }
}

fn stride_of(found: Option<Thing>) -> u32
    ensures { result ≡ stride_of found }
{
    match found {
        Some(Thing::Typedef(_, n)) => n,
        _ => 1,
    }
}

/// The type of a variable that is declared where this owner's names are used.
pub fn form(table: &Table, owner: usize, sort: &Sort) -> Form
    ensures { result ≡ form (found table.now) owner sort.now }
{
    match sort {
        Sort::Plain(t) => Form::Plain(*t),
        Sort::Unsigned(n) => Form::Unsigned(match read(n.text()) {
            Some(width) => width,
            None => 0,
        }),
        Sort::Named(t) => form_of(visible(table, owner, t.text())),
    }
}

/// The cells of one element of such a variable.
pub fn stride(table: &Table, owner: usize, sort: &Sort) -> u32
    ensures { result ≡ stride (found table.now) owner sort.now }
{
    match sort {
        Sort::Plain(_) => 1,
        Sort::Unsigned(_) => 1,
        Sort::Named(t) => stride_of(visible(table, owner, t.text())),
    }
}

fn user(role: Role, owner: usize) -> usize
    ensures { result ≡ user role owner }
{
    match role {
        Role::Field => 0,
        Role::Variable => owner,
    }
}

/// How many elements a variable has.
pub fn length_of(size: Option<Constant>) -> u32
    ensures { result ≡ length_of size }
{
    match size {
        Some(Constant::Is(n)) => {
            if 0 < n && n <= MOST_CELLS as i32 {
                n as u32
            } else {
                1
            }
        }
        _ => 1,
    }
}

fn counted(constants: usize, thing: Thing) -> usize
    requires { constants + 1 < 2 ^ 64 }
    ensures { result ≡ constants + constants_in thing }
{
    match thing {
        Thing::Constant(_) => constants + 1,
        _ => constants,
    }
}

impl<'a> Names<'a> {
    /// No names.
    pub fn new(alloc: Global) -> Names<'a>
        ensures empty { result.table ≡ [] }
        ensures totalled { IsTotalled result.table result.totals result.constants }
    {
        Names {
            table: Table::new(alloc),
            totals: Items::new(alloc),
            constants: 0,
        }
    }

    /// What a name is declared as.
    fn thing(&self, owner: usize, declared: &Declared) -> Thing
        requires totalled { IsTotalled self.now.table self.now.totals self.now.constants }
        requires room { self.now.constants + 1 < 2 ^ 64 }
        ensures { result ≡ thing_of self.now.table owner declared.now }
    {
        match declared {
            Declared::Variable(role, sort, size, _) => {
                let user = user(*role, owner);
                let total = at(self.totals.as_slice(), owner);
                Thing::Variable(Variable {
                    form: form(&self.table, user, sort),
                    array: size.is_some(),
                    length: length_of(*size),
                    stride: stride(&self.table, user, sort),
                    offset: total.cells,
                    number: total.variables,
                })
            }
            Declared::Constant => Thing::Constant(self.constants + 1),
            Declared::Typedef(t) => Thing::Typedef(*t, at(self.totals.as_slice(), *t).cells),
            Declared::Proctype(p, n) => Thing::Proctype(*p, *n),
        }
    }

    /// Adds a name, unless it is there.
    #[tactic(auto, unfolding(crate::specs::Env::add))]
    fn add(&mut self, owner: usize, name: &'a [u8], thing: Thing) -> Result<(), AllocError>
        requires totalled { IsTotalled self.old.table self.old.totals self.old.constants }
        requires room { length self.old.table + 1 < 2 ^ 64 }
        ensures table { OnOk result (self.new.table ≡ add self.old.table owner name.entry.now thing) }
        ensures totalled { OnOk result (IsTotalled self.new.table self.new.totals self.new.constants) }
    {
        if self.table.find(owner, name).is_some() {
            return Ok(());
        }
        self.table.add(owner, name, thing)?;
        grow(&mut self.totals, owner)?;
        let total = grown(at(self.totals.as_slice(), owner), thing);
        self.totals.set(owner, total);
        self.constants = counted(self.constants, thing);
        Ok(())
    }

    /// Adds what a mark declares.
    #[tactic(auto, unfolding(crate::specs::Env::after))]
    pub fn declare(&mut self, owner: usize, what: &What<'a>) -> Result<(), AllocError>
        requires totalled { IsTotalled self.old.table self.old.totals self.old.constants }
        requires room { length self.old.table + 1 < 2 ^ 64 }
        ensures table { OnOk result (self.new.table ≡ after self.old.table owner what.now) }
        ensures totalled { OnOk result (IsTotalled self.new.table self.new.totals self.new.constants) }
    {
        match what {
            What::Declares(name, declared) => {
                let thing = self.thing(owner, declared);
                self.add(owner, name.text(), thing)
            }
            _ => Ok(()),
        }
    }
}

/// The names of all marks.
pub fn all_names<'a>(alloc: Global, marks: &[Mark<'a>]) -> Result<Names<'a>, AllocError>
    ensures table { IfOk result (λ names. names.table ≡ env marks.now) }
    ensures totalled { IfOk result (λ names. IsTotalled names.table names.totals names.constants) }
{
    let mut names = Names::new(alloc);
    for mark in marks {
        names.declare(mark.owner, &mark.what)?;
    }
    Ok(names)
}
