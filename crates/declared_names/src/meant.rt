//! Which declaration each name means.

ghost use Rattle.std.specs.Prelude.{◌≡◌, ◌++◌, OnOk, IfOk};
ghost use Rattle.check_names.specs.Env.{env};
ghost use Rattle.declared_names.specs.Meant.{meant_site, form_of, fields, reference, mark_in, meant};
ghost use Rattle.declared_names.specs.Tables.{told_in, sites_of, AreSites, AreLabels};

use crate::occurrence::{Occurrence, add_name};
use crate::sites::{add_site, all_labels, all_sites};
use check_names::meaning::{is_special, meaning};
use check_names::names::{Names, all_names};
use check_names::places::Places;
use check_names::table::Table;
use pml_program::form::Form;
use promela_model::mark::{Mark, Shape, What};
use promela_model::thing::Thing;
use std::alloc::{AllocError, Global};

/// What names stand for, and where they are declared.
#[derive(Clone, Copy)]
pub struct KnownNames<'s, 'a> {
    pub table: &'s Table<'a>,
    pub sites: &'s Places<'a, usize>,
}

/// Where a name is declared.
fn meant_site(
    all: KnownNames<'_, '_>,
    here: KnownNames<'_, '_>,
    owner: usize,
    name: &[u8],
) -> Option<usize>
    ensures { result ≡ meant_site (told_in all.entry) (told_in here.entry) owner name.now }
{
    if is_special(name) {
        return None;
    }
    if let Some(site) = here.sites.find(owner, name) {
        return Some(site);
    }
    if let Some(site) = here.sites.find(0, name) {
        return Some(site);
    }
    match all.table.find(0, name) {
        Some(Thing::Proctype(_, _)) => all.sites.find(0, name),
        _ => None,
    }
}

fn form_of(thing: Option<Thing>) -> Form
    ensures { result ≡ form_of thing }
{
    match thing {
        Some(Thing::Variable(variable)) => variable.form,
        _ => Form::Unknown,
    }
}

/// Adds the fields of what has this type.
fn add_fields(
    out: &mut Vec<Occurrence>,
    here: KnownNames<'_, '_>,
    form: Form,
    steps: &[Shape<'_>],
) -> Result<(), AllocError>
    ensures { OnOk result (out.new.items ≡ out.old.items ++ fields (told_in here.entry) form steps.now) }
{
    let mut form = form;
    for step in steps {
        let Form::Struct(owner) = form else {
            return Ok(());
        };
        let name = step.name.text();
        add_name(out, &step.name, here.sites.find(owner, name))?;
        form = form_of(here.table.find(owner, name));
    }
    Ok(())
}

/// Adds the names of a reference.
fn add_reference(
    out: &mut Vec<Occurrence>,
    all: KnownNames<'_, '_>,
    here: KnownNames<'_, '_>,
    owner: usize,
    steps: &[Shape<'_>],
) -> Result<(), AllocError>
    ensures { OnOk result (out.new.items ≡ out.old.items ++ reference (told_in all.entry) (told_in here.entry) owner steps.now) }
{
    match steps {
        [] => Ok(()),
        [first, rest @ ..] => {
            let name = first.name.text();
            add_name(out, &first.name, meant_site(all, here, owner, name))?;
            let form = form_of(meaning(all.table, here.table, owner, name));
            add_fields(out, here, form, rest)
        }
    }
}

/// Adds the names of a mark.
fn add_mark(
    out: &mut Vec<Occurrence>,
    all: KnownNames<'_, '_>,
    here: KnownNames<'_, '_>,
    labels: &Places<'_, usize>,
    mark: &Mark<'_>,
) -> Result<(), AllocError>
    ensures { OnOk result (out.new.items ≡ out.old.items ++ mark_in (told_in all.entry) (told_in here.entry) (sites_of labels.now) mark.now) }
{
    let owner = mark.owner;
    match &mark.what {
        What::Declares(name, _) => add_name(out, name, here.sites.find(owner, name.text())),
        What::Uses(_, steps) => add_reference(out, all, here, owner, steps.as_slice()),
        What::Typedef(name) => add_name(out, name, meant_site(all, here, owner, name.text())),
        What::Runs(name, _) => add_name(out, name, meant_site(all, here, owner, name.text())),
        What::Label(name) => add_name(out, name, labels.find(owner, name.text())),
        What::Goto(name) => add_name(out, name, labels.find(owner, name.text())),
        _ => Ok(()),
    }
}

/// The names of marks, among all of a text.
fn by_marks<'a>(
    alloc: Global,
    all: KnownNames<'_, 'a>,
    labels: &Places<'a, usize>,
    marks: &[Mark<'a>],
) -> Result<Vec<Occurrence>, AllocError>
    requires table { all.table.now ≡ env marks.now }
    requires sites { AreSites marks.now all.sites.now }
    requires labels { AreLabels marks.now labels.now }
    ensures { IfOk result (λ os. os.items ≡ meant marks.now) }
{
    let mut out = Vec::new(alloc);
    let mut names = Names::new(alloc);
    let mut sites = Places::new(alloc);
    for mark in marks {
        names.declare(mark.owner, &mark.what)?;
        add_site(&mut sites, mark.owner, &mark.what)?;
        let here = KnownNames {
            table: &names.table,
            sites: &sites,
        };
        add_mark(&mut out, all, here, labels, mark)?;
    }
    Ok(out)
}

/// The names of the marks of a text, each with its declaration.
pub fn meant(alloc: Global, marks: &[Mark<'_>]) -> Result<Vec<Occurrence>, AllocError>
    ensures { IfOk result (λ os. os.items ≡ meant marks.now) }
{
    let names = all_names(alloc, marks)?;
    let sites = all_sites(alloc, marks)?;
    let labels = all_labels(alloc, marks)?;
    let all = KnownNames {
        table: &names.table,
        sites: &sites,
    };
    by_marks(alloc, all, &labels, marks)
}
