//! What is declared in a text, and as what.

ghost use Rattle.std.specs.Prelude.{◌≡◌, ◌++◌, flat_map, OnOk, IfOk};
ghost use Rattle.check_names.specs.Env.{env};
ghost use Rattle.check_names.specs.Entry.{found};
ghost use Rattle.declared_names.specs.Firsts.{declared_first, declared_by_mark, declared};
ghost use Rattle.declared_names.specs.Tables.{sites_of, AreSites, AreLabels};

use crate::sites::{all_labels, all_sites};
use check_names::names::all_names;
use check_names::places::Places;
use check_names::table::Table;
use pml_token::token::Token;
use promela_model::mark::{Mark, What};
use promela_model::thing::Thing;
use std::alloc::{AllocError, Global};

/// What a declared name stands for.
#[derive(Clone, Copy, Debug, PartialEq, Eq)]
pub enum Stands {
    /// As the checks find it.
    Thing(Thing),
    Label,
    Inline,
    /// A parameter of an inline.
    Parameter,
}

/// A name where it is declared.
#[derive(Clone, Copy, Debug, PartialEq, Eq)]
pub struct Declaration {
    /// How many bytes stand before it.
    pub at: usize,
    pub length: usize,
    /// Whose it is: 0 for what is global, else the number of a typedef or proctype among the units, from 1. Of a parameter of an inline it is how
    /// many bytes stand before the inline's name.
    pub owner: usize,
    pub stands: Stands,
}

/// Adds a name where it is declared first.
fn add_first(
    out: &mut Vec<Declaration>,
    owner: usize,
    name: &Token<'_>,
    site: Option<usize>,
    stands: Stands,
) -> Result<(), AllocError>
    ensures { OnOk result (out.new.items ≡ out.old.items ++ declared_first owner name.now site stands) }
{
    let at = name.line() as usize;
    let Some(first) = site else {
        return Ok(());
    };
    if first != at {
        return Ok(());
    }
    out.push(Declaration {
        at,
        length: name.text().len(),
        owner,
        stands,
    })?;
    Ok(())
}

/// Adds what a mark declares.
fn add_mark(
    out: &mut Vec<Declaration>,
    table: &Table<'_>,
    sites: &Places<'_, usize>,
    labels: &Places<'_, usize>,
    mark: &Mark<'_>,
) -> Result<(), AllocError>
    ensures { OnOk result (out.new.items ≡ out.old.items ++ declared_by_mark (found table.now) (sites_of sites.now) (sites_of labels.now) mark.now) }
{
    let owner = mark.owner;
    match &mark.what {
        What::Declares(name, _) => match table.find(owner, name.text()) {
            Some(thing) => {
                let site = sites.find(owner, name.text());
                add_first(out, owner, name, site, Stands::Thing(thing))
            }
            None => Ok(()),
        },
        What::Label(name) => {
            let site = labels.find(owner, name.text());
            add_first(out, owner, name, site, Stands::Label)
        }
        _ => Ok(()),
    }
}

fn by_tables<'a>(
    alloc: Global,
    table: &Table<'a>,
    sites: &Places<'a, usize>,
    labels: &Places<'a, usize>,
    marks: &[Mark<'a>],
) -> Result<Vec<Declaration>, AllocError>
    ensures { IfOk result (λ ds. ds.items ≡ flat_map (declared_by_mark (found table.now) (sites_of sites.now) (sites_of labels.now)) marks.now) }
{
    let mut out = Vec::new(alloc);
    for mark in marks {
        add_mark(&mut out, table, sites, labels, mark)?;
    }
    Ok(out)
}

/// The names that marks declare, each where it is declared first.
pub fn declared(alloc: Global, marks: &[Mark<'_>]) -> Result<Vec<Declaration>, AllocError>
    ensures { IfOk result (λ ds. ds.items ≡ declared marks.now) }
{
    let names = all_names(alloc, marks)?;
    let sites = all_sites(alloc, marks)?;
    let labels = all_labels(alloc, marks)?;
    by_tables(alloc, &names.table, &sites, &labels, marks)
}
