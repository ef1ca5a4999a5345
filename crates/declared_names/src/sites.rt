//! Where the names and labels of a text are declared.

ghost use Rattle.std.specs.Prelude.{◌≡◌, OnOk, IfOk};
ghost use Rattle.check_names.specs.Places.{IsKept};
ghost use Rattle.declared_names.specs.Sites.{declared_by, labelled_by, placed_as};
ghost use Rattle.declared_names.specs.Tables.{sites_of, AreSites, AreLabels, Adds};

use check_names::places::Places;
use pml_token::token::Token;
use promela_model::mark::{Mark, What};
use std::alloc::{AllocError, Global};

/// Keeps the place of the first token of a name.
fn add<'a>(sites: &mut Places<'a, usize>, owner: usize, name: &Token<'a>) -> Result<(), AllocError>
    requires { IsKept sites.old.numbers sites.old.places }
    ensures kept { IsKept sites.new.numbers sites.new.places }
    ensures added { OnOk result (Adds (sites_of sites.old) (sites_of sites.new) owner (λ n. placed_as n name.now.text name.now.line)) }
{
    if sites.find(owner, name.text()).is_some() {
        return Ok(());
    }
    sites.put(owner, name.text(), name.line() as usize)
}

/// Keeps where a mark declares a name, unless it is declared before.
pub fn add_site<'a>(
    sites: &mut Places<'a, usize>,
    owner: usize,
    what: &What<'a>,
) -> Result<(), AllocError>
    requires { IsKept sites.old.numbers sites.old.places }
    ensures kept { IsKept sites.new.numbers sites.new.places }
    ensures added { OnOk result (Adds (sites_of sites.old) (sites_of sites.new) owner (declared_by what.now)) }
{
    match what {
        What::Declares(name, _) => add(sites, owner, name),
        _ => Ok(()),
    }
}

/// Keeps where a mark is a label, unless one of its name stands before.
fn add_label<'a>(
    labels: &mut Places<'a, usize>,
    owner: usize,
    what: &What<'a>,
) -> Result<(), AllocError>
    requires { IsKept labels.old.numbers labels.old.places }
    ensures kept { IsKept labels.new.numbers labels.new.places }
    ensures added { OnOk result (Adds (sites_of labels.old) (sites_of labels.new) owner (labelled_by what.now)) }
{
    match what {
        What::Label(name) => add(labels, owner, name),
        _ => Ok(()),
    }
}

/// Where the marks of a text declare names.
pub fn all_sites<'a>(alloc: Global, marks: &[Mark<'a>]) -> Result<Places<'a, usize>, AllocError>
    ensures { IfOk result (AreSites marks.now) }
{
    let mut sites = Places::new(alloc);
    for mark in marks {
        add_site(&mut sites, mark.owner, &mark.what)?;
    }
    Ok(sites)
}

/// Where the labels of a text stand.
pub fn all_labels<'a>(alloc: Global, marks: &[Mark<'a>]) -> Result<Places<'a, usize>, AllocError>
    ensures { IfOk result (AreLabels marks.now) }
{
    let mut labels = Places::new(alloc);
    for mark in marks {
        add_label(&mut labels, mark.owner, &mark.what)?;
    }
    Ok(labels)
}
