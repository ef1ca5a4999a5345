//! Names that are not declared.

ghost use Rattle.std.specs.Prelude.{◌≡◌};
ghost use Rattle.check_names.specs.Entry.{found as names_of};
ghost use Rattle.promela_model.specs.Conditions.{lacks, lost, unknown_in, unknown_name, unknown};

use check_names::meaning::{field, is_special, meaning};
use check_names::table::Table;
use pml_program::form::Form;
use promela_model::mark::{Shape, What};
use promela_model::thing::Thing;

fn lacks(table: &Table, form: Form, steps: &[Shape]) -> bool
    ensures { result ≡ lacks (names_of table.now) form steps.now }
{
    let mut here = form;
    for step in steps {
        match field(table, here, step.name.text()) {
            None => return false,
            Some(None) => return true,
            Some(Some(Thing::Variable(v))) => here = v.form,
            Some(Some(_)) => return false,
        }
    }
    false
}

fn lost(table: &Table, found: Option<Thing>, steps: &[Shape]) -> bool
    ensures { result ≡ lost (names_of table.now) found steps.now }
{
    match found {
        Some(Thing::Variable(v)) => lacks(table, v.form, steps),
        Some(Thing::Constant(_)) => false,
        _ => true,
    }
}

fn unknown_in(all: &Table, table: &Table, owner: usize, steps: &[Shape]) -> bool
    ensures { result ≡ unknown_in (names_of all.now) (names_of table.now) owner steps.now }
{
    match steps {
        [] => false,
        [first, rest @ ..] => {
            let name = first.name.text();
            if is_special(name) {
                return false;
            }
            lost(table, meaning(all, table, owner, name), rest)
        }
    }
}

fn unknown_name(all: &Table, table: &Table, owner: usize, name: &[u8]) -> bool
    ensures { result ≡ unknown_name (names_of all.now) (names_of table.now) owner name.now }
{
    if is_special(name) {
        return false;
    }
    meaning(all, table, owner, name).is_none()
}

/// Whether a name is not declared, or a field is lacking.
pub fn unknown(all: &Table, table: &Table, owner: usize, what: &What) -> bool
    ensures { result ≡ unknown (names_of all.now) (names_of table.now) owner what.now }
{
    match what {
        What::Uses(_, steps) => unknown_in(all, table, owner, steps.as_slice()),
        What::Typedef(t) => unknown_name(all, table, owner, t.text()),
        What::Runs(n, _) => unknown_name(all, table, owner, n.text()),
        _ => false,
    }
}
