//! What names stand for.

ghost use Rattle.std.specs.Prelude.{◌≡◌, Some, option_map};
ghost use Rattle.promela_model.specs.Names.{is_any, is_pid, is_count, is_special, only_process, visible, meaning, field_of_type};
ghost use Rattle.check_names.specs.Entry.{found};

use crate::table::Table;
use pml_program::form::Form;
use promela_model::thing::Thing;

/// `_`.
#[tactic(auto, unfolding(promela_model::specs::Names::is_any))]
pub fn is_any(name: &[u8]) -> bool
    ensures { result ≡ is_any name.now }
{
    name == b"_".as_slice()
}

/// `_pid`.
#[tactic(auto, unfolding(promela_model::specs::Names::is_pid))]
pub fn is_pid(name: &[u8]) -> bool
    ensures { result ≡ is_pid name.now }
{
    name == b"_pid".as_slice()
}

/// `_nr_pr`.
#[tactic(auto, unfolding(promela_model::specs::Names::is_count))]
pub fn is_count(name: &[u8]) -> bool
    ensures { result ≡ is_count name.now }
{
    name == b"_nr_pr".as_slice()
}

/// Whether no text declares this name.
pub fn is_special(name: &[u8]) -> bool
    ensures { result ≡ is_special name.now }
{
    is_any(name) || is_pid(name) || is_count(name)
}

fn only_process(found: Option<Thing>) -> Option<Thing>
    ensures { result ≡ only_process found }
{
    match found {
        Some(Thing::Proctype(o, n)) => Some(Thing::Proctype(o, n)),
        _ => None,
    }
}

/// What a name stands for: a name of the owner, or a global name.
pub fn visible(table: &Table, owner: usize, name: &[u8]) -> Option<Thing>
    ensures { result ≡ visible (found table.now) owner name.now }
{
    match table.find(owner, name) {
        Some(t) => Some(t),
        None => table.find(0, name),
    }
}

/// What a name stands for: a name of the owner, a global name, a proctype of the whole text.
pub fn meaning(all: &Table, table: &Table, owner: usize, name: &[u8]) -> Option<Thing>
    ensures { result ≡ meaning (found all.now) (found table.now) owner name.now }
{
    match table.find(owner, name) {
        Some(t) => Some(t),
        None => match table.find(0, name) {
            Some(t) => Some(t),
            None => only_process(all.find(0, name)),
        },
    }
}

/// What stands for a field of this type.
pub fn field(table: &Table, form: Form, name: &[u8]) -> Option<Option<Thing>>
    ensures { result ≡ field_of_type (found table.now) form name.now }
{
    match form {
        Form::Struct(t) => Some(table.find(t, name)),
        _ => None,
    }
}
