//! Names and values of the wrong kind.

ghost use Rattle.std.specs.Prelude.{◌≡◌, not};
ghost use mathlib.Core.Bool.{beq};
ghost use Rattle.check_names.specs.Entry.{found as names_of};
ghost use Rattle.promela_model.specs.Conditions.{is_plain, is_unknown, misused, misfits, wrong_thing, wrong_special, wrong_in, wrong};
ghost use Rattle.check_conditions.specs.Step.{is_compared, is_stored, is_preset};

use check_names::meaning::{field, is_any, is_pid, is_special, meaning};
use check_names::table::Table;
use pml_program::form::Form;
use pml_tree::tree::Scalar;
use promela_model::mark::{Constant, Holder, Shape, Use, What};
use promela_model::thing::Thing;

fn is_plain(first: &Shape, rest: &[Shape]) -> bool
    ensures { result ≡ is_plain first.now rest.now }
{
    match rest {
        [] => !first.indexed,
        _ => false,
    }
}

fn is_compared(used: Use) -> bool
    ensures { result ≡ is_compared used }
{
    match used {
        Use::Read | Use::Receive | Use::Preset => true,
        _ => false,
    }
}

fn is_stored(used: Use) -> bool
    ensures { result ≡ is_stored used }
{
    match used {
        Use::Store | Use::Receive => true,
        _ => false,
    }
}

fn is_preset(used: Use) -> bool
    ensures { result ≡ is_preset used }
{
    match used {
        Use::Preset => true,
        _ => false,
    }
}

fn is_unknown(form: Form) -> bool
    ensures { result ≡ is_unknown form }
{
    match form {
        Form::Unknown => true,
        _ => false,
    }
}

fn differ(a: bool, b: bool) -> bool
    ensures { result ≡ not (beq a b) }
{
    a != b
}

fn misused(used: Use, form: Form) -> bool
    ensures { result ≡ misused used form }
{
    match form {
        Form::Struct(_) => true,
        Form::Unknown => false,
        Form::Plain(Scalar::Chan) => false,
        _ => match used {
            Use::Channel => true,
            _ => false,
        },
    }
}

fn misfits(table: &Table, used: Use, form: Form, steps: &[Shape]) -> bool
    ensures { result ≡ misfits (names_of table.now) used form steps.now }
{
    let mut here = form;
    for step in steps {
        if is_unknown(here) {
            return false;
        }
        match field(table, here, step.name.text()) {
            None => return true,
            Some(None) => return false,
            Some(Some(Thing::Variable(v))) => {
                if differ(step.indexed, v.array) {
                    return true;
                }
                here = v.form;
            }
            Some(Some(_)) => return false,
        }
    }
    misused(used, here)
}

fn wrong_thing(
    table: &Table,
    used: Use,
    found: Option<Thing>,
    first: &Shape,
    rest: &[Shape],
) -> bool
    ensures { result ≡ wrong_thing (names_of table.now) used found first.now rest.now }
{
    match found {
        Some(Thing::Variable(v)) => {
            if is_preset(used) {
                return true;
            }
            if differ(first.indexed, v.array) {
                return true;
            }
            misfits(table, used, v.form, rest)
        }
        Some(Thing::Constant(_)) => !(is_plain(first, rest) && is_compared(used)),
        _ => false,
    }
}

fn wrong_special(owner: usize, used: Use, first: &Shape, rest: &[Shape]) -> bool
    ensures { result ≡ wrong_special owner used first.now rest.now }
{
    let name = first.name.text();
    if is_any(name) {
        return !(is_plain(first, rest) && is_stored(used));
    }
    let read = match used {
        Use::Read => true,
        _ => false,
    };
    if is_pid(name) {
        return !(is_plain(first, rest) && read && 0 < owner);
    }
    !(is_plain(first, rest) && read)
}

fn wrong_in(all: &Table, table: &Table, owner: usize, used: Use, steps: &[Shape]) -> bool
    ensures { result ≡ wrong_in (names_of all.now) (names_of table.now) owner used steps.now }
{
    match steps {
        [] => false,
        [first, rest @ ..] => {
            let name = first.name.text();
            if is_special(name) {
                return wrong_special(owner, used, first, rest);
            }
            wrong_thing(table, used, meaning(all, table, owner, name), first, rest)
        }
    }
}

/// Whether something is of the wrong kind.
pub fn wrong(all: &Table, table: &Table, owner: usize, what: &What) -> bool
    ensures { result ≡ wrong (names_of all.now) (names_of table.now) owner what.now }
{
    match what {
        What::Uses(used, steps) => wrong_in(all, table, owner, *used, steps.as_slice()),
        What::Typedef(t) => {
            if is_special(t.text()) {
                return true;
            }
            match meaning(all, table, owner, t.text()) {
                None => false,
                Some(Thing::Typedef(_, _)) => false,
                Some(_) => true,
            }
        }
        What::Runs(n, _) => {
            if is_special(n.text()) {
                return true;
            }
            match meaning(all, table, owner, n.text()) {
                None => false,
                Some(Thing::Proctype(_, _)) => false,
                Some(_) => true,
            }
        }
        What::Size(Constant::Open) => true,
        What::Starts(Constant::Open) => true,
        What::Preset(Constant::Open) => true,
        What::Channel(Holder::Other, _, _) => true,
        What::Channel(Holder::Chan, Constant::Open, _) => true,
        _ => false,
    }
}
