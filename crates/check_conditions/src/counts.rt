//! Names that stand twice, labels, arguments, ranges and cells.

ghost use Rattle.std.specs.Prelude.{◌≡◌, ◌+◌, ◌*◌, ◌<◌, ◌^◌, nat_lt, ℕ, pos};
ghost use Rattle.check_conditions.specs.Labels.{labels_of};
ghost use Rattle.promela_model.specs.Conditions.{twice, conversions, is_conversion, other_count, mislabelled, is_outside, out_of_range, too_many};
ghost use Rattle.promela_model.specs.Names.{stride, length_of, count_of};
ghost use Rattle.check_conditions.specs.Step.{out_of, inside};
ghost use Rattle.check_names.specs.Entry.{found};
ghost use Rattle.check_names.specs.Env.{told};
ghost use Rattle.check_names.specs.Totals.{IsTotalled};

use check_names::meaning::{is_special, meaning};
use check_names::names::{Names, length_of, stride};
use check_names::places::Places;
use check_names::table::Table;
use check_names::totals::at;
use check_uses::arithmetic::read;
use profile::{MOST_BITS, MOST_CELLS, MOST_CONSTANTS, MOST_FIELDS, MOST_MESSAGES, MOST_PROCESSES};
use promela_model::mark::{Constant, Declared, Role, What};
use promela_model::thing::Thing;

/// Whether a name is declared twice, or one that no text declares.
pub fn twice(table: &Table, owner: usize, what: &What) -> bool
    ensures { result ≡ twice (found table.now) owner what.now }
{
    match what {
        What::Declares(name, _) => {
            if is_special(name.text()) {
                return true;
            }
            table.find(owner, name.text()).is_some()
        }
        _ => false,
    }
}

/// Whether a label stands twice, or is missing.
pub fn mislabelled(every: &Places<usize>, labels: &Places<usize>, owner: usize, what: &What) -> bool
    ensures { result ≡ mislabelled (labels_of every.now) (labels_of labels.now) owner what.now }
{
    match what {
        What::Label(name) => labels.find(owner, name.text()).is_some(),
        What::Goto(name) => every.find(owner, name.text()).is_none(),
        _ => false,
    }
}

fn is_outside(least: i32, most: i32, constant: Constant) -> bool
    ensures { (l m : ℕ) → least ≡ pos l → most ≡ pos m → result ≡ is_outside l m constant }
{
    match constant {
        Constant::Open => false,
        Constant::Faulty => true,
        Constant::Is(n) => n < least || most < n,
    }
}

fn out_of(least: u32, most: u32, found: Option<u32>) -> bool
    ensures { result ≡ out_of least most found }
{
    match found {
        None => true,
        Some(n) => n < least || most < n,
    }
}

/// Whether a number is out of range.
pub fn out_of_range(names: &Names, what: &What) -> bool
    requires { IsTotalled names.now.table names.now.totals names.now.constants }
    ensures { result ≡ out_of_range (told names.now.table).constants what.now }
{
    match what {
        What::Number(n) => read(n.text()).is_none(),
        What::Width(n) => out_of(1, MOST_BITS, read(n.text())),
        What::Size(c) => is_outside(1, MOST_CELLS as i32, *c),
        What::Starts(c) => is_outside(1, MOST_PROCESSES as i32, *c),
        What::Preset(Constant::Faulty) => true,
        What::Channel(_, c, n) => { is_outside(0, MOST_MESSAGES as i32, *c) || MOST_FIELDS < *n },
        What::Declares(_, Declared::Constant) => MOST_CONSTANTS <= names.constants,
        _ => false,
    }
}

/// The messages that a channel holds by its declaration; none where that is refused by itself.
pub fn capacity(constant: Constant) -> u64
    ensures value { result ≡ count_of constant }
    ensures small { result < 2 ^ 32 }
{
    match constant {
        Constant::Is(n) => match u64::try_from(n) {
            Ok(n) => n,
            Err(_) => 0,
        },
        _ => 0,
    }
}

/// Whether there are too many cells.
pub fn too_many(names: &Names, owner: usize, what: &What) -> bool
    requires { IsTotalled names.now.table names.now.totals names.now.constants }
    ensures { result ≡ too_many (told names.now.table) owner what.now }
{
    match what {
        What::Declares(_, Declared::Variable(Role::Variable, sort, size, _)) => {
            let before = u64::from(at(names.totals.as_slice(), owner).cells);
            let more = u64::from(length_of(*size)) * u64::from(stride(&names.table, owner, sort));
            u64::from(MOST_CELLS) < before + more
        }
        What::Channel(_, c, n) => match u32::try_from(*n) {
            Ok(n) => u64::from(MOST_CELLS) < capacity(*c) * u64::from(n),
            Err(_) => 0 < capacity(*c),
        },
        _ => false,
    }
}

/// Whether the letter behind a `%` of a printf takes a value.
pub fn is_conversion(c: u8) -> bool
    ensures { result ≡ is_conversion c }
{
    match c {
        b'd' | b'u' | b'o' | b'x' | b'c' | b'e' => true,
        _ => false,
    }
}

/// How many values the text of a printf takes, if each of its conversions is there.
fn conversions(text: &[u8]) -> Option<usize>
    ensures { result ≡ conversions text.now }
{
    let mut rest = text;
    let mut count = 0usize;
    while let [c, more @ ..] = rest {
        match more {
            [] => {
                if *c == b'%' {
                    return None;
                }
                return Some(count);
            }
            [d, behind @ ..] => {
                if *c == b'%' {
                    if *d != b'%' {
                        if !is_conversion(*d) {
                            return None;
                        }
                        count += 1;
                    }
                    rest = behind;
                } else if *c == b'\\' {
                    rest = behind;
                } else {
                    rest = more;
                }
            }
        }
    }
    Some(count)
}

fn inside(text: &[u8]) -> &[u8]
    ensures { result.now ≡ inside text.now }
{
    match text {
        [] => text,
        [_, rest @ ..] => match rest {
            [] => rest,
            [front @ .., _] => front,
        },
    }
}

/// Whether a run or a printf has another number of arguments.
pub fn other_count(all: &Table, table: &Table, owner: usize, what: &What) -> bool
    ensures { result ≡ other_count (found all.now) (found table.now) owner what.now }
{
    match what {
        What::Runs(n, k) => match meaning(all, table, owner, n.text()) {
            Some(Thing::Proctype(_, m)) => m != *k,
            _ => false,
        },
        What::Prints(t, k) => match conversions(inside(t.text())) {
            None => true,
            Some(n) => n != *k,
        },
        _ => false,
    }
}
