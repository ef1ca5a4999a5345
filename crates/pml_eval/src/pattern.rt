//! What a receive asks of each field of a message.

ghost use Rattle.std.specs.Prelude.{◌≡◌, ◌<◌, ◌++◌, ◌∷◌, [], length};
ghost use Rattle.profile.specs.declared.TheConstants.{MOST_FIELDS};
ghost use Rattle.promela_process.specs.Expressions.{matched, matches_field};

use pml_program::form::Form;
use profile::MOST_FIELDS;
use promela_process::place::Place;
use promela_process::sought::Sought;
use std::marker::Model;

/// What a receive asks of the fields of a message, in order.
#[derive(Drop)]
pub struct Pattern {
    sought: [Sought; MOST_FIELDS],
    count: usize,
}

impl Model for Pattern {
    ghost use Rattle.std.specs.Prelude.{List, ◌≤◌, take};
    ghost use Rattle.profile.specs.declared.TheConstants.{MOST_FIELDS};
    ghost use Rattle.promela_process.specs.declared.sought.Sought.{Sought};

    ghost Value = { List Sought };

    ghost view = { λ p. take p.count p.sought };

    ghost invariant = { λ p. p.count ≤ MOST_FIELDS };
}

impl Pattern {
    /// Nothing is asked so far.
    pub fn new() -> Pattern
        ensures { result ≡ [] }
    {
        Pattern {
            sought: [Sought::Anything; MOST_FIELDS],
            count: 0,
        }
    }

    /// What is asked, field by field.
    pub fn as_slice(&self) -> &[Sought]
        ensures { result.now ≡ self.now }
    {
        &self.sought[..self.count]
    }

    /// Asks one field more.
    pub fn push(&mut self, one: Sought)
        requires { length self.old < MOST_FIELDS }
        ensures { self.new ≡ self.old ++ one ∷ [] }
    {
        self.sought[self.count] = one;
        self.count += 1;
    }
}

/// Whether each field is what is asked of it.
pub fn matches(sought: &[Sought], fields: &[i32]) -> bool
    ensures { result ≡ matched sought.now fields.now }
{
    if sought.len() != fields.len() {
        return false;
    }
    for i in 0..sought.len() {
        if !takes(sought[i], fields[i]) {
            return false;
        }
    }
    true
}

/// Whether a field is what is asked of it.
pub fn takes(one: Sought, field: i32) -> bool
    ensures { result ≡ matches_field one field }
{
    match one {
        Sought::Exactly(n) => n == field,
        Sought::Into(_, _) | Sought::Anything => true,
    }
}
