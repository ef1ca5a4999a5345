//! The fields of a message that is sent.

ghost use Rattle.std.specs.Prelude.{◌≡◌, ◌<◌, ◌++◌, ◌∷◌, [], length};
ghost use Rattle.profile.specs.declared.TheConstants.{MOST_FIELDS};

use profile::MOST_FIELDS;
use std::marker::Model;

/// The values of the fields of a message, in order. They take no memory.
#[derive(Drop)]
pub struct Fields {
    numbers: [i32; MOST_FIELDS],
    count: usize,
}

impl Model for Fields {
    ghost use Rattle.std.specs.Prelude.{List, ℤ, ◌≤◌, take};
    ghost use Rattle.profile.specs.declared.TheConstants.{MOST_FIELDS};

    ghost Value = { List ℤ };

    ghost view = { λ f. take f.count f.numbers };

    ghost invariant = { λ f. f.count ≤ MOST_FIELDS };
}

impl Fields {
    /// No field so far.
    pub fn new() -> Fields
        ensures { result ≡ [] }
    {
        Fields {
            numbers: [0; MOST_FIELDS],
            count: 0,
        }
    }

    /// The values, field by field.
    pub fn as_slice(&self) -> &[i32]
        ensures { result.now ≡ self.now }
    {
        &self.numbers[..self.count]
    }

    /// One field more.
    pub fn push(&mut self, number: i32)
        requires { length self.old < MOST_FIELDS }
        ensures { self.new ≡ self.old ++ number ∷ [] }
    {
        self.numbers[self.count] = number;
        self.count += 1;
    }
}
