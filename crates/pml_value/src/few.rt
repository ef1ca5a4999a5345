//! What is sent in the fields of a message, and what is asked of them, where they are few: most messages have no more, and an array for
//! so many is filled at once.

ghost use Rattle.std.specs.Prelude.{◌≡◌, ◌<◌, ◌++◌, ◌∷◌, [], length};
ghost use Rattle.pml_value.specs.declared.few.TheConstants.{FEW_FIELDS};

use promela_process::sought::Sought;
use std::marker::Model;

/// So many fields are few.
pub const FEW_FIELDS: usize = 8;

/// The values of a few fields, in order.
#[derive(Drop)]
pub struct FewFields {
    numbers: [i32; FEW_FIELDS],
    count: usize,
}

impl Model for FewFields {
    ghost use Rattle.std.specs.Prelude.{List, ℤ, ◌≤◌, take};
    ghost use Rattle.pml_value.specs.declared.few.TheConstants.{FEW_FIELDS};

    ghost Value = { List ℤ };

    ghost view = { λ f. take f.count f.numbers };

    ghost invariant = { λ f. f.count ≤ FEW_FIELDS };
}

impl FewFields {
    /// No field so far.
    pub fn new() -> FewFields
        ensures { result ≡ [] }
    {
        FewFields {
            numbers: [0; FEW_FIELDS],
            count: 0,
        }
    }

    /// The values, field by field.
    pub fn as_slice(&self) -> &[i32]
        ensures { result.now ≡ self.now }
    {
        &self.numbers[..self.count]
    }

    /// One field more.
    pub fn push(&mut self, number: i32)
        requires { length self.old < FEW_FIELDS }
        ensures { self.new ≡ self.old ++ number ∷ [] }
    {
        self.numbers[self.count] = number;
        self.count += 1;
    }
}

/// What is asked of a few fields, in order.
#[derive(Drop)]
pub struct FewSought {
    sought: [Sought; FEW_FIELDS],
    count: usize,
}

impl Model for FewSought {
    ghost use Rattle.std.specs.Prelude.{List, ◌≤◌, take};
    ghost use Rattle.pml_value.specs.declared.few.TheConstants.{FEW_FIELDS};
    ghost use Rattle.promela_process.specs.declared.sought.Sought.{Sought};

    ghost Value = { List Sought };

    ghost view = { λ p. take p.count p.sought };

    ghost invariant = { λ p. p.count ≤ FEW_FIELDS };
}

impl FewSought {
    /// Nothing is asked so far.
    pub fn new() -> FewSought
        ensures { result ≡ [] }
    {
        FewSought {
            sought: [Sought::Anything; FEW_FIELDS],
            count: 0,
        }
    }

    /// What is asked, field by field.
    pub fn as_slice(&self) -> &[Sought]
        ensures { result.now ≡ self.now }
    {
        &self.sought[..self.count]
    }

    /// Asks one field more.
    pub fn push(&mut self, one: Sought)
        requires { length self.old < FEW_FIELDS }
        ensures { self.new ≡ self.old ++ one ∷ [] }
    {
        self.sought[self.count] = one;
        self.count += 1;
    }
}
