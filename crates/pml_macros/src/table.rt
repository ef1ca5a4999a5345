//! The macros that are known.

ghost use Rattle.std.specs.Prelude.{◌≡◌, ℕ, map, option_map, is_some, None, Some, IfOk, OnOk};
ghost use Rattle.pml_macros.specs.Calls.{known, rule_of};

use crate::atom::Atom;
use std::alloc::{AllocError, AllocFailed, Global};
use std::collections::BTreeMap;

/// What stands in place of a token of a macro's body.
#[derive(Clone, Copy, Debug, PartialEq, Eq)]
pub enum Substitution {
    Itself,
    /// What comes of this argument.
    Expanded(usize),
    /// The argument as it is, beside `##`.
    Raw(usize),
    /// The argument as a string, behind `#`.
    Shown(usize),
}

/// A token of a macro's body.
#[derive(Clone, Copy, Debug)]
pub struct BodyToken {
    pub atom: Atom,
    pub role: Substitution,
    /// `##` stands before it.
    pub is_joined: bool,
}

/// A macro.
#[derive(Drop)]
pub struct Macro {
    /// The number of its name.
    pub name: usize,
    /// How many parameters it has, where it is called with parentheses.
    pub parameters: Option<usize>,
    pub body: Vec<BodyToken>,
}

/// All that are known.
#[derive(Drop)]
pub struct MacroTable {
    macros: Vec<Macro>,
    places: BTreeMap<usize, usize>,
}

impl MacroTable {
    /// No macro.
    pub fn new(alloc: Global) -> MacroTable
        ensures { (name : ℕ) → known result name ≡ None }
    {
        MacroTable {
            macros: Vec::new(alloc),
            places: BTreeMap::new(alloc),
        }
    }

    /// The macro of a name.
    pub fn find(&self, name: usize) -> Option<&Macro>
        ensures { option_map (λ m. rule_of m.now) result ≡ known self.now name }
    {
        match self.places.get(&name) {
            Some(place) => {
                let place = *place;
                if place < self.macros.len() {
                    Some(&self.macros[place])
                } else {
                    None
                }
            }
            None => None,
        }
    }

    /// Whether a macro of this name is known.
    pub fn knows(&self, name: usize) -> bool
        ensures { result ≡ is_some (known self.now name) }
    {
        self.find(name).is_some()
    }

    /// The names of all that were defined.
    pub fn names(&self) -> Result<Vec<usize>, AllocError>
        ensures { IfOk result (λ names. names.items ≡ map (λ m. m.name) self.now.macros.items) }
    {
        let mut names = Vec::new(*self.macros.allocator());
        for made in &self.macros {
            names.push(made.name)?;
        }
        Ok(names)
    }

    /// Makes a macro known, in place of one of its name.
    pub fn define(&mut self, made: Macro) -> Result<(), AllocError>
        ensures { OnOk result (known self.new made.name ≡ Some (rule_of made)) }
    {
        let place = self.macros.len();
        let name = made.name;
        self.macros.push(made)?;
        self.places.insert(name, place)?;
        Ok(())
    }

    /// Makes a macro unknown.
    pub fn forget(&mut self, name: usize)
        ensures { known self.new name ≡ None }
    {
        self.places.remove(&name);
    }
}
