//! A table of names.

ghost use Rattle.std.specs.Prelude.{◌≡◌, ◌++◌, ◌∷◌, ◌<◌, ◌^◌, [], None, length, slice_get, OnOk, OnErr, IfOk};
ghost use Rattle.check_names.specs.Places.{thing_in};

use crate::places::Places;
use indexmap::IndexMap;
use promela_model::thing::Thing;
use std::alloc::{AllocError, Global};
use std::marker::Model;

/// Names in order of declaration, with what they stand for. What is declared is kept by its place, which no text chooses.
#[derive(Drop)]
pub struct Table<'a> {
    /// How many names stand before each.
    places: Places<'a, usize>,
    /// What is declared, by how many names stand before it.
    things: IndexMap<usize, ((usize, &'a [u8]), Thing)>,
}

impl<'a> Model for Table<'a> {
    ghost use Rattle.std.specs.Prelude.{List};
    ghost use Rattle.check_names.specs.Entry.{Entry, entries_of};
    ghost use Rattle.check_names.specs.Places.{IsPlaced};

    ghost Value = { List Entry };

    ghost view = { λ t. entries_of t.things.entries };

    ghost invariant = { λ t. IsPlaced t.places.numbers t.places.places t.things.entries };
}

impl<'a> Table<'a> {
    ghost use Rattle.check_names.specs.Entry.{found, entry};

    /// No names.
    pub fn new(alloc: Global) -> Table<'a>
        ensures { result ≡ [] }
    {
        Table {
            places: Places::new(alloc),
            things: IndexMap::new(alloc),
        }
    }

    /// How many names there are.
    pub fn len(&self) -> usize
        ensures len { result ≡ length self.now }
        ensures small { result < 2 ^ 63 }
    {
        self.things.len()
    }

    fn thing_at(&self, place: usize) -> Option<Thing>
        ensures { result ≡ thing_in (slice_get self.now place) }
    {
        match self.things.get_index(place) {
            Some((_, declared)) => Some(declared.1),
            None => None,
        }
    }

    /// What a name stands for.
    pub fn find(&self, owner: usize, name: &[u8]) -> Option<Thing>
        ensures { result ≡ found self.now owner name.now }
    {
        match self.places.find(owner, name) {
            Some(place) => self.thing_at(place),
            None => None,
        }
    }

    /// Adds a name that is not there.
    pub fn add(&mut self, owner: usize, name: &'a [u8], thing: Thing) -> Result<(), AllocError>
        requires { found self.old owner name.now ≡ None }
        ensures { OnOk result (self.new ≡ self.old ++ entry owner name.entry.now thing ∷ []) }
    {
        let place = self.things.len();
        self.things.reserve(1)?;
        self.places.put(owner, name, place)?;
        self.things.insert(place, ((owner, name), thing))?;
        Ok(())
    }
}
