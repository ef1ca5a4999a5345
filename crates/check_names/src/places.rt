//! What is kept for an owner's names. A name is found by the order of names, and never by a hash of its text.

ghost use Rattle.std.specs.Prelude.{◌≡◌, ◌<◌, ◌≤◌, ℕ, List, None, Some, OnOk, OnErr, IfOk};
ghost use Rattle.std.specs.BTreeMap.{btree_map_len};
ghost use Rattle.check_names.specs.Places.{AreNumbered, IsKept, Puts, number_in, stands};

use std::alloc::{AllocError, Global};
use std::collections::BTreeMap;

/// What is kept for each name of an owner.
#[derive(Drop)]
pub struct Places<'a, T> {
    /// The number of each name, whoever has it.
    numbers: BTreeMap<&'a [u8], usize>,
    /// What is kept for an owner's name, by the name's number.
    places: BTreeMap<(usize, usize), T>,
}

// The number of a name: a new one, where it has none.
fn number<'a>(numbers: &mut BTreeMap<&'a [u8], usize>, name: &'a [u8]) -> Result<usize, AllocError>
    requires { AreNumbered numbers.old }
    ensures numbered { AreNumbered numbers.new }
    ensures number { IfOk result (λ k. number_in numbers.new name.entry.now ≡ Some k) }
    ensures more { btree_map_len numbers.old ≤ btree_map_len numbers.new }
    ensures others { (n : List ℕ) (k : ℕ) → number_in numbers.new n ≡ Some k → k < btree_map_len numbers.old → number_in numbers.old n ≡ Some k }
    ensures kept { (n : List ℕ) (k : ℕ) → number_in numbers.old n ≡ Some k → number_in numbers.new n ≡ Some k }
{
    match numbers.get(name) {
        Some(number) => Ok(*number),
        None => {
            let number = numbers.len();
            numbers.insert(name, number)?;
            Ok(number)
        }
    }
}

impl<'a, T: Copy + Drop> Places<'a, T> {
    /// No names.
    pub fn new(alloc: Global) -> Places<'a, T>
        ensures empty { (o : ℕ) (n : List ℕ) → stands result.numbers result.places o n ≡ None }
        ensures kept { IsKept result.numbers result.places }
    {
        Places {
            numbers: BTreeMap::new(alloc),
            places: BTreeMap::new(alloc),
        }
    }

    /// What is kept for a name.
    pub fn find(&self, owner: usize, name: &[u8]) -> Option<T>
        ensures { result ≡ stands self.now.numbers self.now.places owner name.now }
    {
        match self.numbers.get(name) {
            Some(number) => self.places.get(&(owner, *number)).copied(),
            None => None,
        }
    }

    /// Keeps this for a name.
    pub fn put(&mut self, owner: usize, name: &'a [u8], place: T) -> Result<(), AllocError>
        requires { IsKept self.old.numbers self.old.places }
        ensures kept { IsKept self.new.numbers self.new.places }
        ensures added { OnOk result (Puts (stands self.old.numbers self.old.places) (stands self.new.numbers self.new.places) owner name.entry.now place) }
        ensures same { OnErr result ((o : ℕ) (n : List ℕ) → stands self.new.numbers self.new.places o n ≡ stands self.old.numbers self.old.places o n) }
    {
        let number = number(&mut self.numbers, name)?;
        self.places.insert((owner, number), place)?;
        Ok(())
    }
}
