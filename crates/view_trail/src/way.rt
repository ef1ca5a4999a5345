//! Ways on from where a walk and a trail stand.

ghost use Rattle.std.specs.Prelude.{◌≡◌, [], length, option_map, slice_get};

use std::alloc::{AllocError, Global};
use std::marker::Model;
use trail_text::trail::Trail;

/// A way on: the number of a move, counted from 1, or none, where a line is passed over; and the trail behind it.
#[derive(Clone, Copy, Debug)]
pub struct EntryWay<'t> {
    pub choice: Option<usize>,
    pub trail: Trail<'t>,
}

// A way, and how far it is from what the trail says.
#[derive(Clone, Copy, Debug)]
struct Ranked<'t> {
    rank: usize,
    way: EntryWay<'t>,
}

/// Ways, the likeliest first.
#[derive(Drop)]
pub struct Ways<'t> {
    ranked: Vec<Ranked<'t>>,
}

impl<'t> Model for Ways<'t> {
    ghost use Rattle.std.specs.Prelude.{ℕ, List, Option, map};

    ghost Value = { List (Option ℕ) };

    ghost view = { λ w. map (λ r. r.way.choice) w.ranked.items };
}

impl<'t> Ways<'t> {
    /// None yet.
    pub fn new(alloc: Global) -> Ways<'t>
        ensures { result ≡ [] }
    {
        Ways {
            ranked: Vec::new(alloc),
        }
    }

    // How many ways are of this rank or of a lower one.
    fn before(&self, rank: usize) -> usize {
        for at in 0..self.ranked.len() {
            if self.ranked[at].rank > rank {
                return at;
            }
        }
        self.ranked.len()
    }

    /// Adds a way behind those of its rank.
    pub fn add(&mut self, rank: usize, way: EntryWay<'t>) -> Result<(), AllocError> {
        let at = self.before(rank).min(self.ranked.len());
        self.ranked.insert(at, Ranked { rank, way })?;
        Ok(())
    }

    /// How many there are.
    pub fn len(&self) -> usize
        ensures { result ≡ length self.now }
    {
        self.ranked.len()
    }

    /// The way with this number, counted from 0.
    pub fn get(&self, number: usize) -> Option<EntryWay<'t>>
        ensures { option_map (λ w. w.choice) result ≡ slice_get self.now number }
    {
        match self.ranked.get(number) {
            Some(ranked) => Some(ranked.way),
            None => None,
        }
    }
}
