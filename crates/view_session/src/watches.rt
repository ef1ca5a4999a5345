//! Breaks, and what is shown at each question: watches with numbers of their own.

ghost use Rattle.std.specs.Prelude.{◌<◌, vec_len, IfSome};
ghost use Rattle.view_text.specs.Written.{Stays};

use crate::watch::{Watch, add_absent, add_fault, meets};
use pml_sim::world::World;
use std::alloc::{AllocError, Global};
use view_cells::cells::add_value;
use view_condition::condition::StateCondition;
use view_text::writer::Writer;

/// So many are kept at most.
pub const MOST_WATCHES: usize = 20;

// A watch with its number.
#[derive(Drop)]
struct Numbered {
    number: usize,
    watch: Watch,
}

/// Watches, the oldest first. A number is given once.
#[derive(Drop)]
pub struct Watches {
    kept: Vec<Numbered>,
    last: usize,
}

impl Watches {
    /// None yet.
    pub fn new(alloc: Global) -> Watches {
        Watches {
            kept: Vec::new(alloc),
            last: 0,
        }
    }

    /// Whether there are none.
    pub fn is_empty(&self) -> bool {
        self.kept.is_empty()
    }

    /// Whether no more are kept.
    pub fn is_full(&self) -> bool {
        self.kept.len() >= MOST_WATCHES
    }

    /// Keeps one more. Its number.
    pub fn keep(&mut self, watch: Watch) -> Result<usize, AllocError> {
        let number = self.last.saturating_add(1);
        self.kept.push(Numbered { number, watch })?;
        self.last = number;
        Ok(number)
    }

    // At which place the one with this number is.
    fn place_of(&self, number: usize) -> Option<usize>
        ensures { IfSome result (λ at. at < vec_len self.now.kept) }
    {
        for at in 0..self.kept.len() {
            if self.kept[at].number == number {
                return Some(at);
            }
        }
        None
    }

    /// Lets the one with this number go, if it is there. Whether it was.
    pub fn let_go(&mut self, number: usize) -> bool {
        match self.place_of(number) {
            Some(at) => {
                let _ = self.kept.remove(at);
                true
            }
            None => false,
        }
    }

    /// Writes the words of the one with this number.
    pub fn add_words(&self, number: usize, out: &mut Writer)
        ensures { Stays out.old out.new }
    {
        if let Some(at) = self.place_of(number) {
            out.add(self.kept[at].watch.words());
        }
    }

    /// Writes each: `break 1: x == 2`.
    pub fn add(&self, name: &str, out: &mut Writer)
        ensures { Stays out.old out.new }
    {
        for numbered in self.kept.as_slice() {
            out.add(name.as_bytes());
            out.add(b" ");
            out.number(numbered.number);
            out.add(b": ");
            out.add(numbered.watch.words());
            out.add(b"\n");
        }
    }
}

/// The number of the first of them that is met in a state. A fault of one is told once.
pub fn first_met(
    world: &World<'_, '_>,
    watches: &mut Watches,
    out: &mut Writer,
) -> Result<Option<usize>, AllocError>
    ensures { Stays out.old out.new }
{
    let kept = watches.kept.as_mut_slice();
    for at in 0..kept.len() {
        if meets(world, &mut kept[at].watch, out)? {
            return Ok(Some(kept[at].number));
        }
    }
    Ok(None)
}

/// Writes what an expression is worth in a state: `x + 1 = 3`.
pub fn add_worth(world: &World<'_, '_>, words: &[u8], condition: &StateCondition, out: &mut Writer)
    ensures { Stays out.old out.new }
{
    let live = world.live();
    out.add(words);
    match (condition.worth(live), condition.absent(live)) {
        (Ok(number), _) => {
            out.add(b" = ");
            match condition.form() {
                Some(form) => add_value(live, form, number, out),
                None => out.signed(number),
            }
        }
        (Err(_), Some(whose)) => {
            out.add(b": ");
            add_absent(world, whose, out);
        }
        (Err(fault), None) => {
            out.add(b": ");
            add_fault(fault, out);
        }
    }
    out.add(b"\n");
}

/// Writes what each of them is worth in a state: `display 1: x + 1 = 3`.
pub fn add_displays(world: &World<'_, '_>, displays: &Watches, out: &mut Writer)
    ensures { Stays out.old out.new }
{
    for numbered in displays.kept.as_slice() {
        if let Some(condition) = numbered.watch.condition() {
            out.add(b"display ");
            out.number(numbered.number);
            out.add(b": ");
            add_worth(world, numbered.watch.words(), condition, out);
        }
    }
}
