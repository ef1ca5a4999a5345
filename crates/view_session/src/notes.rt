//! What a trail says beside the steps of its walk: to which line a claim moves, and where a cycle begins.

ghost use Rattle.view_text.specs.Written.{Stays};

use std::alloc::{AllocError, Global};
use view_text::writer::Writer;
use view_walk::leg::Leg;

/// What a trail says beside the steps of its walk. It holds for the steps of any walk that begins with the same choices.
#[derive(Drop)]
pub struct Notes {
    legs: Vec<Leg>,
    /// To which line a claim moves with each step, the first of them step 1; 0 where it moves to none.
    lines: Vec<usize>,
    /// Behind how many steps a cycle begins.
    cycle: Option<usize>,
    /// So many of the first choices of the present walk are known to be those of the trail's.
    known: usize,
}

impl Notes {
    /// Nothing is said.
    pub fn new(alloc: Global) -> Notes {
        Notes {
            legs: Vec::new(alloc),
            lines: Vec::new(alloc),
            cycle: None,
            known: 0,
        }
    }

    /// Nothing is said yet of the steps of a walk with these choices; a cycle begins behind so many of them, if one does.
    pub fn of(alloc: Global, legs: &[Leg], cycle: Option<usize>) -> Result<Notes, AllocError> {
        let mut notes = Notes::new(alloc);
        notes.legs.extend_from_slice(legs)?;
        notes.lines.resize(legs.len(), 0)?;
        notes.cycle = cycle;
        Ok(notes)
    }

    /// A claim moves to this line with the step behind so many.
    pub fn keep(&mut self, before: usize, line: usize) {
        if before < self.lines.len() {
            self.lines[before] = line;
        }
    }

    /// Choices of the walk behind so many may be others than before.
    pub fn step_from(&mut self, at: usize) {
        self.known = self.known.min(at);
    }

    // Whether so many of the first choices of a walk are those of the trail's.
    fn is_along(&mut self, count: usize, legs: &[Leg]) -> bool {
        let most = count.min(legs.len()).min(self.legs.len());
        for at in self.known..most {
            if self.legs[at] != legs[at] {
                return false;
            }
            self.known = at + 1;
        }
        self.known >= count
    }

    /// The line to which a claim moves with a step of a walk with these choices.
    pub fn claim_at(&mut self, step: usize, legs: &[Leg]) -> Option<usize> {
        let line = match self.lines.get(step.checked_sub(1)?) {
            Some(line) => *line,
            None => return None,
        };
        if line > 0 && self.is_along(step, legs) {
            Some(line)
        } else {
            None
        }
    }

    /// Whether a cycle begins behind a step of a walk with these choices.
    pub fn begins_cycle(&mut self, step: usize, legs: &[Leg]) -> bool {
        self.cycle == Some(step) && self.is_along(step, legs)
    }

    /// Writes what is said beside a step of a walk with these choices, set in.
    pub fn add(&mut self, step: usize, legs: &[Leg], out: &mut Writer)
        ensures { Stays out.old out.new }
    {
        if let Some(line) = self.claim_at(step, legs) {
            out.add(b"  claim line ");
            out.number(line);
            out.add(b"\n");
        }
        if self.begins_cycle(step, legs) {
            out.add(b"  the cycle begins\n");
        }
    }
}
