//! The futures of a walk that another choice cut off.

ghost use Rattle.view_text.specs.Written.{Stays};

use std::alloc::{AllocError, Global};
use view_text::writer::Writer;
use view_walk::leg::Leg;

// So many branches are kept; the oldest are let go.
const MOST_BRANCHES: usize = 100;

/// The choices of a walk.
#[derive(Drop)]
struct Branch {
    legs: Vec<Leg>,
}

/// The walks that were left, the oldest first.
#[derive(Drop)]
pub struct Branches {
    kept: Vec<Branch>,
}

// How many choices two walks have in common.
fn common(one: &[Leg], other: &[Leg]) -> usize {
    let most = one.len().min(other.len());
    for at in 0..most {
        if one[at] != other[at] {
            return at;
        }
    }
    most
}

// Whether a walk goes on from another, or is it.
fn begins(longer: &[Leg], legs: &[Leg]) -> bool {
    legs.len() <= longer.len() && common(longer, legs) == legs.len()
}

fn copied(alloc: Global, legs: &[Leg]) -> Result<Vec<Leg>, AllocError> {
    let mut own = Vec::new(alloc);
    own.extend_from_slice(legs)?;
    Ok(own)
}

impl Branches {
    /// None yet.
    pub fn new(alloc: Global) -> Branches {
        Branches {
            kept: Vec::new(alloc),
        }
    }

    // Whether a walk is one of them, or a part of one.
    fn has(&self, legs: &[Leg]) -> bool {
        for branch in self.kept.as_slice() {
            if begins(branch.legs.as_slice(), legs) {
                return true;
            }
        }
        false
    }

    /// Keeps a walk, unless the present one goes on from it or it is known.
    pub fn keep(&mut self, legs: &[Leg], present: &[Leg]) -> Result<(), AllocError> {
        if begins(present, legs) || self.has(legs) {
            return Ok(());
        }
        let legs = copied(*self.kept.allocator(), legs)?;
        if self.kept.len() >= MOST_BRANCHES {
            let _ = self.kept.remove(0);
        }
        self.kept.push(Branch { legs })?;
        Ok(())
    }

    /// A copy of the choices of the branch with this number, from 1 on.
    pub fn of(&self, number: usize) -> Result<Option<Vec<Leg>>, AllocError> {
        if number == 0 {
            return Ok(None);
        }
        match self.kept.get(number - 1) {
            Some(branch) => Ok(Some(copied(*self.kept.allocator(), branch.legs.as_slice())?)),
            None => Ok(None),
        }
    }

    /// Lets those go from which the present walk goes on.
    pub fn let_go(&mut self, present: &[Leg]) {
        let mut at = 0usize;
        for _ in 0..self.kept.len() {
            if at >= self.kept.len() {
                break;
            }
            if begins(present, self.kept[at].legs.as_slice()) {
                let _ = self.kept.remove(at);
            } else {
                at += 1;
            }
        }
    }

    /// Writes each: `branch 1: 9 steps, another from step 6 on: choice 2 of 3`.
    pub fn add(&self, present: &[Leg], out: &mut Writer)
        ensures { Stays out.old out.new }
    {
        if self.kept.is_empty() {
            out.add(b"no branch\n");
        }
        for at in 0..self.kept.len() {
            out.add(b"branch ");
            out.number(at + 1);
            out.add(b": ");
            add_branch(self.kept[at].legs.as_slice(), present, out);
        }
    }
}

fn add_branch(legs: &[Leg], present: &[Leg], out: &mut Writer)
    ensures { Stays out.old out.new }
{
    let same = common(legs, present);
    out.number(legs.len());
    out.add(b" steps, another from step ");
    out.number(same.saturating_add(1));
    out.add(b" on");
    if let Some(leg) = legs.get(same) {
        out.add(b": choice ");
        out.number(leg.choice);
        out.add(b" of ");
        out.number(leg.of);
    }
    out.add(b"\n");
}
