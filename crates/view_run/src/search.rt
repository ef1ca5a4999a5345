//! The ways that were left on a trail, the last first.

ghost use Rattle.view_walk.specs.Walks.{SameModel};

use std::alloc::{AllocError, Global};
use std::collections::VecDeque;
use trail_text::trail::Trail;
use view_session::steps::choose;
use view_walk::leg::Leg;
use view_walk::walk::Walk;

/// A place with several ways on: behind how many steps, the trail there, and how many ways are tried.
#[derive(Clone, Copy, Debug)]
pub struct Fork<'t> {
    pub at: usize,
    pub trail: Trail<'t>,
    pub tried: usize,
}

/// So many places are kept; the oldest are let go.
const MOST_FORKS: usize = 100_000;

/// So many ways are tried that lead to no farther line.
const MOST_TRIES: usize = 1_000;

/// So many steps are taken again.
const MOST_STEPS: usize = 100_000_000;

/// The places with ways that are left, and the farthest line that was come to.
#[derive(Drop)]
pub struct Search<'t> {
    forks: VecDeque<Fork<'t>>,
    /// The line of the trail that each step was taken for.
    rows: Vec<usize>,
    /// The choices that led to the farthest line, the lines that their steps were taken for, and that line.
    best: Vec<Leg>,
    best_rows: Vec<usize>,
    farthest: usize,
    tries: usize,
    steps: usize,
    /// Not all ways are tried.
    is_cut: bool,
}

impl<'t> Search<'t> {
    /// At the beginning of a trail.
    pub fn new(alloc: Global) -> Search<'t> {
        Search {
            forks: VecDeque::new(alloc),
            rows: Vec::new(alloc),
            best: Vec::new(alloc),
            best_rows: Vec::new(alloc),
            farthest: 0,
            tries: 0,
            steps: 0,
            is_cut: false,
        }
    }

    /// Keeps a place with ways that are left.
    pub fn keep(&mut self, fork: Fork<'t>) -> Result<(), AllocError> {
        if self.forks.len() >= MOST_FORKS {
            let _ = self.forks.pop_front();
            self.is_cut = true;
        }
        self.forks.push_back(fork)?;
        Ok(())
    }

    /// A step is taken behind so many, for this line of the trail.
    pub fn step(&mut self, at: usize, row: usize) -> Result<(), AllocError> {
        self.rows.truncate(at);
        self.rows.push(row)?;
        Ok(())
    }

    /// The lines that the steps of a walk of so many were taken for.
    pub fn rows(&self, at: usize) -> &[usize] {
        let rows = self.rows.as_slice();
        &rows[..at.min(rows.len())]
    }

    /// No way leads on by this line, to which these choices led. Whether no other line was so far.
    pub fn end(&mut self, legs: &[Leg], row: usize) -> Result<bool, AllocError> {
        if row <= self.farthest {
            return Ok(false);
        }
        self.farthest = row;
        self.tries = 0;
        self.best.clear();
        self.best.extend_from_slice(legs)?;
        self.best_rows.clear();
        self.best_rows.extend_from_slice(self.rows.as_slice())?;
        self.best_rows.truncate(legs.len());
        Ok(true)
    }

    /// The last place with a way that is left, unless enough were tried.
    pub fn back(&mut self) -> Option<Fork<'t>> {
        if self.tries >= MOST_TRIES || self.steps >= MOST_STEPS {
            self.is_cut = self.is_cut || self.forks.len() > 0;
            return None;
        }
        let fork = self.forks.pop_back()?;
        self.tries = self.tries.saturating_add(1);
        self.steps = self.steps.saturating_add(fork.at);
        Some(fork)
    }

    /// Whether ways were left untried.
    pub fn is_cut(&self) -> bool {
        self.is_cut
    }
}

/// Leads behind so many of the steps of a walk, and forgets those to come.
pub fn go_to(walk: &mut Walk<'_, '_>, at: usize) -> Result<(), AllocError>
    ensures { SameModel walk.old walk.new }
{
    let at = at.min(walk.legs().len());
    walk.go_to(at)?;
    walk.forget();
    Ok(())
}

/// Leads to where the farthest line was come to.
pub fn lead(
    walk: &mut Walk<'_, '_>,
    search: &mut Search<'_>,
    printed: &mut Vec<u8>,
) -> Result<(), AllocError>
    ensures { SameModel walk.old walk.new }
{
    go_to(walk, 0)?;
    for leg in search.best.as_slice() {
        printed.clear();
        choose(walk, leg.choice, printed)?;
    }
    search.rows.clear();
    search.rows.extend_from_slice(search.best_rows.as_slice())?;
    Ok(())
}
