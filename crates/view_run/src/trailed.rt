//! A walk along a trail of Spin.

ghost use Rattle.std.specs.Prelude.{◌≡◌};
ghost use Rattle.view_text.specs.Written.{Stays};
ghost use Rattle.view_walk.specs.Walks.{SameModel};

use crate::search;
use crate::search::{Fork, Search, go_to};
use session::Answer;
use std::alloc::{AllocError, Global};
use trail_text::entry::{Entry, is_ended};
use trail_text::marks::Marks;
use trail_text::trail::Trail;
use view_session::replay::Along;
use view_session::steps::choose;
use view_text::writer::Writer;
use view_trail::difference::{Difference, difference_at};
use view_trail::way::{EntryWay, Ways};
use view_trail::which::ways_on;
use view_walk::walk::{Walk, Went};

/// How far a trail was followed.
#[derive(Clone, Copy, Debug, PartialEq, Eq)]
pub enum Followed {
    /// To its end.
    Whole,
    /// It has no line of a process, and no line that ends a trail.
    Empty,
    /// No move fits the line with this number of its file; for this difference of Spin, where that is known.
    Misfit(usize, Option<Difference>),
    /// The move with this number comes to a fault; the line with that number, if there is one, is left.
    Fault(usize, Option<usize>),
    /// Up to the limit of steps.
    Limit,
}

impl Followed {
    /// How a run goes on that has come so far.
    pub fn along(self) -> Along {
        match self {
            Followed::Whole | Followed::Limit => Along::Stop(Answer::Ended),
            Followed::Misfit(_, _) | Followed::Empty => Along::Stop(Answer::Misfit),
            Followed::Fault(choice, _) => Along::Fault(choice),
        }
    }
}

/// What came of a trail.
#[derive(Drop)]
pub struct Came {
    pub followed: Followed,
    /// Not all ways were tried that its lines leave.
    pub is_cut: bool,
    /// The line of the trail that each step was taken for.
    pub rows: Vec<usize>,
    /// The line of a declaration that gave its variable another number than 0, and was passed over.
    pub valued: Option<usize>,
}

// Where a line came to be the next: its number, behind how many steps, and the trail there.
#[derive(Clone, Copy)]
struct Arrival<'t> {
    row: usize,
    at: usize,
    trail: Trail<'t>,
}

// Where a walk is led along a trail.
#[derive(Drop)]
struct Lead<'s, 't> {
    marks: &'s Marks,
    limit: usize,
    trail: Trail<'t>,
    /// How many ways on from here were tried.
    tried: usize,
    /// Where the next line came to be the next.
    arrival: Arrival<'t>,
    /// The farthest that no way leads on from.
    farthest: Arrival<'t>,
    search: Search<'t>,
    scratch: Writer,
    printed: Vec<u8>,
}

// The number of the line that is left behind a fault; the others of the same step are none.
fn line_left(trail: &mut Trail<'_>) -> Option<usize> {
    trail.hold();
    match trail.next() {
        Some(entry) => Some(entry.row),
        None => None,
    }
}

// How a way went.
#[derive(Clone, Copy)]
enum Gone {
    On,
    /// No way leads on by the next line, to which so many steps led.
    Dead(usize, Followed),
    End(Followed),
}

// How it goes on behind a fault of the move with this number.
fn faulted(trail: &mut Trail<'_>, choice: usize, at: usize) -> Gone {
    let left = line_left(trail);
    match left {
        Some(_) => Gone::Dead(at, Followed::Fault(choice, left)),
        None => Gone::End(Followed::Fault(choice, None)),
    }
}

// The ways on from where a walk stands by a line of a trail.
fn ways_from<'t>(
    walk: &Walk<'_, '_>,
    marks: &Marks,
    trail: &Trail<'t>,
    entry: &Entry<'_>,
    scratch: &mut Writer,
) -> Result<Ways<'t>, AllocError>
    ensures { Stays scratch.old scratch.new }
{
    let moves = walk.moves()?;
    let live = walk.world().live();
    ways_on(live, moves.as_slice(), marks, trail, entry, scratch)
}

// For which difference of Spin no way leads on from where a walk stands.
fn difference_from(
    walk: &Walk<'_, '_>,
    marks: &Marks,
    trail: &Trail<'_>,
    entry: &Entry<'_>,
    scratch: &mut Writer,
) -> Option<Difference>
    ensures { Stays scratch.old scratch.new }
{
    difference_at(walk.world().live(), marks, trail, entry, scratch)
}

// Takes the move with this number for a line.
fn take(
    walk: &mut Walk<'_, '_>,
    lead: &mut Lead<'_, '_>,
    choice: usize,
    row: usize,
) -> Result<Gone, AllocError>
    ensures { SameModel walk.old walk.new }
{
    lead.search.step(walk.at(), row)?;
    lead.printed.clear();
    match choose(walk, choice, &mut lead.printed)? {
        Went::On => Ok(Gone::On),
        Went::Faults(_) => Ok(faulted(&mut lead.trail, choice, walk.at())),
        Went::Nowhere => Ok(Gone::End(Followed::Whole)),
    }
}

// Takes a way.
fn go<'t>(
    walk: &mut Walk<'_, '_>,
    lead: &mut Lead<'_, 't>,
    way: EntryWay<'t>,
    row: usize,
) -> Result<Gone, AllocError>
    ensures { SameModel walk.old walk.new }
{
    lead.trail = way.trail;
    lead.tried = 0;
    match way.choice {
        Some(choice) => take(walk, lead, choice, row),
        None => Ok(Gone::On),
    }
}

impl<'s, 't> Lead<'s, 't> {
    // Keeps the ways on from here that are left behind the one that is taken.
    fn keep(&mut self, at: usize, count: usize) -> Result<(), AllocError>
        ensures { self.new.tried ≡ self.old.tried }
    {
        let tried = self.tried.saturating_add(1);
        if tried >= count {
            return Ok(());
        }
        self.search.keep(Fork {
            at,
            trail: self.trail,
            tried,
        })
    }

    // No way leads on by the line with this number, to which so many steps led.
    fn dead(&self, row: usize) -> Gone {
        Gone::Dead(self.arrival.at, Followed::Misfit(row, None))
    }

    // The next line came to be the next, if it is another than before.
    fn arrive(&mut self, row: usize, at: usize)
        ensures { self.new.tried ≡ self.old.tried }
    {
        if self.arrival.row != row {
            self.arrival = Arrival {
                row,
                at,
                trail: self.trail,
            };
        }
    }
}

// The ways on by a line.
fn ways_of<'t>(
    walk: &Walk<'_, '_>,
    lead: &mut Lead<'_, 't>,
    entry: &Entry<'_>,
) -> Result<Ways<'t>, AllocError>
    ensures { lead.new.tried ≡ lead.old.tried }
{
    let mut scratch = Writer::new(*lead.printed.allocator());
    let trail = lead.trail;
    let marks = lead.marks;
    let ways = ways_from(walk, marks, &trail, entry, &mut scratch)?;
    lead.scratch.keep_refusal(&scratch);
    Ok(ways)
}

// Takes the next way on by a line.
fn follow(
    walk: &mut Walk<'_, '_>,
    lead: &mut Lead<'_, '_>,
    entry: &Entry<'_>,
) -> Result<Gone, AllocError>
    ensures { SameModel walk.old walk.new }
{
    let ways = ways_of(walk, lead, entry)?;
    match ways.get(lead.tried) {
        Some(way) => {
            lead.keep(walk.at(), ways.len())?;
            go(walk, lead, way, entry.row)
        }
        None => Ok(lead.dead(entry.row)),
    }
}

// Goes on by a way.
fn step(walk: &mut Walk<'_, '_>, lead: &mut Lead<'_, '_>) -> Result<Gone, AllocError>
    ensures { SameModel walk.old walk.new }
{
    let Some(entry) = lead.trail.next() else {
        return Ok(Gone::End(Followed::Whole));
    };
    if walk.at() >= lead.limit {
        return Ok(Gone::End(Followed::Limit));
    }
    lead.arrive(entry.row, walk.at());
    let gone = follow(walk, lead, &entry)?;
    if lead.scratch.is_refused() {
        return Err(AllocError);
    }
    Ok(gone)
}

// Goes back to the last place with a way that is left. Whether there is one.
fn back(walk: &mut Walk<'_, '_>, lead: &mut Lead<'_, '_>) -> Result<bool, AllocError>
    ensures { SameModel walk.old walk.new }
{
    let Some(fork) = lead.search.back() else {
        return Ok(false);
    };
    go_to(walk, fork.at)?;
    lead.trail = fork.trail;
    lead.tried = fork.tried;
    lead.arrival.row = 0;
    Ok(true)
}

// Keeps how far a way came from which none leads on, if none came farther. How far the trail was followed then.
fn keep_farthest(
    walk: &Walk<'_, '_>,
    lead: &mut Lead<'_, '_>,
    at: usize,
    followed: Followed,
) -> Result<Option<Followed>, AllocError> {
    let at = at.min(walk.legs().len());
    if !lead.search.end(&walk.legs()[..at], lead.arrival.row)? {
        return Ok(None);
    }
    lead.farthest = lead.arrival;
    Ok(Some(followed))
}

// For which difference of Spin no way leads on from where a walk stands, at the farthest line.
fn explained(walk: &Walk<'_, '_>, lead: &mut Lead<'_, '_>, followed: Followed) -> Followed {
    let (Followed::Misfit(row, _), Some(entry)) = (followed, lead.farthest.trail.next()) else {
        return followed;
    };
    let mut scratch = Writer::new(*lead.printed.allocator());
    let trail = lead.farthest.trail;
    let marks = lead.marks;
    let difference = difference_from(walk, marks, &trail, &entry, &mut scratch);
    lead.scratch.keep_refusal(&scratch);
    Followed::Misfit(row, difference)
}

// Follows the trail to its end, or as far as any way leads.
fn follow_all(
    walk: &mut Walk<'_, '_>,
    lead: &mut Lead<'_, '_>,
) -> Result<(bool, Followed), AllocError>
    ensures { SameModel walk.old walk.new }
{
    let mut farthest = Followed::Whole;
    for _turn in 0..u64::MAX {
        match step(walk, lead)? {
            Gone::On => {}
            Gone::End(followed) => return Ok((true, followed)),
            Gone::Dead(at, followed) => {
                farthest = keep_farthest(walk, lead, at, followed)?.unwrap_or(farthest);
                if !back(walk, lead)? {
                    break;
                }
            }
        }
    }
    Ok((false, farthest))
}

// Follows the trail, and leads to its farthest line where no way leads on. How far that was.
fn run(walk: &mut Walk<'_, '_>, lead: &mut Lead<'_, '_>) -> Result<Followed, AllocError>
    ensures { SameModel walk.old walk.new }
{
    let (is_end, followed) = follow_all(walk, lead)?;
    if is_end {
        return Ok(followed);
    }
    search::lead(walk, &mut lead.search, &mut lead.printed)?;
    let followed = explained(walk, lead, followed);
    if lead.scratch.is_refused() {
        return Err(AllocError);
    }
    Ok(followed)
}

// What came of a trail that has no line of one.
fn empty(alloc: Global) -> Came {
    Came {
        followed: Followed::Empty,
        is_cut: false,
        rows: Vec::new(alloc),
        valued: None,
    }
}

/// Follows the trail that is the text of a file, by at most so many steps.
pub fn follow_trail(
    walk: &mut Walk<'_, '_>,
    marks: &Marks,
    text: &[u8],
    limit: usize,
    printed: Vec<u8>,
) -> Result<Came, AllocError>
    ensures { SameModel walk.old walk.new }
{
    let alloc = *printed.allocator();
    let trail = Trail::new(text);
    let first = Arrival {
        row: 0,
        at: 0,
        trail,
    };
    let mut lead = Lead {
        marks,
        limit,
        trail,
        tried: 0,
        arrival: first,
        farthest: first,
        search: Search::new(alloc),
        scratch: Writer::new(alloc),
        printed,
    };
    if lead.trail.next().is_none() && !is_ended(text) {
        return Ok(empty(alloc));
    }
    let followed = run(walk, &mut lead)?;
    let mut rows = Vec::new(alloc);
    rows.extend_from_slice(lead.search.rows(walk.at()))?;
    Ok(Came {
        followed,
        is_cut: lead.search.is_cut(),
        rows,
        valued: lead.trail.valued,
    })
}
