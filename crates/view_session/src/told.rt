//! What a session tells, and what it keeps for that.

ghost use Rattle.std.specs.Prelude.{◌≡◌, [], false};
ghost use Rattle.view_text.specs.Written.{Stays};
ghost use Rattle.view_walk.specs.Walks.{SameModel};

use crate::branches::Branches;
use crate::notes::Notes;
use crate::stopped::add_break;
use crate::watches::{Watches, first_met};
use std::alloc::{AllocError, Global};
use view_past::states::{MOST_STATES, States};
use view_past::whole::add_whole;
use view_text::writer::Writer;
use view_walk::walk::Walk;

/// What is told, the states that a walk came through, the futures that were cut off, where runs stop, and what is shown at each question.
#[derive(Drop)]
pub struct Told {
    pub out: Writer,
    pub branches: Branches,
    pub breaks: Watches,
    pub displays: Watches,
    /// What a trail says beside steps.
    pub notes: Notes,
    /// Whether the line of a step has the values that it changes.
    pub shows_values: bool,
    /// Those behind the steps before the place where a walk stands, or some of the first of them.
    states: States,
}

impl Told {
    /// Nothing yet.
    pub fn new(alloc: Global) -> Told
        ensures { result.out ≡ record { text = []; refused = false } }
    {
        Told {
            out: Writer::new(alloc),
            branches: Branches::new(alloc),
            breaks: Watches::new(alloc),
            displays: Watches::new(alloc),
            notes: Notes::new(alloc),
            shows_values: false,
            states: States::new(alloc),
        }
    }

    /// A step is taken behind so many: what was to come may be another.
    pub fn step_from(&mut self, at: usize)
        ensures { self.new.out ≡ self.old.out }
    {
        self.states.cut(at.saturating_add(1));
        self.notes.step_from(at);
    }
}

// The state where a walk stands, as a text.
fn whole_of(walk: &Walk<'_, '_>, alloc: Global) -> Result<Vec<u8>, AllocError> {
    let mut text = Writer::new(alloc);
    add_whole(walk.world().live(), &mut text);
    text.finish()
}

// Keeps the state where a walk stands. Behind how many steps it stood first, where it stood before.
fn keep(walk: &Walk<'_, '_>, told: &mut Told) -> Result<Option<usize>, AllocError>
    ensures { told.new.out ≡ told.old.out }
{
    let text = whole_of(walk, told.out.allocator())?;
    told.states.add(text.as_slice())
}

// Keeps the states of a walk before the place where it stands, one behind another.
fn keep_all(walk: &mut Walk<'_, '_>, at: usize, told: &mut Told) -> Result<(), AllocError>
    ensures model { SameModel walk.old walk.new }
    ensures out { told.new.out ≡ told.old.out }
{
    for step in told.states.len()..at {
        if told.states.is_full() {
            break;
        }
        let step = step.min(walk.legs().len());
        walk.go_to(step)?;
        keep(walk, told)?;
    }
    Ok(())
}

// Keeps the states of a walk before the place where it stands, where they are not kept.
fn learn(walk: &mut Walk<'_, '_>, told: &mut Told) -> Result<(), AllocError>
    ensures model { SameModel walk.old walk.new }
    ensures out { told.new.out ≡ told.old.out }
{
    let at = walk.at();
    if told.states.len() >= at {
        return Ok(());
    }
    keep_all(walk, at, told)?;
    let at = at.min(walk.legs().len());
    walk.go_to(at)
}

/// Writes which step led to the state where a walk stands before, where one did, as long as there is room for the states of the walk.
pub fn add_same(walk: &mut Walk<'_, '_>, told: &mut Told) -> Result<(), AllocError>
    ensures model { SameModel walk.old walk.new }
    ensures stays { Stays told.old.out told.new.out }
{
    if walk.at() >= MOST_STATES || told.states.is_full() {
        return Ok(());
    }
    learn(walk, told)?;
    if told.states.len() != walk.at() {
        return Ok(());
    }
    if let Some(step) = keep(walk, told)? {
        told.out.add(b"  same as step ");
        told.out.number(step);
        told.out.add(b"\n");
    }
    Ok(())
}

/// Whether a walk stands in the state that so many of its steps lead to. It stands where it stood.
pub fn is_state_of(walk: &mut Walk<'_, '_>, step: usize, alloc: Global) -> Result<bool, AllocError>
    ensures { SameModel walk.old walk.new }
{
    let at = walk.at();
    let here = whole_of(walk, alloc)?;
    let step = step.min(walk.legs().len());
    walk.go_to(step)?;
    let there = whole_of(walk, alloc)?;
    let at = at.min(walk.legs().len());
    walk.go_to(at)?;
    Ok(here.as_slice() == there.as_slice())
}

/// The number of the break that a run stops at where a walk stands.
pub fn met_break(walk: &Walk<'_, '_>, told: &mut Told) -> Result<Option<usize>, AllocError>
    ensures { Stays told.old.out told.new.out }
{
    first_met(walk.world(), &mut told.breaks, &mut told.out)
}

/// Whether a run stops at a break where a walk stands; says at which.
pub fn is_broken(walk: &Walk<'_, '_>, told: &mut Told) -> Result<bool, AllocError>
    ensures { Stays told.old.out told.new.out }
{
    match met_break(walk, told)? {
        Some(number) => {
            add_break(number, &told.breaks, &mut told.out);
            Ok(true)
        }
        None => Ok(false),
    }
}
