//! What a run looks for in the states that it comes to.

ghost use Rattle.view_text.specs.Written.{Stays};

use crate::until::{Aim, GoalMet, NoAim, aim_of, is_reached};
use diagnostics::Fault;
use pml_sim::world::World;
use std::alloc::{AllocError, Global};
use view_commands::goals::{Goal, wanted};
use view_condition::condition::{StateCondition, condition_in};
use view_condition::subject::TypedProcess;
use view_condition::unread::Unread;
use view_text::writer::Writer;

/// What a run looks for, with the words that it was named by.
#[derive(Drop)]
pub struct Watch {
    words: Vec<u8>,
    aim: Aim,
    /// That a fault of it counts as not so was told.
    is_told: bool,
}

impl Watch {
    /// The words that it was named by.
    pub fn words(&self) -> &[u8] {
        self.words.as_slice()
    }

    /// The condition that it is, where it is one.
    pub fn condition(&self) -> Option<&StateCondition> {
        match &self.aim {
            Aim::Holds(condition) => Some(condition),
            _ => None,
        }
    }
}

// A watch with these words.
fn watch_with(alloc: Global, text: &str, aim: Aim) -> Result<Watch, AllocError> {
    let mut words = Vec::new(alloc);
    words.extend_from_slice(text.as_bytes())?;
    Ok(Watch {
        words,
        aim,
        is_told: false,
    })
}

/// Says that no cell with this path is there.
pub fn add_unknown(path: &str, out: &mut Writer)
    ensures { Stays out.old out.new }
{
    out.add(b"no variable ");
    out.add(path.as_bytes());
    out.add(b" is there: one of process 1, a P, is P[1].x\n");
}

// Says that no process can stand at a line.
fn add_no_line(line: u32, out: &mut Writer)
    ensures { Stays out.old out.new }
{
    out.add(b"no process can stand at line ");
    out.number(line as usize);
    out.add(b"\n");
}

// Says why a run cannot stop so.
fn add_no_aim<'l>(why: NoAim, goal: Goal<'l>, out: &mut Writer)
    ensures { Stays out.old out.new }
{
    match (why, goal) {
        (NoAim::Line, Goal::Line(line)) => add_no_line(line, out),
        (NoAim::Value, Goal::Equal(_, value) | Goal::Other(_, value)) => {
            out.add(b"no value ");
            out.add(value.as_bytes());
            out.add(b": a value is a number, or a name of mtype where the variable is one\n");
        }
        (NoAim::Range, Goal::Equal(path, value)) => {
            out.add(path.as_bytes());
            out.add(b" is never ");
            out.add(value.as_bytes());
            out.add(b": its type has no such number\n");
        }
        _ => add_unknown(goal.path().unwrap_or(""), out),
    }
}

fn is_plain_byte(byte: u8) -> bool {
    byte.is_ascii_alphanumeric() || matches!(byte, b'_' | b'.' | b'[' | b']' | b':' | b'-')
}

// Whether a text is of what the name of a cell has, or a value.
fn is_plain(text: &str) -> bool {
    for byte in text.as_bytes() {
        if !is_plain_byte(*byte) {
            return false;
        }
    }
    true
}

// Whether a goal is told in its own words, where it cannot be.
fn is_told_so<'l>(goal: Goal<'l>) -> bool {
    match goal {
        Goal::Line(_) => true,
        Goal::Equal(path, value) | Goal::Other(path, value) => is_plain(path) && is_plain(value),
        Goal::Written(path) => is_plain(path),
    }
}

// Whether what cannot be a goal may be a condition: there is no such cell or value in it, but maybe an expression.
fn may_be_condition(why: NoAim) -> bool {
    match why {
        NoAim::Variable | NoAim::Value => true,
        NoAim::Line | NoAim::Range => false,
    }
}

/// The condition that a text is; or why it is none, which is written.
pub fn condition_of(
    world: &World<'_, '_>,
    text: &str,
    out: &mut Writer,
) -> Result<Option<StateCondition>, AllocError>
    ensures { Stays out.old out.new }
{
    match condition_in(out.allocator(), text.as_bytes(), world.live()) {
        Ok(condition) => Ok(Some(condition)),
        Err(Unread::Memory) => Err(AllocError),
        Err(Unread::Refused(refused)) => {
            refused.add(text.as_bytes(), out);
            Ok(None)
        }
    }
}

/// What is looked for where a text is a condition; or why it is none, which is written.
pub fn watch_for(
    world: &World<'_, '_>,
    text: &str,
    out: &mut Writer,
) -> Result<Option<Watch>, AllocError>
    ensures { Stays out.old out.new }
{
    match condition_of(world, text, out)? {
        Some(condition) => Ok(Some(watch_with(out.allocator(), text, Aim::Holds(condition))?)),
        None => Ok(None),
    }
}

// What is looked for where a text is no goal, for this reason: it may be a condition.
fn else_condition<'l>(
    world: &World<'_, '_>,
    text: &str,
    why: NoAim,
    goal: Goal<'l>,
    out: &mut Writer,
) -> Result<Option<Watch>, AllocError>
    ensures { Stays out.old out.new }
{
    let mut words = Writer::new(out.allocator());
    if may_be_condition(why) {
        if let Some(found) = watch_for(world, text, &mut words)? {
            return Ok(Some(found));
        }
    }
    if is_told_so(goal) {
        add_no_aim(why, goal, out);
    } else {
        out.join(&words);
    }
    Ok(None)
}

// What is looked for by a goal.
fn watch_by<'l>(
    world: &World<'_, '_>,
    text: &str,
    goal: Goal<'l>,
    out: &mut Writer,
) -> Result<Option<Watch>, AllocError>
    ensures { Stays out.old out.new }
{
    let mut compared = Writer::new(out.allocator());
    match aim_of(world, goal, &mut compared)? {
        Ok(aim) => Ok(Some(watch_with(out.allocator(), text, aim)?)),
        Err(why) => else_condition(world, text, why, goal, out),
    }
}

// Says that a number is no condition: it may be meant as a line.
fn add_number_alone(text: &str, out: &mut Writer)
    ensures { Stays out.old out.new }
{
    out.add(b"a number alone is no condition: line ");
    out.add(text.as_bytes());
    out.add(b" is one\n");
}

/// What these words look for from a state on; or why they look for nothing, which is written.
pub fn watch_of(
    world: &World<'_, '_>,
    text: &str,
    out: &mut Writer,
) -> Result<Option<Watch>, AllocError>
    ensures { Stays out.old out.new }
{
    if text.parse::<u32>().is_ok() {
        add_number_alone(text, out);
        return Ok(None);
    }
    let words: Vec<&str> = text.split_whitespace().collect(out.allocator())?;
    match wanted(words.as_slice()) {
        Some(goal) => watch_by(world, text, goal, out),
        None => watch_for(world, text, out),
    }
}

/// Writes a fault of an expression.
pub fn add_fault(fault: Fault, out: &mut Writer)
    ensures { Stays out.old out.new }
{
    out.add(b"fault F");
    out.number(fault.number() as usize);
    out.add(b" (");
    out.add(diagnostic_words::of_fault(fault));
    out.add(b")");
}

/// Writes that a process is not there.
pub fn add_absent(world: &World<'_, '_>, whose: TypedProcess, out: &mut Writer)
    ensures { Stays out.old out.new }
{
    let proctypes = world.live().program().proctypes.as_slice();
    out.add(b"process ");
    out.number(usize::from(whose.process));
    out.add(b" is no ");
    if whose.sort < proctypes.len() {
        out.add(proctypes[whose.sort].name.text());
    }
    out.add(b" here");
}

// Writes that a fault counts as not so, once.
fn tell_once(world: &World<'_, '_>, reached: GoalMet, watch: &mut Watch, out: &mut Writer)
    ensures { Stays out.old out.new }
{
    if watch.is_told {
        return;
    }
    watch.is_told = true;
    out.add(b"  not so: ");
    out.add(watch.words.as_slice());
    out.add(b": ");
    match reached {
        GoalMet::Fault(fault) => add_fault(fault, out),
        GoalMet::Absent(whose) => add_absent(world, whose, out),
        GoalMet::Yes | GoalMet::No => {}
    }
    out.add(b"\n");
}

/// Whether a state is what is looked for. A fault counts as not so, and is told once.
pub fn meets(world: &World<'_, '_>, watch: &mut Watch, out: &mut Writer) -> Result<bool, AllocError>
    ensures { Stays out.old out.new }
{
    match is_reached(world, &watch.aim)? {
        GoalMet::Yes => Ok(true),
        GoalMet::No => Ok(false),
        other => {
            tell_once(world, other, watch, out);
            Ok(false)
        }
    }
}
