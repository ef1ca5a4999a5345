//! Whom a process waits for, and processes that wait for one another in a round.

ghost use Rattle.view_text.specs.Written.{Stays};

use crate::target::channel_of;
use crate::uses::{ChannelUse, Uses};
use run_state::live::Live;
use view_text::writer::Writer;
use view_waits::because::Because;
use view_waits::waits::Wait;

// The process of a use, where it lives and is another.
fn other(used: Option<ChannelUse>, process: usize) -> Option<ChannelUse> {
    match used {
        Some(last) if last.lives && last.process != process => Some(last),
        _ => None,
    }
}

// Of two uses the later.
fn later(one: Option<ChannelUse>, two: Option<ChannelUse>) -> Option<ChannelUse> {
    match (one, two) {
        (Some(one), Some(two)) => {
            if one.step > two.step {
                Some(one)
            } else {
                Some(two)
            }
        }
        (Some(one), None) => Some(one),
        (None, two) => two,
    }
}

/// The process that one with this only wait waits for: the other that used its channel last, or the youngest, whose end it waits for.
pub fn awaited(live: &Live<'_, '_>, process: usize, wait: &Wait, uses: &Uses) -> Option<usize> {
    if let Because::Younger(youngest) = wait.because {
        return Some(youngest);
    }
    let last = uses.of(channel_of(live, wait)?);
    let used = later(other(last.sent, process), other(last.took, process))?;
    Some(used.process)
}

/// Whom a process waits for, by these.
pub fn next_of(awaits: &[Option<usize>], process: usize) -> Option<usize> {
    match awaits.get(process) {
        Some(next) => *next,
        None => None,
    }
}

/// Whether a process is led to itself.
pub fn is_in_round(awaits: &[Option<usize>], first: usize) -> bool {
    let mut process = first;
    for _ in 0..awaits.len() {
        let Some(next) = next_of(awaits, process) else {
            return false;
        };
        if next == first {
            return true;
        }
        process = next;
    }
    false
}

// Writes the round of a process: `round: 1 waits for 2, 2 for 3, 3 for 1`.
fn add_from(awaits: &[Option<usize>], first: usize, out: &mut Writer)
    ensures { Stays out.old out.new }
{
    let mut process = first;
    for count in 0..awaits.len() {
        let Some(next) = next_of(awaits, process) else {
            break;
        };
        out.add(if count == 0 { b"round: " } else { b", " });
        out.number(process);
        out.add(if count == 0 { b" waits for " } else { b" for " });
        out.number(next);
        process = next;
        if next == first {
            break;
        }
    }
    out.add(b"\n");
}

/// Writes the round of the first process that is led to itself, where each waits for the one at its place, if there is such a one.
pub fn add_round(awaits: &[Option<usize>], out: &mut Writer)
    ensures { Stays out.old out.new }
{
    for first in 0..awaits.len() {
        if is_in_round(awaits, first) {
            add_from(awaits, first, out);
            return;
        }
    }
}
