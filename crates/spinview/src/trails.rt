// A trail of Spin: it is followed, and standard error says where it does not fit.
ghost use Rattle.view_walk.specs.Walks.{SameModel};

use crate::stop::NoView;
use std::alloc::{AllocError, Global};
use trail_text::marks::Marks;
use trail_text::said::{Cycle, Said, add_said, said_in};
use view_run::beside::{notes_of, steps_before};
use view_run::trailed::{Came, Followed, follow_trail};
use view_session::notes::Notes;
use view_session::replay::Along;
use view_session::told::is_state_of;
use view_text::writer::Writer;
use view_trail::difference::Difference;
use view_walk::walk::Walk;
use view_words::Wishes;

// For which difference of Spin no choice fits a line of a trail.
fn difference_words(alloc: Global, difference: Difference) -> Result<String, AllocError> {
    match difference {
        Difference::InnerElse(_) => format!(in alloc;
            "Spin takes the else of an inner selection, which stands behind the outer options here"
        ),
        Difference::LabelBeforeLoop(line) => format!(in alloc;
            "Spin jumps behind the first assignment of the for or select that the label of line {line} stands before"
        ),
        Difference::Declaration(row) => format!(in alloc;
            "the variable of line {row} has its first number from the beginning of its process on here"
        ),
    }
}

// The line of a trail that tells of a difference, or that does not fit.
fn line_of(line: usize, difference: Difference) -> usize {
    match difference {
        Difference::InnerElse(row) => row,
        _ => line,
    }
}

// Says that no choice fits a line of a trail, and for which difference of Spin, where that is known.
fn tell_misfit(rt: &HostRuntime, name: &str, line: usize, difference: Option<Difference>) {
    let Some(difference) = difference else {
        let _ = eprintln!(rt; "spinview: {name}:{line}: no choice fits this line of the trail");
        return;
    };
    let line = line_of(line, difference);
    if let Ok(words) = difference_words(rt.alloc(), difference) {
        let _ = eprintln!(rt;
            "spinview: {name}:{line}: no choice fits this line of the trail: {words} (docs/DIFFERENCES.md)"
        );
    }
}

// Says that an assertion holds that failed in Spin.
fn tell_held(rt: &HostRuntime, name: &str, valued: Option<usize>) {
    let _ = match valued {
        Some(row) => eprintln!(rt;
            "spinview: {name}:{row}: the assertion of the trail holds here: the variable of this line has its first number from the beginning of its process on (docs/DIFFERENCES.md)"
        ),
        None => eprintln!(rt; "spinview: {name}: the assertion of the trail holds here"),
    };
}

// Whether Spin said of a trail that its last step is an assertion of the model, which failed.
fn has_failed(said: &Said<'_>) -> bool {
    match said.failed {
        Some(failed) => failed.is_step && !failed.is_of_claim,
        None => false,
    }
}

// Says which line of a trail does not fit, where one is left, and what comes otherwise than Spin said.
fn tell_trail(rt: &HostRuntime, name: &str, came: &Came, said: &Said<'_>) {
    match came.followed {
        Followed::Empty => {
            let _ = eprintln!(rt;
                "spinview: {name}: no line of a trail, as spin -t -p prints them"
            );
        }
        Followed::Misfit(line, difference) => tell_misfit(rt, name, line, difference),
        Followed::Fault(_, Some(line)) => {
            let _ = eprintln!(rt;
                "spinview: {name}:{line}: the run comes to a fault before this line of the trail"
            );
        }
        Followed::Whole if has_failed(said) => tell_held(rt, name, came.valued),
        _ => {}
    }
    if came.is_cut {
        let _ = eprintln!(rt; "spinview: {name}: not all ways were tried that its lines leave");
    }
}

// A walk that was led along a trail: how the run goes on there, and what the trail says beside its steps.
#[derive(Drop)]
pub struct Led {
    pub along: Along,
    pub notes: Notes,
}

// What is known of the cycle that Spin said a trail to have, where it was followed so far.
fn cycle_of(
    walk: &mut Walk<'_, '_>,
    rt: &HostRuntime,
    said: &Said<'_>,
    came: &Came,
) -> Result<Option<Cycle>, NoView>
    ensures { SameModel walk.old walk.new }
{
    let Some(row) = said.cycle else {
        return Ok(None);
    };
    let before = steps_before(came.rows.as_slice(), row);
    let mut is_closed = None;
    if came.followed == Followed::Whole {
        is_closed = Some(is_state_of(walk, before, rt.alloc())?);
    }
    Ok(Some(Cycle { before, is_closed }))
}

// How a run goes on behind a trail: at its end a claim may have ended it, or the state of a cycle's beginning come again.
fn along_of(said: &Said<'_>, came: &Came, cycle: Option<Cycle>) -> Along {
    if came.followed != Followed::Whole {
        return came.followed.along();
    }
    match cycle {
        Some(cycle) if cycle.is_closed == Some(true) => Along::Cycle,
        None if said.claim.is_some() => Along::Claim,
        _ => came.followed.along(),
    }
}

// Follows a trail. Where that leads, and what a session says first: what Spin said of the trail.
pub fn follow(
    walk: &mut Walk<'_, '_>,
    rt: &HostRuntime,
    asked: &Wishes,
    name: &str,
    text: &[u8],
    marks: &Marks,
) -> Result<(Led, Writer), NoView>
    ensures { SameModel walk.old walk.new }
{
    let said = said_in(text);
    let limit = asked.limit as usize;
    let came = follow_trail(walk, marks, text, limit, Vec::new(rt.alloc()))?;
    tell_trail(rt, name, &came, &said);
    let cycle = cycle_of(walk, rt, &said, &came)?;
    let mut first = Writer::new(rt.alloc());
    add_said(&said, cycle, &mut first);
    let before = match cycle {
        Some(cycle) => Some(cycle.before),
        None => None,
    };
    let rows = came.rows.as_slice();
    let notes = notes_of(rt.alloc(), text, rows, walk.legs(), before)?;
    let along = along_of(&said, &came, cycle);
    Ok((Led { along, notes }, first))
}
