//! What a trail says beside the steps of a walk that was led along it.

use std::alloc::{AllocError, Global};
use trail_text::beside::{Beside, next_beside};
use trail_text::scan::Lines;
use view_session::notes::Notes;
use view_walk::leg::Leg;

/// How many steps were taken for lines before this one; `rows` has the line that each was taken for.
pub fn steps_before(rows: &[usize], row: usize) -> usize {
    let mut count = 0usize;
    for other in rows {
        if *other < row {
            count = count.saturating_add(1);
        }
    }
    count
}

// How many steps were taken for lines before this one, of which so many are known to be.
fn passed(rows: &[usize], known: usize, row: usize) -> usize {
    for at in known..rows.len() {
        if rows[at] >= row {
            return at;
        }
    }
    rows.len()
}

/// What the text of a trail says beside the steps of a walk with these choices, of which `rows` has the line that each was taken for.
pub fn notes_of(
    alloc: Global,
    text: &[u8],
    rows: &[usize],
    legs: &[Leg],
    cycle: Option<usize>,
) -> Result<Notes, AllocError> {
    let mut notes = Notes::of(alloc, legs, cycle)?;
    let mut lines = Lines::new(text);
    let mut before = 0usize;
    for _ in 0..text.len() {
        let Some((row, beside)) = next_beside(&mut lines) else {
            break;
        };
        before = passed(rows, before, row);
        if let Beside::Claim(line) = beside {
            notes.keep(before, line);
        }
    }
    Ok(notes)
}
