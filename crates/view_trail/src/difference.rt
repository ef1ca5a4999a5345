//! Differences of Spin for which a line of its trail fits no move.

ghost use Rattle.view_text.specs.Written.{Stays};

use crate::fits::text_of;
use promela_run::moves::Pick;
use run_state::live::Live;
use trail_text::entry::Entry;
use trail_text::marks::Marks;
use trail_text::scan::parted;
use trail_text::trail::Trail;
use view_text::writer::Writer;
use view_waits::offers::offer_line;

/// A difference of Spin.
#[derive(Clone, Copy, Debug, PartialEq, Eq)]
pub enum Difference {
    /// It takes the `else` of a selection that begins an option, which stands behind the outer options here. The line of the trail says so.
    InnerElse(usize),
    /// A jump to the label before a `for` or a `select`, on this line of the model, leads behind the first assignment.
    LabelBeforeLoop(usize),
    /// A declaration gives its variable a number where it stands, and here where its process begins. The line of the trail says so.
    Declaration(usize),
}

// Whether a process offers an `else`, taken or not.
fn offers_else(live: &Live<'_, '_>, process: usize, out: &mut Writer) -> bool
    ensures { Stays out.old out.new }
{
    for level in 0..usize::MAX {
        for place in 0..usize::MAX {
            let text = text_of(
                live,
                Pick {
                    process,
                    level,
                    place,
                },
                out,
            );
            if text.bytes().is_empty() {
                if place == 0 {
                    return false;
                }
                break;
            }
            if text.bytes() == b"else".as_slice() {
                return true;
            }
        }
    }
    false
}

// The line of the assignment that a process offers first, where a label stands before the loop that it begins.
fn labelled_of(
    live: &Live<'_, '_>,
    marks: &Marks,
    process: usize,
    out: &mut Writer,
) -> Option<usize>
    ensures { Stays out.old out.new }
{
    let pick = Pick {
        process,
        level: 0,
        place: 0,
    };
    let text = text_of(live, pick, out);
    let line = offer_line(live, pick) as usize;
    if marks.is_labelled(line) && parted(text.bytes(), b" = ").is_some() {
        Some(line)
    } else {
        None
    }
}

/// For which difference a line fits no move, as far as that is known.
pub fn difference_at(
    live: &Live<'_, '_>,
    marks: &Marks,
    trail: &Trail<'_>,
    entry: &Entry<'_>,
    out: &mut Writer,
) -> Option<Difference>
    ensures { Stays out.old out.new }
{
    if let Some(line) = labelled_of(live, marks, entry.process, out) {
        return Some(Difference::LabelBeforeLoop(line));
    }
    if let Some(row) = trail.skipped_of(entry.process) {
        if offers_else(live, entry.process, out) {
            return Some(Difference::InnerElse(row));
        }
    }
    match trail.valued {
        Some(row) => Some(Difference::Declaration(row)),
        None => None,
    }
}
