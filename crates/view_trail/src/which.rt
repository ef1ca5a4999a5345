//! Which ways lead on by the next line of a trail.

ghost use Rattle.std.specs.Prelude.{◌≡◌, true, IfSome};
ghost use Rattle.run_search.specs.Laws.{taker};
ghost use Rattle.view_text.specs.Written.{Stays};

use crate::fits::{behind, distance, spelling_of, text_of};
use crate::way::{EntryWay, Ways};
use promela_run::moves::Move;
use run_state::live::Live;
use std::alloc::AllocError;
use trail_text::entry::{Entry, Event};
use trail_text::marks::Marks;
use trail_text::quiet::{is_of_machine, is_of_spin};
use trail_text::select::{Stride, counts_to, stride_of};
use trail_text::trail::Trail;
use view_text::writer::Writer;

// The ranks of ways behind those of moves that fit: a `select` that counts up, a line that is passed over, and a step that Spin may leave out.
const OF_SELECT: usize = 4_100_000_000;

const OF_PASSING: usize = 4_200_000_000;

const OF_QUIET: usize = 4_300_000_000;

// Adds the moves that fit the next line.
fn add_fits<'t>(
    live: &Live<'_, '_>,
    moves: &[Move],
    trail: &Trail<'t>,
    entry: &Entry<'_>,
    ways: &mut Ways<'t>,
    out: &mut Writer,
) -> Result<(), AllocError>
    ensures { Stays out.old out.new }
{
    for at in 0..moves.len() {
        if let Some(far) = distance(live, &moves[at], trail, entry, out) {
            let trail = behind(trail, &moves[at], far);
            ways.add(
                far,
                EntryWay {
                    choice: Some(at + 1),
                    trail,
                },
            )?;
        }
    }
    Ok(())
}

// The spelling of what a process does by this move alone.
fn spelled_of(live: &Live<'_, '_>, m: &Move, process: usize, out: &mut Writer) -> Option<Writer>
    ensures process { IfSome result (λ w. taker m.now ≡ process) }
    ensures stays { Stays out.old out.new }
{
    match m {
        Move::Alone(pick, _) if pick.process == process => {
            let text = text_of(live, *pick, out);
            Some(spelling_of(text.bytes(), out))
        }
        _ => None,
    }
}

// Whether a move is of the `select` that comes to a spelled statement, and how often that is to count up then.
fn counts_behind(spelled: &[u8], wanted: &[u8], counts: usize) -> Option<usize> {
    if counts == 0 {
        return counts_to(spelled, wanted);
    }
    match stride_of(spelled, wanted)? {
        Stride::Asks => Some(counts),
        Stride::Counts => Some(counts - 1),
    }
}

// A trail behind a step that it does not show, if that may be; a `select` is to count up so often then.
fn behind_quiet<'t>(trail: &Trail<'t>, counts: Option<usize>) -> Option<Trail<'t>> {
    let mut trail = *trail;
    if !trail.keep_quiet() {
        return None;
    }
    if let Some(counts) = counts {
        trail.count(counts);
    }
    Some(trail)
}

// Adds steps of a `select` that come to what a line says.
fn add_selecting<'t>(
    live: &Live<'_, '_>,
    moves: &[Move],
    trail: &Trail<'t>,
    entry: &Entry<'_>,
    ways: &mut Ways<'t>,
    out: &mut Writer,
) -> Result<(), AllocError>
    ensures { Stays out.old out.new }
{
    let Event::Statement(_, text) = entry.event else {
        return Ok(());
    };
    let wanted = spelling_of(text, out);
    for at in 0..moves.len() {
        let Some(spelled) = spelled_of(live, &moves[at], entry.process, out) else {
            continue;
        };
        let counts = counts_behind(spelled.bytes(), wanted.bytes(), trail.counts);
        add_counting(trail, at + 1, counts, ways)?;
    }
    Ok(())
}

// Adds a step of a `select`, where it is one.
fn add_counting<'t>(
    trail: &Trail<'t>,
    choice: usize,
    counts: Option<usize>,
    ways: &mut Ways<'t>,
) -> Result<(), AllocError> {
    if counts.is_none() {
        return Ok(());
    }
    match behind_quiet(trail, counts) {
        Some(trail) => ways.add(
            OF_SELECT,
            EntryWay {
                choice: Some(choice),
                trail,
            },
        ),
        None => Ok(()),
    }
}

// Whether Spin may show a line where the machine takes no step: a jump, or a declaration behind a statement.
fn is_shown_alone(marks: &Marks, entry: &Entry<'_>, out: &mut Writer) -> bool
    ensures { Stays out.old out.new }
{
    match entry.event {
        Event::Statement(line, text) => {
            is_of_spin(text) || marks.is_declared(spelling_of(text, out).bytes(), line)
        }
        Event::Death => false,
    }
}

// Adds that the next line is passed over.
fn add_passing<'t>(trail: &Trail<'t>, ways: &mut Ways<'t>) -> Result<(), AllocError> {
    let mut trail = *trail;
    trail.pass_over();
    ways.add(
        OF_PASSING,
        EntryWay {
            choice: None,
            trail,
        },
    )
}

// Whether a process takes a step by this move that Spin may leave out.
fn is_quiet(live: &Live<'_, '_>, m: &Move, process: usize, out: &mut Writer) -> bool
    ensures process { result ≡ true → taker m.now ≡ process }
    ensures stays { Stays out.old out.new }
{
    match m {
        Move::Alone(pick, _) if pick.process == process => {
            is_of_machine(text_of(live, *pick, out).bytes())
        }
        _ => false,
    }
}

// Adds the steps of a process that Spin may leave out.
fn add_quiet<'t>(
    live: &Live<'_, '_>,
    moves: &[Move],
    process: usize,
    trail: &Trail<'t>,
    ways: &mut Ways<'t>,
    out: &mut Writer,
) -> Result<(), AllocError>
    ensures { Stays out.old out.new }
{
    let Some(trail) = behind_quiet(trail, None) else {
        return Ok(());
    };
    for at in 0..moves.len() {
        if is_quiet(live, &moves[at], process, out) {
            ways.add(
                OF_QUIET,
                EntryWay {
                    choice: Some(at + 1),
                    trail,
                },
            )?;
        }
    }
    Ok(())
}

// Adds the steps that Spin may leave out: of the process of the next line, and of the one that has exclusive control.
fn add_unshown<'t>(
    live: &Live<'_, '_>,
    moves: &[Move],
    trail: &Trail<'t>,
    entry: &Entry<'_>,
    ways: &mut Ways<'t>,
    out: &mut Writer,
) -> Result<(), AllocError>
    ensures { Stays out.old out.new }
{
    add_quiet(live, moves, entry.process, trail, ways, out)?;
    match live.holder() {
        Some(holder) if holder != entry.process => {
            add_quiet(live, moves, holder, trail, ways, out)
        }
        _ => Ok(()),
    }
}

/// The ways on from where a trail has a next line: each passes over it, or takes a move of its process or of the one that has exclusive
/// control. Where memory was refused for a text that was compared, it is kept in `out`, and what is answered says nothing.
pub fn ways_on<'t>(
    live: &Live<'_, '_>,
    moves: &[Move],
    marks: &Marks,
    trail: &Trail<'t>,
    entry: &Entry<'_>,
    out: &mut Writer,
) -> Result<Ways<'t>, AllocError>
    ensures { Stays out.old out.new }
{
    let mut ways = Ways::new(out.allocator());
    add_fits(live, moves, trail, entry, &mut ways, out)?;
    add_selecting(live, moves, trail, entry, &mut ways, out)?;
    if is_shown_alone(marks, entry, out) {
        add_passing(trail, &mut ways)?;
    }
    add_unshown(live, moves, trail, entry, &mut ways, out)?;
    Ok(ways)
}
