//! How far a move is from what the next line of a trail names.

ghost use Rattle.std.specs.Prelude.{◌≡◌, IfSome};
ghost use Rattle.run_search.specs.Laws.{taker};
ghost use Rattle.view_text.specs.Written.{Stays};

use crate::inner::misses;
use promela_run::moves::{Move, Pick};
use run_state::live::Live;
use trail_text::entry::{Entry, Event};
use trail_text::loose::is_like;
use trail_text::quiet::{is_break, is_printm};
use trail_text::spelled::add_spelled;
use trail_text::trail::Trail;
use view_text::writer::Writer;
use view_waits::offers::{add_offer, offer_line};

/// A d_step, of which Spin shows what is in it, is farther than any statement: so far, and by its line.
pub const OF_D_STEP: usize = 1_000_000_000;

/// A statement that is the same but for names of an mtype is farther still.
pub const OF_OTHERS: usize = 2_000_000_000;

// Lines of a d_step that are farther count as these; and more that are none of it as so many.
const FARTHEST: usize = 10_000_000;

const MOST_MISSES: usize = 50;

/// The text of the offer that a pick names.
pub fn text_of(live: &Live<'_, '_>, pick: Pick, out: &mut Writer) -> Writer
    ensures { Stays out.old out.new }
{
    let mut text = Writer::new(out.allocator());
    add_offer(live, pick, &mut text);
    out.keep_refusal(&text);
    text
}

/// The spelling of a statement.
pub fn spelling_of(text: &[u8], out: &mut Writer) -> Writer
    ensures { Stays out.old out.new }
{
    let mut spelled = Writer::new(out.allocator());
    add_spelled(text, &mut spelled);
    out.keep_refusal(&spelled);
    spelled
}

// How far the line of a d_step is from one in it, of which so many are none of it: from one before it farthest.
fn distance_of_d_step(line: usize, first: usize, misses: usize) -> usize {
    if first <= line {
        let far = (line - first).min(FARTHEST);
        let lines = misses.min(MOST_MISSES).saturating_mul(FARTHEST);
        OF_D_STEP.saturating_add(lines).saturating_add(far)
    } else {
        OF_OTHERS - 1
    }
}

// How far a statement with a text, on a line that is so far, is from another text, where it fits it.
fn distance_of_text(
    live: &Live<'_, '_>,
    text: &[u8],
    wanted: &[u8],
    far: usize,
    out: &mut Writer,
) -> Option<usize>
    ensures { Stays out.old out.new }
{
    if is_break(wanted) {
        return if far == 0 && text == b"break".as_slice() {
            Some(0)
        } else {
            None
        };
    }
    let spelled = spelling_of(text, out);
    let wanted = spelling_of(wanted, out);
    if spelled.bytes() == wanted.bytes() {
        return Some(far);
    }
    let names = live.program().constants.as_slice();
    if far == 0
        && (is_like(names, spelled.bytes(), wanted.bytes())
            || is_printm(spelled.bytes(), wanted.bytes()))
    {
        return Some(OF_OTHERS);
    }
    None
}

// How far what a pick names is from this line of this process, where it fits it.
fn distance_of(
    live: &Live<'_, '_>,
    pick: Pick,
    trail: &Trail<'_>,
    entry: &Entry<'_>,
    out: &mut Writer,
) -> Option<usize>
    ensures process { IfSome result (λ n. pick.process ≡ entry.now.process) }
    ensures stays { Stays out.old out.new }
{
    let Event::Statement(line, wanted) = entry.event else {
        return None;
    };
    if pick.process != entry.process {
        return None;
    }
    let first = offer_line(live, pick) as usize;
    let text = text_of(live, pick, out);
    if text.bytes() == b"d_step".as_slice() {
        let misses = misses(live, pick, trail, entry, out);
        return Some(distance_of_d_step(line, first, misses));
    }
    distance_of_text(live, text.bytes(), wanted, line.abs_diff(first), out)
}

// How far the two halves of a rendezvous are from the next two lines.
fn distance_of_pair(
    live: &Live<'_, '_>,
    sender: Pick,
    receiver: Pick,
    trail: &Trail<'_>,
    entry: &Entry<'_>,
    out: &mut Writer,
) -> Option<usize>
    ensures process { IfSome result (λ n. sender.process ≡ entry.now.process) }
    ensures stays { Stays out.old out.new }
{
    let first = distance_of(live, sender, trail, entry, out)?;
    let second = trail.second()?;
    let behind = distance_of(live, receiver, trail, &second, out)?;
    Some(first.saturating_add(behind))
}

/// How far a move is from the next line, where it fits it: its process is that of the line.
pub fn distance(
    live: &Live<'_, '_>,
    m: &Move,
    trail: &Trail<'_>,
    entry: &Entry<'_>,
    out: &mut Writer,
) -> Option<usize>
    ensures process { IfSome result (λ n. taker m.now ≡ entry.now.process) }
    ensures stays { Stays out.old out.new }
{
    match m {
        Move::Death(process) => {
            if entry.event == Event::Death && *process == entry.process {
                Some(0)
            } else {
                None
            }
        }
        Move::Alone(pick, _) => distance_of(live, *pick, trail, entry, out),
        Move::Pair(sender, receiver, _) => {
            distance_of_pair(live, *sender, *receiver, trail, entry, out)
        }
    }
}

fn is_d_step(far: usize) -> bool {
    far >= OF_D_STEP && far < OF_OTHERS
}

/// A trail behind the lines that a move fits which is so far.
pub fn behind<'t>(trail: &Trail<'t>, m: &Move, far: usize) -> Trail<'t> {
    let mut trail = *trail;
    let _ = trail.pass();
    match m {
        Move::Pair(_, _, _) => trail.pass_second(),
        _ if is_d_step(far) => trail.hold(),
        _ => {}
    }
    trail
}
