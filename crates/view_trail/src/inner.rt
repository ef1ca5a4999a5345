//! What stands in a d_step: of several that begin here, that one fits best in which the most of a trail's lines stand.

ghost use Rattle.view_text.specs.Written.{Stays};

use promela_run::moves::Pick;
use run_search::picked::picked;
use run_state::live::Live;
use trail_text::entry::{Entry, Event};
use trail_text::spelled::add_spelled;
use trail_text::trail::Trail;
use view_text::writer::Writer;

// So many of its lines are looked at.
const MOST_LINES: usize = 20;

// Writes the spelling of a statement that a pick names, with all that stands in it.
fn add_whole(live: &Live<'_, '_>, pick: Pick, out: &mut Writer)
    ensures { Stays out.old out.new }
{
    let Some(offer) = picked(live, pick) else {
        return;
    };
    let Some(statement) = offer.body.statements.get(offer.edge.statement) else {
        return;
    };
    for token in statement.tokens.as_slice() {
        add_spelled(token.text(), out);
    }
}

fn stands_in(whole: &[u8], part: &[u8]) -> bool {
    for at in 0..whole.len() {
        if whole[at..].starts_with(part) {
            return true;
        }
    }
    false
}

// The variable that `x=x+1` counts, and the sign.
fn counted(spelled: &[u8]) -> Option<(&[u8], u8)> {
    match spelled {
        [front @ .., sign, b'1'] if *sign == b'+' || *sign == b'-' => {
            let half = front.len() / 2;
            let (name, behind) = (&front[..half], &front[half..]);
            match behind {
                [b'=', again @ ..] if again == name => Some((name, *sign)),
                _ => None,
            }
        }
        _ => None,
    }
}

// Whether a statement stands in a d_step, also as `x++`.
fn is_in(whole: &[u8], spelled: &[u8], out: &mut Writer) -> bool
    ensures { Stays out.old out.new }
{
    if stands_in(whole, spelled) {
        return true;
    }
    let Some((name, sign)) = counted(spelled) else {
        return false;
    };
    let mut short = Writer::new(out.allocator());
    short.add(name);
    short.add(&[sign, sign]);
    out.keep_refusal(&short);
    stands_in(whole, short.bytes())
}

// Whether a line is of what stands in a d_step.
fn is_line_in(whole: &[u8], entry: &Entry<'_>, out: &mut Writer) -> bool
    ensures { Stays out.old out.new }
{
    let Event::Statement(_, text) = entry.event else {
        return false;
    };
    let mut spelled = Writer::new(out.allocator());
    add_spelled(text, &mut spelled);
    out.keep_refusal(&spelled);
    is_in(whole, spelled.bytes(), out)
}

/// How many of the next lines of a step are none of the d_step that a pick names.
pub fn misses(
    live: &Live<'_, '_>,
    pick: Pick,
    trail: &Trail<'_>,
    entry: &Entry<'_>,
    out: &mut Writer,
) -> usize
    ensures { Stays out.old out.new }
{
    let mut whole = Writer::new(out.allocator());
    add_whole(live, pick, &mut whole);
    out.keep_refusal(&whole);
    let mut ahead = *trail;
    let mut count = 0usize;
    for _turn in 0..MOST_LINES {
        match ahead.pass() {
            Some(line) if line.process == entry.process && line.step == entry.step => {
                if !is_line_in(whole.bytes(), &line, out) {
                    count = count.saturating_add(1);
                }
            }
            _ => break,
        }
    }
    count
}
