//! What was written of a process at an offer, and is written again for the next that does the same.

ghost use Rattle.std.specs.Prelude.{◌≡◌, [], true, false, slice_get, Some};
ghost use Rattle.std.specs.Option.{option_copied};
ghost use Rattle.run_state.specs.Standing.{stand_of};
ghost use Rattle.view_waits.specs.Offers.{offered_line};
ghost use Rattle.view_json.specs.Choices.{next_line};
ghost use Rattle.view_json.specs.Known.{Knows, IsSeen, alike, whole_text, is_deal, has_deal, deals_at};

use crate::actor::{actor, line_at_seat};
use pml_program::program::{Action, Basic};
use promela_run::moves::Pick;
use run_search::picked::picked as offer_of;
use run_state::live::Live;
use run_state::seat::{Seat, seat_at};
use std::alloc::Global;
use view_tokens::tokens::Json;

/// What was written of a process at an offer, from the offer's line and text, and from where it stands behind it.
#[derive(Drop)]
pub(crate) struct Known {
    pub pick: Pick,
    pub line: u32,
    pub text: Vec<u8>,
    pub next: u32,
    pub written: Json,
}

/// An offer: its line and text, and the line at which its process stands behind it.
#[derive(Clone, Copy)]
pub(crate) struct Seen<'p> {
    pub line: u32,
    pub text: &'p [u8],
    pub next: u32,
}

impl Known {
    /// Nothing was written.
    pub fn new(alloc: Global, pick: Pick) -> Known
        ensures nothing { result.written.refused ≡ true }
        ensures pick { result.pick ≡ pick }
    {
        let mut written = Json::new(alloc);
        written.refuse();
        Known {
            pick,
            line: 0,
            text: Vec::new(alloc),
            next: 0,
            written,
        }
    }
}

// Whether an action sends or receives.
fn is_deal(action: &Action<'_>) -> bool
    ensures { result ≡ is_deal action.now }
{
    match action {
        Action::Send(_, _, _) => true,
        Action::Receive(_, _, _, _) => true,
        _ => false,
    }
}

// Whether a statement sends or receives.
fn deals(basic: Option<&Basic<'_>>) -> bool
    ensures { result ≡ has_deal (option_copied basic.entry) }
{
    match basic {
        Some(Basic::Plain(action)) => is_deal(action),
        _ => false,
    }
}

// The offer that a pick names, whose process has this seat.
fn seen_from<'p>(live: &Live<'p, '_>, seat: Seat, pick: Pick) -> Seen<'p>
    requires { slice_get live.now.state.stands pick.process ≡ Some (stand_of live.now.state.program seat) }
    ensures line { result.line ≡ offered_line live.now.state pick }
    ensures text { result.text.now ≡ whole_text live.now.state pick }
    ensures next { result.next ≡ next_line live.now.state pick }
{
    match offer_of(live, pick) {
        Some(offer) => {
            let node = offer.edge.target;
            Seen {
                line: offer.body.graph.offer_line(offer.edge.statement),
                text: offer.body.graph.text(offer.edge.statement),
                next: line_at_seat(live, Seat { node, ..seat }),
            }
        }
        None => nothing(),
    }
}

fn nothing<'p>() -> Seen<'p>
    ensures line { result.line ≡ 0 }
    ensures text { result.text.now ≡ [] }
    ensures next { result.next ≡ 0 }
{
    Seen {
        line: 0,
        text: &[],
        next: 0,
    }
}

fn seen_in_live<'p>(live: &Live<'p, '_>, pick: Pick) -> Seen<'p>
    ensures line { result.line ≡ offered_line live.now.state pick }
    ensures text { result.text.now ≡ whole_text live.now.state pick }
    ensures next { result.next ≡ next_line live.now.state pick }
{
    match seat_at(live.seats(), pick.process) {
        Some(seat) => seen_from(live, *seat, pick),
        None => nothing(),
    }
}

/// Whether the offer that a pick names sends or receives.
pub(crate) fn deals_at(live: &Live<'_, '_>, pick: Pick) -> bool
    ensures { result ≡ deals_at live.now.state pick }
{
    match offer_of(live, pick) {
        Some(offer) => deals(offer.body.basic(*offer.edge)),
        None => false,
    }
}

/// The offer that a pick names.
pub(crate) fn seen_at<'p>(live: &Live<'p, '_>, pick: Pick) -> Seen<'p>
    ensures { IsSeen live.now.state pick result }
{
    seen_in_live(live, pick)
}

/// The text of the offer that a pick names, with its line.
pub(crate) fn text_at<'p>(live: &Live<'p, '_>, pick: Pick) -> &'p [u8]
    ensures { result.now ≡ whole_text live.now.state pick }
{
    match offer_of(live, pick) {
        Some(offer) => offer.body.graph.text(offer.edge.statement),
        None => &[],
    }
}

/// Whether something was written, for an offer of the same process that is seen so.
pub(crate) fn is_alike(known: &Known, process: usize, seen: Seen<'_>) -> bool
    ensures { result ≡ alike known.now process seen.entry }
{
    !known.written.is_refused()
        && known.pick.process == process
        && known.line == seen.line
        && known.next == seen.next
        && known.text.as_slice() == seen.text
}

// Writes a process at an offer anew.
fn write(live: &Live<'_, '_>, pick: Pick, seen: Seen<'_>, known: &mut Known)
    requires { IsSeen live.now.state pick seen }
    ensures knows { Knows live.now.state known.new }
    ensures pick { known.new.pick ≡ pick }
{
    known.pick = pick;
    known.line = seen.line;
    known.next = seen.next;
    known.written.clear();
    actor(live, &mut known.written, pick);
    known.text.clear();
    if known.text.extend_from_slice(seen.text).is_err() {
        known.written.refuse();
    }
}

/// Writes a process at an offer that is seen so, where it is not known.
pub(crate) fn know(live: &Live<'_, '_>, pick: Pick, seen: Seen<'_>, known: &mut Known)
    requires known { Knows live.now.state known.old }
    requires seen { IsSeen live.now.state pick seen }
    ensures knows { Knows live.now.state known.new }
    ensures pick { known.new.pick ≡ pick }
{
    if is_alike(known, pick.process, seen) {
        known.pick = pick;
        return;
    }
    write(live, pick, seen, known);
}
