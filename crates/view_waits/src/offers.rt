//! The offers that picks name.

ghost use Rattle.std.specs.Prelude.{◌≡◌};
ghost use Rattle.view_text.specs.Written.{Adds};
ghost use Rattle.view_waits.specs.Offers.{behind, bare, offered_line, offered_text};

use pml_program::program::Basic;
use pml_value::view::View;
use promela_run::moves::Pick;
use run_search::picked::picked;
use run_state::live::Live;
use view_text::writer::Writer;

// What stands behind the first `[`.
fn behind(text: &[u8]) -> &[u8]
    ensures { result.now ≡ behind text.now }
{
    for i in 0..text.len() {
        if text[i] == b'[' {
            return &text[i + 1..];
        }
    }
    &[]
}

// What stands between the brackets of `line L [TEXT]`.
fn bare(text: &[u8]) -> &[u8]
    ensures { result.now ≡ bare text.now }
{
    let rest = behind(text);
    if rest.is_empty() {
        return rest;
    }
    &rest[..rest.len() - 1]
}

fn text_in_live<'p>(live: &Live<'p, '_>, pick: Pick) -> &'p [u8]
    ensures { result.now ≡ offered_text live.now.state pick }
{
    match picked(live, pick) {
        Some(offer) => bare(offer.body.graph.text(offer.edge.statement)),
        None => &[],
    }
}

/// What the process of a pick reads, and the statement of the offer that the pick names, if it names one.
pub(crate) fn offered<'w, 'p, 'a>(
    live: &'w Live<'p, 'a>,
    pick: Pick,
    timeout: bool,
) -> Option<(View<'w>, Option<&'p Basic<'a>>)> {
    if pick.process >= live.process_count() {
        return None;
    }
    let offer = picked(live, pick)?;
    let basic = offer.body.basic(*offer.edge);
    Some((live.view(pick.process, timeout), basic))
}

/// The line of the offer that a pick names.
pub fn offer_line(live: &Live<'_, '_>, pick: Pick) -> u32
    ensures { result ≡ offered_line live.now.state pick }
{
    match picked(live, pick) {
        Some(offer) => offer.body.graph.offer_line(offer.edge.statement),
        None => 0,
    }
}

/// Writes the text of the offer that a pick names, without its line and its brackets.
pub fn add_offer(live: &Live<'_, '_>, pick: Pick, out: &mut Writer)
    ensures { Adds out.old out.new (offered_text live.now.state pick) }
{
    out.add(text_in_live(live, pick));
}
