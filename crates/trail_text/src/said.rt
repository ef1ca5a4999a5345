//! What Spin says of a trail beside its steps: where a cycle starts, which assertion failed, and the claim that ended it.

ghost use Rattle.std.specs.Prelude.{◌≡◌, ◌||◌, true, false, Some, codes, is_some, IfSome, if◌then◌else◌};
ghost use Rattle.trail_text.specs.Parts.{has};
ghost use Rattle.trail_text.specs.Shown.{begins, tells_cycle, tells_failure, tells_text, is_of_claim};
ghost use Rattle.trail_text.specs.Claims.{IsClaim, is_ended_by};
ghost use Rattle.view_text.specs.Written.{Stays};

use crate::scan::{Lines, before_blanks, behind_blanks, parted};
use view_text::writer::Writer;

/// What is said.
#[derive(Clone, Copy, Debug)]
pub struct Said<'t> {
    /// The number of the line that says where a cycle starts.
    pub cycle: Option<usize>,
    /// The place and the text of an assertion that failed.
    pub failed: Option<FailedAssertion<'t>>,
    /// The name of a claim that ended the trail.
    pub claim: Option<&'t [u8]>,
}

/// An assertion that failed, in the model or in a claim.
#[derive(Clone, Copy, Debug)]
pub struct FailedAssertion<'t> {
    pub place: &'t [u8],
    pub text: &'t [u8],
    pub is_of_claim: bool,
    /// Its step is a line of the trail. It is none in a run by chance.
    pub is_step: bool,
}

// The place in `spin: m.pml:9, Error: assertion violated`.
fn failed_at(line: &[u8]) -> Option<&[u8]>
    ensures { is_some result ≡ tells_failure line.now }
{
    let (place, _) = parted(
        line.strip_prefix(b"spin: ")?,
        b", Error: assertion violated",
    )?;
    Some(place)
}

// The text in `spin: text of failed assertion: assert(0)`.
fn failed_text(line: &[u8]) -> Option<&[u8]>
    ensures { is_some result ≡ tells_text line.now }
{
    Some(before_blanks(line.strip_prefix(b"spin: text of failed assertion: ")?))
}

fn is_of_claim(line: &[u8]) -> bool
    ensures { result ≡ is_of_claim line.now }
{
    line.starts_with(b"Never claim moves to line ") && parted(line, b"[assert").is_some()
}

// The name in ` 13: proc  - (p:1) ..`, which is said of a claim behind the trail's end, and whether it stands where it may end.
fn claim_in(line: &[u8]) -> Option<(&[u8], bool)>
    ensures { IfSome result (λ claim. IsClaim line.now claim.0.now claim.1) }
{
    let (_, behind) = parted(line, b"proc  - (")?;
    let (name, rest) = parted(behind, b":")?;
    Some((name, parted(rest, b"<valid end state>").is_some()))
}

impl<'t> Said<'t> {
    // What a line adds.
    fn add(&mut self, row: usize, line: &'t [u8])
        ensures cycle { tells_cycle line.now ≡ true → self.new.cycle ≡ Some row }
        ensures kept { tells_cycle line.now ≡ false → self.new.cycle ≡ self.old.cycle }
    {
        if behind_blanks(line).starts_with(b"<<<<<START OF CYCLE") {
            self.cycle = Some(row);
        } else if let Some(place) = failed_at(line) {
            self.failed = Some(FailedAssertion {
                place,
                text: b"",
                is_of_claim: false,
                is_step: false,
            });
        } else if let Some(failed) = self.failed {
            self.failed = Some(behind_failed(failed, line));
        }
        if let Some((name, is_end)) = claim_in(line) {
            self.end_by(name, is_end);
        }
    }

    // Where the claim of this name stands behind the last step.
    fn end_by(&mut self, name: &'t [u8], is_end: bool)
        ensures cycle { self.new.cycle ≡ self.old.cycle }
        ensures claim { self.new.claim ≡ (if is_ended_by self.old is_end then Some name.entry else self.old.claim) }
    {
        let fails = match self.failed {
            Some(failed) => failed.is_of_claim,
            None => false,
        };
        if self.cycle.is_none() && (is_end || fails) {
            self.claim = Some(name);
        }
    }
}

// What a line behind that of an assertion adds to it.
fn behind_failed<'t>(failed: FailedAssertion<'t>, line: &'t [u8]) -> FailedAssertion<'t>
    ensures place { result.place ≡ failed.entry.place }
    ensures text { tells_text line.now ≡ false → result.text ≡ failed.entry.text }
    ensures claim { tells_text line.now ≡ false → result.is_of_claim ≡ (failed.entry.is_of_claim || is_of_claim line.now) }
    ensures step { tells_text line.now ≡ false → result.is_step ≡ (failed.entry.is_step || has line.now (codes "[assert")) }
{
    match failed_text(line) {
        Some(text) => FailedAssertion { text, ..failed },
        None => FailedAssertion {
            is_of_claim: failed.is_of_claim || is_of_claim(line),
            is_step: failed.is_step || parted(line, b"[assert").is_some(),
            ..failed
        },
    }
}

/// What a file says beside its steps.
pub fn said_in(text: &[u8]) -> Said<'_> {
    let mut said = Said {
        cycle: None,
        failed: None,
        claim: None,
    };
    let mut lines = Lines::new(text);
    for _ in 0..text.len() {
        match lines.next() {
            Some(line) => said.add(lines.row, line),
            None => break,
        }
    }
    said
}

// Writes which assertion failed.
fn add_failed(failed: &FailedAssertion<'_>, out: &mut Writer)
    ensures { Stays out.old out.new }
{
    out.add(b"trail: assertion violated, ");
    out.add(failed.place);
    out.add(b": ");
    out.add(failed.text);
    out.add(b"\n");
}

/// A cycle of a trail: behind how many steps it begins; and whether the trail ends in the state that is there, where it was followed to its
/// end.
#[derive(Clone, Copy, Debug, PartialEq, Eq)]
pub struct Cycle {
    pub before: usize,
    pub is_closed: Option<bool>,
}

// Writes where a cycle begins.
fn add_cycle(cycle: Cycle, out: &mut Writer)
    ensures { Stays out.old out.new }
{
    out.add(b"trail: the cycle begins at step ");
    out.number(cycle.before);
    match cycle.is_closed {
        Some(true) => {
            out.add(b", and the state is that of step ");
            out.number(cycle.before);
        }
        Some(false) => {
            out.add(b", and the state is not that of step ");
            out.number(cycle.before);
        }
        None => {}
    }
    out.add(b"\n");
}

/// Writes what is said, a line for each, and of a cycle what is known of it.
pub fn add_said(said: &Said<'_>, cycle: Option<Cycle>, out: &mut Writer)
    ensures { Stays out.old out.new }
{
    if let Some(cycle) = cycle {
        add_cycle(cycle, out);
    }
    if let Some(failed) = &said.failed {
        add_failed(failed, out);
    }
    if let Some(claim) = said.claim {
        out.add(b"trail: claim ended: the run violates it (");
        out.add(claim);
        out.add(b")\n");
    }
}
