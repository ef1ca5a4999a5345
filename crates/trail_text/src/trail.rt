//! A trail, as far as it was followed.

ghost use Rattle.std.specs.Prelude.{◌≡◌, ◌+◌, ◌<◌, true, false, nat_lt, None, Some, is_some, IfSome};
ghost use Rattle.trail_text.specs.Trails.{IsFresh, IsKept, IsBehind, is_held, skipped_of, is_unseen};

use crate::entry::{Entry, Event, next_entry};
use crate::quiet::is_of_spin;
use crate::scan::Lines;

/// A trail, as far as it was followed.
#[derive(Clone, Copy, Debug)]
pub struct Trail<'t> {
    lines: Lines<'t>,
    /// How many steps were taken since its last line that it does not show.
    quiet: usize,
    /// The process and the number of the last line that was followed.
    last: Option<(usize, usize)>,
    /// The same, where the other lines with them belong to the same step: to a d_step, or to one that came to a fault.
    held: Option<(usize, usize)>,
    /// How often a `select` is still to count up for the next line.
    pub counts: usize,
    /// The process and the line of an `else` that was passed over, since which that process took no line.
    skipped: Option<(usize, usize)>,
    /// The first line of a declaration that was passed over which gives another number than 0.
    pub valued: Option<usize>,
}

impl<'t> Trail<'t> {
    /// From its beginning.
    pub fn new(text: &'t [u8]) -> Trail<'t>
        ensures text { result.lines.rest.now ≡ text.now }
        ensures fresh { IsFresh result }
    {
        Trail {
            lines: Lines::new(text),
            quiet: 0,
            last: None,
            held: None,
            counts: 0,
            skipped: None,
            valued: None,
        }
    }

    // Whether a line is one more of the step that was taken last.
    fn is_held(&self, entry: &Entry<'t>) -> bool
        ensures { result ≡ is_held self.now.held entry.now }
    {
        match self.held {
            Some((process, step)) => process == entry.process && step == entry.step,
            None => false,
        }
    }

    /// The next line that is still to be followed, without a step.
    pub fn next(&self) -> Option<Entry<'t>>
        ensures { IfSome result (λ entry. is_held self.now.held entry ≡ false) }
    {
        let mut ahead = *self;
        for _turn in 0..u64::MAX {
            let Some(entry) = next_entry(&mut ahead.lines) else {
                return None;
            };
            if !self.is_held(&entry) {
                return Some(entry);
            }
        }
        None
    }

    /// Goes behind the next line, which is no step here.
    pub fn pass_over(&mut self)
        ensures counts { self.new.counts ≡ self.old.counts }
        ensures valued { is_some self.old.valued ≡ true → self.new.valued ≡ self.old.valued }
    {
        let Some(entry) = self.pass() else {
            return;
        };
        if entry.event.is_else() {
            self.skipped = Some((entry.process, entry.row));
        }
        if self.valued.is_none() && entry.event.gives_value() {
            self.valued = Some(entry.row);
        }
    }

    /// The line of an `else` of this process that was passed over, where the process took no line since then.
    pub fn skipped_of(&self, process: usize) -> Option<usize>
        ensures { result ≡ skipped_of self.now.skipped process }
    {
        match self.skipped {
            Some((other, row)) if other == process => Some(row),
            _ => None,
        }
    }

    /// Goes behind the next line.
    pub fn pass(&mut self) -> Option<Entry<'t>>
        ensures kept { IsKept self.old self.new }
        ensures shown { IfSome result (λ entry. is_held self.old.held entry ≡ false) }
        ensures behind { IfSome result (IsBehind self.new) }
    {
        for _turn in 0..u64::MAX {
            let Some(entry) = next_entry(&mut self.lines) else {
                return None;
            };
            if !self.is_held(&entry) {
                self.last = Some((entry.process, entry.step));
                self.held = None;
                self.quiet = 0;
                self.forget_skipped(entry.process);
                return Some(entry);
            }
        }
        None
    }

    /// The statement that follows the next line, where it may be the other half of a rendezvous.
    pub fn second(&self) -> Option<Entry<'t>>
        ensures { IfSome result (λ entry. is_unseen entry.event ≡ false) }
    {
        let mut ahead = *self;
        ahead.pass()?;
        ahead.pass_seen()
    }

    /// Goes behind the other half.
    pub fn pass_second(&mut self)
        ensures { IsKept self.old self.new }
    {
        let _ = self.pass_seen();
    }

    // Goes behind the next line of a statement that the machine has.
    fn pass_seen(&mut self) -> Option<Entry<'t>>
        ensures kept { IsKept self.old self.new }
        ensures seen { IfSome result (λ entry. is_unseen entry.event ≡ false) }
    {
        for _turn in 0..u64::MAX {
            let Some(entry) = self.pass() else {
                return None;
            };
            match entry.event {
                Event::Statement(_, text) if is_of_spin(text) => {}
                _ => return Some(entry),
            }
        }
        None
    }

    // A line of this process is followed.
    fn forget_skipped(&mut self, process: usize)
        ensures kept { self.new ≡ record self.old { skipped = self.new.skipped } }
        ensures forgotten { skipped_of self.new.skipped process ≡ None }
    {
        if self.skipped_of(process).is_some() {
            self.skipped = None;
        }
    }

    /// The lines with the number of the last one belong to the same step.
    pub fn hold(&mut self)
        ensures { self.new ≡ record self.old { held = self.old.last } }
    {
        self.held = self.last;
    }

    /// It is to count up so often. Where that is not at all, the trail goes on behind the line.
    pub fn count(&mut self, counts: usize)
        ensures counts { self.new.counts ≡ counts }
        ensures stays { 0 < counts → self.new ≡ record self.old { counts = counts } }
    {
        self.counts = counts;
        if counts == 0 {
            let _ = self.pass();
        }
    }

    /// A step is taken that the trail does not show. Whether that may be: it is so many times in a row.
    pub fn keep_quiet(&mut self) -> bool
        ensures may { result ≡ nat_lt self.old.quiet 100 }
        ensures counted { result ≡ true → self.new ≡ record self.old { quiet = self.old.quiet + 1 } }
        ensures stays { result ≡ false → self.new ≡ self.old }
    {
        if self.quiet >= MOST_QUIET {
            return false;
        }
        self.quiet += 1;
        true
    }
}

// So many steps in a row may be none of the trail's.
const MOST_QUIET: usize = 100;
