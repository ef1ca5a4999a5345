//! Between which processes those lie that may receive on a channel: a send then looks at no other.

ghost use Rattle.std.specs.Prelude.{◌≡◌, ◌<◌, ◌≤◌, ◌⊎◌, ℕ, true, IfOk, length, slice_get};
ghost use Rattle.std.specs.Option.{option_copied};
ghost use Rattle.run_search.specs.Listeners.{place_of, with_one, widened, spans_with, any_with, joined, LiesIn, HearsOn, AreHeard};

use crate::demand::{Demand, Interests};
use profile::MOST_PROCESSES;
use std::alloc::{AllocError, Global};

/// Processes by their numbers: from the first to the last; none, where the last stands before the first.
#[derive(Clone, Copy)]
pub(crate) struct Span {
    pub first: usize,
    pub last: usize,
}

/// No process.
pub(crate) const NOBODY: Span = Span {
    first: MOST_PROCESSES,
    last: 0,
};

/// Between which processes those lie that wait on a channel, by its number, and between which those that may receive anything.
#[derive(Drop)]
pub(crate) struct Listeners {
    pub spans: Vec<Span>,
    pub any: Span,
}

/// What is known of what processes wait for: of each by itself, and between which those of a channel lie.
#[derive(Clone, Copy)]
pub(crate) struct Known<'k> {
    pub demands: &'k [Demand],
    pub spans: &'k [Span],
    pub any: Span,
}

impl Span {
    /// These and one more.
    fn with_one(self, j: usize) -> Span
        ensures { result ≡ with_one self j }
    {
        Span {
            first: if j < self.first { j } else { self.first },
            last: if self.last < j { j } else { self.last },
        }
    }

    /// With this one too, where it may receive anything.
    fn with_any(self, interests: Interests, j: usize) -> Span
        ensures { result ≡ any_with self interests j }
    {
        match interests {
            Interests::Anything => self.with_one(j),
            _ => self,
        }
    }

    /// These and those of another.
    fn joined(self, other: Span) -> Span
        ensures { result ≡ joined self other }
    {
        Span {
            first: if other.first < self.first {
                other.first
            } else {
                self.first
            },
            last: if self.last < other.last {
                other.last
            } else {
                self.last
            },
        }
    }

    /// Before which process they end, where so many live.
    fn end(self, count: usize) -> usize
        ensures before { (i : ℕ) → i < count → i ≤ self.last → i < result }
        ensures within { result ≤ count }
    {
        if self.last < count {
            self.last + 1
        } else {
            count
        }
    }
}

/// Where the span of a channel stands.
fn place_of(number: i32) -> usize
    ensures { result ≡ place_of number }
{
    if number <= 0 {
        return 0;
    }
    number as usize - 1
}

/// With one more on the channel with this number, where that is there.
fn widen(spans: &mut Vec<Span>, number: i32, j: usize)
    ensures { spans.new.items ≡ widened spans.old.items (place_of number) j }
{
    let at = place_of(number);
    if at < spans.len() {
        spans[at] = spans[at].with_one(j);
    }
}

/// With this one too, where it waits on a channel or on two.
fn add_listener(spans: &mut Vec<Span>, interests: Interests, j: usize)
    ensures { spans.new.items ≡ spans_with spans.old.items interests j }
{
    match interests {
        Interests::One(own) => widen(spans, own.number, j),
        Interests::Two(own, other) => {
            widen(spans, own.number, j);
            widen(spans, other.number, j);
        }
        _ => {}
    }
}

/// Between which processes those lie that wait on a channel, where so many channels live.
pub(crate) fn all_listeners(
    alloc: Global,
    demands: &[Demand],
    channels: usize,
) -> Result<Listeners, AllocError>
    ensures { IfOk result (λ l. AreHeard demands.now l.spans.items l.any (length demands.now)) }
{
    let mut spans = Vec::new(alloc);
    spans.resize(channels, NOBODY)?;
    let mut any = NOBODY;
    for j in 0..demands.len() {
        add_listener(&mut spans, demands[j].interests, j);
        any = any.with_any(demands[j].interests, j);
    }
    Ok(Listeners { spans, any })
}

fn span_at(spans: &[Span], at: usize) -> Option<&Span>
    ensures { option_copied result ≡ slice_get spans.now at }
{
    spans.get(at)
}

impl<'k> Known<'k> {
    /// From which process on those lie that may receive on a channel, and before which, where so many live.
    pub fn heard(self, number: i32, count: usize) -> (usize, usize)
        ensures among { (i : ℕ) → i < count → HearsOn self.entry number i → (result.0 ≤ i) × (i < result.1) }
        ensures within { result.1 ≤ count }
    {
        match span_at(self.spans, place_of(number)) {
            None => (0, count),
            Some(span) => {
                let all = span.joined(self.any);
                (all.first, all.end(count))
            }
        }
    }

    /// Whether nobody is heard on a channel, where so many live.
    #[inline(always)]
    pub fn is_unheard(self, number: i32, count: usize) -> bool
        ensures { result ≡ true → (i : ℕ) → i < count → HearsOn self.entry number i → ⊥ }
    {
        let (first, end) = self.heard(number, count);
        end <= first
    }
}
