//! Plays a sample over devices of which one call may fail, all sinks taking one byte a call.
ghost use Rattle.std.specs.Prelude.{◌≡◌};

use crate::row::{CodeRow, FailingCall, RowWay};
use devices::{
    FailsOnce, Failures, Next, OneByte, Sink, SliceSource, Source, ThreeDevices, VecSink,
};
use session::{Conversion, End, convert, play};
use std::alloc::Global;
use std::marker::Brand;
use std::process::Abort;
use std::sync::ledger::{Blank, Ledger};

// No call fails.
const NEVER: u64 = u64::MAX;

impl FailingCall {
    fn of_source(self) -> u64 {
        match self {
            FailingCall::Source(at) => at,
            _ => NEVER,
        }
    }

    fn of_out(self) -> u64 {
        match self {
            FailingCall::Out(at) => at,
            _ => NEVER,
        }
    }

    fn of_record(self) -> u64 {
        match self {
            FailingCall::Record(at) => at,
            _ => NEVER,
        }
    }
}

/// What stands behind a session.
#[derive(Drop)]
pub struct SampleOutcome {
    pub out: Vec<u8>,
    pub rec: Vec<u8>,
    pub read: usize,
    pub calls: u64,
    pub asked_after_end: bool,
    pub failed: bool,
    pub end: End,
}

/// A source that counts its calls, and those after its end.
#[derive(Drop)]
pub struct Counting<S> {
    source: S,
    calls: u64,
    ended: bool,
    asked_after_end: bool,
}

impl<S: Source> Source for Counting<S> {
    ghost may_give = { λ s. S.may_give s.source };

    ghost some_left = { λ s. S.some_left s.source };

    ghost failures = { λ s. S.failures s.source };

    fn next(&mut self) -> Next {
        self.calls = self.calls.saturating_add(1);
        self.asked_after_end = self.asked_after_end || self.ended;
        let next = self.source.next();
        self.ended = matches!(next, Next::End);
        next
    }
}

type Choices<'a> = Counting<FailsOnce<SliceSource<'a>>>;

type Taking<L> = FailsOnce<OneByte<VecSink<L>>>;

fn choices(row: &CodeRow) -> Choices<'static> {
    Counting {
        source: FailsOnce::new(SliceSource::new(row.choices), row.failing.of_source()),
        calls: 0,
        ended: false,
        asked_after_end: false,
    }
}

fn taking<L: Ledger>(alloc: Global, blank: Blank, failing: u64) -> Taking<L>
    requires name { blank.name ≡ L.name }
    requires parts { blank.parts ≡ L.parts }
    requires one { blank.parts ≡ 1 }
{
    let sink = VecSink::new(Vec::new(alloc), Failures::<L>::new(blank));
    FailsOnce::new(OneByte { sink }, failing)
}

// Plays a row over these devices, or converts its choices: then nothing is recorded.
fn ended<S: Source, O: Sink, P: Sink>(
    alloc: Global,
    row: &CodeRow,
    source: &mut S,
    out: &mut O,
    rec: &mut P,
) -> End {
    let mut machine = row.sample;
    match row.way {
        RowWay::Session => {
            let mut devices = ThreeDevices { source, out, rec };
            play(alloc, &mut machine, &row.options, &mut devices)
        }
        RowWay::Conversion => {
            let mut devices = Conversion { source, out };
            convert(alloc, &mut machine, &row.options, &mut devices)
        }
    }
}

// What a device holds.
fn held<L: Ledger, R: Abort>(rt: &R, alloc: Global, row: &CodeRow, device: &Taking<L>) -> Vec<u8> {
    Vec::from_slice(alloc, device.device().sink.bytes()).expect(rt, row.name)
}

// What these devices leave behind once a session has ended so, where they hold these bytes.
fn left_behind<K: Ledger, L: Ledger>(
    row: &CodeRow,
    source: &Choices<'_>,
    out: &Taking<K>,
    rec: &Taking<L>,
    bytes: (Vec<u8>, Vec<u8>),
    end: End,
) -> SampleOutcome {
    let left = source.source.device().left().len();
    SampleOutcome {
        out: bytes.0,
        rec: bytes.1,
        read: row.choices.len().saturating_sub(left),
        calls: source.calls,
        asked_after_end: source.asked_after_end,
        failed: source.source.has_failed() || out.has_failed() || rec.has_failed(),
        end,
    }
}

fn played_with<K: Ledger, L: Ledger, R: Abort>(
    rt: &R,
    alloc: Global,
    first: Blank,
    second: Blank,
    row: &CodeRow,
) -> SampleOutcome
    requires first_name { first.name ≡ K.name }
    requires first_parts { first.parts ≡ K.parts }
    requires first_one { first.parts ≡ 1 }
    requires second_name { second.name ≡ L.name }
    requires second_parts { second.parts ≡ L.parts }
    requires second_one { second.parts ≡ 1 }
{
    let mut source = choices(row);
    let mut out = taking::<K>(alloc, first, row.failing.of_out());
    let mut rec = taking::<L>(alloc, second, row.failing.of_record());
    let end = ended(alloc, row, &mut source, &mut out, &mut rec);
    let bytes = (held(rt, alloc, row, &out), held(rt, alloc, row, &rec));
    left_behind(row, &source, &out, &rec, bytes, end)
}

/// Plays a row, or converts its choices.
pub fn played<R: Abort>(rt: &R, alloc: Global, row: &CodeRow) -> SampleOutcome {
    played_with::<Brand, Brand, R>(rt, alloc, Blank::new(1), Blank::new(1), row)
}
