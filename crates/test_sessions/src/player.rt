//! Plays a text over devices of which one call may fail, all sinks taking one byte a call.
ghost use Rattle.std.specs.Prelude.{◌≡◌};

use devices::{FailsOnce, Failures, OneByte, Sink, SliceSource, Source, ThreeDevices, VecSink};
use pml_play::{convert, play};
use row_files::RowReport;
use session::{Cause, Conversion, End, Options};
use std::alloc::{AllocError, Global};
use std::marker::Brand;
use std::sync::ledger::{Blank, Ledger};

/// A device of a session.
#[derive(Clone, Copy)]
pub enum Device {
    Source,
    Out,
    Record,
}

/// Which call of each device fails, counted from 0.
#[derive(Clone, Copy)]
pub struct Failing {
    source: u64,
    out: u64,
    rec: u64,
}

/// No call fails.
pub const NEVER: Failing = Failing {
    source: u64::MAX,
    out: u64::MAX,
    rec: u64::MAX,
};

impl Device {
    /// The device of this name.
    pub fn named(name: &str, told: &mut RowReport) -> Device {
        match name {
            "source" => Device::Source,
            "output" => Device::Out,
            "record" => Device::Record,
            _ => {
                told.refuse("an unknown device");
                Device::Source
            }
        }
    }

    /// Why a session ends in which it fails.
    pub fn cause(self) -> Cause {
        match self {
            Device::Source => Cause::SourceFailed,
            Device::Out => Cause::OutFailed,
            Device::Record => Cause::RecordFailed,
        }
    }

    /// This call of it fails.
    pub fn failing(self, call: u64) -> Failing {
        match self {
            Device::Source => Failing {
                source: call,
                ..NEVER
            },
            Device::Out => Failing { out: call, ..NEVER },
            Device::Record => Failing { rec: call, ..NEVER },
        }
    }
}

/// What is done with a session.
#[derive(Clone, Copy)]
pub enum SessionWay {
    /// It is played.
    Played,
    /// Its choices are converted: the output has those of the second version, and nothing is recorded.
    Converted,
}

/// A session of a model, whose texts stay as long as the program runs.
#[derive(Clone, Copy)]
pub struct Session {
    pub way: SessionWay,
    pub options: Options,
    pub model: &'static str,
    pub choices: &'static [u8],
    pub failing: Failing,
}

/// What stands behind a session. It stays as long as the program runs.
#[derive(Clone, Copy)]
pub struct SessionOutcome {
    pub out: &'static [u8],
    pub rec: &'static [u8],
    pub unread: usize,
    pub failed: bool,
    pub end: End,
}

/// Gives the choices.
type Choices = FailsOnce<SliceSource<'static>>;

/// Takes the output, one byte a call, and keeps it.
type Out<K> = FailsOnce<OneByte<VecSink<K>>>;

/// Takes the record, and keeps it.
type Rec<L> = FailsOnce<VecSink<L>>;

fn sink<L: Ledger>(alloc: Global, blank: Blank) -> VecSink<L>
    requires name { blank.name ≡ L.name }
    requires parts { blank.parts ≡ L.parts }
    requires one { blank.parts ≡ 1 }
{
    VecSink::new(Vec::new(alloc), Failures::<L>::new(blank))
}

/// Plays a text over these devices.
fn ended_playing<S: Source, O: Sink, P: Sink>(
    alloc: Global,
    text: &[u8],
    options: &Options,
    source: &mut S,
    out: &mut O,
    rec: &mut P,
) -> End {
    let mut devices = ThreeDevices { source, out, rec };
    play(alloc, text, options, &mut devices)
}

/// Converts the choices of a text.
fn ended_converting<S: Source, O: Sink>(
    alloc: Global,
    text: &[u8],
    options: &Options,
    source: &mut S,
    out: &mut O,
) -> End {
    let mut devices = Conversion { source, out };
    convert(alloc, text, options, &mut devices)
}

/// Plays a session over these devices, or converts its choices.
fn ended<S: Source, O: Sink, P: Sink>(
    alloc: Global,
    session: &Session,
    source: &mut S,
    out: &mut O,
    rec: &mut P,
) -> End {
    let text = session.model.as_bytes();
    match session.way {
        SessionWay::Played => ended_playing(alloc, text, &session.options, source, out, rec),
        SessionWay::Converted => ended_converting(alloc, text, &session.options, source, out),
    }
}

/// These bytes, as long as the program runs.
fn lasting(alloc: Global, bytes: &[u8], told: &mut RowReport) -> &'static [u8] {
    match Vec::from_slice(alloc, bytes) {
        Ok(bytes) => bytes.leak(),
        Err(AllocError) => {
            told.refuse("out of memory");
            b""
        }
    }
}

/// What stands behind a session that ended so.
fn read_back<K: Ledger, L: Ledger>(
    alloc: Global,
    source: &Choices,
    out: &Out<K>,
    rec: &Rec<L>,
    end: End,
    told: &mut RowReport,
) -> SessionOutcome {
    SessionOutcome {
        out: lasting(alloc, out.device().sink.bytes(), told),
        rec: lasting(alloc, rec.device().bytes(), told),
        unread: source.device().left().len(),
        failed: source.has_failed() || out.has_failed() || rec.has_failed(),
        end,
    }
}

fn played_with<K: Ledger, L: Ledger>(
    alloc: Global,
    first: Blank,
    second: Blank,
    session: &Session,
    told: &mut RowReport,
) -> SessionOutcome
    requires first_name { first.name ≡ K.name }
    requires first_parts { first.parts ≡ K.parts }
    requires first_one { first.parts ≡ 1 }
    requires second_name { second.name ≡ L.name }
    requires second_parts { second.parts ≡ L.parts }
    requires second_one { second.parts ≡ 1 }
{
    let Session {
        choices,
        failing,
        ..
    } = *session;
    let taking = OneByte {
        sink: sink::<K>(alloc, first),
    };
    let mut source = FailsOnce::new(SliceSource::new(choices), failing.source);
    let mut out = FailsOnce::new(taking, failing.out);
    let mut rec = FailsOnce::new(sink::<L>(alloc, second), failing.rec);
    let end = ended(alloc, session, &mut source, &mut out, &mut rec);
    read_back(alloc, &source, &out, &rec, end, told)
}

/// Plays a session, or converts its choices. Want of memory for what stands behind it is told.
pub fn played(alloc: Global, session: &Session, told: &mut RowReport) -> SessionOutcome {
    played_with::<Brand, Brand>(alloc, Blank::new(1), Blank::new(1), session, told)
}
