//! The three devices of a session.
ghost use Rattle.std.specs.Prelude.{◌≡◌, ℕ, List, [], IfErr, OnOk, OnErr};
ghost use Rattle.devices.specs.Holdings.{Holdings, Moved};
ghost use Rattle.devices.specs.Doing.{Asks, WritesFirst, WritesPart, RecordsPart, CountsAsk, CountsOut, CountsRecord};

use crate::{Failed, Next, Sink, Source, put_all, put_counted};

/// What a session is played over: a source of choices, a sink for the output, and a sink for the record of the choices.
pub trait Devices {
    /// What they hold at a moment.
    ghost holds: { Self → Holdings };

    /// Asks for the next byte of the choices.
    fn next(&mut self) -> Next
        ensures bytes { Asks (holds self.old) (holds self.new) result }
        ensures count { CountsAsk (holds self.old).failures (holds self.new).failures result };

    /// Hands the whole piece to the output.
    fn write(&mut self, piece: &[u8]) -> Result<(), Failed>
        ensures ok { OnOk result (Moved (holds self.old) (holds self.new) [] piece.now []) }
        ensures err { OnErr result (WritesPart (holds self.old) (holds self.new) piece.now) }
        ensures count { CountsOut (holds self.old).failures (holds self.new).failures result };

    /// Hands the whole piece to the output, and says at an `Err` how many of its bytes were taken.
    fn write_counted(&mut self, piece: &[u8]) -> Result<(), usize>
        ensures ok { OnOk result (Moved (holds self.old) (holds self.new) [] piece.now []) }
        ensures err { IfErr result (WritesFirst (holds self.old) (holds self.new) piece.now) }
        ensures count { CountsOut (holds self.old).failures (holds self.new).failures result };

    /// Hands the whole line to the record.
    fn keep(&mut self, line: &[u8]) -> Result<(), Failed>
        ensures ok { OnOk result (Moved (holds self.old) (holds self.new) [] [] line.now) }
        ensures err { OnErr result (RecordsPart (holds self.old) (holds self.new) line.now) }
        ensures count { CountsRecord (holds self.old).failures (holds self.new).failures result };

    /// Something may be left of the choices, if only nothing.
    ghost some_left: { (s : Self) → (left : List ℕ) × (holds s).source left };
}

/// A source and two sinks, side by side.
#[derive(Drop)]
pub struct ThreeDevices<S, O, R> {
    /// The choices.
    pub source: S,
    /// The output.
    pub out: O,
    /// The record of the choices.
    pub rec: R,
}

impl<S: Source, O: Sink, R: Sink> Devices for ThreeDevices<S, O, R> {
    ghost use Rattle.devices.specs.Doing.{holding};

    ghost holds = { λ d. holding (S.may_give d.source) (O.taken d.out) (R.taken d.rec) (S.failures d.source) (O.failures d.out) (R.failures d.rec) };

    ghost some_left = { λ d. S.some_left d.source };

    fn next(&mut self) -> Next {
        self.source.next()
    }

    fn write(&mut self, piece: &[u8]) -> Result<(), Failed> {
        put_all(&mut self.out, piece)
    }

    fn write_counted(&mut self, piece: &[u8]) -> Result<(), usize> {
        put_counted(&mut self.out, piece)
    }

    fn keep(&mut self, line: &[u8]) -> Result<(), Failed> {
        put_all(&mut self.rec, line)
    }
}
