//! A session of a sample: what it is played on, and what stands behind it.
use crate::sample::{ProcessPair, Sample, SettingRounds};
use session::{Cause, End, Options};
use std::alloc::Global;
use std::process::Abort;

/// What is done with a row.
#[derive(Clone, Copy)]
pub enum RowWay {
    /// It is played.
    Session,
    /// Its choices are converted: the output has those of the second version, and there is no record.
    Conversion,
}

/// Which device fails, and at which of its calls, counted from 0.
#[derive(Clone, Copy)]
pub enum FailingCall {
    /// No call fails.
    Never,
    /// A call of the source.
    Source(u64),
    /// A call of the output.
    Out(u64),
    /// A call of the record.
    Record(u64),
}

/// A session.
#[derive(Clone, Copy)]
pub struct CodeRow {
    /// What it is called where it differs.
    pub name: &'static str,
    /// What is done.
    pub way: RowWay,
    /// What is played.
    pub sample: Sample,
    /// How it is played.
    pub options: Options,
    /// What the source has.
    pub choices: &'static [u8],
    /// Which call fails.
    pub failing: FailingCall,
    /// How the output begins.
    pub out: &'static [u8],
    /// So many bad lines are answered behind that.
    pub answers: u32,
    /// The rest of the output.
    pub last: &'static [u8],
    /// The record.
    pub rec: &'static [u8],
    /// So many bytes of the choices are read.
    pub read: usize,
    /// So many calls of the source there are.
    pub calls: u64,
    /// The exit status.
    pub status: u8,
    /// So many steps are taken.
    pub steps: u32,
    /// Why it ends.
    pub cause: Cause,
}

/// Choices for a row, and what depends on them.
#[derive(Clone, Copy)]
pub struct Choices {
    /// What the row is called then.
    pub name: &'static str,
    /// What the source has.
    pub choices: &'static [u8],
    /// So many bad lines are answered.
    pub answers: u32,
    /// So many bytes are read.
    pub read: usize,
    /// So many calls of the source there are.
    pub calls: u64,
}

/// A row on more than one text of choices.
pub struct RowTable {
    /// What is the same.
    pub row: CodeRow,
    /// What is not.
    pub choices: &'static [Choices],
}

impl CodeRow {
    /// How it ends.
    pub fn end(&self) -> End {
        End {
            status: self.status,
            steps: self.steps,
            cause: self.cause,
        }
    }

    /// The same with these choices.
    pub fn with(&self, choices: &Choices) -> CodeRow {
        CodeRow {
            name: choices.name,
            choices: choices.choices,
            answers: choices.answers,
            read: choices.read,
            calls: choices.calls,
            ..*self
        }
    }

    /// The same where a call fails.
    pub fn but(&self, failing: FailingCall) -> CodeRow {
        CodeRow { failing, ..*self }
    }

    /// The whole output.
    pub fn output<R: Abort>(&self, rt: &R, alloc: Global) -> Vec<u8> {
        let mut out = Vec::from_slice(alloc, self.out).expect(rt, self.name);
        for _ in 0..self.answers {
            out.extend_from_slice(b"bad choice\nchoose 1..2\n")
                .expect(rt, self.name);
        }
        out.extend_from_slice(self.last).expect(rt, self.name);
        out
    }
}

/// Shows steps.
pub const STEPS: Options = Options {
    steps: true,
    globals: false,
    locals: false,
    lossy: false,
    limit: 1_000_000,
};

/// Shows changed globals.
pub const GLOBALS: Options = Options {
    steps: false,
    globals: true,
    locals: false,
    lossy: false,
    limit: 1_000_000,
};

/// A process that sets `x` to 1 or 2 without end.
pub const ENDLESS: Sample = Sample::Rounds(SettingRounds {
    endless: true,
    left: 0,
    x: 0,
    changed: false,
    dead: false,
});

/// The same once.
pub const ONCE: Sample = Sample::Rounds(SettingRounds {
    endless: false,
    left: 1,
    x: 0,
    changed: false,
    dead: false,
});

/// Two processes of one assignment each.
pub const TWO: Sample = Sample::Pair(ProcessPair { a: 0, b: 0 });
