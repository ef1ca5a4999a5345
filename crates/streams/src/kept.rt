//! A source over a reader and a sink over a writer that are given back.

ghost use Rattle.std.specs.Prelude.{◌≡◌, false};
ghost use Rattle.devices.specs.Left.{MayBeLeft, some_may_be_left};

use devices::{Failed, Failures, Next, Sink, Source};
use std::io::{Read, Write};
use std::marker::Model;
use std::sync::ledger::Ledger;

/// A source over a reader, which is not asked again after its end. Each `Err` of the reader counts as a failure.
#[derive(Drop)]
pub struct KeptReader<R, L: Ledger> {
    reader: R,
    ended: bool,
    failures: Failures<L>,
}

impl<R, L: Ledger> Model for KeptReader<R, L> {
    ghost use Rattle.devices.specs.Devices.{Reading};

    ghost Value = { Reading R };

    ghost view = { λ s. record { reader = s.reader; ended = s.ended; failures = s.failures } };
}

impl<R, L: Ledger> KeptReader<R, L> {
    /// A source over a reader that was not asked yet.
    pub fn new(reader: R, failures: Failures<L>) -> Self
        ensures { result ≡ record { reader = reader; ended = false; failures = failures } }
    {
        KeptReader {
            reader,
            ended: false,
            failures,
        }
    }

    /// The reader.
    pub fn into_reader(self) -> R
        ensures { result ≡ self.reader }
    {
        let KeptReader {
            reader,
            ended: _,
            failures: _,
        } = self;
        reader
    }
}

impl<R: Read, L: Ledger> Source for KeptReader<R, L> {
    ghost may_give = { λ s left. MayBeLeft s.ended (R.remaining s.reader) left };

    ghost some_left = { λ s. some_may_be_left s.ended (R.remaining s.reader) };

    ghost failures = { λ s. s.failures };

    #[inline(always)]
    fn next(&mut self) -> Next {
        if self.ended {
            return Next::End;
        }
        let mut buf = [0u8; 1];
        match self.reader.read(&mut buf) {
            Ok(0) => {
                self.ended = true;
                Next::End
            }
            Ok(_) => Next::Byte(buf[0]),
            Err(_) => {
                self.failures.count();
                Next::Failed
            }
        }
    }
}

/// A sink over a writer. An `Err` counts as a failure, and so does a write that takes nothing of a piece that is not empty.
#[derive(Drop)]
pub struct KeptWriter<W, L: Ledger> {
    writer: W,
    failures: Failures<L>,
}

impl<W, L: Ledger> Model for KeptWriter<W, L> {
    ghost use Rattle.devices.specs.Devices.{Writing};

    ghost Value = { Writing W };

    ghost view = { λ s. record { writer = s.writer; failures = s.failures } };
}

impl<W, L: Ledger> KeptWriter<W, L> {
    /// A sink over a writer.
    pub fn new(writer: W, failures: Failures<L>) -> Self
        ensures { result ≡ record { writer = writer; failures = failures } }
    {
        KeptWriter { writer, failures }
    }

    /// The writer.
    pub fn into_writer(self) -> W
        ensures { result ≡ self.writer }
    {
        let KeptWriter {
            writer,
            failures: _,
        } = self;
        writer
    }
}

impl<W: Write, L: Ledger> Sink for KeptWriter<W, L> {
    ghost taken = { λ s. W.contents s.writer };

    ghost failures = { λ s. s.failures };

    fn put(&mut self, piece: &[u8]) -> Result<usize, Failed> {
        match self.writer.write(piece) {
            Ok(n) if n > 0 || piece.is_empty() => Ok(n),
            _ => {
                self.failures.count();
                Err(Failed)
            }
        }
    }
}
