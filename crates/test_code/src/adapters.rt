//! The adapters over readers and writers that fail.
ghost use Rattle.std.specs.Prelude.{◌≡◌};

use crate::compare::same;
use devices::{ByteReader, Failed, Failures, Next, PieceWriter, Sink, Source};
use std::io::{Error, ErrorKind, Read, Result as IoResult, Write};
use std::marker::Brand;
use std::process::Abort;
use std::sync::ledger::{Blank, Ledger};

// Gives `a`, is interrupted, gives `b`, and ends. It counts its calls.
#[derive(Drop)]
struct Interrupted<'a> {
    calls: &'a mut u32,
}

impl Read for Interrupted<'_> {
    fn read(&mut self, buf: &mut [u8]) -> IoResult<usize> {
        *self.calls = self.calls.saturating_add(1);
        let mut bytes: &[u8] = match *self.calls {
            1 => b"a",
            2 => return Err(Error::from(ErrorKind::Interrupted)),
            3 => b"b",
            _ => b"",
        };
        bytes.read(buf)
    }
}

// Takes no byte, is interrupted, and then takes one byte a call.
#[derive(Drop)]
struct Reluctant {
    calls: u32,
}

impl Write for Reluctant {
    fn write(&mut self, buf: &[u8]) -> IoResult<usize> {
        self.calls = self.calls.saturating_add(1);
        match self.calls {
            1 => Ok(0),
            2 => Err(Error::from(ErrorKind::Interrupted)),
            _ => Ok(buf.len().min(1)),
        }
    }

    fn flush(&mut self) -> IoResult<()> {
        Ok(())
    }
}

// What the reader answers, call for call.
static NEXTS: [Next; 6] = [
    Next::Byte(b'a'),
    Next::Failed,
    Next::Byte(b'b'),
    Next::End,
    Next::End,
    Next::End,
];

fn reads<L: Ledger, R: Abort>(rt: &R, blank: Blank)
    requires name { blank.name ≡ L.name }
    requires parts { blank.parts ≡ L.parts }
    requires one { blank.parts ≡ 1 }
{
    let mut calls = 0;
    let mut source = ByteReader::new(Interrupted { calls: &mut calls }, Failures::<L>::new(blank));
    for wanted in &NEXTS {
        same(rt, "a reader", "what it gives", source.next(), *wanted);
    }
    drop(source);
    same(rt, "a reader", "calls", calls, 4);
}

// Pieces, and what the writer answers.
static PUTS: [(&[u8], Result<usize, Failed>); 4] = [
    (b"abc", Err(Failed)),
    (b"abc", Err(Failed)),
    (b"abc", Ok(1)),
    (b"", Ok(0)),
];

fn writes<L: Ledger, R: Abort>(rt: &R, blank: Blank)
    requires name { blank.name ≡ L.name }
    requires parts { blank.parts ≡ L.parts }
    requires one { blank.parts ≡ 1 }
{
    let mut sink = PieceWriter::new(Reluctant { calls: 0 }, Failures::<L>::new(blank));
    for (piece, wanted) in &PUTS {
        same(rt, "a writer", "what it takes", sink.put(piece), *wanted);
    }
}

#[test]
fn a_reader_is_not_asked_after_its_end(rt: HostRuntime) {
    reads::<Brand, HostRuntime>(&rt, Blank::new(1));
}

#[test]
fn a_write_of_no_byte_is_a_failure(rt: HostRuntime) {
    writes::<Brand, HostRuntime>(&rt, Blank::new(1));
}
