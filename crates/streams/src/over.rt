//! Playing and converting over a reader and writers.

ghost use Rattle.std.specs.Prelude.{◌≡◌, None};
ghost use Rattle.devices.specs.Choice.{taken_by_either, count_either};
ghost use Rattle.streams.specs.Streams.{ConvertsOver, IsBlank, PlaysOver, EndsOver, known_if_any, known};

use crate::kept::{KeptReader, KeptWriter};
use devices::{Either, Failures, Nowhere, ThreeDevices};
use session::{Conversion, End, Options};
use std::alloc::Global;
use std::io::{Read, Write};
use std::marker::Brand;
use std::sync::ledger::{Blank, Ledger};

/// What a session is played over: a reader of choices, a writer of the output, and perhaps a writer of the record.
#[derive(Drop)]
pub struct Streams<R, O, K> {
    /// Where the choices are read, a byte at a time.
    pub source: R,
    /// Where the output is written.
    pub out: O,
    /// Where the accepted numbers are written, a line each.
    pub rec: Option<K>,
}

/// How a session ended, and what it was played over.
#[derive(Drop)]
pub struct PlayedSession<R, O, K> {
    pub end: End,
    pub streams: Streams<R, O, K>,
}

// The books in which three devices count their failures.
#[derive(Drop)]
struct Books {
    source: Blank,
    out: Blank,
    rec: Blank,
}

impl Books {
    // A book for each.
    fn new() -> Books
        ensures source { result.source.parts ≡ 1 }
        ensures out { result.out.parts ≡ 1 }
        ensures rec { result.rec.parts ≡ 1 }
    {
        Books {
            source: Blank::new(1),
            out: Blank::new(1),
            rec: Blank::new(1),
        }
    }
}

// The sink that takes the record, or none.
fn recorder<K: Write, L: Ledger>(rec: Option<K>, blank: Blank) -> Either<KeptWriter<K, L>, Nowhere>
    requires { IsBlank L.name L.parts blank.name blank.parts }
    ensures known { taken_by_either (λ w. K.contents w.writer) (λ _. None) result ≡ known_if_any K.contents rec }
    ensures count { count_either (λ w. w.failures) (λ _. 0) result ≡ 0 }
{
    match rec {
        Some(writer) => Either::First(KeptWriter::new(writer, Failures::<L>::new(blank))),
        None => Either::Second(Nowhere),
    }
}

// The writer that took the record, or none.
fn recorded<K: Write, L: Ledger>(sink: Either<KeptWriter<K, L>, Nowhere>) -> Option<K>
    ensures { known_if_any K.contents result ≡ taken_by_either (λ w. K.contents w.writer) (λ _. None) sink }
{
    match sink {
        Either::First(kept) => Some(kept.into_writer()),
        Either::Second(Nowhere) => None,
    }
}

// Plays the text, and counts what fails.
fn play_counting<R: Read, O: Write, K: Write, S: Ledger, T: Ledger, U: Ledger>(
    alloc: Global,
    text: &[u8],
    options: &Options,
    streams: Streams<R, O, K>,
    books: Books,
) -> PlayedSession<R, O, K>
    requires source { IsBlank S.name S.parts books.source.name books.source.parts }
    requires out { IsBlank T.name T.parts books.out.name books.out.parts }
    requires rec { IsBlank U.name U.parts books.rec.name books.rec.parts }
    ensures { let k = known R.remaining O.contents K.contents in PlaysOver text.now options.now (k streams) (k result.streams) result.end }
{
    let source = KeptReader::new(streams.source, Failures::<S>::new(books.source));
    let out = KeptWriter::new(streams.out, Failures::<T>::new(books.out));
    let rec = recorder::<K, U>(streams.rec, books.rec);
    let mut devices = ThreeDevices { source, out, rec };
    let end = pml_play::play(alloc, text, options, &mut devices);
    let ThreeDevices { source, out, rec } = devices;
    let streams = Streams {
        source: source.into_reader(),
        out: out.into_writer(),
        rec: recorded::<K, U>(rec),
    };
    PlayedSession { end, streams }
}

/// Plays the text of a model. What is known of the streams after it is what the session over the text asks for: where the status is
/// not 6 its whole output and record, and just the bytes of the choices that its questions read; where it is 6 a beginning of them.
pub fn play_over<R: Read, O: Write, K: Write>(
    alloc: Global,
    text: &[u8],
    options: &Options,
    streams: Streams<R, O, K>,
) -> PlayedSession<R, O, K>
    ensures { let k = known R.remaining O.contents K.contents in PlaysOver text.now options.now (k streams) (k result.streams) result.end }
{
    play_counting::<R, O, K, Brand, Brand, Brand>(alloc, text, options, streams, Books::new())
}

// Converts the choices, and counts what fails.
fn convert_counting<R: Read, O: Write, K: Write, S: Ledger, T: Ledger>(
    alloc: Global,
    text: &[u8],
    options: &Options,
    streams: Streams<R, O, K>,
    books: Books,
) -> PlayedSession<R, O, K>
    requires source { IsBlank S.name S.parts books.source.name books.source.parts }
    requires out { IsBlank T.name T.parts books.out.name books.out.parts }
    ensures { let k = known R.remaining O.contents K.contents in ConvertsOver text.now options.now (k streams) (k result.streams) result.end }
{
    let source = KeptReader::new(streams.source, Failures::<S>::new(books.source));
    let out = KeptWriter::new(streams.out, Failures::<T>::new(books.out));
    let rec = streams.rec;
    let mut devices = Conversion { source, out };
    let end = pml_play::convert(alloc, text, options, &mut devices);
    let Conversion { source, out } = devices;
    let streams = Streams {
        source: source.into_reader(),
        out: out.into_writer(),
        rec,
    };
    PlayedSession { end, streams }
}

/// Converts the choices of a session over the text of a model. Of the streams the reader gives them, and the writer of the output
/// takes them in the second version; that of a record takes nothing.
pub fn convert_over<R: Read, O: Write, K: Write>(
    alloc: Global,
    text: &[u8],
    options: &Options,
    streams: Streams<R, O, K>,
) -> PlayedSession<R, O, K>
    ensures { let k = known R.remaining O.contents K.contents in ConvertsOver text.now options.now (k streams) (k result.streams) result.end }
{
    convert_counting::<R, O, K, Brand, Brand>(alloc, text, options, streams, Books::new())
}

/// Converts the choices of a session over the text of a model where that is asked for, and else plays it.
pub fn session_over<R: Read, O: Write, K: Write>(
    alloc: Global,
    text: &[u8],
    options: &Options,
    converts: bool,
    streams: Streams<R, O, K>,
) -> PlayedSession<R, O, K>
    ensures { let k = known R.remaining O.contents K.contents in EndsOver converts text.now options.now (k streams) (k result.streams) result.end }
{
    if converts {
        convert_over(alloc, text, options, streams)
    } else {
        play_over(alloc, text, options, streams)
    }
}
