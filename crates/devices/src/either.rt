//! One of two devices, and a sink that keeps nothing.
ghost use Rattle.std.specs.Prelude.{None};

use crate::{Failed, Next, Sink, Source};

/// One of two devices.
#[derive(Drop)]
pub enum Either<A, B> {
    /// The first one is used.
    First(A),
    /// The second one is used.
    Second(B),
}

impl<A: Source, B: Source> Source for Either<A, B> {
    ghost use Rattle.devices.specs.Choice.{may_give_either, some_left_either, count_either};

    ghost may_give = { may_give_either A.may_give B.may_give };

    ghost some_left = { some_left_either A.some_left B.some_left };

    ghost failures = { count_either A.failures B.failures };

    fn next(&mut self) -> Next {
        match self {
            Either::First(source) => source.next(),
            Either::Second(source) => source.next(),
        }
    }
}

impl<A: Sink, B: Sink> Sink for Either<A, B> {
    ghost use Rattle.devices.specs.Choice.{taken_by_either, count_either};

    ghost taken = { taken_by_either A.taken B.taken };

    ghost failures = { count_either A.failures B.failures };

    fn put(&mut self, piece: &[u8]) -> Result<usize, Failed> {
        match self {
            Either::First(sink) => sink.put(piece),
            Either::Second(sink) => sink.put(piece),
        }
    }
}

/// Takes all bytes, and keeps none.
#[derive(Drop)]
pub struct Nowhere;

impl Sink for Nowhere {
    ghost taken = { λ _. None };

    ghost failures = { λ _. 0 };

    fn put(&mut self, piece: &[u8]) -> Result<usize, Failed> {
        Ok(piece.len())
    }
}
