//! Devices that are lent.

use crate::{Failed, Next, Sink, Source};

impl<S: Source> Source for &mut S {
    ghost may_give = { λ s. S.may_give s.now };

    ghost some_left = { λ s. S.some_left s.now };

    ghost failures = { λ s. S.failures s.now };

    fn next(&mut self) -> Next {
        Source::next(&mut **self)
    }
}

impl<W: Sink> Sink for &mut W {
    ghost taken = { λ s. W.taken s.now };

    ghost failures = { λ s. W.failures s.now };

    fn put(&mut self, piece: &[u8]) -> Result<usize, Failed> {
        Sink::put(&mut **self, piece)
    }
}
