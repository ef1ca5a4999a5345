//! Readers and writers that keep why they failed.

ghost use Rattle.std.specs.Prelude.{◌≡◌};

use std::io;
use std::io::{Read, Write};
use std::marker::Model;

/// A reader or a writer, and its last error. Contracts see the reader or the writer.
#[derive(Drop)]
pub struct Heard<D> {
    device: D,
    error: Option<io::Error>,
}

impl<D> Model for Heard<D> {
    ghost Value = { D };

    ghost view = { λ h. h.device };
}

impl<D> Heard<D> {
    /// A device that has not failed yet.
    pub fn new(device: D) -> Heard<D>
        ensures { result ≡ device }
    {
        Heard {
            device,
            error: None,
        }
    }

    /// The device itself.
    pub fn device(&self) -> &D
        ensures { result.now ≡ self.now }
    {
        &self.device
    }

    /// Why it last failed, where an error said so.
    pub fn error(&self) -> Option<&io::Error> {
        self.error.as_ref()
    }

    // Keeps an error, and answers one of the same kind.
    #[inline(never)]
    fn keep(&mut self, error: io::Error) -> io::Error
        ensures { self.new ≡ self.old }
    {
        let same = io::Error::from(error.kind());
        self.error = Some(error);
        same
    }
}

impl<R: Read> Read for Heard<R> {
    ghost remaining = { λ h. R.remaining h };

    #[inline(always)]
    fn read(&mut self, buf: &mut [u8]) -> io::Result<usize> {
        match self.device.read(buf) {
            Ok(count) => Ok(count),
            Err(error) => Err(self.keep(error)),
        }
    }
}

impl<W: Write> Write for Heard<W> {
    ghost contents = { λ h. W.contents h };

    fn write(&mut self, buf: &[u8]) -> io::Result<usize> {
        match self.device.write(buf) {
            Ok(taken) => Ok(taken),
            Err(error) => Err(self.keep(error)),
        }
    }

    fn flush(&mut self) -> io::Result<()> {
        self.device.flush()
    }
}
