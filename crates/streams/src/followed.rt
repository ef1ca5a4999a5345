//! A reader of lines that is followed: which line was read last, and whether the text ended within one.

ghost use Rattle.std.specs.Prelude.{◌≡◌};

use std::alloc::Global;
use std::io;
use std::io::Read;
use std::marker::Model;

/// Of a line at most so many bytes are kept, which is as many as a line of choices has.
pub const MOST_KEPT: usize = 80;

/// A reader, the number of the last line of which a byte was read, and its bytes without its line feed. Contracts see the reader.
#[derive(Drop)]
pub struct FollowedReader<R> {
    reader: R,
    number: u64,
    text: Vec<u8>,
    is_within: bool,
    has_ended: bool,
}

impl<R> Model for FollowedReader<R> {
    ghost Value = { R };

    ghost view = { λ f. f.reader };
}

impl<R> FollowedReader<R> {
    /// A reader of which nothing was read yet.
    pub fn new(alloc: Global, reader: R) -> FollowedReader<R>
        ensures { result ≡ reader }
    {
        FollowedReader {
            reader,
            number: 0,
            text: Vec::new(alloc),
            is_within: false,
            has_ended: false,
        }
    }

    /// The number of the line that was read last, from 1.
    pub fn number(&self) -> u64 {
        self.number
    }

    /// The beginning of that line.
    pub fn text(&self) -> &[u8] {
        self.text.as_slice()
    }

    /// Whether the end was read within a line, which so has no line feed.
    pub fn ends_within(&self) -> bool {
        self.has_ended && self.is_within
    }

    // Keeps a byte that was read. One that memory is refused for is left out of what is shown.
    #[inline(always)]
    fn keep(&mut self, byte: u8)
        ensures { self.new ≡ self.old }
    {
        if !self.is_within {
            self.number = self.number.saturating_add(1);
            self.text.clear();
        }
        self.is_within = byte != b'\n';
        if self.is_within && self.text.len() < MOST_KEPT {
            let _ = self.text.push(byte);
        }
    }

    // Keeps the bytes that were read.
    #[inline(always)]
    fn follow(&mut self, bytes: &[u8])
        ensures { self.new ≡ self.old }
    {
        for byte in bytes {
            self.keep(*byte);
        }
    }
}

impl<R: Read> Read for FollowedReader<R> {
    ghost remaining = { λ f. R.remaining f };

    #[inline(always)]
    fn read(&mut self, buf: &mut [u8]) -> io::Result<usize> {
        let count = self.reader.read(buf)?;
        self.has_ended = count == 0;
        self.follow(&buf[..count]);
        Ok(count)
    }
}
