//! Messages over a reader.

ghost use Rattle.std.specs.Prelude.{◌≡◌, ◌≢◌, ◌↔◌, ◌≤◌, ◌<◌, ◌+◌, ◌-◌, true, [], take, drop, length, IfOk, IfErr, OnOk, OnErr};
ghost use Rattle.std.specs.Io.KnownBytes.{prepend_known, Keeps, Consumes, IsAtEnd};
ghost use Rattle.message_frames.specs.Front.{front_of};
ghost use Rattle.message_frames.specs.declared.front.Front.TheVariants.{Part};
ghost use Rattle.message_frames.specs.Framed.{framed, IsNoRead, TakesNext, KeepsAll, HasNone};
ghost use Rattle.message_frames.specs.declared.frames.NoMessage.TheVariants.{Device, Memory};

use crate::front::{Front, front_of};
use itoa::Buffer;
use source_lines::position::between;
use std::alloc::{AllocError, Global};
use std::io::Read;
use std::marker::Model;

/// So many bytes are read at once.
const AT_ONCE: usize = 4_096;

/// Why there is no message.
#[derive(Clone, Copy, Debug, PartialEq, Eq)]
pub enum NoMessage {
    /// The input has ended.
    Ended,
    /// The head is not one, has more than 4,096 bytes, or says more bytes than a message may have, 16,777,216.
    Head,
    Device,
    Memory,
}

impl From<AllocError> for NoMessage {
    fn from(_error: AllocError) -> NoMessage {
        NoMessage::Memory
    }
}

/// Reads into the room behind so many bytes.
#[tactic(auto, using(crate::proofs::Fronts::at_end))]
fn read_behind<R: Read>(room: &mut [u8], held: usize, reader: &mut R) -> Result<usize, NoMessage>
    requires { held < length room.now }
    ensures held { take held room.new ≡ take held room.old }
    ensures long { length room.new ≡ length room.old }
    ensures read { IfOk result (λ n. Consumes (R.remaining reader.old) (R.remaining reader.new) (take n (drop held room.new))) }
    ensures room { IfOk result (λ n. held + n ≤ length room.old) }
    ensures ended { IfOk result (λ n. n ≡ 0 → IsAtEnd (R.remaining reader.old)) }
    ensures kept { OnErr result (Keeps (R.remaining reader.old) (R.remaining reader.new)) }
    ensures failed { IfErr result (λ why. why ≡ Device) }
{
    match reader.read(&mut room[held..]) {
        Ok(count) => Ok(count),
        Err(_) => Err(NoMessage::Device),
    }
}

/// What was read of a reader and not yet taken.
#[derive(Drop)]
pub struct Frames {
    held: Vec<u8>,
}

impl Model for Frames {
    ghost use Rattle.std.specs.Prelude.{ℕ, List};

    ghost Value = { List ℕ };

    ghost view = { λ f. f.held.items };
}

impl Frames {
    /// Nothing was read.
    pub fn new(alloc: Global) -> Frames
        ensures { result ≡ [] }
    {
        Frames {
            held: Vec::new(alloc),
        }
    }

    // Reads once. No byte is lost, also where memory is refused or the reader fails.
    fn fill<R: Read>(&mut self, reader: &mut R) -> Result<(), NoMessage>
        ensures kept { KeepsAll self.old (R.remaining reader.old) self.new (R.remaining reader.new) }
        ensures none { IfErr result (IsNoRead (R.remaining reader.old)) }
    {
        let held = self.held.len();
        if self.held.resize(held.saturating_add(AT_ONCE), 0).is_err() {
            return Err(NoMessage::Memory);
        }
        let answer = read_behind(&mut self.held, held, reader);
        let count = answer.unwrap_or(0);
        self.held.truncate(held + count);
        match answer {
            Ok(0) => Err(NoMessage::Ended),
            Ok(_) => Ok(()),
            Err(why) => Err(why),
        }
    }

    fn take(&mut self, from: usize, to: usize) -> Result<Vec<u8>, NoMessage>
        ensures message { IfOk result (λ m. m.items ≡ take (to - from) (drop from self.old)) }
        ensures rest { OnOk result (self.new ≡ take (length self.old - to) (drop to self.old)) }
        ensures kept { OnErr result (self.new ≡ self.old) }
        ensures refused { IfErr result (λ why. why ≡ Memory) }
    {
        let alloc = *self.held.allocator();
        let held = self.held.as_slice();
        let Ok(message) = Vec::from_slice(alloc, between(held, from, to)) else {
            return Err(NoMessage::Memory);
        };
        let Ok(rest) = Vec::from_slice(alloc, between(held, to, held.len())) else {
            return Err(NoMessage::Memory);
        };
        self.held = rest;
        Ok(message)
    }

    /// Whether a whole further message was read, or a head that is none.
    pub fn has_next(&self) -> bool
        ensures { result ≡ true ↔ front_of self.now ≢ Part }
    {
        front_of(self.held.as_slice()) != Front::Part
    }

    /// The body of the next message. What is behind it is kept for the next call, and a reader that waits is asked for no more than the message
    /// wants.
    pub fn next<R: Read>(&mut self, reader: &mut R) -> Result<Vec<u8>, NoMessage>
        ensures message { IfOk result (λ m. TakesNext self.old (R.remaining reader.old) self.new (R.remaining reader.new) m.items) }
        // Nothing is lost, and an input that ends within a message, or with none, is told as such.
        ensures kept { OnErr result (KeepsAll self.old (R.remaining reader.old) self.new (R.remaining reader.new)) }
        ensures none { IfErr result (HasNone (prepend_known self.old (R.remaining reader.old))) }
    {
        for _turn in 0..u64::MAX {
            match front_of(self.held.as_slice()) {
                Front::Message(from, to) => return self.take(from, to),
                Front::Bad => return Err(NoMessage::Head),
                Front::Part => self.fill(reader)?,
            }
        }
        Err(NoMessage::Device)
    }
}

/// A message with its head.
pub fn framed(alloc: Global, body: &[u8]) -> Result<Vec<u8>, AllocError>
    ensures { IfOk result (λ message. message.items ≡ framed body.now) }
{
    let mut digits = Buffer::new();
    let mut message = Vec::new(alloc);
    message.extend_from_slice(b"Content-Length: ")?;
    message.extend_from_slice(digits.format(body.len()).as_bytes())?;
    message.extend_from_slice(b"\r\n\r\n")?;
    message.extend_from_slice(body)?;
    Ok(message)
}
