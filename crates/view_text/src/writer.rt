//! A text that is written piece by piece. Want of memory is told once, at the end.

ghost use Rattle.std.specs.Prelude.{◌≡◌, ◌%◌, ◌++◌, [], true, false, length, IfOk, OnOk, OnErr};
ghost use Rattle.std.specs.Fmt.{decimal, signed_decimal};
ghost use Rattle.view_text.specs.Written.{Adds, Stays, quoted_byte, quoted};
ghost use Rattle.std.specs.Char.{digit_char};

use itoa::Buffer;
use std::alloc::{AllocError, Global};
use std::marker::Model;

/// A text that begins has room for so many bytes.
const FIRST_ROOM: usize = 64;

// Appends bytes, and makes room for some more where there is none at all.
fn append(text: &mut Vec<u8>, bytes: &[u8]) -> Result<(), AllocError>
    ensures { OnOk result (text.new.items ≡ text.old.items ++ bytes.now) }
{
    if text.capacity() == 0 && bytes.len() < FIRST_ROOM {
        text.reserve(FIRST_ROOM)?;
    }
    text.extend_from_slice(bytes)
}

/// A text that grows. Where memory is refused, what is written from there on is left out.
#[derive(Drop)]
pub struct Writer {
    text: Vec<u8>,
    is_refused: bool,
}

impl Model for Writer {
    ghost use Rattle.view_text.specs.Written.{Written};

    ghost Value = { Written };

    ghost view = { λ w. record { text = w.text.items; refused = w.is_refused } };
}

impl Writer {
    /// Nothing is written yet.
    pub fn new(alloc: Global) -> Writer
        ensures { result ≡ record { text = []; refused = false } }
    {
        Writer {
            text: Vec::new(alloc),
            is_refused: false,
        }
    }

    /// Writes bytes.
    pub fn add(&mut self, bytes: &[u8])
        ensures { Adds self.old self.new bytes.now }
    {
        if self.is_refused {
            return;
        }
        self.is_refused = append(&mut self.text, bytes).is_err();
    }

    /// Writes a number.
    pub fn number(&mut self, number: usize)
        ensures { Adds self.old self.new (decimal number) }
    {
        let mut digits = Buffer::new();
        self.add(digits.format(number).as_bytes());
    }

    /// Writes a number that may be less than 0.
    pub fn signed(&mut self, number: i32)
        ensures { Adds self.old self.new (signed_decimal number) }
    {
        let mut digits = Buffer::new();
        self.add(digits.format(number).as_bytes());
    }

    /// Writes so many blanks.
    pub fn blanks(&mut self, count: usize)
        ensures { Stays self.old self.new }
    {
        for _ in 0..count {
            self.add(b" ");
        }
    }

    /// Writes one blank, and as many more as lead to this column of the line that begins at `start`.
    pub fn pad(&mut self, start: usize, column: usize)
        ensures { Stays self.old self.new }
    {
        self.add(b" ");
        let width = self.text.len().saturating_sub(start);
        self.blanks(column.saturating_sub(width));
    }

    // Writes a byte within quotation marks.
    fn quoted_byte(&mut self, byte: u8)
        ensures { Adds self.old self.new (quoted_byte byte) }
    {
        match byte {
            b'\n' => self.add(b"\\n"),
            b'\t' => self.add(b"\\t"),
            b'\\' => self.add(b"\\\\"),
            b'"' => self.add(b"\\\""),
            _ => {
                if byte < 32 || byte == 127 {
                    self.add(b"\\x");
                    self.add(&[hexadecimal(byte / 16), hexadecimal(byte % 16)]);
                } else {
                    self.add(&[byte]);
                }
            }
        }
    }

    /// Writes bytes between quotation marks, on one line: those below 32, 127, quotation marks and backslashes by an escape.
    pub fn quoted(&mut self, bytes: &[u8])
        ensures { Adds self.old self.new (quoted bytes.now) }
    {
        self.add(b"\"");
        for byte in bytes {
            self.quoted_byte(*byte);
        }
        self.add(b"\"");
    }

    /// Writes another text; where memory was refused for it, it is refused here.
    pub fn join(&mut self, text: &Writer)
        ensures added { Adds self.old self.new text.now.text }
        ensures refused { text.now.refused ≡ true → self.new.refused ≡ true }
    {
        self.add(text.bytes());
        self.keep_refusal(text);
    }

    /// Keeps whether memory was refused for another text.
    pub fn keep_refusal(&mut self, text: &Writer)
        ensures text { self.new.text ≡ self.old.text }
        ensures refused { text.now.refused ≡ true → self.new.refused ≡ true }
        ensures stays { text.now.refused ≡ false → self.new ≡ self.old }
        ensures kept { Stays self.old self.new }
    {
        if text.is_refused {
            self.is_refused = true;
        }
    }

    /// How many bytes are written.
    pub fn len(&self) -> usize
        ensures { result ≡ length self.now.text }
    {
        self.text.len()
    }

    /// Begins anew, with nothing.
    pub fn clear(&mut self)
        ensures text { self.new.text ≡ [] }
        ensures refused { self.new.refused ≡ self.old.refused }
    {
        self.text.clear();
    }

    /// Takes what is written, for a call that appends to it; `put` gives it back.
    pub fn take(&mut self) -> Vec<u8>
        ensures text { result.items ≡ self.old.text }
        ensures refused { self.new.refused ≡ self.old.refused }
    {
        let empty = Vec::new(*self.text.allocator());
        std::mem::replace(&mut self.text, empty)
    }

    /// Puts back what was taken, with whether the call was refused memory.
    pub fn put(&mut self, text: Vec<u8>, answer: Result<(), AllocError>)
        ensures text { self.new.text ≡ text.items }
        ensures refused { OnErr answer (self.new.refused ≡ true) }
        ensures stays { OnOk answer (self.new.refused ≡ self.old.refused) }
    {
        self.text = text;
        self.keep(answer);
    }

    /// Keeps whether a call was refused memory.
    pub fn keep(&mut self, answer: Result<(), AllocError>)
        ensures text { self.new.text ≡ self.old.text }
        ensures refused { OnErr answer (self.new.refused ≡ true) }
        ensures stays { OnOk answer (self.new.refused ≡ self.old.refused) }
    {
        if answer.is_err() {
            self.is_refused = true;
        }
    }

    /// Memory was refused for something that was to be written.
    pub fn refuse(&mut self)
        ensures { self.new ≡ record self.old { refused = true } }
    {
        self.is_refused = true;
    }

    /// What is written so far.
    pub fn bytes(&self) -> &[u8]
        ensures { result.now ≡ self.now.text }
    {
        self.text.as_slice()
    }

    /// Whether memory was refused.
    pub fn is_refused(&self) -> bool
        ensures { result ≡ self.now.refused }
    {
        self.is_refused
    }

    /// What takes its memory.
    pub fn allocator(&self) -> Global {
        *self.text.allocator()
    }

    /// The whole text.
    pub fn finish(self) -> Result<Vec<u8>, AllocError>
        ensures value { IfOk result (λ v. v.items ≡ self.text) }
        ensures whole { IfOk result (λ v. self.refused ≡ false) }
    {
        if self.is_refused {
            return Err(AllocError);
        }
        Ok(self.text)
    }
}

// A digit below 16.
fn hexadecimal(digit: u8) -> u8
    ensures { result ≡ digit_char (digit % 16) }
{
    let digit = digit % 16;
    if digit < 10 {
        b'0' + digit
    } else {
        b'a' + (digit - 10)
    }
}
