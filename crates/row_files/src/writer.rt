//! Texts that are written piece by piece. Want of memory is told once, at the end.
use crate::file::lasting;
use crate::refused::{Refused, refuse};
use std::alloc::Global;
use std::fmt::{Debug, Write};

/// The hexadecimal digits.
const DIGITS: [u8; 16] = *b"0123456789abcdef";

/// A text that grows.
#[derive(Drop)]
pub struct RowWriter {
    text: String,
    /// Why it cannot be written, where that is so.
    refused: Option<&'static str>,
}

impl RowWriter {
    /// Nothing is written yet.
    pub fn new(alloc: Global) -> RowWriter {
        RowWriter {
            text: String::new(alloc),
            refused: None,
        }
    }

    /// It cannot be written.
    pub fn refuse(&mut self, why: &'static str) {
        self.refused = Some(why);
    }

    /// It cannot be written, for want of memory.
    pub fn no_memory(&mut self) {
        self.refuse("out of memory");
    }

    /// Why it cannot be written, where that is so.
    pub fn refused(&self) -> Option<&'static str> {
        self.refused
    }

    /// Writes words.
    pub fn word(&mut self, words: &str) {
        if self.text.push_str(words).is_err() {
            self.no_memory();
        }
    }

    /// Writes words so many times.
    pub fn repeated(&mut self, words: &str, count: usize) {
        for _ in 0..count {
            self.word(words);
        }
    }

    /// Writes a number.
    pub fn number(&mut self, number: usize) {
        if write!(self.text, "{number}").is_err() {
            self.no_memory();
        }
    }

    /// Writes a number that may be less than 0.
    pub fn signed(&mut self, number: i32) {
        if number < 0 {
            self.word("-");
        }
        self.count(number.unsigned_abs());
    }

    /// Writes how many there are, or at which line.
    pub fn count(&mut self, count: u32) {
        self.number(count as usize);
    }

    /// Writes a value by the names of its variants.
    pub fn kind<T: Debug>(&mut self, value: &T) {
        if write!(self.text, "{value:?}").is_err() {
            self.no_memory();
        }
    }

    /// Writes a sign.
    pub fn sign(&mut self, sign: char) {
        if self.text.push(sign).is_err() {
            self.no_memory();
        }
    }

    /// Writes a byte as the sign that it stands for.
    pub fn byte(&mut self, byte: u8) {
        self.sign(char::from(byte));
    }

    /// Writes bytes as the signs that they stand for.
    pub fn bytes(&mut self, bytes: &[u8]) {
        for byte in bytes {
            self.byte(*byte);
        }
    }

    /// Writes a byte by a grave accent and its two hexadecimal digits.
    pub fn digits(&mut self, byte: u8) {
        self.byte(b'`');
        self.byte(DIGITS[usize::from(byte / 16)]);
        self.byte(DIGITS[usize::from(byte % 16)]);
    }

    /// Writes the blank between two words. There is none before the first, behind a stroke, and behind an opening parenthesis.
    pub fn space(&mut self) {
        let is_first = self.text.is_empty() || self.text.ends_with(" / ");
        if !is_first && !self.text.ends_with("(") {
            self.word(" ");
        }
    }

    /// What is written; why not, where it cannot be written.
    pub fn text(&self) -> &str {
        match self.refused {
            Some(why) => why,
            None => self.text.as_str(),
        }
    }

    /// Whether this is written, and no other words.
    pub fn is(&self, words: &str) -> bool {
        self.refused.is_none() && self.text.as_str() == words
    }

    /// What is written, which stays as long as the program runs; why not, where it cannot be written.
    pub fn finish(self) -> Result<&'static str, Refused> {
        let RowWriter { text, refused } = self;
        match refused {
            Some(why) => refuse(0, why),
            None => lasting(text.into_bytes()),
        }
    }
}
