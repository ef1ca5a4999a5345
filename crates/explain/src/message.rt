//! Texts that are put together of words, names and numbers.

ghost use Rattle.std.specs.Prelude.{◌≡◌, [], OnOk};
ghost use Rattle.explain.specs.Said.{Keeps};

use crate::included::{Included, included_at};
use explain_cause::cause::Named;
use itoa::Buffer;
use source_lines::position::{between, line_number};
use source_lines::shown::{printable, show_chars};
use source_lines::signs::{is_unseen, push_number};
use std::alloc::{AllocError, Global};
use std::marker::Model;
use std::str;

/// So many bytes of a name are shown at most.
const MOST_SHOWN: usize = 60;

/// A message about a text.
#[derive(Drop)]
pub struct Notice<'t> {
    text: &'t [u8],
    // which of its lines are of included files
    lines: &'t [u8],
    out: String,
}

impl<'t> Model for Notice<'t> {
    ghost use Rattle.std.specs.Prelude.{ℕ, List, string_bytes};

    ghost Value = { List ℕ };

    ghost view = { λ m. string_bytes m.out };
}

impl<'t> Notice<'t> {
    /// An empty one.
    pub fn new(alloc: Global, text: &'t [u8], lines: &'t [u8]) -> Notice<'t>
        ensures { result ≡ [] }
    {
        Notice {
            text,
            lines,
            out: String::new(alloc),
        }
    }

    /// What it says.
    pub fn into_text(self) -> String {
        let Notice {
            text: _,
            lines: _,
            out,
        } = self;
        out
    }

    /// The text that it is about.
    pub fn text(&self) -> &'t [u8] {
        self.text
    }

    /// The line of an included file on which a place of the text lies, if it does.
    pub fn included(&self, offset: usize) -> Option<Included<'t>> {
        included_at(self.text, self.lines, offset)
    }

    /// Adds words that are not fixed.
    pub fn push(&mut self, words: &str) -> Result<(), AllocError>
        ensures { OnOk result (Keeps self.old self.new) }
    {
        self.out.push_str(words)
    }

    /// Adds the name of a file as it is shown.
    pub fn file(&mut self, name: &str) -> Result<(), AllocError>
        ensures { OnOk result (Keeps self.old self.new) }
    {
        show_chars(&mut self.out, name)
    }

    /// Adds a number.
    pub fn number(&mut self, number: usize) -> Result<(), AllocError>
        ensures { OnOk result (Keeps self.old self.new) }
    {
        let mut buffer = Buffer::new();
        self.out.push_str(buffer.format(number))
    }

    /// Adds a number that may be less than 0.
    pub fn signed(&mut self, number: i32) -> Result<(), AllocError>
        ensures { OnOk result (Keeps self.old self.new) }
    {
        let mut buffer = Buffer::new();
        self.out.push_str(buffer.format(number))
    }

    /// Adds a character as it is.
    fn letter(&mut self, c: char) -> Result<(), AllocError>
        ensures { OnOk result (Keeps self.old self.new) }
    {
        self.out.push(c)
    }

    fn bytes(&mut self, name: &[u8]) -> Result<(), AllocError>
        ensures { OnOk result (Keeps self.old self.new) }
    {
        for byte in name {
            self.letter(printable(*byte))?;
        }
        Ok(())
    }

    fn character(&mut self, c: char) -> Result<(), AllocError>
        ensures { OnOk result (Keeps self.old self.new) }
    {
        if is_unseen(c) {
            return push_number(&mut self.out, c);
        }
        if c.is_ascii() {
            return self.letter(if c.is_control() { '?' } else { c });
        }
        for _turn in 0..c.len_utf8() {
            self.letter('?')?;
        }
        Ok(())
    }

    fn characters(&mut self, name: &str) -> Result<(), AllocError>
        ensures { OnOk result (Keeps self.old self.new) }
    {
        for c in name.chars() {
            self.character(c)?;
        }
        Ok(())
    }

    fn letters(&mut self, name: &[u8]) -> Result<(), AllocError>
        ensures { OnOk result (Keeps self.old self.new) }
    {
        match str::from_utf8(name) {
            Ok(name) => self.characters(name),
            Err(_) => self.bytes(name),
        }
    }

    /// Adds a name or another piece of the model, in backticks.
    pub fn name(&mut self, name: &[u8]) -> Result<(), AllocError>
        ensures { OnOk result (Keeps self.old self.new) }
    {
        self.push("`")?;
        self.letters(shown_part(name))?;
        self.push(end_of_name(name))
    }

    /// Adds a name between words.
    pub fn around(&mut self, before: &str, name: &[u8], behind: &str) -> Result<(), AllocError>
        ensures { OnOk result (Keeps self.old self.new) }
    {
        self.push(before)?;
        self.name(name)?;
        self.push(behind)
    }

    /// Adds a number between words.
    pub fn figure(&mut self, before: &str, number: usize, behind: &str) -> Result<(), AllocError>
        ensures { OnOk result (Keeps self.old self.new) }
    {
        self.push(before)?;
        self.number(number)?;
        self.push(behind)
    }

    /// Adds a name and a number between words.
    pub fn both(
        &mut self,
        before: &str,
        name: &[u8],
        between: &str,
        number: usize,
        behind: &str,
    ) -> Result<(), AllocError>
        ensures { OnOk result (Keeps self.old self.new) }
    {
        self.around(before, name, "")?;
        self.figure(between, number, behind)
    }

    /// Adds the line of the place behind so many bytes, between words.
    pub fn line(&mut self, before: &str, offset: usize, behind: &str) -> Result<(), AllocError>
        ensures { OnOk result (Keeps self.old self.new) }
    {
        self.push(before)?;
        match self.included(offset) {
            Some(included) => {
                self.figure("line ", included.line.number, " of ")?;
                self.file(included.file)?;
                self.push(behind)
            }
            None => {
                let number = line_number(self.text(), offset);
                self.figure("line ", number, behind)
            }
        }
    }

    /// Adds a name and its line between words.
    pub fn placed(
        &mut self,
        before: &str,
        name: Named<'_>,
        between: &str,
        behind: &str,
    ) -> Result<(), AllocError>
        ensures { OnOk result (Keeps self.old self.new) }
    {
        self.around(before, name.name, "")?;
        self.line(between, name.offset, behind)
    }

    /// Adds so many things that these words name, where there is one, and where there are more.
    pub fn count(&mut self, number: usize, one: &str, more: &str) -> Result<(), AllocError>
        ensures { OnOk result (Keeps self.old self.new) }
    {
        self.number(number)?;
        self.push(if number == 1 { one } else { more })
    }
}

/// What is shown of a name.
fn shown_part(name: &[u8]) -> &[u8] {
    between(name, 0, name.len().min(MOST_SHOWN))
}

/// What stands behind what is shown of a name.
fn end_of_name(name: &[u8]) -> &'static str {
    if name.len() <= MOST_SHOWN { "`" } else { "..`" }
}
