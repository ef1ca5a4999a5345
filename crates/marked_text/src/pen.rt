//! Where a text is that is being written: on which line of which file.

ghost use Rattle.std.specs.Prelude.{◌≡◌, ◌++◌, ◌∷◌, [], true, List, ℕ, max, OnOk, codes, string_bytes};
ghost use Rattle.std.specs.Fmt.{decimal};
ghost use Rattle.marked_text.specs.Writes.{spot, start, stale, at, names, name_in, mark_of, Goes, Went, Ends};

use itoa::Buffer;
use std::alloc::AllocError;

/// The number of the model's own file.
pub const OWN: u32 = 0;

/// Where the next byte stands: in this file, on this line of it, and in the model's own file on this line. Nothing stands on the line yet where
/// it is fresh.
#[derive(Clone, Copy, Debug)]
pub struct Pen {
    pub file: u32,
    pub line: u32,
    pub own: u32,
    pub is_fresh: bool,
}

/// What a file is called in a mark: the model's own, which is the first, by nothing.
fn name_of(called: &[Vec<u8>], file: u32) -> &[u8]
    ensures { result.now ≡ name_in (names called.now) file }
{
    let number = file as usize;
    if file == OWN {
        b""
    } else if number < called.len() {
        called[number].as_slice()
    } else {
        b""
    }
}

/// Adds a number.
fn add_number(out: &mut Vec<u8>, number: u32) -> Result<(), AllocError>
    ensures { OnOk result (out.new.items ≡ out.old.items ++ decimal number) }
{
    let mut buffer = Buffer::new();
    out.extend_from_slice(buffer.format(number).as_bytes())
}

/// Adds the mark of a line of a file.
pub fn add_mark(out: &mut Vec<u8>, line: u32, name: &[u8]) -> Result<(), AllocError>
    ensures { OnOk result (out.new.items ≡ out.old.items ++ mark_of line name.now) }
{
    out.extend_from_slice(b"# ")?;
    add_number(out, line)?;
    out.extend_from_slice(b" \"")?;
    out.extend_from_slice(name)?;
    out.extend_from_slice(b"\"")?;
    out.push(b'\n')?;
    Ok(())
}

impl Pen {
    /// The first line of the model's own file.
    pub fn start() -> Pen
        ensures { spot result ≡ start }
    {
        Pen {
            file: OWN,
            line: 1,
            own: 1,
            is_fresh: true,
        }
    }

    /// Goes down to a line of the file.
    pub fn go_down(&mut self, out: &mut Vec<u8>, line: u32) -> Result<(), AllocError>
        ensures goes { OnOk result ((ns : List (List ℕ)) → Goes ns out.old.items out.new.items (spot self.old) (spot self.new)) }
        ensures file { self.new.file ≡ self.old.file }
        ensures line { OnOk result (self.new.line ≡ max self.old.line line) }
    {
        while self.line < line {
            out.push(b'\n')?;
            self.line += 1;
            self.is_fresh = true;
        }
        if self.file == OWN {
            self.own = self.line;
        }
        Ok(())
    }

    /// Ends the line, if something stands on it, and answers the line of the model's own file then.
    fn end_line(&self, out: &mut Vec<u8>) -> Result<u32, AllocError>
        ensures { OnOk result ((ns : List (List ℕ)) → Ends ns out.old.items out.new.items (spot self.now)) }
    {
        if self.is_fresh {
            return Ok(self.own);
        }
        out.push(b'\n')?;
        Ok(if self.file == OWN {
            self.own.saturating_add(1)
        } else {
            self.own
        })
    }

    /// Goes to a line of a file by a mark.
    pub fn mark(
        &mut self,
        out: &mut Vec<u8>,
        called: &[Vec<u8>],
        file: u32,
        line: u32,
    ) -> Result<(), AllocError>
        ensures goes { OnOk result (Went (names called.now) out.old.items self.old out.new.items self.new) }
        ensures there { OnOk result (spot self.new ≡ at file line) }
    {
        let own = self.end_line(out)?;
        add_mark(out, line, name_of(called, file))?;
        *self = Pen {
            file,
            line,
            own: if file == OWN { line } else { own },
            is_fresh: true,
        };
        Ok(())
    }

    /// Leaves so many blanks.
    pub fn leave(&mut self, out: &mut Vec<u8>, blanks: u32) -> Result<(), AllocError>
        ensures goes { OnOk result ((ns : List (List ℕ)) → Goes ns out.old.items out.new.items (spot self.old) (spot self.new)) }
        ensures file { self.new.file ≡ self.old.file }
        ensures line { self.new.line ≡ self.old.line }
    {
        let mut left = blanks;
        while left > 0 {
            out.push(b' ')?;
            self.is_fresh = false;
            left -= 1;
        }
        Ok(())
    }

    /// Writes a token.
    pub fn write(&mut self, out: &mut Vec<u8>, text: &[u8]) -> Result<(), AllocError>
        ensures adds { OnOk result (out.new.items ≡ out.old.items ++ text.now) }
        ensures spot { OnOk result (spot self.new ≡ stale (spot self.old)) }
    {
        out.extend_from_slice(text)?;
        self.is_fresh = false;
        Ok(())
    }
}
