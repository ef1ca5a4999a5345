//! Where choices are read.

ghost use Rattle.std.specs.Prelude.{IfOk};
ghost use Rattle.std.specs.Counts.{IsPrefixLen};

use crate::fault::{NoFile, not_opened};
use crate::identity::{Identity, identity_of};
use std::fs::File;
use std::io::{BufRead, BufReader, Read, Stdin};
use std::{fs, io};

/// Where choices are read. A regular file is read ahead, since nobody else reads on from where this run stops; of a pipe or a terminal no
/// byte is taken that is not asked for.
#[derive(Drop)]
pub enum Input {
    Ahead(BufReader<File>),
    Direct(File),
    Standard(Stdin),
}

impl Input {
    // Reads what is not at hand.
    #[inline(never)]
    fn read_on(&mut self, buf: &mut [u8]) -> io::Result<usize>
        ensures { IfOk result (λ n. IsPrefixLen n buf.new) }
    {
        match self {
            Input::Ahead(reader) => reader.read(buf),
            Input::Direct(file) => file.read(buf),
            Input::Standard(input) => input.read(buf),
        }
    }
}

impl Read for Input {
    // A run asks for one byte at a time: what was read ahead is handed over at once.
    #[inline(always)]
    fn read(&mut self, buf: &mut [u8]) -> io::Result<usize> {
        if let Input::Ahead(reader) = self {
            if buf.len() == 1 {
                if let Some(byte) = reader.buffer().first().copied() {
                    buf[0] = byte;
                    reader.consume(1);
                    return Ok(1);
                }
            }
        }
        self.read_on(buf)
    }
}

/// What is read, and which regular file it is, if it is one.
#[derive(Drop)]
pub struct ChoiceInput {
    pub input: Input,
    pub file: Option<Identity>,
}

/// The choices of a file of this name.
pub fn choices_in(rt: &HostRuntime, name: &str) -> Result<ChoiceInput, NoFile> {
    let opened = match fs::open(rt, name) {
        Ok(file) => file,
        Err(error) => return Err(not_opened(rt.alloc(), name, error)),
    };
    let file = identity_of(&opened);
    if file.is_none() {
        return Ok(ChoiceInput {
            input: Input::Direct(opened),
            file,
        });
    }
    match BufReader::new(rt.alloc(), opened) {
        Ok(reader) => Ok(ChoiceInput {
            input: Input::Ahead(reader),
            file,
        }),
        Err(_) => Err(NoFile::Memory),
    }
}
