//! What is known while a text is preprocessed.

ghost use Rattle.std.specs.Prelude.{◌≡◌, IfOk};
ghost use Rattle.pml_macros.specs.Texts.{text_in};
ghost use Rattle.pml_directives.specs.States as states;

use pml_macros::atom::{Atom, FilePlace};
use pml_macros::book::owned;
use pml_macros::table::MacroTable;
use pml_macros::work::Work;
use std::alloc::{AllocError, Global};

/// How many tokens may be put in place of calls.
pub const MOST_TOKENS: usize = 200_000;

/// How many bytes all files together may have.
pub const MOST_BYTES: usize = 8_388_608;

/// A condition that is open.
#[derive(Clone, Copy, Debug)]
pub struct Open {
    /// What stands here is read.
    pub is_live: bool,
    /// A branch of it was read, or none may be.
    pub is_done: bool,
    /// Its `#else` was there.
    pub is_last: bool,
    /// Where its `#if` stands.
    pub place: FilePlace,
}

/// A `#line`: from this line of its file on the lines count from that number.
#[derive(Clone, Copy, Debug)]
pub struct Shift {
    pub from: u32,
    pub to: u32,
}

impl Shift {
    /// The number of a line.
    fn line(self, line: u32) -> u32
        ensures { result ≡ states.line_behind self line }
    {
        self.to.saturating_add(line.saturating_sub(self.from))
    }

    /// A token that stands for itself, with the number of its line.
    pub fn shifted(self, atom: Atom) -> Atom
        ensures { result ≡ states.shifted self atom }
    {
        let place = FilePlace {
            file: atom.place.file,
            offset: atom.place.offset,
            line: self.line(atom.place.line),
            column: atom.place.column,
        };
        Atom {
            sort: atom.sort,
            text: atom.text,
            is_spaced: atom.is_spaced,
            is_painted: atom.is_painted,
            place,
            call: place,
        }
    }
}

/// What is said of a text that is not refused.
#[derive(Clone, Copy, Debug, PartialEq, Eq)]
pub enum Remark {
    /// The text defines this name, for which another macro was given before it.
    Again(usize),
    /// `#warning`.
    Warning,
}

/// A remark, and where it belongs.
#[derive(Clone, Copy, Debug)]
pub struct PlacedRemark {
    pub remark: Remark,
    pub place: FilePlace,
}

/// All that is known on the way.
#[derive(Drop)]
pub struct State {
    pub work: Work,
    pub table: MacroTable,
    /// What has come out.
    pub out: Vec<Atom>,
    /// What the files are called, by their numbers.
    pub names: Vec<Vec<u8>>,
    /// The line of the model's own file on which each is included.
    pub homes: Vec<u32>,
    pub notes: Vec<PlacedRemark>,
    /// The names of macros that were given before the text.
    pub given: Vec<usize>,
    /// What came since the last `#` line.
    pub run: Vec<Atom>,
    pub open: Vec<Open>,
    /// How many conditions were open before the file that is read.
    pub floor: usize,
    /// The files that are read once.
    pub once: Vec<usize>,
    /// How many bytes all files together may still have.
    pub bytes_left: usize,
    /// The last `#line` of the file that is read.
    pub shift: Option<Shift>,
}

impl State {
    /// Nothing is known but what the model's own file is called, and what the macros that are given before it.
    pub fn new(alloc: Global, own: &[u8], given: &[u8]) -> Result<State, AllocError>
        ensures { IfOk result (states.IsNew own.now given.now) }
    {
        let mut names = Vec::new(alloc);
        names.push(owned(alloc, own)?)?;
        names.push(owned(alloc, given)?)?;
        let mut homes = Vec::new(alloc);
        homes.push(1)?;
        homes.push(1)?;
        Ok(State {
            work: Work::new(alloc, MOST_TOKENS),
            table: MacroTable::new(alloc),
            out: Vec::new(alloc),
            names,
            homes,
            notes: Vec::new(alloc),
            given: Vec::new(alloc),
            run: Vec::new(alloc),
            open: Vec::new(alloc),
            floor: 0,
            once: Vec::new(alloc),
            bytes_left: MOST_BYTES,
            shift: None,
        })
    }

    /// Whether what stands here is read.
    pub fn is_live(&self) -> bool
        ensures { result ≡ states.is_live self.now.open.items }
    {
        match self.open.as_slice() {
            [] => true,
            [.., last] => last.is_live,
        }
    }

    /// What the file of this number is called.
    pub fn name(&self, file: u32) -> &[u8]
        ensures { result.now ≡ states.name_of self.now.names.items file }
    {
        let number = file as usize;
        if number < self.names.len() {
            self.names[number].as_slice()
        } else {
            b""
        }
    }

    /// On which line of the model's own file what stands at a place is included, or stands.
    pub fn home(&self, place: FilePlace) -> u32
        ensures { result ≡ states.home_of self.now.homes.items place }
    {
        let number = place.file as usize;
        if number > 0 && number < self.homes.len() {
            self.homes[number]
        } else {
            place.line
        }
    }

    /// The text of a token.
    pub fn text(&self, atom: &Atom) -> &[u8]
        ensures { result.now ≡ text_in self.now.work.book atom.now.text }
    {
        self.work.book.text(atom.text)
    }
}
