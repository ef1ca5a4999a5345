//! Statements that are taken by their flat code.

ghost use Rattle.std.specs.Prelude.{◌≡◌, ◌<◌, None, IfSome, length};
ghost use Rattle.flat_code.specs.Flat.{base_of, index, worth, AreIn};
ghost use Rattle.pml_store.specs.Writing.{joined, HasIndex};
ghost use Rattle.run_state.specs.Coded.{IsCodeIn, IsWideIn};
ghost use Rattle.run_state.specs.Flatly.{stored_by, taken_by, AnswersCan, FitsIn, HasWide, PutsAt, PutsIf, PutsNumber, StoresBy};
ghost use Rattle.run_state.specs.Live.{Keeps};

use crate::live::Live;
use crate::seat::seat_at;
use diagnostics::{Fault, Stop};
use flat_code::code::{FlatCell, FlatCode, FlatWorth};
use flat_code::run::{index, worth};
use flat_code::wide::{FlatStore, WideCode};
use flat_code::wide_run::{wide_can, wide_store};
use pml_eval::clip::clip;
use pml_program::form::Form;
use pml_tree::tree::Scalar;

impl Live<'_, '_> {
    /// The flat code of a statement of a process, by their numbers.
    #[inline(always)]
    fn code(&self, process: usize, statement: usize) -> Option<&FlatCode>
        ensures { IfSome result (λ code. IsCodeIn self.now.state process statement code.now) }
    {
        match seat_at(self.seats.as_slice(), process) {
            Some(seat) => self.played.code(seat.sort, statement),
            None => None,
        }
    }

    /// The wide code of a statement of a process, by their numbers, if it has one.
    #[inline(always)]
    fn wide(&self, process: usize, statement: usize) -> Option<&WideCode>
        ensures { IfSome result (λ code. IsWideIn self.now.state process statement code.now) }
    {
        match seat_at(self.seats.as_slice(), process) {
            Some(seat) => self.played.wide(seat.sort, statement),
            None => None,
        }
    }

    /// The frames of the globals and of a process are as they are declared.
    #[inline(always)]
    fn fits(&self, process: usize)
        requires { process < length self.now.state.stands }
        ensures { FitsIn self.now.state process }
    {
        let _count = self.seats.len();
    }

    /// What flat code is worth to a process.
    #[inline(always)]
    fn flat_worth(&self, process: usize, value: &FlatWorth) -> Result<i32, Fault>
        requires process { process < length self.now.state.stands }
        requires there { AreIn (joined self.now.state.frames) (base_of self.now.state.frames process) value.now }
        ensures { result ≡ worth (joined self.now.state.frames) (base_of self.now.state.frames process) value.now }
    {
        let store = &self.started.store;
        worth(store, store.base(process + 1), value)
    }

    /// What a wide code of a process stores, if anything.
    #[inline(never)]
    fn wide_stored(&self, process: usize, code: &WideCode) -> Result<Option<FlatStore>, Fault>
        requires process { process < length self.now.state.stands }
        requires there { HasWide self.now.state process code.now }
        ensures { result ≡ stored_by self.now.state process code.now }
    {
        let _count = self.seats.len();
        let store = &self.started.store;
        wide_store(store, store.base(process + 1), process as u8, code)
    }

    /// Whether a wide code of a process can be taken.
    #[inline(never)]
    fn wide_taken(&self, process: usize, code: &WideCode) -> bool
        requires process { process < length self.now.state.stands }
        requires there { HasWide self.now.state process code.now }
        ensures { result ≡ taken_by self.now.state process code.now }
    {
        let _count = self.seats.len();
        let store = &self.started.store;
        wide_can(store, store.base(process + 1), process as u8, code)
    }

    /// Stores a number in a cell, by its index among all.
    #[inline(always)]
    fn put_cell(&mut self, at: usize, number: i32) -> Result<(), Stop>
        requires { HasIndex self.old.state.frames at }
        ensures value { PutsNumber self.old.state at number result self.new.state }
        ensures keeps { Keeps self.old self.new }
    {
        match self.started.store.set_cell(at, number) {
            Ok(()) => Ok(()),
            Err(_) => Err(Stop::Memory),
        }
    }

    /// Stores what a word keeps of a number in a cell.
    #[inline(always)]
    fn put_flat(
        &mut self,
        process: usize,
        word: Scalar,
        cell: FlatCell,
        number: i32,
    ) -> Result<(), Stop>
        requires process { process < length self.old.state.stands }
        requires there { HasIndex self.old.state.frames (index (base_of self.old.state.frames process) cell) }
        ensures value { PutsAt self.old.state (index (base_of self.old.state.frames process) cell) word number result self.new.state }
        ensures keeps { Keeps self.old self.new }
    {
        let store = &self.started.store;
        let at = index(store, store.base(process + 1), cell);
        self.put_cell(at, clip(Form::Plain(word), number))
    }

    /// Stores a number in its cell, if there is one.
    #[inline(always)]
    fn put_wide(&mut self, goes: Option<FlatStore>) -> Result<(), Stop>
        requires { IfSome goes (λ x. HasIndex self.old.state.frames x.at) }
        ensures value { PutsIf self.old.state goes result self.new.state }
        ensures keeps { Keeps self.old self.new }
    {
        match goes {
            None => Ok(()),
            Some(goes) => self.put_cell(goes.at, goes.number),
        }
    }

    /// Whether the statement with this number can be taken by itself by a process, if it has a wide code.
    #[inline(always)]
    fn can_wide(&self, process: usize, statement: usize) -> Option<bool>
        requires { process < length self.now.state.stands }
        ensures { IfSome result (AnswersCan self.now.state process statement) }
    {
        self.fits(process);
        match self.wide(process, statement) {
            Some(code) => Some(self.wide_taken(process, code)),
            None => None,
        }
    }

    /// Takes the statement with this number as `store` does, if it has a wide code.
    #[inline(always)]
    fn store_wide(&mut self, process: usize, statement: usize) -> Option<Result<(), Stop>>
        requires { process < length self.old.state.stands }
        ensures value { IfSome result (StoresBy self.old.state process statement self.new.state) }
        ensures nothing { result ≡ None → self.new ≡ self.old }
        ensures keeps { Keeps self.old self.new }
    {
        self.fits(process);
        match self.wide(process, statement) {
            Some(code) => match self.wide_stored(process, code) {
                Err(fault) => Some(Err(Stop::Fault(fault))),
                Ok(goes) => Some(self.put_wide(goes)),
            },
            None => None,
        }
    }

    /// Whether the statement with this number can be taken by itself by a process, if it has a flat code.
    #[inline(always)]
    pub fn can_flat(&self, process: usize, statement: usize) -> Option<bool>
        requires { process < length self.now.state.stands }
        ensures { IfSome result (AnswersCan self.now.state process statement) }
    {
        self.fits(process);
        match self.code(process, statement) {
            Some(FlatCode::Set(_, _, _)) => Some(true),
            Some(FlatCode::Ask(value)) => match self.flat_worth(process, value) {
                Err(_) => Some(true),
                Ok(number) => Some(number != 0),
            },
            Some(FlatCode::Wide(_)) => self.can_wide(process, statement),
            _ => None,
        }
    }

    /// Takes the statement with this number as `store` does, if it has a flat code.
    #[inline(always)]
    pub fn store_flat(&mut self, process: usize, statement: usize) -> Option<Result<(), Stop>>
        requires { process < length self.old.state.stands }
        ensures value { IfSome result (StoresBy self.old.state process statement self.new.state) }
        ensures nothing { result ≡ None → self.new ≡ self.old }
        ensures keeps { Keeps self.old self.new }
    {
        self.fits(process);
        match self.code(process, statement) {
            Some(FlatCode::Set(word, cell, value)) => match self.flat_worth(process, value) {
                Err(fault) => Some(Err(Stop::Fault(fault))),
                Ok(number) => {
                    let (word, cell) = (*word, *cell);
                    Some(self.put_flat(process, word, cell, number))
                }
            },
            Some(FlatCode::Ask(value)) => match self.flat_worth(process, value) {
                Err(fault) => Some(Err(Stop::Fault(fault))),
                Ok(_) => Some(Ok(())),
            },
            Some(FlatCode::Wide(_)) => self.store_wide(process, statement),
            _ => None,
        }
    }
}
