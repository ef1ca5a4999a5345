//! What an expression reads of a state.

use pml_eval::eval::place;
use pml_eval::ground::Ground;
use pml_program::expr::{Expr, Target, Turn, Want};
use pml_value::view::{View, named};
use promela_process::place::Place;
use std::alloc::{AllocError, Global};

/// One thing that is read.
#[derive(Clone, Copy, Debug, PartialEq, Eq)]
pub enum ReadValue {
    Cell(Place),
    Pid,
    ProcessCount,
    Timeout,
    /// How many messages the channel with this number holds.
    Length(i32),
}

/// What is read, each once, in the order of the text.
#[derive(Drop)]
pub struct Reads {
    items: Vec<ReadValue>,
    is_refused: bool,
}

impl Reads {
    /// Nothing yet.
    pub fn new(alloc: Global) -> Reads {
        Reads {
            items: Vec::new(alloc),
            is_refused: false,
        }
    }

    fn has(&self, read: ReadValue) -> bool {
        for known in self.items.as_slice() {
            if *known == read {
                return true;
            }
        }
        false
    }

    fn keep(&mut self, read: ReadValue) {
        if !self.has(read) && self.items.push(read).is_err() {
            self.is_refused = true;
        }
    }

    /// What is read.
    pub fn items(&self) -> &[ReadValue] {
        self.items.as_slice()
    }

    /// Whether memory was refused for some of it.
    pub fn answer(&self) -> Result<(), AllocError> {
        if self.is_refused {
            return Err(AllocError);
        }
        Ok(())
    }
}

fn add_cell(target: &Target, view: &View<'_>, reads: &mut Reads) {
    if let Ok(at) = place(target, view) {
        reads.keep(ReadValue::Cell(at));
    }
}

// Adds how many messages a channel holds, or the number that is there where no channel has it.
fn add_length(target: &Target, view: &View<'_>, reads: &mut Reads) {
    if let Ok(at) = place(target, view) {
        let number = view.number(at);
        reads.keep(match named(view.channels, number) {
            Some(_) => ReadValue::Length(number),
            None => ReadValue::Cell(at),
        });
    }
}

/// Adds what a reference reads on its way, and the cell that it leads to.
#[cycle(reads)]
pub fn add_target(target: &Target, view: &View<'_>, reads: &mut Reads) {
    add_turns(target.turns.as_slice(), view, reads);
    add_cell(target, view, reads);
}

/// Adds what the indices of a reference read.
pub fn add_indices(target: &Target, view: &View<'_>, reads: &mut Reads) {
    add_turns(target.turns.as_slice(), view, reads);
}

#[cycle(reads)]
fn add_turns(turns: &[Turn], view: &View<'_>, reads: &mut Reads) {
    for turn in turns {
        if let Some(index) = &turn.index {
            add_reads(index.get(), view, reads);
        }
    }
}

#[cycle(reads)]
fn add_wants(wants: &[Want], view: &View<'_>, reads: &mut Reads) {
    for want in wants {
        if let Want::Equal(e) = want {
            add_reads(e.get(), view, reads);
        }
    }
}

/// Adds what an expression reads, in the order of its text, each once.
#[cycle(reads)]
pub fn add_reads(e: &Expr, view: &View<'_>, reads: &mut Reads) {
    match e {
        Expr::Number(_) => {}
        Expr::Pid => reads.keep(ReadValue::Pid),
        Expr::ProcessCount => reads.keep(ReadValue::ProcessCount),
        Expr::Timeout => reads.keep(ReadValue::Timeout),
        Expr::Read(target) => add_target(target, view, reads),
        Expr::Ask(_, target) => add_length(target.get(), view, reads),
        Expr::Poll(target, _, wants) => {
            add_length(target.get(), view, reads);
            add_wants(wants.as_slice(), view, reads);
        }
        Expr::Unary(_, a) => add_reads(a.get(), view, reads),
        Expr::Binary(_, a, b) => {
            add_reads(a.get(), view, reads);
            add_reads(b.get(), view, reads);
        }
        Expr::Choice(a, b, c) => {
            add_reads(a.get(), view, reads);
            add_reads(b.get(), view, reads);
            add_reads(c.get(), view, reads);
        }
    }
}
