//! What is said on standard error: which blocks are blanked, and what is left as it is, a line for each kind with all its places.

ghost use Rattle.std.specs.Prelude.{◌≡◌, ◌≤◌, length};
ghost use Rattle.prepared.specs.Kinds as rules;

use crate::kinds::{Kinds, Topic};
use prepare::changed::Changed;
use prepare::changes::Respelling;
use prepare::stretch::{Stretch, StretchForm, StretchRemark};
use std::alloc::Global;

// A block that is blanked: its word, its first line, and the line of the last token of it so far.
#[derive(Drop)]
struct Block<'t> {
    word: &'t [u8],
    first: u64,
    last: u64,
    is_closed: bool,
}

/// The names of a program that prepares a text and of the text's file, and what the text is called.
#[derive(Clone, Copy)]
pub struct Called<'c> {
    pub program: &'c str,
    pub file: &'c str,
    pub name: &'c str,
}

/// What is said of a text that is prepared, as it is read.
#[derive(Drop)]
pub struct PreparingReport<'t> {
    // the line of the next byte
    line: u64,
    block: Option<Block<'t>>,
    kinds: Kinds<'t>,
    is_left: bool,
    // whether loops are left that may be over messages
    has_loops: bool,
}

fn feeds(text: &[u8]) -> u64
    ensures { result ≤ length text.now }
{
    let mut count: u64 = 0;
    for b in text {
        if *b == b'\n' {
            count = count.saturating_add(1);
        }
    }
    count
}

// What kind of thing a token is that is left out.
fn left_out(token: &[u8]) -> Topic
    ensures { result ≡ rules.left_out token.now }
{
    match token {
        [b'\'', ..] => Topic::Apostrophe,
        [b, ..] if *b < b' ' || *b > b'~' => Topic::Bytes,
        _ => Topic::LeftOut,
    }
}

impl<'t> PreparingReport<'t> {
    /// Nothing is said before the first line.
    pub fn new(alloc: Global) -> PreparingReport<'t> {
        PreparingReport {
            line: 1,
            block: None,
            kinds: Kinds::new(alloc),
            is_left: false,
            has_loops: false,
        }
    }

    // Keeps the block that is at its end.
    fn end_block(&mut self) {
        if let Some(block) = self.block.take() {
            let what = if block.is_closed {
                Topic::Blanked
            } else {
                self.is_left = true;
                Topic::Unclosed
            };
            self.kinds.add(what, block.word, block.first, block.last);
        }
    }

    fn left(&mut self, what: Topic, token: &'t [u8]) {
        self.is_left = true;
        self.kinds.add(what, token, self.line, self.line);
    }

    fn remark(&mut self, stretch: &Stretch<'t>) {
        match stretch.remark() {
            StretchRemark::Nothing => {}
            StretchRemark::BlockEnds => {
                if let Some(block) = &mut self.block {
                    block.is_closed = true;
                }
            }
            StretchRemark::BlockBegins => {
                self.block = Some(Block {
                    word: stretch.token(),
                    first: self.line,
                    last: self.line,
                    is_closed: false,
                });
            }
            StretchRemark::LeftOut => self.left(left_out(stretch.token()), stretch.token()),
            // it may become a value, or be set by a step
            StretchRemark::List => {}
        }
    }

    /// Reads one stretch more.
    pub fn stretch(&mut self, stretch: &Stretch<'t>) {
        self.line = self.line.saturating_add(feeds(stretch.gap()));
        let is_blanked = matches!(stretch.form(), StretchForm::Blanked);
        if !is_blanked || matches!(stretch.remark(), StretchRemark::BlockBegins) {
            self.end_block();
        }
        self.remark(stretch);
        if let Some(block) = &mut self.block {
            block.last = self.line;
        }
        self.line = self.line.saturating_add(feeds(stretch.token()));
    }

    /// Goes back to the first line, to read what becomes of the tokens.
    pub fn again(&mut self) {
        self.end_block();
        self.line = 1;
    }

    /// Reads one token more, with what becomes of it.
    pub fn exchange(&mut self, exchange: &Changed<'t, Respelling>) {
        self.line = self.line.saturating_add(feeds(exchange.gap()));
        let token = exchange.token();
        match exchange.change() {
            Respelling::Blanked => self.kinds.add(Topic::Subtypes, token, self.line, self.line),
            Respelling::Left => {
                if token == b":".as_slice() {
                    self.left(Topic::Subtype, token);
                } else {
                    self.has_loops = true;
                }
            }
            Respelling::Kept | Respelling::Colon | Respelling::Range(_) => {}
        }
        self.line = self.line.saturating_add(feeds(token));
    }

    /// Whether loops are left by what was read.
    pub fn has_loops(&self) -> bool
        ensures { result ≡ rules.has_loops self.now }
    {
        self.has_loops
    }

    /// Reads one token more, of a text in which the loops over messages are made: the other ones are left.
    pub fn left_loop(&mut self, exchange: &Changed<'t, Respelling>) {
        self.line = self.line.saturating_add(feeds(exchange.gap()));
        let token = exchange.token();
        if matches!(exchange.change(), Respelling::Left) && token != b":".as_slice() {
            self.left(Topic::Loop, token);
        }
        self.line = self.line.saturating_add(feeds(token));
    }

    /// Reads one token more, of a text in which lists of initialisers are values where they may: the other ones are left.
    pub fn left_list(&mut self, stretch: &Stretch<'t>) {
        self.line = self.line.saturating_add(feeds(stretch.gap()));
        if matches!(stretch.remark(), StretchRemark::List) {
            self.left(Topic::List, stretch.token());
        }
        self.line = self.line.saturating_add(feeds(stretch.token()));
    }

    /// Something is made otherwise on a line.
    pub fn add(&mut self, what: Topic, word: &'t [u8], line: u64) {
        self.kinds.add(what, word, line, line);
    }

    /// All that is to be said, and whether something is left.
    pub fn end(mut self, called: Called<'_>) -> (String, bool) {
        self.end_block();
        (self.kinds.told(called), self.is_left)
    }
}
