//! What a row says: a session, and what stands behind it.
use crate::player::{Device, Failing, NEVER, Session, SessionWay};
use crate::texts::{MOST, filled, kept, number, unescaped};
use row_files::{Pair, RowBlock, RowReport, RowWriter};
use session::Options;
use std::alloc::{AllocError, Global};

/// The words of the parts of a row.
pub const WORDS: [&str; 14] = [
    "flags", "model", "choices", "unread", "output", "status", "line", "steps", "record", "each",
    "failing", "differs", "file", "refused",
];

/// Which calls of the devices fail.
#[derive(Clone, Copy)]
pub enum Fails {
    /// None.
    Nothing,
    /// This call of a device.
    Once(Device, u64),
    /// Once the session is played, each call of a device, in turn.
    InTurn(Device),
}

/// A session, and what stands behind it. Its texts stay as long as the program runs.
#[derive(Clone, Copy)]
pub struct SessionRow {
    pub session: Session,
    pub fails: Fails,
    /// How many bytes of the choices are read.
    pub read: usize,
    pub output: &'static str,
    pub status: usize,
    pub line: usize,
    pub record: &'static [u8],
    /// How many steps are taken, where it says so.
    pub steps: Option<usize>,
}

/// What a row is read from: a block, in which `@this` and `@that` stand for these.
#[derive(Clone, Copy)]
pub struct RowSource {
    pub alloc: Global,
    pub block: RowBlock,
    pub filling: Pair,
}

/// Nothing is shown of a step.
const NONE: Options = Options {
    steps: false,
    globals: false,
    locals: false,
    lossy: false,
    limit: 1_000_000,
};

/// Adds what letters ask for.
fn add_letters(options: &mut Options, letters: &str, told: &mut RowReport) {
    for letter in letters.bytes() {
        match letter {
            b'p' => options.steps = true,
            b'g' => options.globals = true,
            b'l' => options.locals = true,
            b'm' => options.lossy = true,
            b'i' | b'T' => {}
            _ => told.refuse("an unknown flag"),
        }
    }
}

/// Adds a limit, and what the letters before it ask for.
fn add_limit(options: &mut Options, letters: &str, digits: &str, told: &mut RowReport) {
    options.limit = u32::try_from(number(digits, MOST, told)).unwrap_or(0);
    add_letters(options, letters, told);
}

/// Adds what a word asks for, as `-pg` or `-u7`.
fn add_word(options: &mut Options, word: &str, told: &mut RowReport) {
    let Some(letters) = word.strip_prefix('-') else {
        return told.refuse("a flag begins with -");
    };
    match letters.split_once('u') {
        None => add_letters(options, letters, told),
        Some((letters, digits)) => add_limit(options, letters, digits, told),
    }
}

/// The options that flags ask for.
fn options(flags: Option<&str>, told: &mut RowReport) -> Options {
    let mut options = NONE;
    if let Some(flags) = flags {
        for word in flags.split(' ') {
            add_word(&mut options, word, told);
        }
    }
    options
}

/// Which calls fail: words name the device, and perhaps the call of it.
fn failures(words: Option<&str>, told: &mut RowReport) -> Fails {
    let Some(words) = words else {
        return Fails::Nothing;
    };
    match words.split_once(' ') {
        None => Fails::InTurn(Device::named(words, told)),
        Some((device, call)) => Fails::Once(
            Device::named(device, told),
            number(call, usize::MAX, told) as u64,
        ),
    }
}

impl Fails {
    /// Which call fails when the row is played.
    fn failing(self) -> Failing {
        match self {
            Fails::Once(device, call) => device.failing(call),
            _ => NEVER,
        }
    }
}

/// The exit status that is wanted.
fn status(digits: Option<&str>, told: &mut RowReport) -> usize {
    match digits {
        Some(digits) => number(digits, 255, told),
        None => {
            told.refuse("a row has a status");
            0
        }
    }
}

/// How many steps are taken, where that is said.
fn steps(digits: Option<&str>, told: &mut RowReport) -> Option<usize> {
    match digits {
        Some(digits) => Some(number(digits, MOST, told)),
        None => None,
    }
}

impl RowSource {
    /// What a text says that the block shows.
    fn text(self, shown: Result<String, AllocError>, told: &mut RowReport) -> &'static str {
        match shown {
            Ok(text) => filled(self.alloc, &text, self.filling, told),
            Err(AllocError) => {
                told.refuse("out of memory");
                ""
            }
        }
    }

    /// What a part writes, in which nothing stands for `@that`.
    fn written(self, word: &str, told: &mut RowReport) -> &'static str {
        let text = self.block.behind(word).unwrap_or("");
        let filling = Pair {
            that: "",
            ..self.filling
        };
        unescaped(self.alloc, filled(self.alloc, text, filling, told), told)
    }

    /// The choices that are not read.
    fn unread(self, told: &mut RowReport) -> &'static str {
        if self.block.has("choices") || self.block.has("unread") {
            self.written("unread", told)
        } else {
            "7\n"
        }
    }

    /// The choices, and how many bytes of them are read.
    fn choices(self, told: &mut RowReport) -> (&'static [u8], usize) {
        let read = self.written("choices", told);
        let unread = self.unread(told);
        let mut choices = RowWriter::new(self.alloc);
        choices.word(read);
        choices.word(unread);
        (kept(choices, told).as_bytes(), read.len())
    }

    /// The session, and how many bytes of its choices are read.
    fn session(self, failing: Failing, told: &mut RowReport) -> (Session, usize) {
        let options = options(self.block.behind("flags"), told);
        let (choices, read) = self.choices(told);
        let session = Session {
            way: SessionWay::Played,
            options,
            model: self.text(self.block.text(self.alloc, "model"), told),
            choices,
            failing,
        };
        (session, read)
    }

    /// The row. Why it is none is told.
    pub fn row(self, told: &mut RowReport) -> SessionRow {
        let block = self.block;
        if !block.has("model") || !block.has("output") {
            told.refuse("a row has a model and an output");
        }
        let status = status(block.behind("status"), told);
        let line = number(block.behind("line").unwrap_or("0"), MOST, told);
        let steps = steps(block.behind("steps"), told);
        let fails = failures(block.behind("failing"), told);
        let (session, read) = self.session(fails.failing(), told);
        SessionRow {
            session,
            fails,
            read,
            output: self.text(block.lines(self.alloc, "output"), told),
            status,
            line,
            record: self.written("record", told).as_bytes(),
            steps,
        }
    }
}
