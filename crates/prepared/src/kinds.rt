//! What is to be said, by kinds: each with the lines that it has in the text.

ghost use Rattle.std.specs.Prelude.{◌≡◌, true, []};
ghost use Rattle.prepared.specs.Kinds as rules;

use crate::report::Called;
use crate::shown::{shown, shown_name};
use std::alloc::{AllocError, Global};

// At most so many kinds are said, each with so many places, and at the end how many more there are.
const MOST_KINDS: usize = 100;

const MOST_PLACES: usize = 100;

/// What is said of a word.
#[derive(Clone, Copy, PartialEq, Eq)]
pub enum Topic {
    Blanked,
    Unclosed,
    LeftOut,
    Apostrophe,
    Bytes,
    List,
    // A subtype of `mtype` is blanked.
    Subtypes,
    // The colon of one stays.
    Subtype,
    // A `for` over what is no array stays.
    Loop,
    // A declaration that is a step is an assignment.
    Stepped,
    // The first step sets the elements of a list.
    Valued,
    // A name that a body declares several times is divided.
    Divided,
    // A label of several calls is divided.
    Labelled,
}

// The lines from one to another.
#[derive(Clone, Copy)]
struct Span {
    first: u64,
    last: u64,
}

// What is said of a word, with its places and how many more it has.
#[derive(Drop)]
struct Kind<'t> {
    what: Topic,
    word: &'t [u8],
    places: Vec<Span>,
    more: u64,
}

impl<'t> Kind<'t> {
    // One place more: what stands twice on a line is told once.
    fn add(&mut self, place: Span) {
        if let Some(last) = self.places.last() {
            if last.first == place.first && last.last == place.last {
                return;
            }
        }
        if self.places.len() >= MOST_PLACES || self.places.push(place).is_err() {
            self.more = self.more.saturating_add(1);
        }
    }

    // The words behind the places.
    fn words(&self, alloc: Global) -> Result<String, AllocError> {
        let word = shown(alloc, self.word)?;
        match self.what {
            Topic::Blanked => format!(in alloc; "'{word}' is blanked"),
            Topic::Unclosed => format!(in alloc;
                "'{word}' has no block that ends; what is behind it is blanked"
            ),
            Topic::LeftOut => format!(in alloc; "what is left out '{word}' is left as it is"),
            Topic::Apostrophe => format!(in alloc;
                "a ' that stands round no single character is left as it is"
            ),
            Topic::Bytes => format!(in alloc; "bytes that begin no word are left as they are"),
            Topic::List => format!(in alloc; "a list of initialisers '{word}' is left as it is"),
            Topic::Subtypes => format!(in alloc;
                "the subtypes of 'mtype' are blanked: all its names are of one type here"
            ),
            Topic::Subtype => format!(in alloc; "a subtype of mtype '{word}' is left as it is"),
            Topic::Stepped => format!(in alloc;
                "a declaration that is a step in Spin is an assignment here"
            ),
            Topic::Valued => format!(in alloc;
                "the values of a list of initialisers are set by one more step, which is the first"
            ),
            Topic::Divided => format!(in alloc;
                "'{word}' is declared in several blocks or calls: each has a name of its own"
            ),
            Topic::Labelled => format!(in alloc;
                "'{word}' is a label of several calls: each has a name of its own"
            ),
            Topic::Loop => format!(in alloc;
                "a 'for' over '{word}' is left as it is: that is no array with one number for its size"
            ),
        }
    }

    // The places: `line 3`, or `lines 3, 5 to 7`.
    fn lines(&self, alloc: Global) -> Result<String, AllocError> {
        let mut text = String::from_str(
            alloc,
            if self.is_one_line() {
                "line "
            } else {
                "lines "
            },
        )?;
        let mut between = "";
        for place in &self.places {
            let (first, last) = (place.first, place.last);
            text.push_str(between)?;
            let words = if first == last {
                format!(in alloc; "{first}")?
            } else {
                format!(in alloc; "{first} to {last}")?
            };
            text.push_str(words.as_str())?;
            between = ", ";
        }
        if self.more > 0 {
            let more = self.more;
            text.push_str(format!(in alloc; " and {more} more")?.as_str())?;
        }
        Ok(text)
    }

    fn is_one_line(&self) -> bool {
        match self.places.as_slice() {
            [place] => place.first == place.last && self.more == 0,
            _ => false,
        }
    }

    // Adds all of it, under these names.
    fn add_told(&self, out: &mut String, names: &str) -> Result<(), AllocError> {
        let alloc = *out.allocator();
        let lines = self.lines(alloc)?;
        let words = self.words(alloc)?;
        let told = format!(in alloc; "{names}: {lines}: {words}\n")?;
        out.push_str(told.as_str())
    }
}

// The word by which a kind is known: of a line for a preprocessor its first word, and of bytes, characters and blanked subtypes none.
fn key(what: Topic, word: &[u8]) -> &[u8]
    ensures { rules.is_wordless what ≡ true → result.now ≡ [] }
{
    match what {
        Topic::Apostrophe | Topic::Bytes | Topic::Subtypes | Topic::Stepped | Topic::Valued => b"",
        _ => match word {
            [b'#', ..] => directive(word),
            _ => word,
        },
    }
}

// Whether a byte is of `#` and the word behind it.
fn is_of_directive(byte: u8) -> bool
    ensures { result ≡ rules.is_of_directive byte }
{
    byte == b'#' || byte.is_ascii_alphabetic()
}

// `#` and the word behind it.
fn directive(line: &[u8]) -> &[u8] {
    match line.iter().position(|byte| !is_of_directive(*byte)) {
        Some(end) => &line[..end],
        None => line,
    }
}

/// All kinds, in the order in which they came, and how many places have none.
#[derive(Drop)]
pub struct Kinds<'t> {
    alloc: Global,
    kinds: Vec<Kind<'t>>,
    more: u64,
}

impl<'t> Kinds<'t> {
    /// No kind.
    pub fn new(alloc: Global) -> Kinds<'t> {
        Kinds {
            alloc,
            kinds: Vec::new(alloc),
            more: 0,
        }
    }

    // A kind that was not there.
    fn add_kind(&mut self, what: Topic, word: &'t [u8], place: Span) {
        let mut kind = Kind {
            what,
            word,
            places: Vec::new(self.alloc),
            more: 0,
        };
        kind.add(place);
        if self.kinds.len() >= MOST_KINDS || self.kinds.push(kind).is_err() {
            self.more = self.more.saturating_add(1);
        }
    }

    /// One place more of what is said of a word.
    pub fn add(&mut self, what: Topic, word: &'t [u8], first: u64, last: u64) {
        let word = key(what, word);
        let place = Span { first, last };
        for kind in self.kinds.iter_mut() {
            if kind.what == what && kind.word == word {
                kind.add(place);
                return;
            }
        }
        self.add_kind(what, word, place);
    }

    // Adds all kinds, under the names of the program and of the text.
    fn add_told(&self, out: &mut String, called: Called<'_>) -> Result<(), AllocError> {
        let name = shown_name(self.alloc, called.name)?;
        let names = format!(in self.alloc; "{}: {}", called.program, name.as_str())?;
        for kind in &self.kinds {
            let _ = kind.add_told(out, names.as_str());
        }
        if self.more > 0 {
            let more = format!(in self.alloc; "{}: and {} more\n", names.as_str(), self.more)?;
            out.push_str(more.as_str())?;
        }
        Ok(())
    }

    /// What is said of all kinds. What memory is refused for is left out.
    pub fn told(&self, called: Called<'_>) -> String {
        let mut out = String::new(self.alloc);
        let _ = self.add_told(&mut out, called);
        out
    }
}
