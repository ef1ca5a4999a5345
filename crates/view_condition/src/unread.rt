//! Why a condition is refused, and the words of that.

ghost use Rattle.std.specs.Prelude.{◌≡◌};
ghost use Rattle.view_text.specs.Written.{Stays};

use std::alloc::{AllocError, AllocFailed};
use view_text::writer::Writer;

/// What is wrong in a condition.
#[derive(Clone, Copy, Debug, PartialEq, Eq)]
pub enum Flaw {
    /// It has too many bytes.
    Long,
    /// It is nested too deep.
    Deep,
    /// A byte begins no token.
    Lexical,
    /// No rule reads a token.
    Syntax,
    /// It ends too soon.
    Short,
    /// No variable has the name.
    Name,
    /// No field has it.
    Field,
    /// An array stands without an index.
    Array,
    /// An index or a field stands at what has none.
    Index,
    /// A typedef stands without a field.
    Structure,
    /// A proctype stands without the number of a process, or without a variable.
    Process,
    /// What is no channel is asked as one.
    Channel,
    /// A number has more than 32 bits.
    Number,
    /// No process can stand at the line.
    Line,
    /// None of that proctype can.
    OtherLine,
    /// The proctype has no such label.
    Label,
    /// What is no process stands at no line.
    Place,
    /// It is of one process alone.
    Alone,
}

impl Flaw {
    // What stands before the word that it is about, and behind it.
    fn words(self) -> (&'static str, &'static str) {
        match self {
            Flaw::Long => ("a condition has 1,000 bytes at most", ""),
            Flaw::Deep => ("a condition is nested 100 deep at most", ""),
            Flaw::Lexical => ("`", "` begins no word of a condition"),
            Flaw::Syntax => (
                "cannot be read at `",
                "`: a condition is an expression, as x == 2 && len(q) > 1",
            ),
            Flaw::Short => ("the condition ends too soon", ""),
            Flaw::Name => (
                "no variable ",
                " is there: one of process 1, a P, is P[1].x",
            ),
            Flaw::Field => ("no field ", " is there"),
            Flaw::Array => (
                "",
                " is an array: name an element of it, as the first by [0]",
            ),
            Flaw::Index => ("", " has no index and no field"),
            Flaw::Structure => ("", " is of a typedef: name a field of it"),
            Flaw::Process => (
                "",
                " is a proctype: x of process 1, where that is a P, is P[1].x",
            ),
            Flaw::Channel => ("", " is no channel"),
            Flaw::Number => ("", " is no number of 32 bits"),
            Flaw::Line => ("no process can stand at line ", ""),
            Flaw::OtherLine => ("no process of that proctype can stand at line ", ""),
            Flaw::Label => ("that proctype has no label ", ""),
            Flaw::Place => (
                "`",
                "` stands behind a process alone: P[1] at L, or P at L of any P",
            ),
            Flaw::Alone => ("", " is of one process, and a condition is of all"),
        }
    }
}

/// Why a condition is refused, and how many of its bytes stand before what that is about.
#[derive(Clone, Copy, Debug, PartialEq, Eq)]
pub struct PlacedFlaw {
    pub flaw: Flaw,
    pub at: usize,
}

fn is_word_byte(byte: u8) -> bool {
    byte.is_ascii_alphanumeric() || byte == b'_' || byte >= 128
}

// The word or the sign at this place of a text; none at its end.
fn word_at(text: &[u8], at: usize) -> &[u8] {
    let rest = &text[at.min(text.len())..];
    for length in 1..rest.len() {
        if !is_word_byte(rest[0]) || !is_word_byte(rest[length]) {
            return &rest[..length];
        }
    }
    rest
}

impl PlacedFlaw {
    /// Writes why a condition with this text is refused, as a line.
    pub fn add(self, text: &[u8], out: &mut Writer)
        ensures { Stays out.old out.new }
    {
        let (front, back) = self.flaw.words();
        out.add(front.as_bytes());
        out.add(word_at(text, self.at));
        out.add(back.as_bytes());
        out.add(b"\n");
    }
}

/// Why a condition is not read.
#[derive(Clone, Copy, Debug, PartialEq, Eq)]
pub enum Unread {
    /// Memory was refused.
    Memory,
    Refused(PlacedFlaw),
}

/// That a condition is refused, at this place of its text.
pub fn flawed(flaw: Flaw, at: u32) -> Unread
    ensures { result ≡ Unread.Refused (record { flaw = flaw; at = at }) }
{
    Unread::Refused(PlacedFlaw {
        flaw,
        at: at as usize,
    })
}

impl From<AllocError> for Unread {
    ghost use Rattle.std.specs.Prelude.{◌≡◌};
    ghost use Rattle.view_condition.specs.declared.unread.Unread.TheVariants.{Memory};

    ghost from_gives = { λ _ f. f ≡ Memory };

    fn from(_: AllocError) -> Unread {
        Unread::Memory
    }
}

impl<T: Drop> From<AllocFailed<T>> for Unread {
    ghost use Rattle.std.specs.Prelude.{◌≡◌};
    ghost use Rattle.view_condition.specs.declared.unread.Unread.TheVariants.{Memory};

    ghost from_gives = { λ _ f. f ≡ Memory };

    fn from(_: AllocFailed<T>) -> Unread {
        Unread::Memory
    }
}
