//! What a line of a session says.

ghost use Rattle.std.specs.Prelude.{◌≡◌};
ghost use Rattle.std.specs.List.{list_all};
ghost use Rattle.view_commands.specs.Lines.{is_digit, IsUnnamed, IsRead};

use crate::forms::{behind, with_words};
use crate::names::name_of;
use crate::others::told_of;

/// How many steps with one move are taken unasked.
pub const MOST_UNASKED: usize = 100;

/// How many `run` takes, where it is not said.
pub const USUAL_RUN: usize = 1000;

/// How a run goes on.
#[derive(Clone, Copy, Debug, PartialEq, Eq)]
pub enum RunMode {
    /// By steps with one move.
    Forced,
    /// By steps of the process with this number alone.
    Process(usize),
    /// By chance, by the generator with this seed.
    Chance(u64),
}

/// What a line says.
#[derive(Clone, Copy, Debug, PartialEq, Eq)]
pub enum Command<'l> {
    /// The numbers of choices, the first of them, and whether more stand behind it.
    Choose,
    /// The question again, the state, and what the processes wait for: the first of it, or all.
    Moves(bool),
    /// The choices of the process with this number.
    MovesOf(usize),
    State(bool),
    Why(bool),
    Source,
    Back(usize),
    Forward(usize),
    Goto(usize),
    Restart,
    Run(usize),
    /// So many steps, by the generator with this seed.
    Random(usize, u64),
    /// Steps of the process with this number alone.
    Process(usize),
    /// Steps, until one leads where these words say.
    Until(RunMode, &'l str),
    /// Back to the last state where they say.
    BackUntil(&'l str),
    /// Each run stops where these words say; the numbers of these, and without one.
    Break(&'l str),
    Breaks,
    Delete(usize),
    /// What an expression is worth, here or at each question; without the one with this number.
    Print(&'l str),
    Display(&'l str),
    Undisplay(usize),
    /// Whether the line of a step has the values that it changes.
    Show(bool),
    /// The steps so far, from this one on.
    Steps(Option<usize>),
    /// Back to the last step that changed this variable.
    Last(&'l str),
    Branches,
    Branch(usize),
    Chart,
    Record,
    Save(&'l str),
    Help,
    /// The help of the command that this word names.
    HelpOf(&'l str),
    Quit,
    /// A command with wrong words behind it: how it is written.
    Wrong(&'static str),
    Unknown,
}

// Whether a word is of digits.
fn is_number(word: &str) -> bool
    ensures { result ≡ list_all is_digit word.now }
{
    word.as_bytes().iter().all(|byte| byte.is_ascii_digit())
}

// A word that is no command: where another program has it, what there is in its place.
fn unknown<'l>(word: &str) -> Command<'l>
    ensures { IsUnnamed word.now result }
{
    match told_of(word) {
        Some(words) => Command::Wrong(words),
        None => Command::Unknown,
    }
}

/// What a line says that has these words.
pub fn read<'l>(line: &'l str, words: &[&'l str]) -> Command<'l>
    ensures { IsRead line.now words.now result }
{
    match words {
        [] => Command::Moves(false),
        [first, rest @ ..] => {
            if is_number(first) {
                return Command::Choose;
            }
            match name_of(first) {
                Some(name) => with_words(name, rest, behind(line, first)),
                None => unknown(first),
            }
        }
    }
}
