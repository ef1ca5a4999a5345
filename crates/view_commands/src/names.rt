//! The names of commands.

ghost use Rattle.std.specs.Prelude.{◌≡◌, ◌⊎◌, true, IfSome};
ghost use Rattle.view_commands.specs.Names.{long_name, short_name, begins, IsNamed};
ghost use Rattle.view_commands.specs.Named.{is_name, is_begun, only, named, begun, name_of};
ghost use Rattle.std.specs.List.{filter, find};

use crate::others::told_of;

/// A command, without what stands behind its name.
#[derive(Clone, Copy, Debug, PartialEq, Eq)]
pub enum Name {
    Moves,
    State,
    Why,
    Source,
    Back,
    Forward,
    Goto,
    Restart,
    Run,
    Random,
    Process,
    Until,
    Last,
    Break,
    Breaks,
    Delete,
    Print,
    Display,
    Undisplay,
    Show,
    Steps,
    Branches,
    Branch,
    Chart,
    Record,
    Save,
    Help,
    Quit,
}

// Each of them.
const NAMES: [Name; 28] = [
    Name::Moves,
    Name::State,
    Name::Why,
    Name::Source,
    Name::Back,
    Name::Forward,
    Name::Goto,
    Name::Restart,
    Name::Run,
    Name::Random,
    Name::Process,
    Name::Until,
    Name::Last,
    Name::Break,
    Name::Breaks,
    Name::Delete,
    Name::Print,
    Name::Display,
    Name::Undisplay,
    Name::Show,
    Name::Steps,
    Name::Branches,
    Name::Branch,
    Name::Chart,
    Name::Record,
    Name::Save,
    Name::Help,
    Name::Quit,
];

/// The whole name of a command.
pub fn long_name(name: Name) -> &'static str
    ensures { result.now ≡ long_name name }
{
    match name {
        Name::Moves => "moves",
        Name::State => "state",
        Name::Why => "why",
        Name::Source => "source",
        Name::Back => "back",
        Name::Forward => "forward",
        Name::Goto => "goto",
        Name::Restart => "restart",
        Name::Run => "run",
        Name::Random => "random",
        Name::Process => "p",
        Name::Until => "until",
        Name::Last => "last",
        Name::Break => "break",
        Name::Breaks => "breaks",
        Name::Delete => "delete",
        Name::Print => "print",
        Name::Display => "display",
        Name::Undisplay => "undisplay",
        Name::Show => "show",
        Name::Steps => "steps",
        Name::Branches => "branches",
        Name::Branch => "branch",
        Name::Chart => "chart",
        Name::Record => "record",
        Name::Save => "save",
        Name::Help => "help",
        Name::Quit => "quit",
    }
}

// The short name of a command that has one, else the whole.
fn short_name(name: Name) -> &'static str
    ensures { result.now ≡ short_name name }
{
    match name {
        Name::Moves => "m",
        Name::State => "s",
        Name::Why => "w",
        Name::Source => "src",
        Name::Back => "b",
        Name::Forward => "f",
        Name::Goto => "g",
        Name::Restart => "r",
        Name::Help => "h",
        Name::Quit => "q",
        _ => long_name(name),
    }
}

// The first of these commands with this name, whole or short.
fn named_in(names: &[Name], word: &str) -> Option<Name>
    ensures name { IfSome result (λ n. (word.now ≡ long_name n) ⊎ (word.now ≡ short_name n)) }
    ensures found { result ≡ find (is_name word.now) names.now }
{
    for name in names {
        if word == long_name(*name) || word == short_name(*name) {
            return Some(*name);
        }
    }
    None
}

// The command with this name, whole or short.
#[tactic(auto, unfolding(crate::specs::Named::named))]
fn named(word: &str) -> Option<Name>
    ensures name { IfSome result (λ n. (word.now ≡ long_name n) ⊎ (word.now ≡ short_name n)) }
    ensures found { result ≡ named word.now }
{
    named_in(&NAMES, word)
}

// Whether a name begins so.
fn begins(name: &str, word: &str) -> bool
    ensures { result ≡ begins name.now word.now }
{
    name.as_bytes().starts_with(word.as_bytes())
}

// The one of these commands whose name begins so.
fn begun_in(names: &[Name], word: &str) -> Option<Name>
    ensures name { IfSome result (λ n. begins (long_name n) word.now ≡ true) }
    ensures found { result ≡ only (filter (is_begun word.now) names.now) }
{
    let mut found = None;
    for name in names {
        if begins(long_name(*name), word) {
            if found.is_some() {
                return None;
            }
            found = Some(*name);
        }
    }
    found
}

// The one command whose name begins so.
#[tactic(auto, unfolding(crate::specs::Named::begun))]
fn begun(word: &str) -> Option<Name>
    ensures name { IfSome result (λ n. begins (long_name n) word.now ≡ true) }
    ensures found { result ≡ begun word.now }
{
    begun_in(&NAMES, word)
}

/// The command that a word names: whole, short, or by a beginning that no other has, and that is no word of another program.
#[tactic(auto, unfolding(crate::specs::Named::name_of))]
pub fn name_of(word: &str) -> Option<Name>
    ensures name { IfSome result (IsNamed word.now) }
    ensures found { result ≡ name_of word.now }
{
    match word {
        "?" => return Some(Name::Help),
        "undo" => return Some(Name::Back),
        _ => {}
    }
    match named(word) {
        Some(name) => Some(name),
        None if told_of(word).is_some() => None,
        None => begun(word),
    }
}
