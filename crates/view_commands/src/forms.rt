//! What stands behind the name of a command.

ghost use Rattle.std.specs.Prelude.{◌≡◌, ◌<◌, length, ℕ, true, false, map, drop, None, Some, IfSome};
ghost use Rattle.view_commands.specs.Forms.{IsNumber, IsOneNumber, IsWanted, IsWrong, IsByNumber, IsByText, IsByWord, IsMoves, IsCountAndSeed, IsByChance, IsUntilByChance, usual, numbered, with_text, is_until, is_all, behind_all, alone, shows, helps, IsBehind, form_of, bare, telling, IsMeant};
ghost use Rattle.view_commands.specs.Names.{long_name, begins};
ghost use Rattle.view_commands.specs.declared.command.Command.TheVariants.{Show};
ghost use Rattle.view_commands.specs.declared.names.Name.TheVariants.{Process};

use crate::command::{Command, RunMode, USUAL_RUN};
use crate::names::Name;

// A number in digits.
fn number(word: &str) -> Option<usize>
    ensures { IsNumber word.now result }
{
    match word.parse::<usize>() {
        Ok(number) => Some(number),
        Err(_) => None,
    }
}

/// What stands behind a word at the beginning of a text.
pub fn behind<'l>(text: &'l str, word: &str) -> &'l str
    ensures { IsBehind text.now word.now result.now }
{
    match text.trim_start().strip_prefix(word) {
        Some(rest) => rest.trim(),
        None => "",
    }
}

// The one number behind a name.
fn one(rest: &[&str]) -> Option<usize>
    ensures { IsOneNumber (map (λ w. w.now) rest.now) result }
{
    match rest {
        [word] => number(word),
        _ => None,
    }
}

// The number that is meant where none stands behind a name.
fn usual(name: Name) -> Option<usize>
    ensures { result ≡ usual name }
{
    match name {
        Name::Back | Name::Forward => Some(1),
        Name::Run => Some(USUAL_RUN),
        _ => None,
    }
}

// The command that has this number behind its name.
fn numbered<'l>(name: Name, number: usize) -> Command<'l>
    ensures { result ≡ numbered name number }
{
    match name {
        Name::Back => Command::Back(number),
        Name::Forward => Command::Forward(number),
        Name::Goto => Command::Goto(number),
        Name::Run => Command::Run(number),
        Name::Process => Command::Process(number),
        Name::Delete => Command::Delete(number),
        Name::Undisplay => Command::Undisplay(number),
        Name::Steps => Command::Steps(Some(number)),
        Name::Branch => Command::Branch(number),
        Name::Moves => Command::MovesOf(number),
        _ => Command::Unknown,
    }
}

/// What may stand behind the name of a command.
#[derive(Clone, Copy)]
enum Form {
    Nothing,
    /// `all`.
    All,
    /// A number.
    Number,
    /// A number, or a condition.
    Back,
    Steps,
    Moves,
    Process,
    Random,
    /// Words, as one text.
    Text,
    /// One word.
    Word,
    Switch,
    Help,
}

// What may stand behind the name of a command.
fn form_of(name: Name) -> Form
    ensures { result ≡ form_of name }
{
    match name {
        Name::Source | Name::Restart | Name::Breaks | Name::Branches => Form::Nothing,
        Name::Chart | Name::Record | Name::Quit => Form::Nothing,
        Name::State | Name::Why => Form::All,
        Name::Back => Form::Back,
        Name::Forward | Name::Goto | Name::Run => Form::Number,
        Name::Delete | Name::Undisplay | Name::Branch => Form::Number,
        Name::Steps => Form::Steps,
        Name::Moves => Form::Moves,
        Name::Process => Form::Process,
        Name::Random => Form::Random,
        Name::Until | Name::Break | Name::Print | Name::Display => Form::Text,
        Name::Last | Name::Save => Form::Word,
        Name::Show => Form::Switch,
        Name::Help => Form::Help,
    }
}

// The command of this name with nothing behind it.
fn bare<'l>(name: Name) -> Command<'l>
    ensures { result ≡ bare name }
{
    match name {
        Name::Source => Command::Source,
        Name::Restart => Command::Restart,
        Name::Breaks => Command::Breaks,
        Name::Branches => Command::Branches,
        Name::Chart => Command::Chart,
        Name::Record => Command::Record,
        Name::Quit => Command::Quit,
        _ => Command::Unknown,
    }
}

// The command of this name that tells all, or what is first.
fn telling<'l>(name: Name, all: bool) -> Command<'l>
    ensures { result ≡ telling name all }
{
    match name {
        Name::State => Command::State(all),
        _ => Command::Why(all),
    }
}

// How a command is written that has other words behind its name than it wants.
fn written(name: Name) -> &'static str
    ensures { 0 < length result.now → begins result.now (long_name name) ≡ true }
{
    match name {
        Name::Back => "back [N], back until COND\n",
        Name::Forward => "forward [N]\n",
        Name::Goto => "goto K\n",
        Name::Run => "run [N]\n",
        Name::Random => "random N [SEED], random until COND [SEED]\n",
        Name::Save => "save FILE\n",
        Name::Process => {
            "p N, p N until COND: N is the number of a process; state shows the values, print EXPR one\n"
        }
        Name::Until => {
            "until NAME, until line L, until NAME == VALUE, until NAME != VALUE, until COND\n"
        }
        Name::Last => "last NAME, as last x, last a[1], last P[2].x\n",
        Name::Break => "break COND, break line L\n",
        Name::Delete => "delete N, the number of a break\n",
        Name::Print => "print EXPR\n",
        Name::Display => "display EXPR\n",
        Name::Undisplay => "undisplay N, the number of a display\n",
        Name::Show => {
            "show on, show off: whether the line of a step has the values that it changes; state shows all, print EXPR one\n"
        }
        Name::Steps => "steps [K]\n",
        Name::Branch => "branch N\n",
        _ => "",
    }
}

// The number behind a name; where none stands there, the one that is usual.
fn wanted(name: Name, rest: &[&str]) -> Option<usize>
    ensures { IsWanted name (map (λ w. w.now) rest.now) result }
{
    match rest {
        [] => usual(name),
        _ => one(rest),
    }
}

// A command with a number behind its name; with none, the one that is usual.
fn by_number<'l>(name: Name, rest: &[&str]) -> Command<'l>
    ensures { IsByNumber name (map (λ w. w.now) rest.now) result }
{
    match wanted(name, rest) {
        Some(number) => numbered(name, number),
        None => Command::Wrong(written(name)),
    }
}

// The word behind which a condition stands.
const UNTIL: &str = "until";

// Whether a condition stands there.
fn is_until(rest: &[&str]) -> bool
    ensures { result ≡ is_until (map (λ w. w.now) rest.now) }
{
    match rest {
        [word, _, ..] => *word == UNTIL,
        _ => false,
    }
}

// Whether a number behind a word is no part of a condition that ends in that word.
fn is_seed(before: &str, last: &str) -> bool
    ensures { result ≡ true → (n : ℕ) × IsNumber last.now (Some n) }
{
    if before == "line" || before.ends_with("@line") || number(last).is_none() {
        return false;
    }
    match before.as_bytes() {
        [.., end] => end.is_ascii_alphanumeric() || matches!(*end, b'_' | b')' | b']'),
        [] => false,
    }
}

// The seed that stands behind a condition.
fn seed_in<'l>(rest: &[&'l str]) -> Option<&'l str>
    ensures { IfSome result (λ word. (n : ℕ) × IsNumber word.now (Some n)) }
{
    match rest {
        [_, .., before, last] if is_seed(before, last) => Some(*last),
        _ => None,
    }
}

// Steps by chance until a condition holds.
fn by_chance<'l>(rest: &[&'l str], text: &'l str) -> Command<'l>
    ensures { IsUntilByChance result }
{
    let text = behind(text, UNTIL);
    let Some(word) = seed_in(rest) else {
        return Command::Until(RunMode::Chance(1), text);
    };
    match (text.strip_suffix(word), number(word)) {
        (Some(condition), Some(seed)) => {
            Command::Until(RunMode::Chance(seed as u64), condition.trim())
        }
        _ => Command::Wrong(written(Name::Random)),
    }
}

// A count and a seed.
fn count_and_seed(rest: &[&str]) -> Option<(usize, usize)>
    ensures { IsCountAndSeed (map (λ w. w.now) rest.now) result }
{
    match rest {
        [count] => number(count).zip(Some(1)),
        [count, seed] => number(count).zip(number(seed)),
        _ => None,
    }
}

fn random<'l>(rest: &[&'l str], text: &'l str) -> Command<'l>
    ensures { is_until (map (λ w. w.now) rest.now) ≡ false → IsByChance (map (λ w. w.now) rest.now) result }
{
    if is_until(rest) {
        return by_chance(rest, text);
    }
    match count_and_seed(rest) {
        Some((count, seed)) => Command::Random(count, seed as u64),
        None => Command::Wrong(written(Name::Random)),
    }
}

fn process<'l>(rest: &[&'l str], text: &'l str) -> Command<'l>
    ensures { is_until (drop 1 (map (λ w. w.now) rest.now)) ≡ false → IsByNumber Process (map (λ w. w.now) rest.now) result }
{
    match rest {
        [word, more @ ..] if is_until(more) => match number(word) {
            Some(process) => {
                Command::Until(RunMode::Process(process), behind(behind(text, word), UNTIL))
            }
            None => Command::Wrong(written(Name::Process)),
        },
        _ => by_number(Name::Process, rest),
    }
}

// The command that has this text behind its name.
fn with_text<'l>(name: Name, text: &'l str) -> Command<'l>
    ensures { result ≡ with_text name text.entry }
{
    match name {
        Name::Until => Command::Until(RunMode::Forced, text),
        Name::Break => Command::Break(text),
        Name::Print => Command::Print(text),
        Name::Display => Command::Display(text),
        Name::Save => Command::Save(text),
        Name::Last => Command::Last(text),
        _ => Command::HelpOf(text),
    }
}

// A command with a text behind its name, which is wrong without one.
fn by_text<'l>(name: Name, text: &'l str) -> Command<'l>
    ensures { IsByText name text.entry result }
{
    if text.is_empty() {
        Command::Wrong(written(name))
    } else {
        with_text(name, text)
    }
}

// A command with one word behind its name.
fn by_word<'l>(name: Name, rest: &[&'l str]) -> Command<'l>
    ensures { IsByWord name rest.now result }
{
    match rest {
        [word] => with_text(name, word),
        _ => Command::Wrong(written(name)),
    }
}

fn show<'l>(rest: &[&'l str]) -> Command<'l>
    ensures some { IfSome (shows (map (λ w. w.now) rest.now)) (λ on. result ≡ Show on) }
    ensures none { shows (map (λ w. w.now) rest.now) ≡ None → IsWrong result }
{
    match rest {
        [word] if *word == "on" => Command::Show(true),
        [word] if *word == "off" => Command::Show(false),
        _ => Command::Wrong(written(Name::Show)),
    }
}

fn help<'l>(rest: &[&'l str]) -> Command<'l>
    ensures { result ≡ helps rest.now }
{
    match rest {
        [] => Command::Help,
        [word, ..] => with_text(Name::Help, word),
    }
}

// A command that has no words behind its name.
fn alone<'l>(command: Command<'l>, rest: &[&str]) -> Command<'l>
    ensures { result ≡ alone command.entry (map (λ w. w.now) rest.now) }
{
    if rest.is_empty() {
        command
    } else {
        Command::Unknown
    }
}

fn is_all(rest: &[&str]) -> bool
    ensures { result ≡ is_all (map (λ w. w.now) rest.now) }
{
    match rest {
        [word, ..] => *word == "all",
        [] => false,
    }
}

// The words behind `all`, or all of them where it does not stand first.
fn behind_all<'s, 'l>(rest: &'s [&'l str]) -> &'s [&'l str]
    ensures { map (λ w. w.now) result.now ≡ behind_all (map (λ w. w.now) rest.now) }
{
    match rest {
        [word, behind @ ..] if *word == "all" => behind,
        _ => rest,
    }
}

fn moves<'l>(rest: &[&str]) -> Command<'l>
    ensures { IsMoves (map (λ w. w.now) rest.now) result }
{
    match one(rest) {
        Some(process) => numbered(Name::Moves, process),
        None => alone(Command::Moves(is_all(rest)), behind_all(rest)),
    }
}

/// A command with a text behind its name; `rest` are the words of that.
pub fn with_words<'l>(name: Name, rest: &[&'l str], text: &'l str) -> Command<'l>
    ensures { IsMeant (form_of name) name rest.now text.entry result }
{
    match form_of(name) {
        Form::Nothing => alone(bare(name), rest),
        Form::All => alone(telling(name, is_all(rest)), behind_all(rest)),
        Form::Number => by_number(name, rest),
        Form::Back if is_until(rest) => Command::BackUntil(behind(text, UNTIL)),
        Form::Back => by_number(name, rest),
        Form::Steps if rest.is_empty() => Command::Steps(None),
        Form::Steps => by_number(name, rest),
        Form::Moves => moves(rest),
        Form::Process => process(rest, text),
        Form::Random => random(rest, text),
        Form::Text => by_text(name, text),
        Form::Word => by_word(name, rest),
        Form::Switch => show(rest),
        Form::Help => help(rest),
    }
}
