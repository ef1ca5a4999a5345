// The words of the command line.
ghost use Rattle.std.specs.Prelude.{◌≡◌, IfOk, codes, map, [], option_map, unwrap_or};
ghost use Rattle.std.specs.String.{string_bytes};
ghost use Rattle.clap.specs.Built.{TakesValue};
ghost use Rattle.clap.specs.Words.{FailsBy, fault_of, first_value, found_of, matched_of, matches_of, raw_values, rule_of};
ghost use Rattle.command_line.specs.CommandLine.{command_line, appended_letter, counted_letter, counted_word, file_rule, limit_rule};
ghost use Rattle.command_line.specs.CommandLine.{model_rule, IsArgument, IsCommandLine, IsNamed};
ghost use Rattle.command_line.specs.Matched.{IsReadFrom};

use crate::help::{HELP, VERSION};
use crate::options::Arguments;
use clap::{Arg, ArgAction, ArgMatches, Command, Error, value_parser};
use session::Options;
use std::alloc::{AllocError, Global};

// How many steps are taken at most where the command line says nothing of it.
const USUAL_LIMIT: u32 = 1_000_000;

// A flag that may be repeated and joined with others.
fn flag<'a>(alloc: Global, id: &'a str, letter: char, help: &'a str) -> Arg<'a>
    ensures rule { rule_of result ≡ counted_letter id.entry.now letter }
    ensures plain { IsArgument id.entry.now result }
{
    Arg::new(alloc, id)
        .short(letter)
        .action(ArgAction::Count)
        .help(help)
}

// The same of a whole word.
fn long_flag<'a>(alloc: Global, id: &'a str, help: &'a str) -> Arg<'a>
    ensures rule { rule_of result ≡ counted_word id.entry.now }
    ensures plain { IsArgument id.entry.now result }
{
    Arg::new(alloc, id)
        .long(id)
        .action(ArgAction::Count)
        .help(help)
}

// `-uN`.
fn limit<'a>(alloc: Global) -> Arg<'a>
    ensures rule { rule_of result ≡ limit_rule }
    ensures plain { IsArgument (codes "u") result }
{
    Arg::new(alloc, "u")
        .short('u')
        .action(ArgAction::Set)
        .value_name("N")
        .value_parser(value_parser!(u32))
        .help("Take at most N steps (1000000 where it is not given)")
}

// `--choices FILE`, `--record FILE`, `--source FILE` and `--lines FILE`.
fn file<'a>(alloc: Global, id: &'a str, help: &'a str) -> Arg<'a>
    ensures rule { rule_of result ≡ file_rule id.entry.now }
    ensures plain { IsArgument id.entry.now result }
{
    Arg::new(alloc, id)
        .long(id)
        .action(ArgAction::Set)
        .value_name("FILE")
        .help(help)
}

// `--name NAME`.
fn name<'a>(alloc: Global) -> Arg<'a>
    ensures rule { rule_of result ≡ file_rule (codes "name") }
    ensures plain { IsArgument (codes "name") result }
{
    Arg::new(alloc, "name")
        .long("name")
        .action(ArgAction::Set)
        .value_name("NAME")
        .help("Call the model NAME in explanations")
}

// `-D NAME` and `-I FOLDER`, each of which may stand several times.
fn appended<'a>(alloc: Global, id: &'a str, letter: char, help: &'a str) -> Arg<'a>
    ensures rule { rule_of result ≡ appended_letter id.entry.now letter }
    ensures plain { IsArgument id.entry.now result }
{
    Arg::new(alloc, id)
        .short(letter)
        .action(ArgAction::Append)
        .value_name("NAME")
        .help(help)
}

// `MODEL`.
fn model<'a>(alloc: Global) -> Arg<'a>
    ensures rule { rule_of result ≡ model_rule }
    ensures plain { IsArgument (codes "MODEL") result }
    ensures value { TakesValue result }
{
    Arg::new(alloc, "MODEL")
        .required(true)
        .action(ArgAction::Set)
        .help("The file of the model")
}

// The program's name, its version and its help, without an argument yet.
fn spinplay<'a>(alloc: Global) -> Command<'a>
    ensures { IsNamed result }
{
    Command::new(alloc, "spinplay")
        .version(VERSION)
        .override_help(HELP)
}

// The command line that `command_line` writes out.
fn command<'a>(alloc: Global) -> Result<Command<'a>, AllocError>
    ensures { IfOk result IsCommandLine }
{
    spinplay(alloc)
        .arg(flag(alloc, "i", 'i', "Accepted, and changes nothing"))?
        .arg(flag(alloc, "p", 'p', "Show each step"))?
        .arg(flag(
            alloc,
            "g",
            'g',
            "Show each global variable that a step changed",
        ))?
        .arg(flag(
            alloc,
            "l",
            'l',
            "Show each local variable that a step changed",
        ))?
        .arg(flag(
            alloc,
            "m",
            'm',
            "Lose messages that are sent to a full channel",
        ))?
        .arg(flag(alloc, "T", 'T', "Accepted, and changes nothing"))?
        .arg(limit(alloc))?
        .arg(file(alloc, "choices", "Read the choices from FILE"))?
        .arg(file(alloc, "record", "Write the accepted choices to FILE"))?
        .arg(long_flag(
            alloc,
            "convert",
            "Write the accepted choices with their lines, and show nothing",
        ))?
        .arg(long_flag(alloc, "check", "Check the model, and play nothing"))?
        .arg(long_flag(alloc, "explain", "Say why a model is refused, and where"))?
        .arg(name(alloc))?
        .arg(file(alloc, "source", "Show lines of FILE in explanations"))?
        .arg(file(
            alloc,
            "lines",
            "Tell lines of included files by FILE in explanations",
        ))?
        .arg(long_flag(alloc, "prepare", "Prepare the model first"))?
        .arg(long_flag(alloc, "no-cpp", "Prepare it without its macros"))?
        .arg(appended(alloc, "D", 'D', "Define NAME before its text"))?
        .arg(appended(alloc, "I", 'I', "Look for included files in NAME too"))?
        .arg(model(alloc))
}

// The text of an option, on the heap.
fn text_of(alloc: Global, matches: &ArgMatches<'_>, id: &str) -> Result<Option<String>, AllocError>
    ensures { IfOk result (λ o. option_map string_bytes o ≡ first_value (found_of matches.now) id.now) }
{
    match matches.get_str(id) {
        Some(text) => Ok(Some(String::from_str(alloc, text)?)),
        None => Ok(None),
    }
}

// Texts, on the heap.
fn owned(alloc: Global, texts: &[&str]) -> Result<Vec<String>, AllocError>
    ensures { IfOk result (λ v. map string_bytes v.items ≡ map (λ t. t.now) texts.now) }
{
    let mut all = Vec::new(alloc);
    let mut rest = texts;
    while let [text, behind @ ..] = rest {
        all.push(String::from_str(alloc, text)?)?;
        rest = behind;
    }
    Ok(all)
}

// All texts of an option, on the heap.
fn texts_of(alloc: Global, matches: &ArgMatches<'_>, id: &str) -> Result<Vec<String>, AllocError>
    ensures { IfOk result (λ v. map string_bytes v.items ≡ unwrap_or (option_map raw_values (matched_of (found_of matches.now) id.now)) []) }
{
    match matches.get_strs(id) {
        Some(texts) => owned(alloc, texts),
        None => Ok(Vec::new(alloc)),
    }
}

/// What the words of a command line ask for. The first word is the program's name.
pub fn arguments<'a>(alloc: Global, words: &'a [&'a str]) -> Result<Arguments, Error>
    ensures ok { IfOk result (IsReadFrom (matches_of command_line (map (λ w. w.now) words.entry.now))) }
    ensures kinds { FailsBy (fault_of command_line (map (λ w. w.now) words.entry.now)) result }
{
    let matches = command(alloc)?.try_get_matches_from(words)?;
    let model = String::from_str(alloc, matches.get_str("MODEL").unwrap())?;
    let options = Options {
        steps: matches.get_count("p") > 0,
        globals: matches.get_count("g") > 0,
        locals: matches.get_count("l") > 0,
        lossy: matches.get_count("m") > 0,
        limit: matches.get_one::<u32>("u").unwrap_or(USUAL_LIMIT),
    };
    let choices = text_of(alloc, &matches, "choices")?;
    let rec = text_of(alloc, &matches, "record")?;
    let name = text_of(alloc, &matches, "name")?;
    let source = text_of(alloc, &matches, "source")?;
    let lines = text_of(alloc, &matches, "lines")?;
    let defines = texts_of(alloc, &matches, "D")?;
    let folders = texts_of(alloc, &matches, "I")?;
    Ok(Arguments {
        options,
        model,
        choices,
        rec,
        convert: matches.get_count("convert") > 0,
        check: matches.get_count("check") > 0,
        explain: matches.get_count("explain") > 0,
        name,
        source,
        lines,
        prepare: matches.get_count("prepare") > 0,
        no_cpp: matches.get_count("no-cpp") > 0,
        defines,
        folders,
    })
}
