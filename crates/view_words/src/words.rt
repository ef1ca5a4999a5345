//! The words of the command line.

ghost use Rattle.std.specs.Prelude.{◌≡◌, ◌∷◌, [], None, IfOk, codes, map, true, unwrap_or};
ghost use Rattle.std.specs.Option.{option_map};
ghost use Rattle.std.specs.String.{string_bytes};
ghost use Rattle.clap.specs.Words.{first_value, found_of, matched_of, one_text, raw_values, rule_of};
ghost use Rattle.view_words.specs.CommandLine.{counted_word, counted_letter, file_rule, appended_letter, number_rule, limit_rule};
ghost use Rattle.view_words.specs.CommandLine.{model_rule, IsArgument, IsNamed, IsApart};
ghost use Rattle.view_words.specs.Read.{is_of_lines, shown, IsRead};

use crate::asked::{RunForm, Wishes};
use crate::help::{HELP, VERSION};
use clap::{Arg, ArgAction, ArgMatches, Command, Error, value_parser};
use std::alloc::{AllocError, Global};

// How many steps are taken at most where the command line says nothing of it.
const USUAL_LIMIT: u32 = 1_000_000;

// A flag that may be repeated.
fn flag<'a>(alloc: Global, id: &'a str) -> Arg<'a>
    ensures rule { rule_of result ≡ counted_word id.entry.now }
    ensures plain { IsArgument id.entry.now result }
{
    Arg::new(alloc, id).long(id).action(ArgAction::Count)
}

// An option with a file behind it.
fn file<'a>(alloc: Global, id: &'a str) -> Arg<'a>
    ensures rule { rule_of result ≡ file_rule id.entry.now }
    ensures plain { IsArgument id.entry.now result }
{
    Arg::new(alloc, id)
        .long(id)
        .action(ArgAction::Set)
        .value_name("FILE")
}

// An option with a name behind it.
fn name<'a>(alloc: Global) -> Arg<'a>
    ensures rule { rule_of result ≡ file_rule (codes "name") }
    ensures plain { IsArgument (codes "name") result }
{
    Arg::new(alloc, "name")
        .long("name")
        .action(ArgAction::Set)
        .value_name("NAME")
}

// An option with a name behind it that may stand several times.
fn appended<'a>(alloc: Global, id: &'a str, letter: char) -> Arg<'a>
    ensures rule { rule_of result ≡ appended_letter id.entry.now letter }
    ensures plain { IsArgument id.entry.now result }
{
    Arg::new(alloc, id)
        .short(letter)
        .action(ArgAction::Append)
        .value_name("NAME")
}

// The flag of a run that goes on by lines, which has no other form.
fn asks<'a>(alloc: Global) -> Result<Arg<'a>, AllocError>
    ensures { IfOk result (IsApart (counted_word (codes "ask")) (codes "chart" ∷ codes "page" ∷ [])) }
{
    flag(alloc, "ask")
        .conflicts_with("chart")?
        .conflicts_with("page")
}

// The option of a run whose lines begin behind a step; it has no other form.
fn from<'a>(alloc: Global) -> Result<Arg<'a>, AllocError>
    ensures { IfOk result (IsApart (number_rule (codes "from")) (codes "chart" ∷ codes "page" ∷ [])) }
{
    Arg::new(alloc, "from")
        .long("from")
        .action(ArgAction::Set)
        .value_name("F")
        .value_parser(value_parser!(u32))
        .conflicts_with("chart")?
        .conflicts_with("page")
}

// The flag of a run that a program drives, which has no other form.
fn serves<'a>(alloc: Global) -> Result<Arg<'a>, AllocError>
    ensures { IfOk result (IsApart (counted_word (codes "serve")) (codes "ask" ∷ codes "chart" ∷ codes "page" ∷ [])) }
{
    flag(alloc, "serve")
        .conflicts_with("ask")?
        .conflicts_with("chart")?
        .conflicts_with("page")
}

fn seed<'a>(alloc: Global) -> Arg<'a>
    ensures rule { rule_of result ≡ number_rule (codes "random") }
    ensures plain { IsArgument (codes "random") result }
{
    Arg::new(alloc, "random")
        .long("random")
        .action(ArgAction::Set)
        .value_name("SEED")
        .value_parser(value_parser!(u32))
}

fn limit<'a>(alloc: Global) -> Arg<'a>
    ensures rule { rule_of result ≡ limit_rule }
    ensures plain { IsArgument (codes "u") result }
{
    Arg::new(alloc, "u")
        .short('u')
        .action(ArgAction::Set)
        .value_name("N")
        .value_parser(value_parser!(u32))
}

fn lossy<'a>(alloc: Global) -> Arg<'a>
    ensures rule { rule_of result ≡ counted_letter (codes "m") 109 }
    ensures plain { IsArgument (codes "m") result }
{
    Arg::new(alloc, "m").short('m').action(ArgAction::Count)
}

fn model<'a>(alloc: Global) -> Arg<'a>
    ensures rule { rule_of result ≡ model_rule }
    ensures plain { IsArgument (codes "MODEL") result }
{
    Arg::new(alloc, "MODEL")
        .required(true)
        .action(ArgAction::Set)
}

fn spinview<'a>(alloc: Global) -> Command<'a>
    ensures { IsNamed result }
{
    Command::new(alloc, "spinview")
        .version(VERSION)
        .override_help(HELP)
}

fn command<'a>(alloc: Global) -> Result<Command<'a>, AllocError> {
    spinview(alloc)
        .arg(file(alloc, "choices"))?
        .arg(file(alloc, "trail"))?
        .arg(file(alloc, "record"))?
        .arg(file(alloc, "page"))?
        .arg(seed(alloc))?
        .arg(flag(alloc, "json"))?
        .arg(flag(alloc, "chart"))?
        .arg(asks(alloc)?)?
        .arg(from(alloc)?)?
        .arg(serves(alloc)?)?
        .arg(lossy(alloc))?
        .arg(limit(alloc))?
        .arg(flag(alloc, "explain"))?
        .arg(name(alloc))?
        .arg(file(alloc, "source"))?
        .arg(file(alloc, "lines"))?
        .arg(flag(alloc, "prepare"))?
        .arg(flag(alloc, "no-cpp"))?
        .arg(appended(alloc, "D", 'D'))?
        .arg(appended(alloc, "I", 'I'))?
        .arg(model(alloc))
}

// The text of an option, on the heap.
fn text_of(alloc: Global, matches: &ArgMatches<'_>, id: &str) -> Result<Option<String>, AllocError>
    ensures { IfOk result (λ o. option_map string_bytes o ≡ first_value (found_of matches.now) id.now) }
{
    match matches.get_str(id) {
        Some(text) => Ok(Some(String::from_str(alloc, text)?)),
        None => Ok(None),
    }
}

// Texts, on the heap.
fn owned(alloc: Global, texts: &[&str]) -> Result<Vec<String>, AllocError>
    ensures { IfOk result (λ v. map string_bytes v.items ≡ map (λ t. t.now) texts.now) }
{
    let mut all = Vec::new(alloc);
    let mut rest = texts;
    while let [text, behind @ ..] = rest {
        all.push(String::from_str(alloc, text)?)?;
        rest = behind;
    }
    Ok(all)
}

// All texts of an option, on the heap.
fn texts_of(alloc: Global, matches: &ArgMatches<'_>, id: &str) -> Result<Vec<String>, AllocError>
    ensures { IfOk result (λ v. map string_bytes v.items ≡ unwrap_or (option_map raw_values (matched_of (found_of matches.now) id.now)) []) }
{
    match matches.get_strs(id) {
        Some(texts) => owned(alloc, texts),
        None => Ok(Vec::new(alloc)),
    }
}

fn form_of(matches: &ArgMatches<'_>) -> RunForm
    ensures lines { is_of_lines (found_of matches.now) ≡ true → result ≡ RunForm.Json }
    ensures others { one_text (found_of matches.now) (codes "from") ≡ None → result ≡ shown (found_of matches.now) }
{
    let goes_on = matches.get_count("ask") > 0 || matches.get_count("serve") > 0;
    let is_behind = matches.get_one::<u32>("from").is_some();
    if matches.get_count("json") > 0 || goes_on || is_behind {
        RunForm::Json
    } else if matches.get_count("chart") > 0 {
        RunForm::Chart
    } else {
        RunForm::Session
    }
}

/// What the words of a command line ask for. The first word is the program's name.
pub fn read<'a>(alloc: Global, words: &'a [&'a str]) -> Result<Wishes, Error>
    ensures { IfOk result IsRead }
{
    let matches = command(alloc)?.try_get_matches_from(words)?;
    let model = String::from_str(alloc, matches.get_str("MODEL").unwrap_or(""))?;
    let choices = text_of(alloc, &matches, "choices")?;
    let trail = text_of(alloc, &matches, "trail")?;
    let rec = text_of(alloc, &matches, "record")?;
    let page = text_of(alloc, &matches, "page")?;
    let name = text_of(alloc, &matches, "name")?;
    let source = text_of(alloc, &matches, "source")?;
    let lines = text_of(alloc, &matches, "lines")?;
    let defines = texts_of(alloc, &matches, "D")?;
    let folders = texts_of(alloc, &matches, "I")?;
    Ok(Wishes {
        model,
        name,
        source,
        lines,
        prepare: matches.get_count("prepare") > 0,
        no_cpp: matches.get_count("no-cpp") > 0,
        defines,
        folders,
        choices,
        trail,
        rec,
        page,
        seed: matches.get_one::<u32>("random"),
        form: form_of(&matches),
        asks: matches.get_count("ask") > 0,
        from: matches.get_one::<u32>("from").unwrap_or(0),
        serves: matches.get_count("serve") > 0,
        is_lossy: matches.get_count("m") > 0,
        limit: matches.get_one::<u32>("u").unwrap_or(USUAL_LIMIT),
        explains: matches.get_count("explain") > 0,
    })
}
