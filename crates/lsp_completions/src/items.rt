//! What may be typed, as values of JSON.

ghost use Rattle.std.specs.Prelude.{◌≡◌, nat_eq, map, filter, IfOk};
ghost use Rattle.std.specs.List.{starts_with};
ghost use Rattle.serde_json.specs.View.{view};
ghost use Rattle.lsp_completions.specs.Items.{kind_of, rank_of, item_of, word_of, begins_so};

use declared_names::declared::Declaration;
use lsp_results::sorts::{DeclaredSort, sort_in};
use lsp_results::symbols::text_shown;
use offered_names::{Fitting, name_in};
use serde_json::{Value, json};
use std::alloc::{AllocError, Global};

/// The number that editors give what is most like it (LSP 3.17, `CompletionItemKind`).
fn kind_of(sort: DeclaredSort) -> usize
    ensures { result ≡ kind_of sort }
{
    match sort {
        DeclaredSort::Variable | DeclaredSort::Parameter => 6,
        DeclaredSort::Field => 5,
        DeclaredSort::Constant => 20,
        DeclaredSort::Typedef => 22,
        DeclaredSort::Proctype => 7,
        DeclaredSort::Inline => 3,
        DeclaredSort::Label => 18,
    }
}

/// How names are sorted: where a message stands, mtype names come first.
fn rank_of(asked: Fitting, sort: DeclaredSort) -> &'static str
    ensures { result.now ≡ rank_of asked sort }
{
    match (asked, sort) {
        (Fitting::Message, DeclaredSort::Constant) => "0",
        _ => "1",
    }
}

/// A declared name.
fn item(
    alloc: Global,
    text: &[u8],
    all: &[Declaration],
    asked: Fitting,
    declaration: &Declaration,
) -> Result<Value, AllocError>
    ensures { IfOk result (λ v. view v ≡ item_of text.now all.now asked declaration.now) }
{
    let name = text_shown(name_in(text, declaration));
    let sort = sort_in(all, declaration);
    let words = sort.words();
    let kind = kind_of(sort);
    let mut rank = String::from_str(alloc, rank_of(asked, sort))?;
    rank.push_str(name)?;
    json!(in alloc; {"label": name, "kind": kind, "detail": words, "sortText": rank})
}

/// Declared names.
pub fn items(
    alloc: Global,
    text: &[u8],
    all: &[Declaration],
    asked: Fitting,
    some: &[Declaration],
) -> Result<Vec<Value>, AllocError>
    ensures { IfOk result (λ list. map view list.items ≡ map (item_of text.now all.now asked) some.now) }
{
    let mut list = Vec::new(alloc);
    for declaration in some {
        list.push(item(alloc, text, all, asked, declaration)?)?;
    }
    Ok(list)
}

/// A word of the language.
fn word(alloc: Global, word: &str) -> Result<Value, AllocError>
    ensures { IfOk result (λ v. view v ≡ word_of word.now) }
{
    let mut rank = String::from_str(alloc, "2")?;
    rank.push_str(word)?;
    json!(in alloc; {"label": word, "kind": 14, "sortText": rank})
}

fn begins_so(word: &str, typed: &[u8]) -> bool
    ensures { result ≡ starts_with nat_eq word.now typed.now }
{
    word.as_bytes().starts_with(typed)
}

/// Those words that begin as typed.
pub fn words(alloc: Global, typed: &[u8], words: &[&str]) -> Result<Vec<Value>, AllocError>
    ensures { IfOk result (λ list. map view list.items ≡ map word_of (filter (begins_so typed.now) (map (λ w. w.now) words.now))) }
{
    let mut list = Vec::new(alloc);
    for one in words {
        if begins_so(one, typed) {
            list.push(word(alloc, one)?)?;
        }
    }
    Ok(list)
}
