//! Which rule a definition or a call of an inline breaks, and at which token.

use crate::arguments::{arguments, has_empty};
use crate::calls::Text;
use crate::places::{closing, is_inline, kind_at, text_at};
use pml_token::token::{Kind, Token, same_kind};
use profile::{MOST_CALLS, MOST_IN_A_ROW, MOST_OPEN};
use promela_text::misuse::{Limit, Misuse, Rule};
use std::alloc::{AllocError, Global};
use std::collections::BTreeMap;

/// The limit that tokens pass first.
pub(crate) fn passed(tokens: &[Token<'_>]) -> Limit {
    let mut depth = 0u32;
    let mut row = 0u32;
    for token in tokens {
        depth = deepened(depth, token.kind());
        row = lengthened(row, token.kind());
        if depth > MOST_OPEN {
            return Limit::Open;
        }
        if row > MOST_IN_A_ROW {
            return Limit::Row;
        }
    }
    Limit::Row
}

fn deepened(depth: u32, kind: Kind) -> u32 {
    match kind {
        Kind::OpenParen | Kind::OpenBracket | Kind::OpenBrace | Kind::If | Kind::Do => {
            depth.saturating_add(1)
        }
        Kind::CloseParen | Kind::CloseBracket | Kind::CloseBrace | Kind::Fi | Kind::Od => {
            depth.saturating_sub(1)
        }
        _ => depth,
    }
}

fn lengthened(row: u32, kind: Kind) -> u32 {
    match kind {
        Kind::Semicolon
        | Kind::DoubleColon
        | Kind::OpenBrace
        | Kind::CloseBrace
        | Kind::If
        | Kind::Fi
        | Kind::Do
        | Kind::Od => 0,
        _ => row.saturating_add(1),
    }
}

/// A rule that a definition breaks at a token, or at the last one.
fn broken(tokens: &[Token<'_>], rule: Rule, at: usize, definition: usize) -> Misuse {
    let last = tokens.len().saturating_sub(1);
    Misuse {
        rule,
        at: at.min(last),
        definition,
    }
}

/// How many names stand from a place on, with commas between them and a `)` behind them, or where they do not.
fn listed(tokens: &[Token<'_>], from: usize) -> Result<usize, usize> {
    if same_kind(kind_at(tokens, from), Kind::CloseParen) {
        return Ok(0);
    }
    let mut count = 0usize;
    let mut at = from;
    for _ in tokens {
        if !same_kind(kind_at(tokens, at), Kind::Name) {
            return Err(at);
        }
        count = count.saturating_add(1);
        let behind = at.saturating_add(1);
        if same_kind(kind_at(tokens, behind), Kind::CloseParen) {
            return Ok(count);
        }
        if !same_kind(kind_at(tokens, behind), Kind::Comma) {
            return Err(behind);
        }
        at = behind.saturating_add(1);
    }
    Err(at)
}

/// Two of some names that are the same.
#[derive(Clone, Copy)]
struct Repeated {
    first: usize,
    again: usize,
}

/// The first of some names that stands among those before it.
fn repeated_among(alloc: Global, names: &[&[u8]]) -> Result<Option<Repeated>, AllocError> {
    let mut numbers = BTreeMap::new(alloc);
    for (again, name) in names.iter().enumerate() {
        if let Some(first) = numbers.insert(*name, again)? {
            return Ok(Some(Repeated { first, again }));
        }
    }
    Ok(None)
}

/// The names of so many parameters.
fn names_of<'t>(
    alloc: Global,
    tokens: &[Token<'t>],
    from: usize,
    count: usize,
) -> Result<Vec<&'t [u8]>, AllocError> {
    let mut names = Vec::new(alloc);
    let mut at = from;
    for _ in 0..count {
        names.push(text_at(tokens, at))?;
        at = at.saturating_add(2);
    }
    Ok(names)
}

/// Where the first word `inline` stands at or behind a place and before an end.
fn inline_from(tokens: &[Token<'_>], from: usize, end: usize) -> Option<usize> {
    for (i, token) in tokens.iter().enumerate() {
        if from <= i && i < end && is_inline(token) {
            return Some(i);
        }
    }
    None
}

/// What is wrong with a body that begins at a place, of the definition of this name.
fn of_body(tokens: &[Token<'_>], places: &[usize], start: usize, name: usize) -> Misuse {
    if !same_kind(kind_at(tokens, start), Kind::OpenBrace) {
        return broken(tokens, Rule::Form, start, name);
    }
    let first = start.saturating_add(1).min(places.len());
    match closing(tokens, &places[first..], Kind::OpenBrace, Kind::CloseBrace) {
        Some(length) => {
            let end = first.saturating_add(length);
            let inner = inline_from(tokens, first, end).unwrap_or(start);
            broken(tokens, Rule::Outside, inner, name)
        }
        None => broken(tokens, Rule::Body, start, name),
    }
}

/// What is wrong with a definition whose name is to stand at a place.
pub(crate) fn of_definition(
    alloc: Global,
    tokens: &[Token<'_>],
    places: &[usize],
    name: usize,
) -> Result<Misuse, AllocError> {
    let open = name.saturating_add(1);
    let first = name.saturating_add(2);
    if !same_kind(kind_at(tokens, name), Kind::Name) {
        return Ok(broken(tokens, Rule::Form, name, name));
    }
    if !same_kind(kind_at(tokens, open), Kind::OpenParen) {
        return Ok(broken(tokens, Rule::Form, open, name));
    }
    let count = match listed(tokens, first) {
        Ok(count) => count,
        Err(at) => return Ok(broken(tokens, Rule::Form, at, name)),
    };
    let names = names_of(alloc, tokens, first, count)?;
    if let Some(repeated) = repeated_among(alloc, &names)? {
        let again = first.saturating_add(repeated.again.saturating_mul(2));
        return Ok(broken(tokens, Rule::Parameters, again, name));
    }
    let start = first.saturating_add(count.saturating_mul(2).max(1));
    Ok(of_body(tokens, places, start, name))
}

/// Where the name of a definition stands, of which so many stand before it.
fn name_of(tokens: &[Token<'_>], number: usize) -> usize {
    let mut left = number;
    for (i, token) in tokens.iter().enumerate() {
        if is_inline(token) {
            if left == 0 {
                return i.saturating_add(1);
            }
            left = left.saturating_sub(1);
        }
    }
    0
}

/// What is wrong with definitions of which two have one name.
pub(crate) fn of_names(
    alloc: Global,
    tokens: &[Token<'_>],
    names: &[&[u8]],
) -> Result<Misuse, AllocError> {
    match repeated_among(alloc, names)? {
        Some(repeated) => Ok(broken(
            tokens,
            Rule::Names,
            name_of(tokens, repeated.again),
            name_of(tokens, repeated.first),
        )),
        None => Ok(broken(tokens, Rule::Names, 0, 0)),
    }
}

/// A definition that stands where none may.
pub(crate) fn of_inner(tokens: &[Token<'_>], from: usize) -> Misuse {
    let at = inline_from(tokens, from, tokens.len()).unwrap_or(from);
    broken(tokens, Rule::Outside, at, at)
}

/// A call without its `)`.
pub(crate) fn of_open(tokens: &[Token<'_>], at: usize) -> Misuse {
    broken(tokens, Rule::Call, at, at)
}

/// A call of a definition, with the tokens between its parentheses.
#[derive(Clone, Copy)]
pub(crate) struct Call<'p> {
    pub(crate) at: usize,
    pub(crate) number: usize,
    pub(crate) inside: &'p [usize],
}

/// The rule that the arguments of a call break, or else that not too many tokens come out.
fn of_arguments(given: &[&[usize]], wanted: usize) -> Rule {
    if given.len() != wanted {
        return Rule::Arguments(given.len(), wanted);
    }
    if has_empty(given) {
        Rule::Empty
    } else {
        Rule::Length
    }
}

/// The rule that a call breaks, where these calls stand round it.
fn rule_of(
    alloc: Global,
    text: &Text<'_, '_>,
    active: &[usize],
    call: Call<'_>,
) -> Result<Rule, AllocError> {
    if active.len() >= MOST_CALLS as usize {
        return Ok(Rule::Depth);
    }
    if active.contains(&call.number) {
        return Ok(Rule::Recursion);
    }
    let given = arguments(alloc, text.tokens, call.inside)?;
    match text.definitions.get(call.number) {
        Some(definition) => Ok(of_arguments(&given, definition.parameters.len())),
        None => Ok(Rule::Length),
    }
}

/// What is wrong with a call that has no replacement.
pub(crate) fn of_call(
    alloc: Global,
    text: &Text<'_, '_>,
    active: &[usize],
    call: Call<'_>,
) -> Result<Misuse, AllocError> {
    let rule = rule_of(alloc, text, active, call)?;
    let definition = name_of(text.tokens, call.number);
    Ok(broken(text.tokens, rule, call.at, definition))
}
