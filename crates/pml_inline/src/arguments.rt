//! The arguments of a call.

ghost use Rattle.std.specs.Prelude.{◌≡◌, ◌<◌, ◌≤◌, ◌-◌, ◌+◌, ◌++◌, ◌^◌, List, length, map, IfOk, OnOk, MatchOption};
ghost use Rattle.std.specs.List.{list_any};
ghost use Rattle.pml_inline.specs.Places.{words_of};
ghost use Rattle.promela_text.specs.Inlines as brackets;
ghost use Rattle.pml_inline.specs.Parts.{IsWithin, places_replaced, places_instead, is_bare, lists_of};

use crate::definitions::Part;
use crate::places::kind_at;
use pml_token::token::{Kind, Token, same_kind};
use std::alloc::{AllocError, Global};

fn opens(kind: Kind) -> bool
    ensures { result ≡ brackets.opens_bracket kind }
{
    matches!(kind, Kind::OpenParen | Kind::OpenBracket | Kind::OpenBrace)
}

fn closes(kind: Kind) -> bool
    ensures { result ≡ brackets.closes_bracket kind }
{
    matches!(
        kind,
        Kind::CloseParen | Kind::CloseBracket | Kind::CloseBrace
    )
}

/// How many brackets are open behind a token.
fn level_behind(level: usize, kind: Kind) -> usize
    requires { level < 2 ^ 64 - 1 }
    ensures { result ≡ brackets.level_behind level kind }
{
    if opens(kind) {
        level + 1
    } else if closes(kind) {
        level.saturating_sub(1)
    } else {
        level
    }
}

/// The parts between the commas outside all inner brackets, or none where nothing stands between the parentheses.
pub(crate) fn arguments<'p>(
    alloc: Global,
    tokens: &[Token<'_>],
    inside: &'p [usize],
) -> Result<Vec<&'p [usize]>, AllocError>
    ensures { IfOk result (λ v. map (words_of tokens.now) (lists_of v.items) ≡ brackets.arguments (words_of tokens.now inside.entry.now)) }
{
    let mut arguments = Vec::new(alloc);
    if inside.is_empty() {
        return Ok(arguments);
    }
    let mut start = 0;
    let mut level = 0usize;
    for at in 0..inside.len() {
        let kind = kind_at(tokens, inside[at]);
        if same_kind(kind, Kind::Comma) && level == 0 {
            arguments.push(&inside[start..at])?;
            start = at + 1;
        } else {
            level = level_behind(level, kind);
        }
    }
    arguments.push(&inside[start..])?;
    Ok(arguments)
}

/// Whether one of the arguments is empty.
pub(crate) fn has_empty(arguments: &[&[usize]]) -> bool
    ensures { result ≡ list_any is_bare (lists_of arguments.now) }
{
    for argument in arguments {
        if argument.is_empty() {
            return true;
        }
    }
    false
}

/// Adds the place of a body's token, or those of the argument that it stands for.
fn add_part(places: &mut Vec<usize>, part: Part, arguments: &[&[usize]]) -> Result<(), AllocError>
    ensures { OnOk result (places.new.items ≡ places.old.items ++ places_instead (lists_of arguments.now) part.place part.parameter) }
{
    let parameter = part.parameter;
    match parameter {
        None => {
            places.push(part.place)?;
            Ok(())
        }
        Some(parameter) => {
            if parameter < arguments.len() {
                places.extend_from_slice(arguments[parameter])?;
            }
            Ok(())
        }
    }
}

/// The places of a body's tokens, with the arguments in place of the parameters, if they are no more than `most`.
pub(crate) fn replaced(
    alloc: Global,
    body: &[Part],
    arguments: &[&[usize]],
    most: usize,
) -> Result<Option<Vec<usize>>, AllocError>
    ensures { let all = places_replaced body.now (lists_of arguments.now) in
        IfOk result (λ o. MatchOption o (most < length all) (λ v. IsWithin all most v.items)) }
{
    let mut places = Vec::new(alloc);
    for part in body {
        add_part(&mut places, *part, arguments)?;
        if places.len() > most {
            return Ok(None);
        }
    }
    Ok(Some(places))
}
