//! What comes out of calls.

ghost use Rattle.std.specs.Prelude.{◌≡◌, ◌<◌, ◌≤◌, ◌+◌, ◌-◌, ◌&&◌, not, nat_eq, ℕ, List, None, IfOk, IfSome, length, slice_index_or};
ghost use Rattle.std.specs.List.{list_any};
ghost use Rattle.pml_inline.specs.Parts.{is_bare, lists_of};
ghost use Rattle.std.specs.Bool.{OnTrue};
ghost use Rattle.promela_text.specs.Inlines as calls;
ghost use Rattle.pml_inline.specs.Texts.{IsText, IsCalled, AnswersCall, below, AreNumbers, IsRead, read_within, given_of};

use crate::arguments::{arguments, has_empty, replaced};
use crate::definitions::Definition;
use crate::misuse::{Call, of_call, of_open};
use crate::places::{closing, kind_at, token_at};
use pml_token::token::{Kind, Token, same_kind};
use profile::{MOST_CALLS, MOST_REPLACED};
use promela_text::misuse::Misuse;
use std::alloc::{AllocError, Global};

/// A text with its definitions.
#[derive(Clone, Copy)]
pub(crate) struct Text<'a, 't> {
    pub(crate) tokens: &'a [Token<'t>],
    /// Its places, in order.
    pub(crate) places: &'a [usize],
    pub(crate) definitions: &'a [Definition<'t>],
    /// For each token the definition whose name it is.
    pub(crate) callees: &'a [Option<usize>],
}

/// What has come out, and how many tokens the replacements on the way had.
#[derive(Drop)]
pub(crate) struct Given<'t> {
    pub(crate) tokens: Vec<Token<'t>>,
    pub(crate) count: usize,
    /// What is wrong with the call at which reading ended, if it did.
    pub(crate) misuse: Option<Misuse>,
}

/// The definition at a place, if it is one of the first `known`.
fn number_at(callees: &[Option<usize>], place: usize, known: usize) -> Option<usize>
    ensures { result ≡ below known (slice_index_or callees.now place None) }
{
    if place >= callees.len() {
        return None;
    }
    let callee = callees[place];
    match callee {
        Some(number) => { if number < known { Some(number) } else { None } }
        None => None,
    }
}

/// The definition that a name calls, if it is one of the first `known` and `(` is behind it.
pub(crate) fn callee(
    text: &Text<'_, '_>,
    known: usize,
    places: &[usize],
    at: usize,
) -> Option<usize>
    requires text { IsText text.now }
    requires within { at < length places.now }
    ensures value { IsCalled text.now known places.now at result }
    ensures within { IfSome result (λ n. n < length text.now.definitions.now) }
    ensures behind { IfSome result (λ n. at + 1 < length places.now) }
{
    if at + 1 >= places.len() {
        return None;
    }
    if !same_kind(kind_at(text.tokens, places[at + 1]), Kind::OpenParen) {
        return None;
    }
    number_at(text.callees, places[at], known)
}

/// Whether there are as many arguments as parameters, and none of them empty.
fn fits(definition: &Definition<'_>, arguments: &[&[usize]]) -> bool
    ensures { result ≡ (nat_eq (length arguments.now) (length definition.now.parameters.items) && not (list_any is_bare (lists_of arguments.now))) }
{
    arguments.len() == definition.parameters.len() && !has_empty(arguments)
}

/// The places of the tokens that a call is replaced by, if the call is right and they are no more than `most`.
fn replacement(
    alloc: Global,
    text: &Text<'_, '_>,
    active: &[usize],
    number: usize,
    inside: &[usize],
    most: usize,
) -> Result<Option<Vec<usize>>, AllocError>
    requires text { IsText text.now }
    requires numbers { AreNumbers text.now active.now }
    ensures { AnswersCall (λ v. v.items) text.now active.now number inside.now most result }
{
    if active.len() >= MOST_CALLS as usize {
        return Ok(None);
    }
    if active.contains(&number) {
        return Ok(None);
    }
    if number >= text.definitions.len() {
        return Ok(None);
    }
    let definition = &text.definitions[number];
    let arguments = arguments(alloc, text.tokens, inside)?;
    if !fits(definition, &arguments) {
        return Ok(None);
    }
    replaced(alloc, &definition.body, &arguments, most)
}

/// Reads places for calls. Whether they and what comes out of them are right; what comes out stands behind what did before.
pub(crate) fn read<'t>(
    alloc: Global,
    text: &Text<'_, 't>,
    known: usize,
    active: &mut Vec<usize>,
    places: &[usize],
    given: &mut Given<'t>,
) -> Result<bool, AllocError>
    requires text { IsText text.now }
    requires numbers { AreNumbers text.now active.old.items }
    requires room { length active.old.items ≤ MOST_CALLS }
    requires counted { given.old.count ≤ MOST_REPLACED }
    ensures read { IfOk result (λ done. IsRead done (given_of given.old) (read_within text.now known active.old.items places.now) (given_of given.new)) }
    ensures active { IfOk result (λ done. OnTrue done (active.new.items ≡ active.old.items)) }
{
    let mut at = 0;
    while at < places.len() {
        match callee(text, known, places, at) {
            None => {
                given.tokens.push(token_at(text.tokens, places[at]))?;
                at += 1;
            }
            Some(number) => {
                let Some(length) = closing(
                    text.tokens,
                    &places[at + 2..],
                    Kind::OpenParen,
                    Kind::CloseParen,
                ) else {
                    given.misuse = Some(of_open(text.tokens, places[at]));
                    return Ok(false);
                };
                let Some(replaced) = replacement(
                    alloc,
                    text,
                    active,
                    number,
                    &places[at + 2..at + 2 + length],
                    MOST_REPLACED - given.count,
                )?
                else {
                    let call = Call {
                        at: places[at],
                        number,
                        inside: &places[at + 2..at + 2 + length],
                    };
                    given.misuse = Some(of_call(alloc, text, active, call)?);
                    return Ok(false);
                };
                given.count += replaced.len();
                active.push(number)?;
                if !read(alloc, text, known, active, &replaced, given)? {
                    return Ok(false);
                }
                active.pop();
                at += length + 3;
            }
        }
    }
    Ok(true)
}
