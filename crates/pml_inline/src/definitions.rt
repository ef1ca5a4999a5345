//! The definitions of inlines.

ghost use Rattle.std.specs.Prelude.{◌≡◌, ◌==◌, ◌*◌, if◌then◌else◌, ◌<◌, ◌≤◌, ◌+◌, ◌^◌, ℕ, List, None, Some, false, true, drop, length, map, IfOk, IfErr, IfSome, MatchOption, MatchResult, All};
ghost use Rattle.pml_token.specs.Word.{Word};
ghost use Rattle.pml_inline.specs.Places.{words_of, word_at};
ghost use Rattle.promela_text.specs.Inlines as inlines;
ghost use Rattle.pml_inline.specs.Expansion as expansion;
ghost use Rattle.pml_inline.specs.Parts.{AreNumbered, texts_of, places_of, AreMarked, IsDefinition, inlines_of, AreAllMarked, AreShort, number_of, IsUndefined, IsRepeated};

use crate::misuse::{of_definition, of_names};
use crate::names::{Names, numbered};
use crate::places::{closing, has_inline, is_inline, kind_at, text_at};
use pml_token::token::{Kind, Token, same_kind};
use promela_text::inline_fault::InlineError;
use std::alloc::{AllocError, Global};

/// A token of a body: where it stands in the text, and the parameter that it names.
#[derive(Clone, Copy)]
pub(crate) struct Part {
    pub(crate) place: usize,
    pub(crate) parameter: Option<usize>,
}

/// A definition of an inline.
#[derive(Drop)]
pub(crate) struct Definition<'t> {
    pub(crate) name: &'t [u8],
    pub(crate) parameters: Vec<&'t [u8]>,
    /// From its `{` to its `}`.
    pub(crate) body: Vec<Part>,
    /// How many tokens it has behind the word `inline`.
    pub(crate) size: usize,
}

/// The names from a place on, up to the `)`.
fn parameters<'t>(
    alloc: Global,
    tokens: &[Token<'t>],
    from: usize,
) -> Result<Option<Vec<&'t [u8]>>, AllocError>
    requires { from ≤ length tokens.now }
    ensures names { let ps = inlines.parameter_names (drop from tokens.now) in
        IfOk result (λ o. MatchOption o (ps ≡ None) (λ v. ps ≡ Some (texts_of v.items))) }
    ensures within { IfOk result (λ o. IfSome o (λ v. from + inlines.listed (texts_of v.items) ≤ length tokens.now)) }
{
    let mut names = Vec::new(alloc);
    if from >= tokens.len() {
        return Ok(None);
    }
    if same_kind(kind_at(tokens, from), Kind::CloseParen) {
        return Ok(Some(names));
    }
    let mut at = from;
    while at + 1 < tokens.len() {
        if !same_kind(kind_at(tokens, at), Kind::Name) {
            return Ok(None);
        }
        names.push(text_at(tokens, at))?;
        let behind = kind_at(tokens, at + 1);
        if same_kind(behind, Kind::CloseParen) {
            return Ok(Some(names));
        }
        if !same_kind(behind, Kind::Comma) {
            return Ok(None);
        }
        at += 2;
    }
    Ok(None)
}

/// How many tokens so many names, the commas between them and the `)` are.
fn listed(names: usize) -> usize
    requires { names < 2 ^ 60 }
    ensures { result ≡ (if names == 0 then 1 else 2 * names) }
{
    if names == 0 { 1 } else { 2 * names }
}

/// The parameter that a token names.
fn parameter(names: &Names<'_>, token: &Token<'_>) -> Option<usize>
    ensures { (ps : List (List ℕ)) → AreNumbered names.now.numbers ps → result ≡ inlines.parameter ps token.now }
{
    if same_kind(token.kind(), Kind::Name) {
        names.find(token.text())
    } else {
        None
    }
}

/// The parts of a body.
fn parts(
    alloc: Global,
    tokens: &[Token<'_>],
    names: &Names<'_>,
    places: &[usize],
) -> Result<Vec<Part>, AllocError>
    ensures places { IfOk result (λ v. places_of v.items ≡ places.now) }
    ensures marked { (ps : List (List ℕ)) → AreNumbered names.now.numbers ps → IfOk result (λ v. AreMarked tokens.now ps v.items) }
{
    let mut parts = Vec::with_capacity(alloc, places.len())?;
    for place in places {
        let token = crate::places::token_at(tokens, *place);
        parts.push(Part {
            place: *place,
            parameter: parameter(names, &token),
        })?;
    }
    Ok(parts)
}

/// The definition that the tokens behind a word `inline` begin with, if they do.
fn one_definition<'t>(
    alloc: Global,
    tokens: &[Token<'t>],
    places: &[usize],
    from: usize,
) -> Result<Option<Definition<'t>>, AllocError>
    requires whole { words_of tokens.now places.now ≡ tokens.now }
    requires same { length places.now ≡ length tokens.now }
    requires within { from ≤ length tokens.now }
    ensures { IfOk result (λ o. MatchOption o (inlines.definition (drop from tokens.now) ≡ None) (λ d. IsDefinition tokens.now d from)) }
{
    if from + 1 >= tokens.len() {
        return Ok(None);
    }
    if !same_kind(kind_at(tokens, from), Kind::Name) {
        return Ok(None);
    }
    if !same_kind(kind_at(tokens, from + 1), Kind::OpenParen) {
        return Ok(None);
    }
    let Some(parameters) = parameters(alloc, tokens, from + 2)? else {
        return Ok(None);
    };
    let start = from + 2 + listed(parameters.len());
    if start >= tokens.len() {
        return Ok(None);
    }
    if !same_kind(kind_at(tokens, start), Kind::OpenBrace) {
        return Ok(None);
    }
    let behind = &places[start + 1..];
    let Some(length) = closing(tokens, behind, Kind::OpenBrace, Kind::CloseBrace) else {
        return Ok(None);
    };
    let end = start + length + 2;
    if has_inline(&tokens[start..end]) {
        return Ok(None);
    }
    let Some(numbers) = numbered(alloc, &parameters)? else {
        return Ok(None);
    };
    Ok(Some(Definition {
        name: text_at(tokens, from),
        parameters,
        body: parts(alloc, tokens, &numbers, &places[start..end])?,
        size: end - from,
    }))
}

/// The definitions of a text, in order.
pub(crate) fn definitions<'t>(
    alloc: Global,
    tokens: &[Token<'t>],
    places: &[usize],
) -> Result<Vec<Definition<'t>>, InlineError>
    requires whole { words_of tokens.now places.now ≡ tokens.now }
    requires same { length places.now ≡ length tokens.now }
    ensures ok { IfOk result (λ v. expansion.definitions tokens.now 0 ≡ Some (inlines_of tokens.now v.items)) }
    ensures marked { IfOk result (λ v. AreAllMarked tokens.now v.items) }
    ensures short { IfOk result (λ v. AreShort tokens.now v.items) }
    ensures err { IfErr result (λ f. IsUndefined tokens.now f) }
{
    let mut definitions = Vec::new(alloc);
    let mut at = 0;
    while at < tokens.len() {
        if is_inline(&tokens[at]) {
            let Some(definition) = one_definition(alloc, tokens, places, at + 1)? else {
                let misuse = of_definition(alloc, tokens, places, at + 1)?;
                return Err(InlineError::Inline(misuse));
            };
            let size = definition.size;
            definitions.push(definition)?;
            at += 1 + size;
        } else {
            at += 1;
        }
    }
    Ok(definitions)
}

/// The number of the definition whose name each token is.
pub(crate) fn callees(
    alloc: Global,
    tokens: &[Token<'_>],
    definitions: &[Definition<'_>],
) -> Result<Vec<Option<usize>>, InlineError>
    ensures ok { IfOk result (λ v. v.items ≡ map (number_of (inlines_of tokens.now definitions.now)) tokens.now) }
    ensures apart { IfOk result (λ v. inlines.all_differ (map (λ d. d.name) (inlines_of tokens.now definitions.now)) ≡ true) }
    ensures err { IfErr result (λ f. IsRepeated (inlines_of tokens.now definitions.now) f) }
{
    let mut called = Vec::with_capacity(alloc, definitions.len())?;
    for definition in definitions {
        called.push(definition.name)?;
    }
    let Some(numbers) = numbered(alloc, &called)? else {
        return Err(InlineError::Inline(of_names(alloc, tokens, &called)?));
    };
    let mut callees = Vec::with_capacity(alloc, tokens.len())?;
    for token in tokens {
        callees.push(parameter(&numbers, token))?;
    }
    Ok(callees)
}
