//! What comes out of a text.

ghost use Rattle.std.specs.Prelude.{◌≡◌, ◌<◌, ◌≤◌, ◌+◌, ◌^◌, ◌-◌, [], Some, IfOk, IfErr};
ghost use Rattle.pml_token.specs.Word.{Word};
ghost use Rattle.pml_inline.specs.Expansion.{definitions};
ghost use Rattle.promela_text.specs.Inlines as brackets;
ghost use Rattle.pml_inline.specs.Expansion as expansion;
ghost use Rattle.pml_inline.specs.Texts.{IsText, ReadsCall, inlines, given_of, IsCall, IsMisread};

use crate::calls::{Given, Text, callee, read};
use crate::misuse::{of_inner, of_open};
use crate::places::{closing, has_inline, is_inline};
use pml_token::token::{Kind, Token, same_kind};
use profile::MOST_REPLACED;
use promela_text::inline_fault::InlineError;
use promela_text::misuse::Misuse;
use std::alloc::{AllocError, Global};

/// How many braces are open behind a token.
fn braces_behind(braces: usize, token: &Token<'_>) -> usize
    requires { braces < 2 ^ 64 - 1 }
    ensures { result ≡ brackets.braces_behind braces token.now }
{
    if same_kind(token.kind(), Kind::OpenBrace) {
        braces + 1
    } else if same_kind(token.kind(), Kind::CloseBrace) {
        braces.saturating_sub(1)
    } else {
        braces
    }
}

/// Reads a call outside all others. The place behind it, if it is right; what comes out of it stands behind what did before.
fn outermost<'t>(
    alloc: Global,
    text: &Text<'_, 't>,
    known: usize,
    at: usize,
    given: &mut Given<'t>,
) -> Result<Option<usize>, AllocError>
    requires text { IsText text.now }
    requires call { IsCall text.now known at }
    requires counted { given.old.count ≤ MOST_REPLACED }
    ensures { IfOk result (ReadsCall text.now known at (given_of given.old) (given_of given.new)) }
{
    let Some(length) = closing(
        text.tokens,
        &text.places[at + 2..],
        Kind::OpenParen,
        Kind::CloseParen,
    ) else {
        given.misuse = Some(of_open(text.tokens, at));
        return Ok(None);
    };
    if has_inline(&text.tokens[at + 2..at + 2 + length]) {
        given.misuse = Some(of_inner(text.tokens, at));
        return Ok(None);
    }
    let end = at + 3 + length;
    let mut active = Vec::new(alloc);
    if !read(
        alloc,
        text,
        known,
        &mut active,
        &text.places[at..end],
        given,
    )? {
        return Ok(None);
    }
    Ok(Some(end))
}

/// What is wrong with the call at a place.
fn misuse_in(given: &Given<'_>, tokens: &[Token<'_>], at: usize) -> Misuse {
    match given.misuse {
        Some(misuse) => misuse,
        None => of_open(tokens, at),
    }
}

/// What comes out of a text.
pub(crate) fn expanded<'t>(
    alloc: Global,
    text: &Text<'_, 't>,
) -> Result<Vec<Token<'t>>, InlineError>
    requires text { IsText text.now }
    requires defined { definitions text.now.tokens.now 0 ≡ Some (inlines text.now) }
    ensures ok { IfOk result (λ v. expansion.limited (expansion.texts text.now.tokens.now [] (inlines text.now) 0 0) ≡ Some v.items) }
    ensures err { IfErr result (λ f. IsMisread (expansion.texts text.now.tokens.now [] (inlines text.now) 0 0) f) }
{
    let mut given = Given {
        tokens: Vec::new(alloc),
        count: 0,
        misuse: None,
    };
    let mut known = 0;
    let mut braces = 0;
    let mut at = 0;
    while at < text.tokens.len() {
        let token = &text.tokens[at];
        if is_inline(token) {
            if braces > 0 {
                return Err(InlineError::Inline(of_inner(text.tokens, at)));
            }
            if known >= text.definitions.len() {
                return Err(InlineError::Inline(of_inner(text.tokens, at)));
            }
            at += 1 + text.definitions[known].size;
            known += 1;
        } else {
            match callee(text, known, text.places, at) {
                None => {
                    braces = braces_behind(braces, token);
                    given.tokens.push(token.copied())?;
                    at += 1;
                }
                Some(_number) => {
                    let Some(end) = outermost(alloc, text, known, at, &mut given)? else {
                        return Err(InlineError::Inline(misuse_in(&given, text.tokens, at)));
                    };
                    at = end;
                }
            }
        }
    }
    Ok(given.tokens)
}
