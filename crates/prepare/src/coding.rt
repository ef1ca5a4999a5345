//! Writes numbers in place of character constants.

ghost use Rattle.std.specs.Prelude.{◌≡◌, ◌≤◌, ◌<◌, ◌++◌, length, IfOk, OnOk};
ghost use Rattle.prepare.specs.Coding as coding;

use crate::character::{add_character, character_length};
use crate::spelling::add_feeds;
use crate::stretches::{fresh_behind, lexeme_at};
use std::alloc::{AllocError, Global};

/// How long the character constant or the lexeme at the front of a text is.
fn front_length(fresh: bool, text: &[u8]) -> usize
    requires { 0 < length text.now }
    ensures value { result ≡ coding.front_length fresh text.now }
    ensures some { 0 < result }
    ensures within { result ≤ length text.now }
{
    let length = character_length(text);
    if length > 0 {
        length
    } else {
        lexeme_at(fresh, text).0
    }
}

/// Writes a number in place of a constant, with the line feeds of that behind it, or a lexeme as it is.
fn add_front(out: &mut Vec<u8>, is_character: bool, front: &[u8]) -> Result<(), AllocError>
    ensures { OnOk result (out.new.items ≡ out.old.items ++ coding.written is_character front.now) }
{
    if is_character {
        add_character(out, front)?;
        add_feeds(out, front)
    } else {
        out.extend_from_slice(front)
    }
}

/// A text with numbers in place of its character constants, which stand where a lexeme of it begins: not within a string or a comment.
pub fn coded(alloc: Global, text: &[u8]) -> Result<Vec<u8>, AllocError>
    ensures { IfOk result (λ v. v.items ≡ coding.coded text.now) }
{
    let mut out = Vec::new(alloc);
    let mut fresh = true;
    let mut rest = text;
    while !rest.is_empty() {
        let is_character = character_length(rest) > 0;
        let (front, back) = rest.split_at(front_length(fresh, rest));
        add_front(&mut out, is_character, front)?;
        fresh = fresh_behind(fresh, front);
        rest = back;
    }
    Ok(out)
}
