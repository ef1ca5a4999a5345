//! Models from their texts, which are played as far as memory goes.
use crate::run::{Choices, plays_checked};
use pml_play::{checked_of, expanded_of};
use pml_token::token::Token;
use std::alloc::Global;
use std::process::Abort;

fn plays_tokens<'a, R: Abort>(
    tokens: &'a [Token<'a>],
    rt: &R,
    alloc: Global,
    choices: Choices,
    kept: &mut Vec<usize>,
) {
    if let Ok(checked) = checked_of(alloc, tokens) {
        plays_checked(&checked, rt, alloc, choices, kept);
    }
}

/// How much the world of a model keeps at the start and after each step: nothing, where the text is no model.
pub fn kept_of<R: Abort>(rt: &R, alloc: Global, model: &str, choices: Choices) -> Vec<usize> {
    let mut kept = Vec::new(alloc);
    if let Ok(tokens) = expanded_of(alloc, model.as_bytes()) {
        plays_tokens(tokens.as_slice(), rt, alloc, choices, &mut kept);
    }
    kept
}
