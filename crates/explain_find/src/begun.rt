//! The tokens of a text with other numbers of processes.

use explain_cause::brackets::closing;
use explain_cause::place::is_at;
use pml_token::token::{Kind, Token};
use std::alloc::{AllocError, Global};

/// How many processes begin of an `active` proctype.
#[derive(Clone, Copy)]
pub enum ActiveProcesses {
    /// None but that of an `init`.
    None,
    One,
}

/// The first token behind an `active` and its number.
fn behind_active(tokens: &[Token<'_>], active: usize) -> usize {
    let open = active.saturating_add(1);
    if !is_at(tokens, open, Kind::OpenBracket) {
        return open;
    }
    match closing(tokens, open) {
        Some(end) => end.saturating_add(1),
        None => open,
    }
}

/// Adds the tokens, with other numbers of processes.
fn add_begun<'t>(
    tokens: &[Token<'t>],
    begun: ActiveProcesses,
    list: &mut Vec<Token<'t>>,
) -> Result<(), AllocError> {
    let mut free = 0usize;
    for (i, token) in tokens.iter().enumerate() {
        let is_active = matches!(token.kind(), Kind::Active);
        if is_active {
            free = behind_active(tokens, i);
        }
        if free <= i || (is_active && matches!(begun, ActiveProcesses::One)) {
            list.push(token.copied())?;
        }
    }
    Ok(())
}

fn has_init(tokens: &[Token<'_>]) -> bool {
    for token in tokens {
        if matches!(token.kind(), Kind::Init) {
            return true;
        }
    }
    false
}

/// Adds an `init` that does nothing.
fn add_init(list: &mut Vec<Token<'_>>) -> Result<(), AllocError> {
    list.push(Token::new(Kind::Init, b"init", 0))?;
    list.push(Token::new(Kind::OpenBrace, b"{", 0))?;
    list.push(Token::new(Kind::Skip, b"skip", 0))?;
    list.push(Token::new(Kind::CloseBrace, b"}", 0))?;
    Ok(())
}

/// The tokens with one process of each `active` proctype, or with none but that of an `init`.
pub fn with_begun<'t>(
    alloc: Global,
    tokens: &[Token<'t>],
    begun: ActiveProcesses,
) -> Result<Vec<Token<'t>>, AllocError> {
    let mut list = Vec::with_capacity(alloc, tokens.len().saturating_add(4))?;
    add_begun(tokens, begun, &mut list)?;
    if matches!(begun, ActiveProcesses::None) && !has_init(tokens) {
        add_init(&mut list)?;
    }
    Ok(list)
}
