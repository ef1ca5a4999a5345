//! Parts between a word or a brace and what closes it.

ghost use Rattle.std.specs.Prelude.{◌≡◌, ◌++◌, [], OnOk, IfOk};
ghost use Rattle.text_parts.specs.Folds.{opens, closes, last_of, ended, folds};

use pml_token::token::{Kind, Token, same_kind};
use std::alloc::{AllocError, Global};

/// A part of a text, by how many bytes stand before what opens it, and before what closes it.
#[derive(Clone, Copy, Debug, PartialEq, Eq)]
pub struct Fold {
    pub from: usize,
    pub to: usize,
}

/// Whether a part begins with this.
fn opens(kind: Kind) -> bool
    ensures { result ≡ opens kind }
{
    same_kind(kind, Kind::OpenBrace) || same_kind(kind, Kind::Do) || same_kind(kind, Kind::If)
}

/// Whether a part ends with this.
fn closes(kind: Kind) -> bool
    ensures { result ≡ closes kind }
{
    same_kind(kind, Kind::CloseBrace) || same_kind(kind, Kind::Od) || same_kind(kind, Kind::Fi)
}

/// Where what was opened last stands.
fn last_of(starts: &[usize]) -> Option<usize>
    ensures { result ≡ last_of starts.now }
{
    match starts {
        [.., last] => Some(*last),
        [] => None,
    }
}

/// Adds the part that ends at a place, if one is open.
fn add_ended(out: &mut Vec<Fold>, starts: &[usize], at: usize) -> Result<(), AllocError>
    ensures { OnOk result (out.new.items ≡ out.old.items ++ ended starts.now at) }
{
    if let Some(from) = last_of(starts) {
        out.push(Fold { from, to: at })?;
    }
    Ok(())
}

/// The parts between tokens, in the order in which they are closed; what closes without an opener ends none.
pub fn folds_of(alloc: Global, tokens: &[Token<'_>]) -> Result<Vec<Fold>, AllocError>
    ensures { IfOk result (λ fs. fs.items ≡ folds [] tokens.now) }
{
    let mut out = Vec::new(alloc);
    let mut starts: Vec<usize> = Vec::new(alloc);
    for token in tokens {
        let at = token.line() as usize;
        if opens(token.kind()) {
            starts.push(at)?;
        } else if closes(token.kind()) {
            add_ended(&mut out, &starts, at)?;
            starts.truncate(starts.len().saturating_sub(1));
        }
    }
    Ok(out)
}
