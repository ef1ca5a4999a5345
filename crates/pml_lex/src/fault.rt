//! Why a text has no list of tokens.

use std::alloc::{AllocError, AllocFailed};
use thiserror::Error;

/// The least reason that a text is refused for. A number is a line of the text, counted from 1 by line feeds.
#[derive(Clone, Copy, Debug, PartialEq, Eq, Error)]
pub enum LexError {
    /// Memory for the list of tokens was refused. It says nothing of the text.
    #[error("out of memory")]
    Memory,
    /// The text has more than 1,048,576 bytes.
    #[error("text too long")]
    TooLong,
    /// The text cannot be cut: a byte begins no token, or a string or a `/*` comment has no end. The line is that of
    /// the byte, or of the first byte of the string or comment.
    #[error("line {0}: lexical")]
    Lexical(u32),
    /// A word, a sign or a `#` line stands in the text that is left out here, as `never` and `#define`. The line is
    /// that of the first one.
    #[error("line {0}: left out")]
    LeftOut(u32),
}

impl From<AllocError> for LexError {
    ghost use Rattle.std.specs.Prelude.{◌≡◌};
    ghost use Rattle.pml_lex.specs.declared.fault.LexError.TheVariants.{Memory};

    ghost from_gives = { λ _ f. f ≡ Memory };

    fn from(_: AllocError) -> LexError {
        LexError::Memory
    }
}

impl<T: Drop> From<AllocFailed<T>> for LexError {
    ghost use Rattle.std.specs.Prelude.{◌≡◌};
    ghost use Rattle.pml_lex.specs.declared.fault.LexError.TheVariants.{Memory};

    ghost from_gives = { λ _ f. f ≡ Memory };

    fn from(_: AllocFailed<T>) -> LexError {
        LexError::Memory
    }
}
