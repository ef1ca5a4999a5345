//! Why tokens have no expansion.

use crate::misuse::{Limit, Misuse};
use std::alloc::{AllocError, AllocFailed};
use thiserror::Error;

/// The least reason that tokens are refused for.
#[derive(Clone, Copy, Debug, PartialEq, Eq, Error)]
pub enum InlineError {
    /// Memory for the list of tokens was refused. It says nothing of the tokens.
    #[error("out of memory")]
    Memory,
    /// A definition or a call of an inline is not right.
    #[error("inline")]
    Inline(Misuse),
    /// What comes out is too deep, or has too long a row. The line is that of the token that passes the limit.
    #[error("line {0}: too deep")]
    TooDeep(u32, Limit),
}

impl From<AllocError> for InlineError {
    ghost use Rattle.std.specs.Prelude.{◌≡◌};
    ghost use Rattle.promela_text.specs.declared.inline_fault.InlineError.TheVariants.{Memory};

    ghost from_gives = { λ _ f. f ≡ Memory };

    fn from(_: AllocError) -> InlineError {
        InlineError::Memory
    }
}

impl<T: Drop> From<AllocFailed<T>> for InlineError {
    ghost use Rattle.std.specs.Prelude.{◌≡◌};
    ghost use Rattle.promela_text.specs.declared.inline_fault.InlineError.TheVariants.{Memory};

    ghost from_gives = { λ _ f. f ≡ Memory };

    fn from(_: AllocFailed<T>) -> InlineError {
        InlineError::Memory
    }
}
