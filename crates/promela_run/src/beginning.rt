//! What a cell begins with.

use diagnostics::Fault;

/// What a cell begins with, as far as it is known before anything is there.
#[derive(Clone, Copy, PartialEq, Eq, Debug)]
pub enum Beginning {
    Nothing,
    Number(i32),
    Fails(Fault),
    /// The number of a channel of its own.
    Channel,
}
