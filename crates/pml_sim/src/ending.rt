//! How a run ends.

/// Whether each process may end where it stands.
#[derive(Clone, Copy, Debug, PartialEq, Eq)]
pub enum Ending {
    Valid,
    Invalid,
}
