//! How a line of the choices ends.

/// How a line of the choices ends.
#[derive(Clone, Copy, Debug, PartialEq, Eq)]
pub enum LineEnd {
    /// By a line feed.
    Whole,
    /// By the end of the choices.
    Last,
    /// Not within one byte more than a line may have.
    TooLong,
}
