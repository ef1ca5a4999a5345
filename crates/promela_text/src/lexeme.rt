//! Lexemes of a text.

use pml_token::token::Kind;

/// What a byte begins.
#[derive(Clone, Copy, Debug, PartialEq, Eq)]
pub enum Class {
    /// A blank, which is a lexeme by itself.
    Blank,
    /// A word: a letter or `_`.
    Letter,
    /// A number.
    Digit,
    /// A string.
    Quote,
    /// A comment, or the sign `/`.
    Slash,
    /// A `#` line.
    Hash,
    /// Another sign, or nothing.
    Other,
}

/// What a lexeme of a text is.
#[derive(Clone, Copy, Debug, PartialEq, Eq)]
pub enum Lexeme {
    /// A blank, a comment or a `#` line that a preprocessor left.
    Skipped,
    /// A token of this kind.
    Token(Kind),
}
