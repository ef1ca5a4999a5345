//! Tokens of a text, which they borrow.

ghost use Rattle.std.specs.Prelude.{◌≡◌};
ghost use Rattle.pml_token.specs.Word.{same_kind as equal};

use std::marker::Model;

/// What a token is. Each reserved word and each sign of Promela has a kind of its own.
#[derive(Clone, Copy, Debug, PartialEq, Eq)]
pub enum Kind {
    /// A letter or `_`, then letters, digits and `_`, and no word that is reserved or left out.
    Name,
    /// Decimal digits, of any value.
    Number,
    /// A string with its quotes, its backslashes as they are written.
    Quoted,
    /// A word, a sign or a `#` line that stands for something that is left out.
    LeftOut,
    Active,
    Assert,
    Atomic,
    Bit,
    Bool,
    Break,
    Byte,
    Chan,
    DStep,
    Do,
    Else,
    Empty,
    Eval,
    False,
    Fi,
    For,
    Full,
    Goto,
    Hidden,
    If,
    Init,
    Inline,
    Int,
    Len,
    Local,
    Mtype,
    Nempty,
    Nfull,
    Od,
    Of,
    Pid,
    Printf,
    Printm,
    Proctype,
    Run,
    Select,
    Short,
    Show,
    Skip,
    Timeout,
    True,
    Typedef,
    Unless,
    Unsigned,
    Xr,
    Xs,
    Arrow,
    DoubleColon,
    DotDot,
    Increment,
    Decrement,
    ShiftLeft,
    ShiftRight,
    AtMost,
    AtLeast,
    Equal,
    Unequal,
    AndAnd,
    OrOr,
    BangBang,
    QueryQuery,
    OpenParen,
    CloseParen,
    OpenBracket,
    CloseBracket,
    OpenBrace,
    CloseBrace,
    Comma,
    Semicolon,
    Colon,
    Dot,
    Plus,
    Minus,
    Star,
    Slash,
    Percent,
    Ampersand,
    Bar,
    Caret,
    Tilde,
    Bang,
    Less,
    Greater,
    Assign,
    Query,
    /// Behind the last token. No token is of this kind.
    End,
}

/// Whether two kinds are the same.
pub fn same_kind(a: Kind, b: Kind) -> bool
    ensures { result ≡ equal a b }
{
    a == b
}

/// A token: its kind, its bytes in the text, and the line of the first of them.
#[derive(Debug, Drop)]
pub struct Token<'t> {
    text: &'t [u8],
    line: u32,
    kind: Kind,
}

impl<'t> Model for Token<'t> {
    ghost use Rattle.pml_token.specs.Word.{Word};

    ghost Value = { Word };

    ghost view = { λ t. record { kind = t.kind; text = t.text.now; line = t.line } };
}

impl<'t> Token<'t> {
    /// A token of these parts.
    pub fn new(kind: Kind, text: &'t [u8], line: u32) -> Token<'t>
        ensures { result ≡ record { kind = kind; text = text.now; line = line } }
    {
        Token { kind, text, line }
    }

    /// What the token is.
    pub fn kind(&self) -> Kind
        ensures { result ≡ self.now.kind }
    {
        self.kind
    }

    /// The token's bytes, as they stand in the text.
    pub fn text(&self) -> &'t [u8]
        ensures { result.now ≡ self.now.text }
    {
        self.text
    }

    /// The line of the token's first byte, counted from 1 by line feeds.
    pub fn line(&self) -> u32
        ensures { result ≡ self.now.line }
    {
        self.line
    }

    /// The same token again.
    pub fn copied(&self) -> Token<'t>
        ensures { result ≡ self.now }
    {
        Token {
            kind: self.kind,
            text: self.text,
            line: self.line,
        }
    }
}
