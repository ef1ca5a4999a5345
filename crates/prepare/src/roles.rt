//! What a token is to the end of a line, and to the block that it stands in.

ghost use Rattle.std.specs.Prelude.{◌≡◌};
ghost use Rattle.prepare.specs.Roles as roles;

use pml_token::token::Kind;

/// What a token is to preparing.
#[derive(Clone, Copy)]
pub enum TokenRole {
    /// `{`.
    Opens,
    /// `}`.
    Closes,
    /// `(`.
    Enters,
    /// `[`.
    Indexes,
    /// `)` or `]`.
    Leaves,
    /// `:`.
    Labels,
    /// `=`.
    Assigns,
    Typedef,
    For,
    Mtype,
    /// A string.
    Quotes,
    /// A name, which may begin a statement and end one.
    Names,
    /// Another token that may begin a statement and end one, as a number.
    Both,
    /// Another token that may begin a statement alone, as `!` and `if`.
    Begins,
    /// Another token that may end a statement alone, as `++`.
    Ends,
    /// `never`, `ltl`, `trace` or `notrace`.
    Heads,
    /// `::`, `fi` or `od`, behind which another part of a body stands.
    Parts,
    /// What is left out otherwise, and what is no token.
    LeftOut,
    /// Another token, which does neither.
    Other,
}

fn is_block_word(token: &[u8]) -> bool
    ensures { result ≡ roles.is_block_word token.now }
{
    token == b"never".as_slice()
        || (token == b"ltl".as_slice()
            || (token == b"trace".as_slice() || token == b"notrace".as_slice()))
}

/// What a token of this kind is that opens, closes or divides.
fn bracket_of(kind: Kind) -> TokenRole
    ensures { result ≡ roles.bracket kind }
{
    match kind {
        Kind::OpenBrace => TokenRole::Opens,
        Kind::CloseBrace => TokenRole::Closes,
        Kind::OpenParen => TokenRole::Enters,
        Kind::OpenBracket => TokenRole::Indexes,
        Kind::CloseParen | Kind::CloseBracket => TokenRole::Leaves,
        Kind::Colon => TokenRole::Labels,
        Kind::Assign => TokenRole::Assigns,
        Kind::DoubleColon | Kind::Fi | Kind::Od => TokenRole::Parts,
        Kind::Typedef => TokenRole::Typedef,
        Kind::For => TokenRole::For,
        Kind::Mtype => TokenRole::Mtype,
        Kind::Quoted => TokenRole::Quotes,
        Kind::Name => TokenRole::Names,
        Kind::LeftOut => TokenRole::LeftOut,
        _ => TokenRole::Other,
    }
}

fn is_both(kind: Kind) -> bool
    ensures { result ≡ roles.is_both kind }
{
    matches!(
        kind,
        Kind::Number | Kind::Skip | Kind::True | Kind::False | Kind::Timeout | Kind::Break
    )
}

fn is_ending(kind: Kind) -> bool
    ensures { result ≡ roles.is_ending kind }
{
    matches!(kind, Kind::Increment | Kind::Decrement)
}

/// Whether a token begins a declaration.
fn declares(kind: Kind) -> bool
    ensures { result ≡ roles.declares kind }
{
    matches!(
        kind,
        Kind::Bit
            | Kind::Bool
            | Kind::Byte
            | Kind::Chan
            | Kind::Hidden
            | Kind::Int
            | Kind::Local
            | Kind::Pid
            | Kind::Short
            | Kind::Show
            | Kind::Unsigned
            | Kind::Xr
            | Kind::Xs
    )
}

/// Whether a word begins a statement, and no expression.
fn acts(kind: Kind) -> bool
    ensures { result ≡ roles.acts kind }
{
    matches!(
        kind,
        Kind::Assert
            | Kind::Atomic
            | Kind::DStep
            | Kind::Do
            | Kind::Goto
            | Kind::If
            | Kind::Printf
            | Kind::Printm
            | Kind::Select
    )
}

/// Whether a word or a sign begins an expression, and ends none.
fn asks(kind: Kind) -> bool
    ensures { result ≡ roles.asks kind }
{
    matches!(
        kind,
        Kind::Empty
            | Kind::Full
            | Kind::Len
            | Kind::Nempty
            | Kind::Nfull
            | Kind::Run
            | Kind::Minus
            | Kind::Tilde
            | Kind::Bang
    )
}

/// What a token is, by its kind and its bytes.
pub fn role_of(kind: Kind, token: &[u8]) -> TokenRole
    ensures { result ≡ roles.role kind token.now }
{
    if is_block_word(token) {
        return TokenRole::Heads;
    }
    if is_both(kind) {
        return TokenRole::Both;
    }
    if is_ending(kind) {
        return TokenRole::Ends;
    }
    if declares(kind) || (acts(kind) || asks(kind)) {
        return TokenRole::Begins;
    }
    bracket_of(kind)
}

/// Whether a token may begin a statement.
pub fn begins(role: TokenRole) -> bool
    ensures { result ≡ roles.begins role }
{
    matches!(
        role,
        TokenRole::Opens
            | TokenRole::Enters
            | TokenRole::For
            | TokenRole::Mtype
            | TokenRole::Names
            | TokenRole::Both
            | TokenRole::Begins
    )
}
