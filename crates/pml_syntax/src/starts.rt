//! What a token begins, where a statement is to stand.

ghost use Rattle.std.specs.Prelude.{◌≡◌};
ghost use Rattle.promela_grammar.specs.Actions as grammar;
ghost use Rattle.pml_syntax.specs.Starts as starts;
ghost use Rattle.pml_syntax.specs.ReadingUnits as units;

use pml_token::token::Kind;
use pml_tree::tree::{Scalar, Search, SendOrder};

/// A statement by its structure. `Other` has none.
#[derive(Clone, Copy)]
pub enum Opening {
    If,
    Do,
    Block,
    Atomic,
    DStep,
    For,
    Select,
    Goto,
    Break,
    Other,
}

/// A statement without structure. `Other` is an expression, if anything.
#[derive(Clone, Copy)]
pub enum Deed {
    Else,
    Name,
    Run,
    Group,
    Printf,
    Printm,
    Assert,
    Other,
}

/// What a statement that begins with a reference does with it. `Other` goes on with an expression.
#[derive(Clone, Copy)]
pub enum Change {
    Assign,
    Increment,
    Decrement,
    /// `!` or `!!`.
    Send(SendOrder),
    /// `?` or `??`.
    Receive(Search),
    Other,
}

/// A unit of a model. `Other` is a declaration, if anything.
#[derive(Clone, Copy)]
pub enum Head {
    /// A list of names, or a declaration.
    Mtype,
    Typedef,
    Proctype,
    Init,
    Other,
}

/// The structure of a statement that begins with a token.
pub fn opening_of(kind: Kind) -> Opening
    ensures { result ≡ starts.opening kind }
{
    match kind {
        Kind::If => Opening::If,
        Kind::Do => Opening::Do,
        Kind::OpenBrace => Opening::Block,
        Kind::Atomic => Opening::Atomic,
        Kind::DStep => Opening::DStep,
        Kind::For => Opening::For,
        Kind::Select => Opening::Select,
        Kind::Goto => Opening::Goto,
        Kind::Break => Opening::Break,
        _ => Opening::Other,
    }
}

/// What a statement without structure does, by its first token.
pub fn deed_of(kind: Kind) -> Deed
    ensures { result ≡ starts.deed kind }
{
    match kind {
        Kind::Else => Deed::Else,
        Kind::Name => Deed::Name,
        Kind::Run => Deed::Run,
        Kind::OpenParen => Deed::Group,
        Kind::Printf => Deed::Printf,
        Kind::Printm => Deed::Printm,
        Kind::Assert => Deed::Assert,
        _ => Deed::Other,
    }
}

/// What is done with a reference, by the token behind it.
pub fn change_of(kind: Kind) -> Change
    ensures { result ≡ starts.change kind }
{
    match kind {
        Kind::Assign => Change::Assign,
        Kind::Increment => Change::Increment,
        Kind::Decrement => Change::Decrement,
        Kind::Bang => Change::Send(SendOrder::Fifo),
        Kind::BangBang => Change::Send(SendOrder::Sorted),
        Kind::Query => Change::Receive(Search::First),
        Kind::QueryQuery => Change::Receive(Search::Matching),
        _ => Change::Other,
    }
}

/// The unit that begins with a token.
pub fn head_of(kind: Kind) -> Head
    ensures { result ≡ starts.head kind }
{
    match kind {
        Kind::Mtype => Head::Mtype,
        Kind::Typedef => Head::Typedef,
        Kind::Active => Head::Proctype,
        Kind::Proctype => Head::Proctype,
        Kind::Init => Head::Init,
        _ => Head::Other,
    }
}

/// Whether a token begins a declaration, if it is no typedef's name.
pub fn declares(kind: Kind) -> bool
    ensures { result ≡ starts.declares kind }
{
    matches!(
        kind,
        Kind::Hidden
            | Kind::Show
            | Kind::Local
            | Kind::Bit
            | Kind::Bool
            | Kind::Byte
            | Kind::Chan
            | Kind::Mtype
            | Kind::Pid
            | Kind::Short
            | Kind::Int
            | Kind::Unsigned
    )
}

/// Whether a token comes behind a body.
pub fn is_end(kind: Kind) -> bool
    ensures { result ≡ starts.is_end kind }
{
    matches!(
        kind,
        Kind::CloseBrace | Kind::Fi | Kind::Od | Kind::DoubleColon | Kind::End
    )
}

/// Whether a token may stand between two items.
pub fn is_separator(kind: Kind) -> bool
    ensures { result ≡ grammar.is_separator kind }
{
    matches!(kind, Kind::Semicolon | Kind::Arrow)
}

/// Whether a token says who sees a variable.
pub fn is_visibility(kind: Kind) -> bool
    ensures { result ≡ grammar.is_visibility kind }
{
    matches!(kind, Kind::Hidden | Kind::Show | Kind::Local)
}

/// Whether a token is `xr` or `xs`.
pub fn is_exclusive(kind: Kind) -> bool
    ensures { result ≡ grammar.is_exclusive kind }
{
    matches!(kind, Kind::Xr | Kind::Xs)
}

/// Whether a token stands between two parameters.
pub fn parts_parameters(kind: Kind) -> bool
    ensures { result ≡ units.parts_parameters kind }
{
    matches!(kind, Kind::Semicolon | Kind::Comma)
}

/// The type that a token names.
pub fn scalar(kind: Kind) -> Option<Scalar>
    ensures { result ≡ grammar.scalar kind }
{
    match kind {
        Kind::Bit => Some(Scalar::Bit),
        Kind::Bool => Some(Scalar::Bool),
        Kind::Byte => Some(Scalar::Byte),
        Kind::Chan => Some(Scalar::Chan),
        Kind::Mtype => Some(Scalar::Mtype),
        Kind::Pid => Some(Scalar::Pid),
        Kind::Short => Some(Scalar::Short),
        Kind::Int => Some(Scalar::Int),
        _ => None,
    }
}
