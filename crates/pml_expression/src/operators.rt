//! The operators of expressions.

ghost use Rattle.std.specs.Prelude.{◌≡◌, ◌≤◌};
ghost use Rattle.promela_grammar.specs.Expressions as grammar;
ghost use Rattle.pml_expression.specs.Starts as starts;

use pml_token::token::Kind;
use pml_tree::tree::{Fill, Infix, Prefix, Search};

/// What a token begins, where an operand or an argument is to stand.
#[derive(Clone, Copy)]
pub enum Start {
    Name,
    Number,
    Truth(bool),
    Timeout,
    Ask(Fill),
    Prefix(Prefix),
    Group,
    Eval,
    Other,
}

/// Operators before an operand bind tighter than all between two.
pub const PREFIX_LEVEL: u8 = 11;

/// The operator between two operands that a token stands for.
pub fn operator(kind: Kind) -> Option<Infix>
    ensures { result ≡ grammar.operator kind }
{
    match kind {
        Kind::OrOr => Some(Infix::Or),
        Kind::AndAnd => Some(Infix::And),
        Kind::Bar => Some(Infix::BitOr),
        Kind::Caret => Some(Infix::BitXor),
        Kind::Ampersand => Some(Infix::BitAnd),
        Kind::Equal => Some(Infix::Equal),
        Kind::Unequal => Some(Infix::Unequal),
        Kind::Less => Some(Infix::Below),
        Kind::AtMost => Some(Infix::AtMost),
        Kind::Greater => Some(Infix::Above),
        Kind::AtLeast => Some(Infix::AtLeast),
        Kind::ShiftLeft => Some(Infix::ShiftLeft),
        Kind::ShiftRight => Some(Infix::ShiftRight),
        Kind::Plus => Some(Infix::Plus),
        Kind::Minus => Some(Infix::Minus),
        Kind::Star => Some(Infix::Times),
        Kind::Slash => Some(Infix::Divide),
        Kind::Percent => Some(Infix::Remainder),
        _ => None,
    }
}

/// How tightly an operator binds its operands, from 1.
pub fn level(op: Infix) -> u8
    ensures value { result ≡ grammar.level op }
    ensures small { result ≤ 10 }
{
    match op {
        Infix::Or => 1,
        Infix::And => 2,
        Infix::BitOr => 3,
        Infix::BitXor => 4,
        Infix::BitAnd => 5,
        Infix::Equal | Infix::Unequal => 6,
        Infix::Below | Infix::AtMost | Infix::Above | Infix::AtLeast => 7,
        Infix::ShiftLeft | Infix::ShiftRight => 8,
        Infix::Plus | Infix::Minus => 9,
        Infix::Times | Infix::Divide | Infix::Remainder => 10,
    }
}

/// The messages that a token looks at, if it is `?` or `??`.
pub fn query(kind: Kind) -> Option<Search>
    ensures { result ≡ grammar.query kind }
{
    match kind {
        Kind::Query => Some(Search::First),
        Kind::QueryQuery => Some(Search::Matching),
        _ => None,
    }
}

/// What a token begins.
pub fn start_of(kind: Kind) -> Start
    ensures { result ≡ starts.start kind }
{
    match kind {
        Kind::Name => Start::Name,
        Kind::Number => Start::Number,
        Kind::True | Kind::Skip => Start::Truth(true),
        Kind::False => Start::Truth(false),
        Kind::Timeout => Start::Timeout,
        Kind::Len => Start::Ask(Fill::Length),
        Kind::Empty => Start::Ask(Fill::IsEmpty),
        Kind::Full => Start::Ask(Fill::IsFull),
        Kind::Nempty => Start::Ask(Fill::IsNotEmpty),
        Kind::Nfull => Start::Ask(Fill::IsNotFull),
        Kind::Bang => Start::Prefix(Prefix::Not),
        Kind::Tilde => Start::Prefix(Prefix::Complement),
        Kind::Minus => Start::Prefix(Prefix::Minus),
        Kind::OpenParen => Start::Group,
        Kind::Eval => Start::Eval,
        _ => Start::Other,
    }
}
