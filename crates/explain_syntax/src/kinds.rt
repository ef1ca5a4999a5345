//! Kinds of tokens, by what they are to a statement, a value or a declaration.

ghost use Rattle.std.specs.Prelude.{◌≡◌};
ghost use Rattle.explain_cause.specs.Places.{is_among as among};

use explain_cause::place::is_among;
use pml_token::token::Kind;

/// The words that are types.
pub const TYPES: [Kind; 8] = [
    Kind::Bit,
    Kind::Bool,
    Kind::Byte,
    Kind::Chan,
    Kind::Int,
    Kind::Mtype,
    Kind::Pid,
    Kind::Short,
];

/// The words that stand for a type before a name.
pub const PLAIN_TYPES: [Kind; 9] = [
    Kind::Bit,
    Kind::Bool,
    Kind::Byte,
    Kind::Chan,
    Kind::Int,
    Kind::Mtype,
    Kind::Pid,
    Kind::Short,
    Kind::Unsigned,
];

/// What a name that is declared, or one more in the same declaration, stands behind.
pub const DECLARING: [Kind; 14] = [
    Kind::Bit,
    Kind::Bool,
    Kind::Byte,
    Kind::Chan,
    Kind::Int,
    Kind::Mtype,
    Kind::Pid,
    Kind::Short,
    Kind::Unsigned,
    Kind::Proctype,
    Kind::Typedef,
    Kind::Name,
    Kind::Comma,
    Kind::OpenBrace,
];

/// What parts declarations, or ends one.
pub const DECLARATION_ENDS: [Kind; 4] = [
    Kind::Semicolon,
    Kind::Comma,
    Kind::CloseBrace,
    Kind::OpenBracket,
];

/// What begins a unit of a model, which stands in no braces.
pub const UNITS: [Kind; 5] = [
    Kind::Active,
    Kind::Proctype,
    Kind::Init,
    Kind::Typedef,
    Kind::Inline,
];

/// What begins a statement that stands in no declaration.
pub const STATEMENTS: [Kind; 14] = [
    Kind::Assign,
    Kind::Assert,
    Kind::Atomic,
    Kind::Break,
    Kind::DStep,
    Kind::Do,
    Kind::For,
    Kind::Goto,
    Kind::If,
    Kind::Printf,
    Kind::Printm,
    Kind::Run,
    Kind::Select,
    Kind::Skip,
];

/// The signs that begin what is no declaration.
pub const OUTSIDE_SIGNS: [Kind; 9] = [
    Kind::Decrement,
    Kind::Minus,
    Kind::Percent,
    Kind::Star,
    Kind::Slash,
    Kind::OpenParen,
    Kind::Quoted,
    Kind::Bang,
    Kind::Less,
];

/// The signs that part statements or declarations.
pub const PARTING: [Kind; 7] = [
    Kind::Semicolon,
    Kind::Arrow,
    Kind::DoubleColon,
    Kind::OpenBrace,
    Kind::CloseBrace,
    Kind::Fi,
    Kind::Od,
];

/// What a statement ends at.
pub const STATEMENT_ENDS: [Kind; 6] = [
    Kind::Semicolon,
    Kind::Arrow,
    Kind::DoubleColon,
    Kind::CloseBrace,
    Kind::Fi,
    Kind::Od,
];

/// What an operand ends at.
pub const OPERAND_ENDS: [Kind; 9] = [
    Kind::CloseParen,
    Kind::CloseBracket,
    Kind::CloseBrace,
    Kind::Fi,
    Kind::Od,
    Kind::Semicolon,
    Kind::Arrow,
    Kind::DoubleColon,
    Kind::Comma,
];

/// What parts that which stands between parentheses, or ends it.
pub const PARTS_OF_PARENS: [Kind; 5] = [
    Kind::Comma,
    Kind::Colon,
    Kind::Dot,
    Kind::Semicolon,
    Kind::CloseParen,
];

/// The signs that compute with two values.
pub const ARITHMETIC: [Kind; 10] = [
    Kind::Plus,
    Kind::Minus,
    Kind::Star,
    Kind::Slash,
    Kind::Percent,
    Kind::Ampersand,
    Kind::Bar,
    Kind::Caret,
    Kind::ShiftLeft,
    Kind::ShiftRight,
];

/// Those of them that other languages have as `+ - * / %`.
pub const SUMS: [Kind; 5] = [
    Kind::Plus,
    Kind::Minus,
    Kind::Star,
    Kind::Slash,
    Kind::Percent,
];

/// The signs that compare two values.
pub const COMPARISONS: [Kind; 6] = [
    Kind::Less,
    Kind::Greater,
    Kind::AtMost,
    Kind::AtLeast,
    Kind::Equal,
    Kind::Unequal,
];

/// The signs that compare two values or join two conditions.
pub const OF_CONDITIONS: [Kind; 8] = [
    Kind::Less,
    Kind::Greater,
    Kind::AtMost,
    Kind::AtLeast,
    Kind::Equal,
    Kind::Unequal,
    Kind::AndAnd,
    Kind::OrOr,
];

/// Those of them that have two characters.
pub const JOINING: [Kind; 6] = [
    Kind::Equal,
    Kind::Unequal,
    Kind::AtMost,
    Kind::AtLeast,
    Kind::AndAnd,
    Kind::OrOr,
];

/// The signs that want a value behind them.
pub const WANTING: [Kind; 23] = [
    Kind::Plus,
    Kind::Minus,
    Kind::Star,
    Kind::Slash,
    Kind::Percent,
    Kind::Ampersand,
    Kind::Bar,
    Kind::Caret,
    Kind::ShiftLeft,
    Kind::ShiftRight,
    Kind::Assign,
    Kind::Equal,
    Kind::Unequal,
    Kind::Less,
    Kind::Greater,
    Kind::AtMost,
    Kind::AtLeast,
    Kind::AndAnd,
    Kind::OrOr,
    Kind::Bang,
    Kind::BangBang,
    Kind::Query,
    Kind::QueryQuery,
];

/// The signs that a message is received by.
pub const RECEIVES: [Kind; 2] = [Kind::Query, Kind::QueryQuery];

/// The signs that a message is sent or received by.
pub const MESSAGES: [Kind; 4] = [Kind::Bang, Kind::BangBang, Kind::Query, Kind::QueryQuery];

/// The words of statements that take values.
pub const TAKING_VALUES: [Kind; 4] = [Kind::Printf, Kind::Printm, Kind::Assert, Kind::Run];

/// The words that begin options.
pub const OPTIONS: [Kind; 2] = [Kind::If, Kind::Do];

/// The words that end them.
pub const OPTION_ENDS: [Kind; 2] = [Kind::Fi, Kind::Od];

/// What the call of an inline may stand behind that is meant for its value.
pub const BEFORE_VALUES: [Kind; 12] = [
    Kind::Assign,
    Kind::OpenParen,
    Kind::Comma,
    Kind::Equal,
    Kind::Unequal,
    Kind::Less,
    Kind::Greater,
    Kind::Plus,
    Kind::Minus,
    Kind::Bang,
    Kind::AndAnd,
    Kind::OrOr,
];

/// What such a call may stand in front of.
pub const BEHIND_VALUES: [Kind; 11] = [
    Kind::Equal,
    Kind::Unequal,
    Kind::Less,
    Kind::Greater,
    Kind::AtMost,
    Kind::AtLeast,
    Kind::Plus,
    Kind::Minus,
    Kind::Star,
    Kind::AndAnd,
    Kind::OrOr,
];

/// What a string may stand behind that is meant for a value.
pub const BEFORE_TEXTS: [Kind; 7] = [
    Kind::Assign,
    Kind::Equal,
    Kind::Unequal,
    Kind::Bang,
    Kind::BangBang,
    Kind::OpenParen,
    Kind::Comma,
];

/// What is no label.
pub const NO_LABELS: [Kind; 9] = [
    Kind::Semicolon,
    Kind::Arrow,
    Kind::DoubleColon,
    Kind::CloseBrace,
    Kind::Fi,
    Kind::Od,
    Kind::Number,
    Kind::Quoted,
    Kind::OpenParen,
];

/// The words that ask a channel for what it holds.
pub const CHANNEL_QUESTIONS: [Kind; 5] = [
    Kind::Len,
    Kind::Empty,
    Kind::Full,
    Kind::Nempty,
    Kind::Nfull,
];

/// Whether a kind is that of a word that is a type.
pub fn is_type(kind: Kind) -> bool
    ensures { result ≡ among kind TYPES }
{
    is_among(kind, &TYPES)
}
