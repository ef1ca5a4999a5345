//! What a sign is meant for behind tokens of some kinds, in tables.

use explain_cause::foreign::Foreign;
use pml_token::token::{Kind, same_kind};

/// What a `=` is meant for behind one of these.
pub const ASSIGNS: [(Kind, Foreign); 13] = [
    (Kind::Name, Foreign::Comparison),
    (Kind::CloseBracket, Foreign::Comparison),
    (Kind::CloseParen, Foreign::Target),
    (Kind::Number, Foreign::Target),
    (Kind::Assign, Foreign::TwoEquals),
    (Kind::Mtype, Foreign::NamedMtype),
    (Kind::Bit, Foreign::TypeName),
    (Kind::Bool, Foreign::TypeName),
    (Kind::Byte, Foreign::TypeName),
    (Kind::Chan, Foreign::TypeName),
    (Kind::Int, Foreign::TypeName),
    (Kind::Pid, Foreign::TypeName),
    (Kind::Short, Foreign::TypeName),
];

/// What a `{` is meant for behind one of these.
pub const BRACES: [(Kind, Foreign); 9] = [
    (Kind::CloseBracket, Foreign::Channel),
    (Kind::Typedef, Foreign::Record),
    (Kind::Mtype, Foreign::NamedMtype),
    (Kind::For, Foreign::EndlessLoop),
    (Kind::Select, Foreign::SelectCases),
    (Kind::Bang, Foreign::MessageFields),
    (Kind::BangBang, Foreign::MessageFields),
    (Kind::Query, Foreign::MessageFields),
    (Kind::QueryQuery, Foreign::MessageFields),
];

/// What a `(` is meant for behind one of these.
pub const PARENS: [(Kind, Foreign); 9] = [
    (Kind::Init, Foreign::InitParameters),
    (Kind::Timeout, Foreign::TimeoutArgument),
    (Kind::Active, Foreign::ActiveCount),
    (Kind::Of, Foreign::ChannelTypes),
    (Kind::Atomic, Foreign::BraceBody),
    (Kind::DStep, Foreign::BraceBody),
    (Kind::Skip, Foreign::NoParens),
    (Kind::Break, Foreign::NoParens),
    (Kind::Else, Foreign::ElseArrow),
];

/// What a `(` is meant for behind one of these and a name.
pub const NAMED_PARENS: [(Kind, Foreign); 9] = [
    (Kind::Typedef, Foreign::Record),
    (Kind::Bit, Foreign::Array),
    (Kind::Bool, Foreign::Array),
    (Kind::Byte, Foreign::Array),
    (Kind::Chan, Foreign::Array),
    (Kind::Int, Foreign::Array),
    (Kind::Mtype, Foreign::Array),
    (Kind::Pid, Foreign::Array),
    (Kind::Short, Foreign::Array),
];

/// What a table has for a kind.
pub fn form_for(kind: Kind, table: &[(Kind, Foreign)]) -> Option<Foreign> {
    for (one, form) in table {
        if same_kind(kind, *one) {
            return Some(*form);
        }
    }
    None
}
