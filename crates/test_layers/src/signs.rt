//! The signs of operators.
use pml_tree::tree::{Infix, Prefix};

/// The sign of an operator between two operands.
pub fn infix(op: Infix) -> &'static str {
    match op {
        Infix::Times => "*",
        Infix::Divide => "/",
        Infix::Remainder => "%",
        Infix::Plus => "+",
        Infix::Minus => "-",
        Infix::ShiftLeft => "<<",
        Infix::ShiftRight => ">>",
        Infix::Below => "<",
        Infix::AtMost => "<=",
        Infix::Above => ">",
        Infix::AtLeast => ">=",
        Infix::Equal => "==",
        Infix::Unequal => "!=",
        Infix::BitAnd => "&",
        Infix::BitXor => "^",
        Infix::BitOr => "|",
        Infix::And => "&&",
        Infix::Or => "||",
    }
}

/// The sign of an operator before its operand.
pub fn prefix(op: Prefix) -> &'static str {
    match op {
        Prefix::Not => "!",
        Prefix::Complement => "~",
        Prefix::Minus => "-",
    }
}
