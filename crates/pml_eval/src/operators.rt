//! The operators on two numbers, or on one.

ghost use Rattle.std.specs.Prelude.{◌≡◌};
ghost use Rattle.pml_tree.specs.declared.tree.Infix.TheVariants as op;
ghost use Rattle.promela_process.specs.Numbers.{prefixed, infixed, decided, shifted_left, shifted_right, truth_number};

use diagnostics::Fault;
use pml_tree::tree::{Infix, Prefix};

/// 1 for true, 0 for false.
pub fn number_of(b: bool) -> i32
    ensures { result ≡ truth_number b }
{
    if b { 1 } else { 0 }
}

/// An operator before its operand.
pub fn prefix(op: Prefix, v: i32) -> i32
    ensures { result ≡ prefixed op v }
{
    match op {
        Prefix::Not => number_of(v == 0),
        Prefix::Complement => !v,
        Prefix::Minus => v.wrapping_neg(),
    }
}

/// An operator between its operands.
#[inline(always)]
pub fn infix(op: Infix, a: i32, b: i32) -> Result<i32, Fault>
    ensures { result ≡ infixed op a b }
{
    match op {
        Infix::Times => Ok(a.wrapping_mul(b)),
        Infix::Divide => quotient(a, b),
        Infix::Remainder => remainder(a, b),
        Infix::Plus => Ok(a.wrapping_add(b)),
        Infix::Minus => Ok(a.wrapping_sub(b)),
        Infix::ShiftLeft => Ok(shift_left(a, b)),
        Infix::ShiftRight => Ok(shift_right(a, b)),
        Infix::Below => Ok(number_of(a < b)),
        Infix::AtMost => Ok(number_of(a <= b)),
        Infix::Above => Ok(number_of(a > b)),
        Infix::AtLeast => Ok(number_of(a >= b)),
        Infix::Equal => Ok(number_of(a == b)),
        Infix::Unequal => Ok(number_of(a != b)),
        Infix::BitAnd => Ok(a & b),
        Infix::BitXor => Ok(a ^ b),
        Infix::BitOr => Ok(a | b),
        Infix::And => Ok(number_of(a != 0 && b != 0)),
        Infix::Or => Ok(number_of(a != 0 || b != 0)),
    }
}

/// What an operator gives where its left operand decides.
pub fn decide(op: Infix, a: i32) -> Option<i32>
    ensures { result ≡ decided op a }
{
    match op {
        Infix::And => { if a == 0 { Some(0) } else { None } }
        Infix::Or => { if a == 0 { None } else { Some(1) } }
        _ => None,
    }
}

fn quotient(a: i32, b: i32) -> Result<i32, Fault>
    ensures { result ≡ infixed op.Divide a b }
{
    if b == 0 {
        return Err(Fault::ZeroDivisor);
    }
    Ok(a.wrapping_div(b))
}

fn remainder(a: i32, b: i32) -> Result<i32, Fault>
    ensures { result ≡ infixed op.Remainder a b }
{
    if b == 0 {
        return Err(Fault::ZeroDivisor);
    }
    Ok(a.wrapping_rem(b))
}

fn shift_left(a: i32, b: i32) -> i32
    ensures { result ≡ shifted_left a b }
{
    if 0 <= b && b < 32 { a << b } else { 0 }
}

fn shift_right(a: i32, b: i32) -> i32
    ensures { result ≡ shifted_right a b }
{
    if 0 <= b && b < 32 { a >> b } else { 0 }
}
