//! Numbers of the text, and constant arithmetic.

ghost use Rattle.std.specs.Prelude.{◌≡◌};
ghost use Rattle.promela_model.specs.Names.{numeral, number_from_digits, joined_constants, applied, negated};

use pml_tree::tree::Infix;
use promela_model::mark::Constant;

/// The number that these digits spell, if it has 32 bits.
pub fn read(digits: &[u8]) -> Option<u32>
    ensures { result ≡ numeral digits.now }
{
    let mut so_far = 0u32;
    for digit in digits {
        let next = u64::from(so_far) * 10 + u64::from(digit.saturating_sub(48));
        if next > 4_294_967_295 {
            return None;
        }
        so_far = next as u32;
    }
    Some(so_far)
}

/// What a number gives.
pub fn value(digits: &[u8]) -> Constant
    ensures { result ≡ number_from_digits digits.now }
{
    match read(digits) {
        Some(n) => Constant::Is(n.cast_signed()),
        None => Constant::Faulty,
    }
}

/// A constant behind a `-`.
pub fn negative(a: Constant) -> Constant
    ensures { result ≡ negated a }
{
    match a {
        Constant::Is(x) => Constant::Is(x.wrapping_neg()),
        Constant::Faulty => Constant::Faulty,
        Constant::Open => Constant::Open,
    }
}

/// Two constants, with an operator between them.
pub fn join(op: Infix, a: Constant, b: Constant) -> Constant
    ensures { result ≡ joined_constants op a b }
{
    match a {
        Constant::Open => Constant::Open,
        Constant::Faulty => match b {
            Constant::Open => Constant::Open,
            _ => Constant::Faulty,
        },
        Constant::Is(x) => match b {
            Constant::Is(y) => apply(op, x, y),
            Constant::Faulty => Constant::Faulty,
            Constant::Open => Constant::Open,
        },
    }
}

fn apply(op: Infix, x: i32, y: i32) -> Constant
    ensures { result ≡ applied op x y }
{
    match op {
        Infix::Plus => Constant::Is(x.wrapping_add(y)),
        Infix::Minus => Constant::Is(x.wrapping_sub(y)),
        Infix::Times => Constant::Is(x.wrapping_mul(y)),
        Infix::Divide => {
            if y == 0 {
                return Constant::Faulty;
            }
            Constant::Is(x.wrapping_div(y))
        }
        Infix::Remainder => {
            if y == 0 {
                return Constant::Faulty;
            }
            Constant::Is(x.wrapping_rem(y))
        }
        _ => Constant::Faulty,
    }
}
