//! Constant expressions.

ghost use Rattle.std.specs.Prelude.{◌≡◌};
ghost use Rattle.promela_model.specs.Names.{constant, is_constant};

use crate::arithmetic::{join, negative, value};
use pml_tree::tree::{Expr, Infix, Prefix};
use promela_model::mark::Constant;

/// What an expression gives as a constant expression.
pub fn constant(e: &Expr) -> Constant
    ensures { result ≡ constant e.now }
{
    match e {
        Expr::Number(n) => value(n.text()),
        Expr::Truth(b) => Constant::Is(if *b { 1 } else { 0 }),
        Expr::Unary(Prefix::Minus, a) => negative(constant(a.get())),
        Expr::Binary(op, a, b) => {
            if is_constant(*op) {
                join(*op, constant(a.get()), constant(b.get()))
            } else {
                Constant::Open
            }
        }
        _ => Constant::Open,
    }
}

fn is_constant(op: Infix) -> bool
    ensures { result ≡ is_constant op }
{
    match op {
        Infix::Plus | Infix::Minus | Infix::Times | Infix::Divide | Infix::Remainder => true,
        _ => false,
    }
}
