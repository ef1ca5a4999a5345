//! Whether expressions, references and arguments are the same for every process.

ghost use Rattle.std.specs.Prelude.{◌≡◌, true};
ghost use Rattle.common_offers.specs.Alike.{IsCommon, IsCommonPlace, IsCommonWant, AreCommonWants};

use pml_program::expr::{Expr, Target, Want};

/// Whether every process has the same value of an expression, as of one of numbers, global variables without an index, `timeout` and
/// `_nr_pr`. It may say no of others.
#[tactic(auto, using(crate::proofs::Alike::binary_common))]
pub fn is_common(e: &Expr) -> bool
    ensures { result ≡ true → IsCommon e.now }
{
    match e {
        Expr::Number(_) | Expr::ProcessCount | Expr::Timeout => true,
        Expr::Read(target) => is_common_place(target),
        Expr::Ask(_, target) => is_common_place(target.get()),
        Expr::Unary(_, a) => is_common(a.get()),
        Expr::Binary(_, a, b) => is_common(a.get()) && is_common(b.get()),
        Expr::Pid | Expr::Poll(_, _, _) | Expr::Choice(_, _, _) => false,
    }
}

/// Whether a reference leads every process to the same place, as a global variable without an index.
pub fn is_common_place(target: &Target) -> bool
    ensures { result ≡ true → IsCommonPlace target.now }
{
    if target.local {
        return false;
    }
    for turn in target.turns.as_slice() {
        if turn.index.is_some() {
            return false;
        }
    }
    true
}

/// Whether every process asks the same of a field.
fn is_common_want(want: &Want) -> bool
    ensures { result ≡ true → IsCommonWant want.now }
{
    match want {
        Want::Exactly(_) | Want::Anything => true,
        Want::Equal(e) => is_common(e.get()),
        Want::Into(target) => is_common_place(target),
    }
}

/// Whether every process asks the same of a message.
pub fn are_common(wants: &[Want]) -> bool
    ensures { result ≡ true → AreCommonWants wants.now }
{
    for want in wants {
        if !is_common_want(want) {
            return false;
        }
    }
    true
}
