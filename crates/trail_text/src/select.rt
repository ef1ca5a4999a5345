//! A `select` over few numbers, which Spin takes in one step, `x = 2`, and which is a loop here: `x = 0`, and then `x < 3` and `x ++` twice.

ghost use Rattle.std.specs.Prelude.{◌<◌, List, ℕ, IfSome, codes};
ghost use Rattle.trail_text.specs.Parts.{IsParted};
ghost use Rattle.trail_text.specs.Strides.{IsStride};

use crate::scan::{number_first, parted};

/// The variable and the number of a spelled statement that gives it one: `x=2`.
pub fn assigned(spelled: &[u8]) -> Option<(&[u8], usize)>
    ensures { IfSome result (λ p. (digits : List ℕ) × IsParted spelled.now (codes "=") p.0.now digits) }
{
    let Some((name, rest)) = parted(spelled, b"=") else {
        return None;
    };
    let (number, behind) = number_first(rest)?;
    if behind.is_empty() {
        Some((name, number))
    } else {
        None
    }
}

/// How often a `select` that begins with one of two spelled statements counts up to come to the other.
pub fn counts_to(first: &[u8], wanted: &[u8]) -> Option<usize>
    ensures { IfSome result (λ n. 0 < n) }
{
    let (name, from) = assigned(first)?;
    let (other, to) = assigned(wanted)?;
    if name == other && from < to {
        Some(to - from)
    } else {
        None
    }
}

/// What a step of a `select` does to come to a spelled statement.
#[derive(Clone, Copy, Debug, PartialEq, Eq)]
pub enum Stride {
    /// It asks whether it may count up.
    Asks,
    Counts,
}

/// What a spelled statement does in a `select` that is to come to another, if it is a part of it.
pub fn stride_of(spelled: &[u8], wanted: &[u8]) -> Option<Stride>
    ensures { IfSome result (IsStride spelled.now wanted.now) }
{
    let (name, _) = assigned(wanted)?;
    let behind = spelled.strip_prefix(name)?;
    if behind.starts_with(b"<") {
        return Some(Stride::Asks);
    }
    let again = behind.strip_prefix(b"=")?.strip_prefix(name)?;
    if again == b"+1".as_slice() {
        Some(Stride::Counts)
    } else {
        None
    }
}
