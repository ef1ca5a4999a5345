//! Numbers as digits name them, and what becomes of two of them.

ghost use Rattle.std.specs.Prelude.{◌≡◌};
ghost use Rattle.computed_sizes.specs.Counts as counts;

use crate::MOST_SIZE;

/// What is to be done with the next number of a product.
#[derive(Clone, Copy)]
pub enum ProductStep {
    /// It is the first.
    First,
    Times,
    Over,
    Rest,
}

/// A sum before its last product is added to it, or taken from it.
#[derive(Clone, Copy)]
pub struct Sum {
    pub before: u32,
    pub is_minus: bool,
    pub product: u32,
    pub step: ProductStep,
}

// The number behind one digit more; what is too large stays so.
fn digit_behind(number: u32, b: u8) -> u32
    ensures { result ≡ counts.digit_behind number b }
{
    if number > MOST_SIZE {
        number
    } else {
        number * 10 + u32::from(b.saturating_sub(b'0'))
    }
}

// The number that digits name; more than the largest where it is too large.
fn number(digits: &[u8]) -> u32
    ensures { result ≡ counts.number digits.now }
{
    let mut number = 0;
    let mut rest = digits;
    while let [b, back @ ..] = rest {
        number = digit_behind(number, *b);
        rest = back;
    }
    number
}

// A number that is not too large.
fn bounded(number: u32) -> Option<u32>
    ensures { result ≡ counts.bounded number }
{
    if number > MOST_SIZE {
        None
    } else {
        Some(number)
    }
}

/// The number that digits name, if it is not too large.
pub fn number_of(digits: &[u8]) -> Option<u32>
    ensures { result ≡ counts.number_of digits.now }
{
    bounded(number(digits))
}

fn times(one: u32, other: u32) -> Option<u32>
    ensures { result ≡ counts.times one other }
{
    if one > MOST_SIZE || other > MOST_SIZE {
        return None;
    }
    match one.checked_mul(other) {
        Some(product) => bounded(product),
        None => None,
    }
}

fn added(one: u32, other: u32) -> Option<u32>
    ensures { result ≡ counts.added one other }
{
    if one > MOST_SIZE || other > MOST_SIZE {
        None
    } else {
        bounded(one + other)
    }
}

// A product with one number more.
fn stepped(step: ProductStep, product: u32, number: u32) -> Option<u32>
    ensures { result ≡ counts.stepped step product number }
{
    match step {
        ProductStep::First => Some(number),
        ProductStep::Times => times(product, number),
        ProductStep::Over => {
            if number == 0 {
                None
            } else {
                Some(product / number)
            }
        }
        ProductStep::Rest => {
            if number == 0 {
                None
            } else {
                Some(product % number)
            }
        }
    }
}

impl Sum {
    /// A sum before its first number, which is added to a number or taken from it.
    pub fn behind(before: u32, is_minus: bool) -> Sum
        ensures { result ≡ counts.behind before is_minus }
    {
        Sum {
            before,
            is_minus,
            product: 0,
            step: ProductStep::First,
        }
    }

    /// With one number more.
    pub fn with(self, number: u32) -> Option<Sum>
        ensures { result ≡ counts.with self number }
    {
        match stepped(self.step, self.product, number) {
            Some(product) => Some(Sum { product, ..self }),
            None => None,
        }
    }

    /// What it comes to.
    pub fn total(self) -> Option<u32>
        ensures { result ≡ counts.total self }
    {
        if self.is_minus {
            if self.product > self.before {
                None
            } else {
                Some(self.before - self.product)
            }
        } else {
            added(self.before, self.product)
        }
    }
}
