//! What an expression of numbers comes to.

ghost use Rattle.std.specs.Prelude.{◌≡◌};
ghost use Rattle.computed_sizes.specs.Worths as worths;

use crate::count::{ProductStep, Sum, number_of};
use pml_token::token::{Kind, same_kind};
use prepare::stretch::Stretch;

/// What is known before a token of an expression: its sums, of which the inner ones stand in parentheses of the outer ones.
#[derive(Clone, Copy)]
pub struct NestedSums {
    pub inner: Sum,
    pub outer: Sum,
    pub outmost: Sum,
    /// How many parentheses are open: two at most.
    pub depth: u32,
    /// Whether a number is to come, or `(`.
    pub is_open: bool,
}

// Behind the word of a product.
fn multiplied(course: NestedSums, step: ProductStep) -> NestedSums
    ensures { result ≡ worths.multiplied course step }
{
    NestedSums {
        inner: Sum {
            step,
            ..course.inner
        },
        is_open: true,
        ..course
    }
}

// Behind `+` or `-`.
fn summed(course: NestedSums, is_minus: bool) -> Option<NestedSums>
    ensures { result ≡ worths.summed course is_minus }
{
    match course.inner.total() {
        Some(total) => Some(NestedSums {
            inner: Sum::behind(total, is_minus),
            is_open: true,
            ..course
        }),
        None => None,
    }
}

// Behind `(`.
fn entered(course: NestedSums) -> Option<NestedSums>
    ensures { result ≡ worths.entered course }
{
    if course.depth > 1 {
        return None;
    }
    Some(NestedSums {
        inner: Sum::behind(0, false),
        outer: course.inner,
        outmost: course.outer,
        depth: course.depth + 1,
        is_open: true,
    })
}

// Behind a number.
fn counted(course: NestedSums, sum: Sum, number: Option<u32>) -> Option<NestedSums>
    ensures { result ≡ worths.counted course sum number }
{
    match number {
        Some(number) => match sum.with(number) {
            Some(inner) => Some(NestedSums {
                inner,
                is_open: false,
                ..course
            }),
            None => None,
        },
        None => None,
    }
}

// Behind `)`.
fn left(course: NestedSums) -> Option<NestedSums>
    ensures { result ≡ worths.left course }
{
    if course.depth == 0 {
        return None;
    }
    let outside = NestedSums {
        outer: course.outmost,
        depth: course.depth - 1,
        ..course
    };
    counted(outside, course.outer, course.inner.total())
}

fn behind_open(course: NestedSums, kind: Kind, token: &[u8]) -> Option<NestedSums>
    ensures { result ≡ worths.behind_open course kind token.now }
{
    match kind {
        Kind::Number => counted(course, course.inner, number_of(token)),
        Kind::OpenParen => entered(course),
        _ => None,
    }
}

fn behind_number(course: NestedSums, kind: Kind) -> Option<NestedSums>
    ensures { result ≡ worths.behind_number course kind }
{
    match kind {
        Kind::Plus => summed(course, false),
        Kind::Minus => summed(course, true),
        Kind::Star => Some(multiplied(course, ProductStep::Times)),
        Kind::Slash => Some(multiplied(course, ProductStep::Over)),
        Kind::Percent => Some(multiplied(course, ProductStep::Rest)),
        Kind::CloseParen => left(course),
        _ => None,
    }
}

// What is known behind a token.
fn behind(course: NestedSums, kind: Kind, token: &[u8]) -> Option<NestedSums>
    ensures { result ≡ worths.behind course kind token.now }
{
    if course.is_open {
        behind_open(course, kind, token)
    } else {
        behind_number(course, kind)
    }
}

// What the expression comes to that ends here.
fn ended(course: NestedSums) -> Option<u32>
    ensures { result ≡ worths.ended course }
{
    if course.is_open || course.depth > 0 {
        None
    } else {
        course.inner.total()
    }
}

// The beginning of an expression.
fn start() -> NestedSums
    ensures { result ≡ worths.start }
{
    let nothing = Sum::behind(0, false);
    NestedSums {
        inner: nothing,
        outer: nothing,
        outmost: nothing,
        depth: 0,
        is_open: true,
    }
}

/// What the expression comes to that stands before a `]` at the front of stretches; nothing where none does that is made of numbers.
pub fn worth(stretches: &[Stretch<'_>]) -> Option<u32>
    ensures { result ≡ worths.worth stretches.now }
{
    let mut course = start();
    let mut rest = stretches;
    while let [stretch, back @ ..] = rest {
        if same_kind(stretch.kind(), Kind::CloseBracket) {
            return ended(course);
        }
        match behind(course, stretch.kind(), stretch.token()) {
            Some(next) => course = next,
            None => return None,
        }
        rest = back;
    }
    None
}
