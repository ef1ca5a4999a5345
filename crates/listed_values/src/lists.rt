//! The lists of initialisers of a text: an array, its size in digits, and constants in braces.

ghost use Rattle.std.specs.Prelude.{◌≡◌, ◌≤◌, true, false};
ghost use Rattle.declared_steps.specs.Stages.{begins_with};
ghost use Rattle.listed_values.specs.declared.lists.TheConstants.{MOST_VALUES};
ghost use Rattle.listed_values.specs.Lists as lists;

use computed_sizes::count::number_of;
use pml_token::token::{Kind, same_kind};
use prepare::stretch::Stretch;

/// A list has at most so many values, and an array whose elements are set has fewer elements.
pub const MOST_VALUES: u32 = 1_000;

/// Whether a token of this kind stands at the front of stretches.
pub fn begins_with(kind: Kind, stretches: &[Stretch<'_>]) -> bool
    ensures { result ≡ begins_with kind stretches.now }
{
    match stretches {
        [stretch, ..] => same_kind(stretch.kind(), kind),
        _ => false,
    }
}

fn is_constant(kind: Kind) -> bool
    ensures { result ≡ lists.is_constant kind }
{
    matches!(
        kind,
        Kind::Number | Kind::Name | Kind::True | Kind::False | Kind::Skip
    )
}

fn counted(count: u32, is_value: bool) -> u32
    ensures count { result ≡ lists.counted count is_value }
    ensures most { count ≤ MOST_VALUES → result ≤ MOST_VALUES }
{
    if is_value {
        count.saturating_add(1).min(MOST_VALUES)
    } else {
        count
    }
}

// How many values stand at the front of stretches with commas between them and `}` behind; 0 where it is otherwise.
fn count_values(stretches: &[Stretch<'_>]) -> u32
    ensures count { result ≡ lists.count_from true 0 stretches.now }
    ensures most { result ≤ MOST_VALUES }
{
    let mut is_value = true;
    let mut count = 0;
    let mut rest = stretches;
    while let [stretch, back @ ..] = rest {
        let kind = stretch.kind();
        if is_value && !(is_constant(kind) && count < MOST_VALUES) {
            return 0;
        }
        if !is_value && same_kind(kind, Kind::CloseBrace) {
            return count;
        }
        if !is_value && !same_kind(kind, Kind::Comma) {
            return 0;
        }
        count = counted(count, is_value);
        is_value = !is_value;
        rest = back;
    }
    0
}

fn begins_list(stretches: &[Stretch<'_>]) -> bool
    ensures { result ≡ lists.begins_list stretches.now }
{
    match stretches {
        [opening, number, closing, sign, brace, ..] => {
            (same_kind(opening.kind(), Kind::OpenBracket) && same_kind(number.kind(), Kind::Number))
                && (same_kind(closing.kind(), Kind::CloseBracket)
                    && (same_kind(sign.kind(), Kind::Assign)
                        && same_kind(brace.kind(), Kind::OpenBrace)))
        }
        _ => false,
    }
}

/// What stands behind the `{` of a list.
pub fn behind_brace<'a, 't>(stretches: &'a [Stretch<'t>]) -> &'a [Stretch<'t>]
    ensures { result.now ≡ lists.behind_brace stretches.now }
{
    match stretches {
        [_, _, _, _, _, back @ ..] => back,
        _ => &stretches[..0],
    }
}

/// How many values a list has that stands behind a name; 0 where none does.
pub fn count_at(stretches: &[Stretch<'_>]) -> u32
    ensures count { result ≡ lists.count_at stretches.now }
    ensures most { result ≤ MOST_VALUES }
{
    if begins_list(stretches) {
        count_values(behind_brace(stretches))
    } else {
        0
    }
}

/// How many elements the array has; 0 where there are too many.
pub fn size_at(stretches: &[Stretch<'_>]) -> u32
    ensures { result ≡ lists.size_at stretches.now }
{
    match stretches {
        [_, number, ..] => number_of(number.token()).unwrap_or(0),
        _ => 0,
    }
}

// Whether each value behind this one is the same.
fn is_same(value: &[u8], stretches: &[Stretch<'_>]) -> bool
    ensures { result ≡ lists.same_from false value.now stretches.now }
{
    let mut is_value = false;
    let mut rest = stretches;
    while let [stretch, back @ ..] = rest {
        if is_value && stretch.token() != value {
            return false;
        }
        if !is_value && !same_kind(stretch.kind(), Kind::Comma) {
            return true;
        }
        is_value = !is_value;
        rest = back;
    }
    true
}

/// Whether all values of a list are the same.
pub fn are_same(stretches: &[Stretch<'_>]) -> bool
    ensures { result ≡ lists.are_same stretches.now }
{
    match stretches {
        [value, back @ ..] => is_same(value.token(), back),
        _ => false,
    }
}

/// The values from the next one on; the last one stays.
pub fn next<'a, 't>(stretches: &'a [Stretch<'t>]) -> &'a [Stretch<'t>]
    ensures { result.now ≡ lists.next stretches.now }
{
    match stretches {
        [_, sign, back @ ..] => {
            if same_kind(sign.kind(), Kind::Comma) {
                back
            } else {
                stretches
            }
        }
        _ => stretches,
    }
}

/// The first value.
pub fn front<'t>(stretches: &[Stretch<'t>]) -> &'t [u8]
    ensures { result.now ≡ lists.front stretches.now }
{
    match stretches {
        [value, ..] => value.token(),
        _ => b"",
    }
}
