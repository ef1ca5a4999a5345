//! What stands in front of the token that no rule reads.

ghost use Rattle.std.specs.Prelude.{◌≡◌, ◌-◌};
ghost use Rattle.explain_syntax.specs.Beside as beside;

use crate::kinds::{ARITHMETIC, COMPARISONS, JOINING, OPERAND_ENDS, PARTING, WANTING};
use explain_cause::brackets::{innermost, open_before};
use explain_cause::cause::Named;
use explain_cause::place::{between, is_among, is_at, kind_at, named};
use pml_token::token::{Kind, Token, same_kind};
use std::alloc::{AllocError, Global};

/// Whether only blanks stand before a place on its line.
pub fn begins_line(text: &[u8], offset: usize) -> bool {
    let mut fresh = true;
    for (i, byte) in text.iter().enumerate() {
        if i >= offset {
            return fresh;
        }
        if *byte == b'\n' {
            fresh = true;
        } else if *byte != b' ' && *byte != b'\t' && *byte != b'\r' {
            fresh = false;
        }
    }
    fresh
}

/// The token at a place of a list as a name, or an empty one.
pub fn name_at<'t>(text: &'t [u8], tokens: &[Token<'_>], at: usize) -> Named<'t>
    ensures { result.offset ≡ beside.offset_at text.now tokens.now at }
{
    match tokens.get(at) {
        Some(token) => named(text, token),
        None => Named {
            name: &text[..0],
            offset: text.len(),
        },
    }
}

/// Whether so many tokens before the one at `at` one of a kind stands.
pub fn is_before(tokens: &[Token<'_>], at: usize, count: usize, kind: Kind) -> bool
    ensures { result ≡ beside.is_before tokens.now at count kind }
{
    match at.checked_sub(count) {
        Some(place) => is_at(tokens, place, kind),
        None => false,
    }
}

/// Whether these two kinds stand in front of a token, the second directly before it.
pub fn are_before(tokens: &[Token<'_>], at: usize, first: Kind, second: Kind) -> bool
    ensures { result ≡ beside.are_before tokens.now at first second }
{
    is_before(tokens, at, 2, first) && is_before(tokens, at, 1, second)
}

/// The kind of the token that stands so many before the one at `at`.
pub fn kind_before(tokens: &[Token<'_>], at: usize, count: usize) -> Kind
    ensures { result ≡ beside.kind_before tokens.now at count }
{
    match at.checked_sub(count) {
        Some(place) => kind_at(tokens, place),
        None => Kind::End,
    }
}

/// The kind of the token directly behind the one at `at`.
pub fn kind_behind(tokens: &[Token<'_>], at: usize) -> Kind
    ensures { result ≡ beside.kind_behind tokens.now at }
{
    kind_at(tokens, at.saturating_add(1))
}

/// The token that stands so many before the one at `at`, or an empty name.
pub fn name_before<'t>(text: &'t [u8], tokens: &[Token<'_>], at: usize, count: usize) -> Named<'t>
    ensures { result.offset ≡ beside.offset_at text.now tokens.now (at - count) }
{
    name_at(text, tokens, at.saturating_sub(count))
}

/// The innermost token that opens what is open in front of the one at `end`.
pub fn opener_before(
    alloc: Global,
    tokens: &[Token<'_>],
    end: usize,
) -> Result<Option<usize>, AllocError> {
    let open = open_before(alloc, tokens, end)?;
    Ok(innermost(&open))
}

/// What is told by the token and those in front of it alone.
#[derive(Clone, Copy)]
pub enum Neighbours {
    /// A `{` or a `[` behind `=`.
    List,
    /// A `:` behind `mtype`.
    Subtype,
    /// A `=` behind an operator, or a `+` behind a `=`.
    Assignment,
    /// `run` and a name stand before it.
    Process,
    /// An operator stands before the end of its operand.
    Operand,
    /// `if` or `do` stands before it.
    Options,
    /// A process is begun in front of an operator.
    Begun,
    /// Nothing.
    Other,
}

/// The first token of the statement or of the declaration that a token stands in, as far as signs part them.
pub fn begin_of(tokens: &[Token<'_>], at: usize) -> usize {
    let mut begin = 0usize;
    for (i, token) in tokens.iter().enumerate() {
        if i >= at {
            return begin;
        }
        if is_among(token.kind(), &PARTING) {
            begin = i.saturating_add(1);
        }
    }
    begin
}

/// Whether a token of one of these kinds stands before another one in its statement.
pub fn has_in_statement(tokens: &[Token<'_>], at: usize, kinds: &[Kind]) -> bool {
    for token in between(tokens, begin_of(tokens, at), at) {
        if is_among(token.kind(), kinds) {
            return true;
        }
    }
    false
}

/// Whether a token of this kind stands before another one in its statement.
pub fn is_in_statement(tokens: &[Token<'_>], at: usize, kind: Kind) -> bool {
    for token in between(tokens, begin_of(tokens, at), at) {
        if same_kind(token.kind(), kind) {
            return true;
        }
    }
    false
}

/// Whether a sign of arithmetic stands behind another one, and cannot be one of a single value.
fn is_second_sign(before: Kind, kind: Kind) -> bool {
    let is_single = matches!(kind, Kind::Minus | Kind::Plus | Kind::Ampersand);
    let is_power = same_kind(before, Kind::Star) && matches!(kind, Kind::Star | Kind::Slash);
    let is_third = same_kind(before, Kind::Equal) && same_kind(kind, Kind::Greater);
    let is_compared = is_among(before, &JOINING)
        && (is_among(kind, &JOINING) || is_among(kind, &COMPARISONS))
        && !is_third;
    is_compared
        || (is_among(before, &ARITHMETIC) && is_among(kind, &ARITHMETIC) && !is_single && !is_power)
}

/// Whether a value is computed of the one that a process gives where it is begun.
fn is_of_run(tokens: &[Token<'_>], at: usize, kind: Kind) -> bool {
    let is_sign = (is_among(kind, &ARITHMETIC) && !same_kind(kind, Kind::Bar))
        || is_among(kind, &COMPARISONS);
    is_sign && is_before(tokens, at, 1, Kind::CloseParen) && is_in_statement(tokens, at, Kind::Run)
}

/// What is told by the words in front of a token.
fn by_words(tokens: &[Token<'_>], at: usize, kind: Kind) -> Neighbours {
    if is_before(tokens, at, 1, Kind::Name) && is_before(tokens, at, 2, Kind::Run) {
        return Neighbours::Process;
    }
    let is_same = same_kind(kind, Kind::Arrow) && is_before(tokens, at, 1, Kind::Less);
    if !is_same && is_among(kind_before(tokens, at, 1), &WANTING) && is_among(kind, &OPERAND_ENDS) {
        return Neighbours::Operand;
    }
    if is_second_sign(kind_before(tokens, at, 1), kind) {
        return Neighbours::Operand;
    }
    if is_among(kind, &COMPARISONS)
        && matches!(kind_before(tokens, at, 1), Kind::AndAnd | Kind::OrOr)
    {
        return Neighbours::Operand;
    }
    if is_of_run(tokens, at, kind) {
        return Neighbours::Begun;
    }
    if is_before(tokens, at, 1, Kind::If) || is_before(tokens, at, 1, Kind::Do) {
        Neighbours::Options
    } else {
        Neighbours::Other
    }
}

/// What is told by the token and those in front of it alone.
pub fn neighbours_of(tokens: &[Token<'_>], at: usize) -> Neighbours {
    let kind = kind_at(tokens, at);
    let opens = matches!(kind, Kind::OpenBrace | Kind::OpenBracket);
    if opens && is_before(tokens, at, 1, Kind::Assign) {
        return Neighbours::List;
    }
    if same_kind(kind, Kind::Colon) && is_before(tokens, at, 1, Kind::Mtype) {
        return Neighbours::Subtype;
    }
    let is_joined = same_kind(kind, Kind::Assign)
        && is_among(kind_before(tokens, at, 1), &ARITHMETIC);
    if is_joined || (same_kind(kind, Kind::Plus) && is_before(tokens, at, 1, Kind::Assign)) {
        return Neighbours::Assignment;
    }
    if same_kind(kind, Kind::DoubleColon) {
        return Neighbours::Other;
    }
    by_words(tokens, at, kind)
}

/// Whether what one of these kinds opens is open in front of a token, where the others close it.
pub fn is_open(tokens: &[Token<'_>], at: usize, openers: &[Kind], closers: &[Kind]) -> bool {
    let mut open = 0usize;
    for token in between(tokens, 0, at) {
        if is_among(token.kind(), openers) {
            open = open.saturating_add(1);
        } else if is_among(token.kind(), closers) {
            open = open.saturating_sub(1);
        }
    }
    open > 0
}
