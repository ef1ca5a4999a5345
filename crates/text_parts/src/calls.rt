//! The call in which a place stands, by the tokens before it.

ghost use Rattle.std.specs.Prelude.{◌≡◌, ◌≤◌, ◌<◌, ◌+◌, ◌^◌};
ghost use Rattle.text_parts.specs.Calls.{opens, closes, ends, counted, outside, within, named, headed, next, called, read, call_around};

use pml_token::token::{Kind, Token, same_kind};

/// A call, up to a place among its arguments.
#[derive(Clone, Copy, Debug, PartialEq, Eq)]
pub struct PartialCall {
    /// How many bytes stand before the name that is called.
    pub at: usize,
    pub length: usize,
    /// Whether `run` stands before it: then it is a proctype, and else an inline.
    pub is_run: bool,
    /// How many commas stand before the place, outside of brackets within the call.
    pub commas: usize,
}

/// What is read of a call, from a place in it back.
#[derive(Clone, Copy, Debug, PartialEq, Eq)]
pub enum Back {
    /// Arguments: so many brackets are closed behind what is read next, and so many commas were read outside of brackets.
    Within(usize, usize),
    /// What stands before a `(`, behind which so many commas were read.
    Opened(usize),
    /// What stands before a name with a `(` behind it.
    Named(PartialCall),
    /// Nothing more: this is the call.
    Called(PartialCall),
    /// Nothing more: there is no call.
    Outside,
}

/// Whether this opens a bracket.
fn opens(kind: Kind) -> bool
    ensures { result ≡ opens kind }
{
    same_kind(kind, Kind::OpenParen)
        || same_kind(kind, Kind::OpenBracket)
        || same_kind(kind, Kind::OpenBrace)
}

/// Whether this closes a bracket.
fn closes(kind: Kind) -> bool
    ensures { result ≡ closes kind }
{
    same_kind(kind, Kind::CloseParen)
        || same_kind(kind, Kind::CloseBracket)
        || same_kind(kind, Kind::CloseBrace)
}

/// Whether a place behind this is in no call that begins before it: a statement begins there.
fn ends(kind: Kind) -> bool
    ensures { result ≡ ends kind }
{
    same_kind(kind, Kind::Semicolon)
        || same_kind(kind, Kind::OpenBrace)
        || same_kind(kind, Kind::DoubleColon)
        || same_kind(kind, Kind::Od)
        || same_kind(kind, Kind::Fi)
}

/// What is read before one more token, outside of brackets.
fn outside(commas: usize, kind: Kind) -> Back
    requires { commas + 1 < 2 ^ 64 }
    ensures is { result ≡ outside commas kind }
    ensures few { counted result ≤ commas + 1 }
{
    if same_kind(kind, Kind::OpenParen) {
        Back::Opened(commas)
    } else if same_kind(kind, Kind::OpenBracket) {
        Back::Within(0, 0)
    } else if same_kind(kind, Kind::Comma) {
        Back::Within(0, commas + 1)
    } else if ends(kind) {
        Back::Outside
    } else {
        Back::Within(0, commas)
    }
}

/// What is read before one more token of arguments.
fn within(closed: usize, commas: usize, kind: Kind) -> Back
    requires { closed + commas + 1 < 2 ^ 64 }
    ensures is { result ≡ within closed commas kind }
    ensures few { counted result ≤ closed + commas + 1 }
{
    if closes(kind) {
        Back::Within(closed + 1, commas)
    } else if closed == 0 {
        outside(commas, kind)
    } else if opens(kind) {
        Back::Within(closed - 1, commas)
    } else {
        Back::Within(closed, commas)
    }
}

/// What is read before the token in front of a `(`: a name is called, and what stands there else only has an expression in parentheses behind it.
fn named(commas: usize, token: &Token<'_>) -> Back
    ensures is { result ≡ named commas token.now }
    ensures few { counted result ≤ 1 }
{
    if same_kind(token.kind(), Kind::Name) {
        Back::Named(PartialCall {
            at: token.line() as usize,
            length: token.text().len(),
            is_run: false,
            commas,
        })
    } else {
        within(0, 0, token.kind())
    }
}

/// What is read before the token in front of a name with a `(` behind it: the heading of a definition is no call.
fn headed(call: PartialCall, kind: Kind) -> Back
    ensures is { result ≡ headed call kind }
    ensures few { counted result ≤ 0 }
{
    if same_kind(kind, Kind::Run) {
        Back::Called(PartialCall {
            is_run: true,
            ..call
        })
    } else if same_kind(kind, Kind::Proctype) || same_kind(kind, Kind::Inline) {
        Back::Outside
    } else {
        Back::Called(call)
    }
}

/// What is read before one more token.
fn next(back: Back, token: &Token<'_>) -> Back
    requires { counted back + 1 < 2 ^ 64 }
    ensures is { result ≡ next back token.now }
    ensures few { counted result ≤ counted back + 1 }
{
    match back {
        Back::Within(closed, commas) => within(closed, commas, token.kind()),
        Back::Opened(commas) => named(commas, token),
        Back::Named(call) => headed(call, token.kind()),
        Back::Called(_) | Back::Outside => back,
    }
}

/// The call that was read.
fn called(back: Back) -> Option<PartialCall>
    ensures { result ≡ called back }
{
    match back {
        Back::Called(call) => Some(call),
        _ => None,
    }
}

/// The innermost call among whose arguments a place stands behind these tokens. Behind a statement's end that stands within the call, and in braces there, it
/// is in none.
pub fn call_around(tokens: &[Token<'_>]) -> Option<PartialCall>
    ensures { result ≡ call_around tokens.now }
{
    let mut back = Back::Within(0, 0);
    for i in (0..tokens.len()).rev() {
        back = next(back, &tokens[i]);
    }
    called(back)
}
