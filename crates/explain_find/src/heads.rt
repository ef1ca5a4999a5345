//! How far the tokens behind a word `inline` are the head of a definition.

ghost use Rattle.std.specs.Prelude.{◌≡◌};
ghost use Rattle.explain_find.specs.Heads as heads;

use pml_token::token::{Kind, Token, same_kind};

/// What is wanted in the head of a definition, `NAME ( NAME , NAME ) {`.
#[derive(Clone, Copy)]
pub enum HeadPart {
    /// Its name.
    Name,
    /// The `(`.
    Open,
    /// A parameter, or the `)`.
    First,
    /// A comma, or the `)`.
    Behind,
    /// A parameter.
    Parameter,
    /// The `{` of its body.
    Body,
}

/// One thing, where a token is of the kind.
fn only(kind: Kind, wanted: Kind, part: HeadPart) -> Option<HeadPart>
    ensures { result ≡ heads.only kind wanted part }
{
    if same_kind(kind, wanted) {
        Some(part)
    } else {
        None
    }
}

/// The same of another kind than `)`, behind which the body is wanted.
fn or_close(kind: Kind, wanted: Kind, part: HeadPart) -> Option<HeadPart>
    ensures { result ≡ heads.or_close kind wanted part }
{
    if same_kind(kind, Kind::CloseParen) {
        Some(HeadPart::Body)
    } else {
        only(kind, wanted, part)
    }
}

/// What is wanted behind a token of this kind, if it is one that is wanted.
fn behind(part: HeadPart, kind: Kind) -> Option<HeadPart>
    ensures { result ≡ heads.behind part kind }
{
    match part {
        HeadPart::Name => only(kind, Kind::Name, HeadPart::Open),
        HeadPart::Open => only(kind, Kind::OpenParen, HeadPart::First),
        HeadPart::First => or_close(kind, Kind::Name, HeadPart::Behind),
        HeadPart::Behind => or_close(kind, Kind::Comma, HeadPart::Parameter),
        HeadPart::Parameter => only(kind, Kind::Name, HeadPart::Behind),
        HeadPart::Body => None,
    }
}

/// What is wanted behind these tokens, if each is one that is wanted at its place.
pub fn head(tokens: &[Token<'_>], part: HeadPart) -> Option<HeadPart>
    ensures { result ≡ heads.head tokens.now part }
{
    let mut so_far = part;
    for token in tokens {
        match behind(so_far, token.kind()) {
            Some(next) => so_far = next,
            None => return None,
        }
    }
    Some(so_far)
}

/// Whether a token of this kind is the `{` of the body.
pub fn opens_body(part: Option<HeadPart>, kind: Kind) -> bool
    ensures { result ≡ heads.opens_body part kind }
{
    match part {
        Some(HeadPart::Body) => same_kind(kind, Kind::OpenBrace),
        _ => false,
    }
}

/// Whether a token of this kind is none that is wanted.
pub fn is_unwanted(part: Option<HeadPart>, kind: Kind) -> bool
    ensures { result ≡ heads.is_unwanted part kind }
{
    match part {
        Some(wanted) => behind(wanted, kind).is_none() && !opens_body(part, kind),
        None => false,
    }
}
